//! Files by full name, with their traps, bytes and stamps.
ghost use Rattle.std.specs.Prelude.{◌≡◌, ◌≤◌, true, false, OnOk, OnErr, IfOk, is_some};
ghost use Rattle.std.specs.Prelude.{length, fold, max, sum_by, None, Some, unwrap_or};
ghost use Rattle.std.specs.Option.{option_copied};
ghost use Rattle.std.specs.FinMap as finmap;
ghost use Rattle.std.specs.BTreeMap.{IsOrdered};
ghost use Rattle.g_name.specs.Order.{full_cmp, same_text};
ghost use Rattle.g_plain.specs.PlainTree.{no_row, blocks_of, generations, lengths, with_modes};

use crate::file_entry::FileEntry;
use g_base::NoMemory;
use g_name::{Full, Text, User};
use g_plain::Listing;
use g_trap::Modes;
use std::alloc::Global;
use std::collections::BTreeMap;
use std::marker::Model;

/// A map from full names to rows.
#[derive(Drop)]
pub(crate) struct FileMap {
    rows: BTreeMap<Full, FileEntry>,
}

impl Model for FileMap {
    ghost use Rattle.std.specs.FinMap.{FinMap, from_entries};
    ghost use Rattle.g_name.specs.Order.{full_cmp};
    ghost use Rattle.g_plain.specs.PlainTree.{FileRow};
    ghost use Rattle.g_plain.specs.Codes.{file_map_code};

    ghost Value = { FinMap full_cmp FileRow };

    ghost coded = { file_map_code };

    ghost view = { λ m. from_entries m.rows.entries };
}

impl FileMap {
    /// The empty map. It allocates nothing.
    pub fn new(alloc: Global) -> FileMap
        ensures { result ≡ finmap.empty }
    {
        FileMap {
            rows: BTreeMap::new(alloc),
        }
    }

    pub fn len(&self) -> usize
        ensures { result ≡ finmap.len self.now }
    {
        self.rows.len()
    }

    pub fn has(&self, full: &Full) -> bool
        ensures { result ≡ is_some (finmap.get self.now full.now) }
    {
        self.rows.contains_key(full)
    }

    pub fn get(&self, full: &Full) -> Option<&FileEntry>
        ensures { option_copied result ≡ finmap.get self.now full.now }
    {
        self.rows.get(full)
    }

    /// Sets the row of a file. If memory runs out, the map is unchanged.
    pub fn insert(&mut self, full: Full, entry: FileEntry) -> Result<(), NoMemory>
        ensures ok { OnOk result (self.new ≡ finmap.insert self.old full entry) }
        ensures err { OnErr result (self.new ≡ self.old) }
    {
        self.rows.insert(full, entry)?;
        Ok(())
    }

    pub fn remove(&mut self, full: &Full)
        ensures { self.new ≡ finmap.remove self.old full.now }
    {
        self.rows.remove(full);
    }

    /// Replaces the bytes of an existing file, as the version with this stamp.
    pub fn renew(&mut self, full: &Full, bytes: Text, stamp: u64)
        requires there { is_some (finmap.get self.old full.now) ≡ true }
        requires few { length bytes ≤ 65536 }
        ensures { let row = unwrap_or (finmap.get self.old full.now) no_row in
            let renewed = record row { bytes = bytes; stamp = stamp } in
            self.new ≡ finmap.insert self.old full.now renewed }
    {
        match self.rows.get_mut(full) {
            Some(file) => file.renew(bytes, stamp),
            None => unreachable!(),
        }
    }

    /// Gives a user exactly these modes for an existing file. If memory runs out, nothing is changed.
    pub fn set_traps(&mut self, full: &Full, user: &User, modes: Modes) -> Result<(), NoMemory>
        requires { is_some (finmap.get self.old full.now) ≡ true }
        ensures ok { let row = unwrap_or (finmap.get self.old full.now) no_row in
            let traps = with_modes full.now user.now modes row.traps in
            OnOk result
            (self.new ≡ finmap.insert self.old full.now (record row { traps = traps })) }
        ensures err { OnErr result (self.new ≡ self.old) }
    {
        match self.rows.get_mut(full) {
            Some(file) => file.set_traps(full, user, modes),
            None => unreachable!(),
        }
    }

    /// Gives an existing file a name that no file has. If memory runs out, nothing is changed.
    pub fn rename(&mut self, alloc: Global, full: &Full, to: Full) -> Result<(), NoMemory>
        requires there { is_some (finmap.get self.old full.now) ≡ true }
        requires free { is_some (finmap.get self.old to) ≡ false }
        ensures ok { let row = unwrap_or (finmap.get self.old full.now) no_row in
            OnOk result (self.new ≡ finmap.insert (finmap.remove self.old full.now) to row) }
        ensures err { OnErr result (self.new ≡ self.old) }
    {
        let place = FileEntry::new(alloc, Text::new(alloc), 0);
        self.insert(to.copy(), place)?;
        let entry = self.take(full);
        self.replace(to, entry);
        Ok(())
    }

    /// Removes an existing file and returns its row.
    fn take(&mut self, full: &Full) -> FileEntry
        requires { is_some (finmap.get self.old full.now) ≡ true }
        ensures row { Some result ≡ finmap.get self.old full.now }
        ensures taken { self.new ≡ finmap.remove self.old full.now }
    {
        match self.rows.remove(full) {
            Some(entry) => entry,
            None => unreachable!(),
        }
    }

    /// Replaces the row of an existing file, without allocating.
    fn replace(&mut self, full: Full, entry: FileEntry)
        requires { is_some (finmap.get self.old full) ≡ true }
        ensures { self.new ≡ finmap.insert self.old full entry }
    {
        match self.rows.insert(full, entry) {
            Ok(_old) => {}
            Err(_) => unreachable!(),
        }
    }

    /// The number of blocks of a user's files.
    pub fn used(&self, user: &User) -> u32
        requires { finmap.len self.now ≤ 1024 }
        ensures { result ≡ sum_by (blocks_of user.now) (finmap.entries self.now) }
    {
        used_in(&self.rows, user)
    }

    /// The greatest generation of the files of this user, local name and language, or 0.
    pub fn newest(&self, full: &Full) -> u16
        ensures { result ≡ fold max 0 (generations full.now (finmap.entries self.now)) }
    {
        newest_in(&self.rows, full)
    }

    /// The files of a user with their lengths, in full-name order.
    pub fn listing(&self, alloc: Global, user: &User) -> Result<Listing, NoMemory>
        ensures { IfOk result (λ listing. listing ≡ lengths user.now (finmap.entries self.now)) }
    {
        listing_of(alloc, &self.rows, user)
    }
}

fn used_in(rows: &BTreeMap<Full, FileEntry>, user: &User) -> u32
    requires { finmap.len (finmap.from_entries {R = full_cmp} rows.now.entries) ≤ 1024 }
    ensures used { result ≡ sum_by (blocks_of user.now) rows.now.entries }
    ensures ordered { IsOrdered full_cmp rows.now }
{
    let mut used = 0;
    for (full, file) in rows {
        if full.user == *user {
            used += file.blocks();
        }
    }
    used
}

fn newest_in(rows: &BTreeMap<Full, FileEntry>, name: &Full) -> u16
    ensures newest { result ≡ fold max 0 (generations name.now rows.now.entries) }
    ensures ordered { IsOrdered full_cmp rows.now }
{
    let mut newest = 0;
    for (full, _file) in rows {
        if name.user == full.user && name.local == full.local && name.lang == full.lang {
            newest = newest.max(full.generation);
        }
    }
    newest
}

fn listing_of(
    alloc: Global,
    rows: &BTreeMap<Full, FileEntry>,
    user: &User,
) -> Result<Listing, NoMemory>
    ensures listing { IfOk result (λ listing. listing ≡ lengths user.now rows.now.entries) }
    ensures ordered { IsOrdered full_cmp rows.now }
{
    let mut listing = Listing::new(alloc);
    for (full, file) in rows {
        if full.user == *user {
            listing.push(full.copy(), file.len())?;
        }
    }
    Ok(listing)
}
