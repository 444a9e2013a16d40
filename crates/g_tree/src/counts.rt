//! Data derived from the records of files, so that no call scans all of them.
ghost use Rattle.std.specs.Prelude.{◌≡◌, ◌≢◌, ℕ, ◌+◌, ◌-◌, ◌*◌, ◌<◌, ◌≤◌, true, length, max, replicate, OnOk, IfOk, Some, None, is_some, slice_index_or, slice_set};
ghost use Rattle.std.specs.FinMap as finmap;
ghost use Rattle.g_base.specs.Block.{blocks_for};
ghost use Rattle.g_tree.specs.Answers.{newest_of};
ghost use Rattle.g_tree.specs.Records.{IsRecords, full_of, name_of_file};
ghost use Rattle.g_tree.specs.State.{AreIndexed, AreNewest, HasNewest, HasNumber, HasNumbers, HasTop, IsTopped, later, later_top, newest_in, number_in, risen, top_in, versions_of, without_file};

use crate::index::{Index, NameEntry, Newest, is_first_of_two, lifted};
use crate::scan::{full_of, newest_besides};
use g_base::{NoMemory, blocks_for};
use g_entry::{FileRec, UserRec};
use g_name::Full;
use g_table::FileTable;
use std::alloc::Global;

/// The index of files by full name, and the number of blocks of 512 bytes of each owner's files, by the owner's number.
/// The index has the data of all versions of a file under the name of generation 1, so that one look-up of that name
/// finds the newest.
#[derive(Drop)]
pub(crate) struct Counts {
    names: Index,
    blocks: Vec<u32>,
}

/// A file among the others, by its number, and the users who own them.
#[derive(Drop)]
pub(crate) struct Standing<'a> {
    pub users: &'a [UserRec],
    pub files: &'a FileTable,
    pub number: u16,
}

impl Counts {
    /// Data of no files.
    pub fn new(alloc: Global) -> Result<Counts, NoMemory>
        ensures names { IfOk result (λ c. c.names.entries ≡ finmap.empty) }
        ensures blocks { IfOk result (λ c. c.blocks.items ≡ replicate 63 0) }
    {
        Ok(Counts {
            names: Index::new(alloc),
            blocks: vec![in alloc; 0; 63]?,
        })
    }

    /// Reserves memory for the names of `more` files, two for each: its own, and that of its generation 1. If memory
    /// runs out, at least the earlier reserve remains.
    pub fn reserve(&mut self, more: usize) -> Result<(), NoMemory>
        requires { more ≤ 1024 }
        ensures entries { self.new.names.entries ≡ self.old.names.entries }
        ensures blocks { self.new.blocks.items ≡ self.old.blocks.items }
        ensures ok { OnOk result (2 * more ≤ self.new.names.spare) }
        ensures kept { self.old.names.spare ≤ self.new.names.spare }
    {
        self.names.reserve(2 * more)
    }

    /// The number of the file with this full name.
    pub fn find(&self, full: &Full) -> Option<u16>
        ensures { result ≡ number_in self.now.names.entries full.now }
    {
        match self.names.find(full) {
            Some(entry) => entry.number,
            None => None,
        }
    }

    /// The newest version of the file whose generation 1 has this name.
    pub fn newest(&self, first: &Full) -> Newest
        requires { first.now.generation ≡ 1 }
        ensures generation { result.generation ≡ newest_in self.now.names.entries first.now }
        ensures number { result.number ≡ top_in self.now.names.entries first.now }
    {
        match self.names.find(first) {
            Some(entry) => Newest {
                generation: entry.newest,
                number: entry.top,
            },
            None => Newest {
                generation: 0,
                number: None,
            },
        }
    }

    /// Adds a file, for whose names memory is reserved.
    pub fn put(&mut self, users: &[UserRec], file: &FileRec)
        requires owner { file.now.owner < length users.now }
        requires room { 2 ≤ self.old.names.spare }
        ensures numbers { HasNumber self.old.names.entries self.new.names.entries
            (full_of users.now file.now) (Some file.now.number) }
        ensures newest { let full = full_of users.now file.now in
            HasNewest self.old.names.entries self.new.names.entries full
            (max (newest_in self.old.names.entries full) file.now.generation) }
        ensures top { let full = full_of users.now file.now in
            let old = self.old.names.entries in
            HasTop old self.new.names.entries full
            (risen (newest_in old full) (top_in old full) file.now.generation file.now.number) }
        ensures blocks { self.new.blocks.items ≡ self.old.blocks.items }
        ensures spare { self.old.names.spare ≤ self.new.names.spare + 2 }
    {
        if file.generation == 1 {
            self.put_first(users, file);
        } else {
            self.put_later(users, file);
        }
    }

    /// Adds a generation 1.
    fn put_first(&mut self, users: &[UserRec], file: &FileRec)
        requires owner { file.now.owner < length users.now }
        requires first { file.now.generation ≡ 1 }
        requires room { 1 ≤ self.old.names.spare }
        ensures numbers { HasNumber self.old.names.entries self.new.names.entries
            (full_of users.now file.now) (Some file.now.number) }
        ensures newest { let full = full_of users.now file.now in
            HasNewest self.old.names.entries self.new.names.entries full
            (max (newest_in self.old.names.entries full) 1) }
        ensures top { let full = full_of users.now file.now in
            let old = self.old.names.entries in
            HasTop old self.new.names.entries full
            (risen (newest_in old full) (top_in old full) 1 file.now.number) }
        ensures blocks { self.new.blocks.items ≡ self.old.blocks.items }
        ensures spare { self.old.names.spare ≤ self.new.names.spare + 1 }
    {
        let number = Some(file.number);
        let entry = NameEntry {
            number,
            newest: 1,
            top: number,
        };
        match self.names.insert(full_of(users, file), entry) {
            // Later generations had outlived an earlier generation 1.
            Some(was) => {
                let there = NameEntry { number, ..was };
                let full = full_of(users, file);
                self.names.replace(&full, lifted(there, 1, file.number));
            }
            None => {}
        }
    }

    /// Adds a generation greater than 1.
    fn put_later(&mut self, users: &[UserRec], file: &FileRec)
        requires owner { file.now.owner < length users.now }
        requires behind { file.now.generation ≢ 1 }
        requires room { 2 ≤ self.old.names.spare }
        ensures numbers { HasNumber self.old.names.entries self.new.names.entries
            (full_of users.now file.now) (Some file.now.number) }
        ensures newest { let full = full_of users.now file.now in
            HasNewest self.old.names.entries self.new.names.entries full
            (max (newest_in self.old.names.entries full) file.now.generation) }
        ensures top { let full = full_of users.now file.now in
            let old = self.old.names.entries in
            HasTop old self.new.names.entries full
            (risen (newest_in old full) (top_in old full) file.now.generation file.now.number) }
        ensures blocks { self.new.blocks.items ≡ self.old.blocks.items }
        ensures spare { self.old.names.spare ≤ self.new.names.spare + 2 }
    {
        let generation = file.generation;
        let first = Full {
            generation: 1,
            ..full_of(users, file)
        };
        self.rise(&first, generation, file.number);
        let full = Full {
            generation,
            ..first
        };
        let entry = NameEntry {
            number: Some(file.number),
            newest: 0,
            top: None,
        };
        self.names.insert(full, entry);
    }

    /// Raises the newest version of the file whose generation 1 has this name to at least this generation, which has
    /// this number.
    fn rise(&mut self, first: &Full, newest: u16, number: u16)
        requires first { first.now.generation ≡ 1 }
        requires room { 1 ≤ self.old.names.spare }
        ensures numbers { HasNumbers self.old.names.entries self.new.names.entries }
        ensures newest { HasNewest self.old.names.entries self.new.names.entries first.now
            (max (newest_in self.old.names.entries first.now) newest) }
        ensures top { let old = self.old.names.entries in
            HasTop old self.new.names.entries first.now
            (risen (newest_in old first.now) (top_in old first.now) newest number) }
        ensures blocks { self.new.blocks.items ≡ self.old.blocks.items }
        ensures spare { self.old.names.spare ≤ self.new.names.spare + 1 }
    {
        if self.names.raise(first, newest, number) {
            return;
        }
        let entry = NameEntry {
            number: None,
            newest,
            top: Some(number),
        };
        self.names.insert(first.copy(), entry);
    }

    /// Removes the file of this number.
    pub fn take_out(&mut self, at: Standing, full: Full)
        requires records { IsRecords at.users.now at.files.now }
        requires index { AreIndexed at.users.now at.files.now self.old.names.entries }
        requires newest { AreNewest at.users.now at.files.now self.old.names.entries }
        requires topped { IsTopped self.old.names.entries }
        requires named { name_of_file at.users.now at.files.now at.number ≡ Some full }
        ensures index { let a = at.entry in
            AreIndexed a.users.now (without_file a.number a.files.now) self.new.names.entries }
        ensures newest { let a = at.entry in
            AreNewest a.users.now (without_file a.number a.files.now) self.new.names.entries }
        ensures topped { IsTopped self.new.names.entries }
        ensures blocks { self.new.blocks.items ≡ self.old.blocks.items }
        ensures spare { self.old.names.spare ≤ self.new.names.spare }
    {
        if full.generation == 1 {
            self.take_first(&full);
        } else {
            self.take_later(at, full);
        }
    }

    /// Removes a generation 1. Its name remains while there are other generations.
    fn take_first(&mut self, full: &Full)
        requires { full.now.generation ≡ 1 }
        ensures numbers { HasNumber self.old.names.entries self.new.names.entries full.now None }
        ensures newest { HasNewest self.old.names.entries self.new.names.entries full.now
            (later (newest_in self.old.names.entries full.now)) }
        ensures top { let old = self.old.names.entries in
            HasTop old self.new.names.entries full.now
            (later_top (newest_in old full.now) (top_in old full.now)) }
        ensures blocks { self.new.blocks.items ≡ self.old.blocks.items }
        ensures spare { self.old.names.spare ≤ self.new.names.spare }
    {
        self.names.close(full);
    }

    /// Removes a generation greater than 1: that of the file of this number.
    fn take_later(&mut self, at: Standing, full: Full)
        requires records { IsRecords at.users.now at.files.now }
        requires index { AreIndexed at.users.now at.files.now self.old.names.entries }
        requires newest { AreNewest at.users.now at.files.now self.old.names.entries }
        requires topped { IsTopped self.old.names.entries }
        requires named { name_of_file at.users.now at.files.now at.number ≡ Some full }
        requires behind { full.generation ≢ 1 }
        ensures numbers { HasNumber self.old.names.entries self.new.names.entries full None }
        ensures newest { let a = at.entry in
            HasNewest self.old.names.entries self.new.names.entries full
            (newest_of a.users.now full (without_file a.number a.files.now)) }
        ensures topped { IsTopped self.new.names.entries }
        ensures blocks { self.new.blocks.items ≡ self.old.blocks.items }
        ensures spare { self.old.names.spare ≤ self.new.names.spare }
    {
        let generation = full.generation;
        let first = Full {
            generation: 1,
            ..full
        };
        self.lower(at, &first, generation);
        let full = Full {
            generation,
            ..first
        };
        self.names.remove(&full);
    }

    /// Sets the newest version of the file whose generation 1 has this name. If no version is left, the name is
    /// removed.
    fn settle(&mut self, first: &Full, newest: Newest)
        requires first { first.now.generation ≡ 1 }
        requires there { is_some (finmap.get self.old.names.entries first.now) ≡ true }
        requires none { newest.generation ≡ 0 → number_in self.old.names.entries first.now ≡ None }
        requires numbered { newest.generation ≡ 0 → newest.number ≡ None }
        ensures numbers { HasNumbers self.old.names.entries self.new.names.entries }
        ensures newest { HasNewest self.old.names.entries self.new.names.entries first.now
            newest.generation }
        ensures top { HasTop self.old.names.entries self.new.names.entries first.now newest.number }
        ensures blocks { self.new.blocks.items ≡ self.old.blocks.items }
        ensures spare { self.old.names.spare ≤ self.new.names.spare }
    {
        if newest.generation == 0 {
            self.names.remove(first);
        } else {
            self.names.settle(first, newest);
        }
    }

    /// Lowers the newest version, given the name of generation 1, when the file of this number, with this generation
    /// greater than 1, is removed.
    fn lower(&mut self, at: Standing, first: &Full, generation: u16)
        requires records { IsRecords at.users.now at.files.now }
        requires index { AreIndexed at.users.now at.files.now self.old.names.entries }
        requires newest { AreNewest at.users.now at.files.now self.old.names.entries }
        requires topped { IsTopped self.old.names.entries }
        requires named { name_of_file at.users.now at.files.now at.number
            ≡ Some (record first.now { generation = generation }) }
        requires first { first.now.generation ≡ 1 }
        requires some { 1 ≤ generation }
        requires behind { generation ≢ 1 }
        ensures numbers { HasNumbers self.old.names.entries self.new.names.entries }
        ensures newest { let a = at.entry in
            HasNewest self.old.names.entries self.new.names.entries first.now
            (newest_of a.users.now first.now (without_file a.number a.files.now)) }
        ensures topped { IsTopped self.new.names.entries }
        ensures blocks { self.new.blocks.items ≡ self.old.blocks.items }
        ensures spare { self.old.names.spare ≤ self.new.names.spare }
    {
        let Some(entry) = self.names.fall(first) else {
            unreachable!()
        };
        // In most cases the removed version was the second of two.
        if is_first_of_two(entry) {
            return;
        }
        let newest = self.newest_but(at, entry, first, generation);
        self.settle(first, newest);
    }

    /// The newest version besides the file of this number, which has this generation. `first` is the name of its
    /// generation 1, and `entry` what the index has for that name.
    fn newest_but(&self, at: Standing, entry: NameEntry, first: &Full, generation: u16) -> Newest
        requires records { IsRecords at.users.now at.files.now }
        requires index { AreIndexed at.users.now at.files.now self.now.names.entries }
        requires newest { AreNewest at.users.now at.files.now self.now.names.entries }
        requires topped { IsTopped self.now.names.entries }
        requires named { name_of_file at.users.now at.files.now at.number
            ≡ Some (record first.now { generation = generation }) }
        requires entry { finmap.get self.now.names.entries first.now ≡ Some entry }
        requires first { first.now.generation ≡ 1 }
        requires some { 1 ≤ generation }
        ensures generation { let a = at.entry in
            result.generation ≡ newest_of a.users.now first.now (without_file a.number a.files.now) }
        ensures number { result.number ≡ number_in self.now.names.entries
            (record first.now { generation = result.generation }) }
    {
        if entry.newest != generation {
            return Newest {
                generation: entry.newest,
                number: entry.top,
            };
        }
        // In most cases the previous generation exists.
        let number = self.number_before(entry, first, generation);
        if number.is_some() {
            return Newest {
                generation: generation - 1,
                number,
            };
        }
        let left = newest_besides(at.users, first, at.files, at.number);
        let full = Full {
            generation: left,
            ..first.copy()
        };
        Newest {
            generation: left,
            number: self.find(&full),
        }
    }

    /// The number of the version with the previous generation. `first` is the name of generation 1, and `entry` what
    /// the index has for that name.
    fn number_before(&self, entry: NameEntry, first: &Full, generation: u16) -> Option<u16>
        requires entry { finmap.get self.now.names.entries first.now ≡ Some entry }
        requires first { first.now.generation ≡ 1 }
        requires some { 1 ≤ generation }
        ensures { result ≡ number_in self.now.names.entries
            (record first.now { generation = generation - 1 }) }
    {
        let before = generation - 1;
        if before == 1 {
            return entry.number;
        }
        let full = Full {
            generation: before,
            ..first.copy()
        };
        self.find(&full)
    }

    /// The number of blocks of the files of the owner of this number; 0 if there is no such user.
    pub fn used(&self, owner: u8) -> u32
        ensures { result ≡ slice_index_or self.now.blocks.items owner 0 }
    {
        match self.blocks.get(owner as usize) {
            Some(blocks) => *blocks,
            None => 0,
        }
    }

    /// Adds the blocks of a file of `len` bytes.
    pub fn take(&mut self, owner: u8, len: u32)
        requires there { owner < length self.old.blocks.items }
        requires used { slice_index_or self.old.blocks.items owner 0 ≤ 131072 }
        requires len { len ≤ 65536 }
        ensures blocks { self.new.blocks.items ≡ slice_set self.old.blocks.items owner
            (slice_index_or self.old.blocks.items owner 0 + blocks_for len) }
        ensures names { self.new.names ≡ self.old.names }
    {
        self.blocks[owner as usize] += blocks_for(len);
    }

    /// Subtracts the blocks of a file of `len` bytes.
    pub fn give(&mut self, owner: u8, len: u32)
        requires there { owner < length self.old.blocks.items }
        requires used { blocks_for len ≤ slice_index_or self.old.blocks.items owner 0 }
        ensures blocks { self.new.blocks.items ≡ slice_set self.old.blocks.items owner
            (slice_index_or self.old.blocks.items owner 0 - blocks_for len) }
        ensures names { self.new.names ≡ self.old.names }
    {
        self.blocks[owner as usize] -= blocks_for(len);
    }
}

/// The name under which all versions of a file are found: that of generation 1.
pub(crate) fn versions_of(full: &Full) -> Full
    ensures { result ≡ versions_of full.now }
{
    Full {
        user: full.user.copy(),
        local: full.local.copy(),
        generation: 1,
        lang: full.lang.copy(),
    }
}
