//! A file's traps, bytes and stamp.
ghost use Rattle.std.specs.Prelude.{◌≡◌, ◌≤◌, OnOk, OnErr, is_some, length, unwrap_or};
ghost use Rattle.std.specs.FinMap as finmap;
ghost use Rattle.g_base.specs.Block.{blocks_for};
ghost use Rattle.g_plain.specs.PlainTree.{with_modes};

use g_base::{NoMemory, blocks_for};
use g_name::{Full, Text, User};
use g_trap::Modes;
use std::alloc::Global;
use std::collections::BTreeMap;
use std::marker::Model;

/// A file's traps, its bytes (at most 65,536), and the stamp of its version. Contracts see a row of the tree.
#[derive(Drop)]
pub(crate) struct FileEntry {
    traps: BTreeMap<User, Modes>,
    bytes: Text,
    stamp: u64,
}

impl Model for FileEntry {
    ghost use Rattle.std.specs.Prelude.{◌≤◌, length};
    ghost use Rattle.std.specs.FinMap.{from_entries};
    ghost use Rattle.g_plain.specs.PlainTree.{FileRow};
    ghost use Rattle.g_plain.specs.Codes.{file_row_code};

    ghost Value = { FileRow };

    ghost coded = { file_row_code };

    ghost view = { λ f.
        record { traps = from_entries f.traps.entries; bytes = f.bytes; stamp = f.stamp } };

    ghost invariant = { λ f. length f.bytes ≤ 65536 };
}

impl FileEntry {
    /// A file for which no user has modes. It allocates nothing.
    pub fn new(alloc: Global, bytes: Text, stamp: u64) -> FileEntry
        requires { length bytes ≤ 65536 }
        ensures { result ≡ record { traps = finmap.empty; bytes = bytes; stamp = stamp } }
    {
        FileEntry {
            traps: BTreeMap::new(alloc),
            bytes,
            stamp,
        }
    }

    /// The number of users with modes.
    pub fn trapped(&self) -> usize
        ensures { result ≡ finmap.len self.now.traps }
    {
        self.traps.len()
    }

    pub fn is_trapped(&self, user: &User) -> bool
        ensures { result ≡ is_some (finmap.get self.now.traps user.now) }
    {
        self.traps.contains_key(user)
    }

    /// The user's modes; none if the user has no trap.
    pub fn given(&self, user: &User) -> Modes
        ensures { result ≡ unwrap_or (finmap.get self.now.traps user.now) 0 }
    {
        match self.traps.get(user) {
            Some(modes) => *modes,
            None => Modes::none(),
        }
    }

    pub fn bytes(&self) -> &[u8]
        ensures value { result.now ≡ self.now.bytes }
        ensures few { length result.now ≤ 65536 }
    {
        self.bytes.as_slice()
    }

    /// The length in bytes, at most 65,536.
    pub fn len(&self) -> u32
        ensures value { result ≡ length self.now.bytes }
        ensures few { result ≤ 65536 }
    {
        self.bytes.as_slice().len() as u32
    }

    /// The number of blocks of 512 bytes that the bytes occupy, at most 128.
    pub fn blocks(&self) -> u32
        ensures value { result ≡ blocks_for (length self.now.bytes) }
        ensures few { result ≤ 128 }
    {
        blocks_for(self.len())
    }

    /// Replaces the bytes, as the version with this stamp.
    pub fn renew(&mut self, bytes: Text, stamp: u64)
        requires { length bytes ≤ 65536 }
        ensures { self.new ≡ record self.old { bytes = bytes; stamp = stamp } }
    {
        self.bytes = bytes;
        self.stamp = stamp;
    }

    /// Sets the user's modes. If memory runs out, nothing is changed.
    pub fn give(&mut self, user: User, modes: Modes) -> Result<(), NoMemory>
        ensures ok { OnOk result
            (self.new ≡ record self.old { traps = finmap.insert self.old.traps user modes }) }
        ensures err { OnErr result (self.new ≡ self.old) }
    {
        self.traps.insert(user, modes)?;
        Ok(())
    }

    fn take_from(&mut self, user: &User)
        ensures { self.new ≡ record self.old { traps = finmap.remove self.old.traps user.now } }
    {
        self.traps.remove(user);
    }

    /// Gives the user exactly these modes. A user without modes is removed, unless it is the owner. If memory runs out,
    /// nothing is changed.
    pub fn set_traps(&mut self, full: &Full, user: &User, modes: Modes) -> Result<(), NoMemory>
        ensures ok { OnOk result
            (let traps = with_modes full.now user.now modes self.old.traps in
            self.new ≡ record self.old { traps = traps }) }
        ensures err { OnErr result (self.new ≡ self.old) }
    {
        if modes.is_empty() && *user != full.user {
            self.take_from(user);
            Ok(())
        } else {
            self.give(user.copy(), modes)
        }
    }
}
