//! The record of a file.
ghost use Rattle.std.specs.Prelude.{◌≡◌};

use g_name::{Lang, Local};
use g_trap::Traps;

/// The place of a file's bytes on tape: the reel, and the first block of the copy.
#[derive(Clone, Copy, PartialEq, Eq)]
pub struct TapeCopy {
    pub serial: u32,
    pub first: u32,
}

/// A file. Its number is the position of its record in the directory.
#[derive(Drop, PartialEq, Eq)]
pub struct FileRec {
    pub number: u16,
    /// The owner's number.
    pub owner: u8,
    pub local: Local,
    pub generation: u16,
    pub lang: Lang,
    /// The number of the version; no other version has it.
    pub stamp: u64,
    /// In bytes.
    pub len: u32,
    /// Users are represented by their numbers.
    pub traps: Traps,
    pub tape: Option<TapeCopy>,
}

impl FileRec {
    /// A copy of the record. It allocates nothing.
    pub fn copy(&self) -> FileRec
        ensures { result ≡ self.now }
    {
        FileRec {
            number: self.number,
            owner: self.owner,
            local: self.local.copy(),
            generation: self.generation,
            lang: self.lang.copy(),
            stamp: self.stamp,
            len: self.len,
            traps: self.traps.copy(),
            tape: self.tape,
        }
    }
}
