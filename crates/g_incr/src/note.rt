//! Descriptions of a dump on a reel.
use g_entry::{FileRec, Format, UserRec};

/// The contents of a dump's header: its number, its first block, how many blocks it has between header and mark, how
/// many of them are users and files, and the next stamp when it was opened.
#[derive(Clone, Copy, PartialEq, Eq)]
pub struct DumpNote {
    pub number: u64,
    pub place: u32,
    pub count: u32,
    pub users: u16,
    pub files: u16,
    pub next_stamp: u64,
}

/// A note, and the format of the dump's records.
#[derive(Clone, Copy, PartialEq, Eq)]
pub(crate) struct Header {
    pub format: Format,
    pub note: DumpNote,
}

/// The records of a dump: all users in order of number, the numbers of the users whose directories it holds, and their
/// files, which have their positions as numbers.
#[derive(Drop)]
pub struct DumpDir {
    pub note: DumpNote,
    pub users: Vec<UserRec>,
    pub held: Vec<u8>,
    pub files: Vec<FileRec>,
}
