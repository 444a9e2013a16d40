//! A directory in memory, as read from a disc.

use crate::FileCopy;
use g_entry::{FileRec, Head, UserRec};

/// The directory that a disc holds: the head, the users and the files in order of number, and the copies on disc
/// of the files that are online, each with its file number, in order of number too.
#[derive(Drop)]
pub struct Dirs {
    pub head: Head,
    pub users: Vec<UserRec>,
    pub files: Vec<FileRec>,
    pub online: Vec<FileCopy>,
}
