//! Which files are taken off the disc to make room for a new version.
use g_tree::NumberList;

/// The files to be taken off the disc to make room, by number, oldest versions first, and the number of blocks that are
/// free afterwards.
#[derive(Drop)]
pub struct Unjam {
    pub take: NumberList,
    pub room: u32,
}
