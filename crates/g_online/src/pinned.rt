//! A version that waits to be dumped.
use g_base::BlockList;
use g_entry::TapeCopy;

/// A version, identified by its stamp: the number of the only file that can have it, its length, the copy on tape noted
/// for it, and its blocks on disc. The blocks stay until the dump ends, even if the file is erased or gets a new version.
#[derive(Drop)]
pub(crate) struct Pinned {
    pub(crate) stamp: u64,
    pub(crate) number: u16,
    pub(crate) len: u32,
    pub(crate) copy: TapeCopy,
    pub(crate) blocks: BlockList,
}
