//! The lines of a seal.

use g_entry::TapeCopy;
use g_name::Full;

/// The line of a completed dump: its number, its reel, its first block there, how many blocks it has from its header to its
/// mark, and the SHA-256 of these blocks.
#[derive(Drop)]
pub struct SealedDump {
    pub number: u64,
    pub serial: u32,
    pub place: u32,
    pub blocks: u32,
    pub sum: [u8; 32],
}

/// The line of a file: its full name, its length in bytes, its stamp, the SHA-256 of its bytes, and where they are: whether on
/// the disc, and where on tape.
#[derive(Drop)]
pub struct SealedFile {
    pub full: Full,
    pub len: u32,
    pub stamp: u64,
    pub sum: [u8; 32],
    pub online: bool,
    pub tape: Option<TapeCopy>,
}
