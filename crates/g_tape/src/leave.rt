//! What a failing write of a rack in memory leaves.
ghost use Rattle.std.specs.Prelude.{◌≡◌, ◌++◌, take, replicate};

use g_base::Block;

/// What a failing write of block k leaves of its reel.
#[derive(Drop)]
pub enum TapeLeave {
    /// The unchanged reel.
    Old,
    /// The blocks below k.
    Cut,
    /// The blocks below k, and the first 256 bytes of the new block, padded with zeros.
    Half,
    /// The blocks below k, and the new block.
    Whole,
    /// The blocks below k, and a block of these bytes.
    These(Block),
}

/// The first half of the block, padded with zeros.
pub fn half_of(block: &Block) -> Block
    ensures { result ≡ take 256 block.now ++ replicate 256 0 }
{
    let mut half = [0; 512];
    half[..256].copy_from_slice(&block[..256]);
    half
}
