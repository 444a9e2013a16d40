//! A block, and the number of blocks that a given number of bytes occupies.
ghost use Rattle.std.specs.Prelude.{◌≡◌};
ghost use Rattle.g_base.specs.Block as block;

/// 512 bytes: the unit in which discs and reels are read and written.
pub type Block = [u8; 512];

/// The number of blocks that `len` bytes occupy: the last one need not be full, and 0 bytes occupy none.
pub fn blocks_for(len: u32) -> u32
    ensures { result ≡ block.blocks_for len }
{
    len.div_ceil(512)
}
