//! Where a text's copy lies on a disc.
ghost use Rattle.std.specs.Prelude.{◌≡◌};

use g_base::BlockList;

/// A text of `len` bytes in the blocks of these numbers, in order; the last block need not be full.
#[derive(Drop)]
pub struct DiscCopy {
    pub blocks: BlockList,
    pub len: u32,
}

impl DiscCopy {
    /// A clone, which allocates no memory.
    pub fn copy(&self) -> DiscCopy
        ensures { result ≡ self.now }
    {
        DiscCopy {
            blocks: self.blocks.copy(),
            len: self.len,
        }
    }
}
