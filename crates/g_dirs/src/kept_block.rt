//! A remembered block.
ghost use Rattle.std.specs.Prelude.{◌≡◌, replicate};
ghost use Rattle.std.specs.Str.{bytes_eq};
ghost use Rattle.g_base.specs.Fields.{padded};

use g_base::{Block, BlockWriter};
use std::marker::Model;

/// A block that knows where its trailing zeros begin. Most blocks of a slot are short, and only their front is compared and copied.
/// Contracts see the block.
#[derive(Drop)]
pub(crate) struct KeptBlock {
    block: Block,
    len: usize,
}

impl Model for KeptBlock {
    ghost use Rattle.std.specs.Prelude.{ℕ, List};
    ghost use Rattle.g_base.specs.Fields.{IsPartWritten};

    ghost Value = { List ℕ };

    ghost view = { λ b. b.block };

    ghost invariant = { λ b. IsPartWritten b.len b.block };
}

impl KeptBlock {
    /// A block of zeros.
    pub(crate) fn zeros() -> KeptBlock
        ensures { result ≡ replicate 512 0 }
    {
        KeptBlock {
            block: [0; 512],
            len: 0,
        }
    }

    /// Whether it is the block of this writer.
    pub(crate) fn equals(&self, writer: &BlockWriter) -> bool
        ensures { result ≡ bytes_eq self.now (padded 512 writer.now) }
    {
        let end = self.len.max(writer.as_slice().len());
        self.block[..end] == writer.block()[..end]
    }

    /// Makes it the block of this writer.
    pub(crate) fn keep(&mut self, writer: &BlockWriter)
        ensures { self.new ≡ padded 512 writer.now }
    {
        let len = writer.as_slice().len();
        let end = self.len.max(len);
        self.block[..end].copy_from_slice(&writer.block()[..end]);
        self.len = len;
    }
}
