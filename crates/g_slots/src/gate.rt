//! The gate, as a commit writes it.

ghost use Rattle.std.specs.Prelude.{◌≡◌};
ghost use Rattle.g_slots.specs.Layout.{gate_block};

use crate::Side;
use g_base::Block;
use std::marker::Model;

/// A gate block that is reused by all commits, so that each changes only one byte of it. Contracts see the block.
#[derive(Drop)]
pub(crate) struct Gate {
    block: Block,
}

impl Model for Gate {
    ghost use Rattle.std.specs.Prelude.{◌≡◌, ◌∷◌, ℕ, List, replicate};

    ghost Value = { List ℕ };

    ghost view = { λ g. g.block };

    ghost invariant = { λ g. (first : ℕ) × (g.block ≡ first ∷ replicate 511 0) };
}

impl Gate {
    /// A gate of zeros.
    pub(crate) fn new() -> Gate {
        Gate { block: [0; 512] }
    }

    /// Makes it name this slot.
    pub(crate) fn set(&mut self, side: Side)
        ensures { self.new ≡ gate_block side }
    {
        self.block[0] = side.byte();
    }

    /// The block.
    pub(crate) fn block(&self) -> &Block
        ensures { result.now ≡ self.now }
    {
        &self.block
    }
}
