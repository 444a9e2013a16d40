//! A list of block numbers.
ghost use Rattle.std.specs.Prelude.{◌≡◌, ◌≤◌, ◌<◌, ◌↔◌, [], ◌∷◌, ◌++◌, length, IsSome, IfSome};

use arrayvec::ArrayVec;
use std::marker::Model;

/// Up to 128 block numbers, as many as the largest file occupies, in the order of their content.
#[derive(Drop, PartialEq, Eq)]
pub struct BlockList {
    blocks: ArrayVec<u32, 128>,
}

impl Model for BlockList {
    ghost use Rattle.std.specs.Prelude.{ℕ, List};

    ghost Value = { List ℕ };

    ghost view = { λ l. l.blocks.items };

    ghost inverse = { λ ks. record { blocks = record { items = ks } } };
}

impl BlockList {
    /// The empty list.
    pub fn new() -> BlockList
        ensures { result ≡ [] }
    {
        BlockList {
            blocks: ArrayVec::new(),
        }
    }

    /// The list of these numbers, or `None` if there are more than 128.
    pub fn from_slice(blocks: &[u32]) -> Option<BlockList>
        ensures fits { IsSome result ↔ (length blocks.now ≤ 128) }
        ensures value { IfSome result (λ l. l ≡ blocks.now) }
    {
        let blocks = ArrayVec::try_from(blocks).ok()?;
        Some(BlockList { blocks })
    }

    /// Empties the list in place.
    pub fn clear(&mut self)
        ensures { self.new ≡ [] }
    {
        self.blocks.clear();
    }

    /// Appends a number.
    pub fn push(&mut self, block: u32)
        requires { length self.old < 128 }
        ensures { self.new ≡ self.old ++ block ∷ [] }
    {
        self.blocks.push(block);
    }

    /// The numbers, in order.
    pub fn as_slice(&self) -> &[u32]
        ensures value { result.now ≡ self.now }
        ensures fits { length self.now ≤ 128 }
    {
        self.blocks.as_slice()
    }

    /// A copy of the list. It allocates nothing.
    pub fn copy(&self) -> BlockList
        ensures { result ≡ self.now }
    {
        let mut copied = BlockList::new();
        for block in self.blocks.as_slice() {
            copied.push(*block);
        }
        copied
    }
}
