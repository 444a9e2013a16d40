//! Numbers of blocks that aren't cached, so that the cache needn't be searched for them.
ghost use Rattle.std.specs.Prelude.{◌≡◌, ◌≢◌, ◌⊎◌, ℕ, true, false};
ghost use Rattle.g_cache.specs.Absent.{is_noted};

use std::marker::Model;

/// Blocks that are known not to be cached, at most one for each remainder modulo 67. The heads of both slots, which are written
/// most often, lie 1,088 blocks apart and have different remainders, so both are nearly always here.
#[derive(Drop)]
pub(crate) struct AbsentBlocks {
    blocks: [Option<u32>; 67],
}

impl Model for AbsentBlocks {
    ghost use Rattle.std.specs.Prelude.{ℕ, List, Option};

    ghost Value = { List (Option ℕ) };

    ghost view = { λ a. a.blocks };
}

impl AbsentBlocks {
    /// No block.
    pub fn new() -> AbsentBlocks
        ensures { (k : ℕ) → is_noted result k ≡ false }
    {
        AbsentBlocks { blocks: [None; 67] }
    }

    /// Whether block k is noted.
    pub fn has(&self, k: u32) -> bool
        ensures { result ≡ is_noted self.now k }
    {
        match self.blocks[k as usize % 67] {
            Some(block) => block == k,
            None => false,
        }
    }

    /// Notes block k, and replaces any other block with its remainder.
    pub fn note(&mut self, k: u32)
        ensures { (j : ℕ) → is_noted self.new j ≡ true → (j ≡ k) ⊎ (is_noted self.old j ≡ true) }
    {
        self.blocks[k as usize % 67] = Some(k);
    }

    /// Removes block k, if it is noted.
    pub fn strike(&mut self, k: u32)
        ensures { (j : ℕ) → is_noted self.new j ≡ true → (j ≢ k) × (is_noted self.old j ≡ true) }
    {
        self.blocks[k as usize % 67] = None;
    }
}
