//! A mark at each block of a slot that may have to be written.
ghost use Rattle.std.specs.Prelude.{◌≡◌, ◌⊎◌, ℕ, ◌<◌, ◌≤◌, IfOk, Some, false, length, replicate, slice_get, slice_set, true};
ghost use Rattle.g_dirs.specs.Marks.{IsBehind, IsNext};

use g_base::{NoMemory, SLOT_BLOCKS};
use std::alloc::Global;
use std::marker::Model;

/// How many blocks share one note, and how many notes there are.
const GROUP: u32 = 32;

const GROUPS: usize = 34;

/// Which of the 1,088 blocks of a slot are marked. Contracts see a list of truth values.
#[derive(Drop)]
pub(crate) struct Marks {
    blocks: Vec<bool>,
    /// Whether any block of a group may be marked. A search skips the other groups.
    noted: Vec<bool>,
    /// Between block 0 and this one no block is marked: a commit marks block 0, and often one other.
    low: u32,
    /// From here on no block is marked, so a search ends here.
    end: u32,
}

impl Model for Marks {
    ghost use Rattle.std.specs.Prelude.{◌≡◌, ◌≤◌, ◌<◌, ℕ, Bool, List, Some, false, slice_get, vec_len};
    ghost use Rattle.g_dirs.specs.Marks.{AreNoted, AreOffBefore};

    ghost Value = { List Bool };

    ghost view = { λ m. m.blocks.items };

    ghost invariant = { λ m. (vec_len m.blocks ≡ 1088) × (m.end ≤ 1088)
        × ((i : ℕ) → m.end ≤ i → i < 1088 → slice_get m.blocks.items i ≡ Some false)
        × AreOffBefore m.low m.blocks.items
        × AreNoted m.noted.items m.blocks.items };
}

impl Marks {
    /// All blocks are marked.
    #[tactic(auto, using(crate::proofs::MarkLemmas::noted_all))]
    pub(crate) fn new(alloc: Global) -> Result<Marks, NoMemory>
        ensures { IfOk result (λ marks. marks ≡ replicate 1088 true) }
    {
        let blocks = vec![in alloc; true; SLOT_BLOCKS as usize]?;
        let noted = vec![in alloc; true; GROUPS]?;
        Ok(Marks {
            blocks,
            noted,
            low: 0,
            end: SLOT_BLOCKS,
        })
    }

    /// Marks block `k`.
    #[tactic(auto, using(crate::proofs::MarkLemmas::noted_set, crate::proofs::MarkLemmas::off_set))]
    pub(crate) fn set(&mut self, k: u32)
        requires { k < 1088 }
        ensures { self.new ≡ slice_set self.old k true }
    {
        self.blocks[k as usize] = true;
        self.noted[(k / GROUP) as usize] = true;
        self.low = lowered(self.low, k);
        if self.end <= k {
            self.end = k + 1;
        }
    }

    /// Marks all blocks.
    #[tactic(auto, using(crate::proofs::MarkLemmas::off_first))]
    pub(crate) fn set_all(&mut self)
        ensures { self.new ≡ replicate 1088 true }
    {
        self.blocks.fill(true);
        self.noted.fill(true);
        self.low = 0;
        self.end = SLOT_BLOCKS;
    }

    /// Clears all marks.
    #[tactic(auto, using(crate::proofs::MarkLemmas::off_none))]
    pub(crate) fn clear(&mut self)
        ensures { self.new ≡ replicate 1088 false }
    {
        unmark(&mut self.blocks, self.end as usize);
        self.noted.fill(false);
        self.low = SLOT_BLOCKS;
        self.end = 0;
    }

    /// The first marked block from `k` on, or 1,088.
    #[tactic(auto, using(crate::proofs::MarkLemmas::passed_on))]
    pub(crate) fn next(&self, k: u32) -> u32
        requires { k ≤ 1088 }
        ensures { IsNext self.now k result }
    {
        let mut j = k;
        while j < self.end {
            if self.blocks[j as usize] {
                return j;
            }
            j = self.behind(j);
        }
        1088
    }

    /// The next candidate after block `j`, which isn't marked: the next block; the next group, if block `j` begins one without a note;
    /// or the first block that may be marked, if that is later.
    #[tactic(auto, using(crate::proofs::MarkLemmas::behind_one, crate::proofs::MarkLemmas::behind_group, crate::proofs::MarkLemmas::behind_low))]
    fn behind(&self, j: u32) -> u32
        requires within { j < 1088 }
        requires unmarked { slice_get self.now j ≡ Some false }
        ensures { IsBehind self.now j result }
    {
        if j + 1 < self.low {
            return self.low;
        }
        if j % GROUP != 0 {
            return j + 1;
        }
        if self.noted[(j / GROUP) as usize] {
            return j + 1;
        }
        j + GROUP
    }
}

/// The first block after block 0 that may be marked, once block `k` is marked too.
fn lowered(low: u32, k: u32) -> u32
    ensures here { (result ≤ k) ⊎ (k ≡ 0) }
    ensures less { result ≤ low }
{
    if k == 0 { low } else { low.min(k) }
}

/// Clears the marks before `end`; there are none from `end` on.
fn unmark(blocks: &mut [bool], end: usize)
    requires within { end ≤ length blocks.old }
    requires behind { (i : ℕ) → end ≤ i → i < length blocks.old → slice_get blocks.old i ≡ Some false }
    ensures { blocks.new ≡ replicate (length blocks.old) false }
{
    blocks[..end].fill(false);
}
