//! The known blocks of a slot.
ghost use Rattle.std.specs.Prelude.{◌≡◌, ◌≢◌, ◌+◌, ◌-◌, ◌<◌, ◌≤◌, ◌++◌, ℕ, IfOk, None, Some, length, replicate, slice_get, slice_index_or, vec_capacity};
ghost use Rattle.std.specs.Str.{bytes_eq};
ghost use Rattle.g_base.specs.Fields.{padded};
ghost use Rattle.g_dirs.specs.Pages.{is_remembered};

use crate::kept_block::KeptBlock;
use g_base::{BlockWriter, NoMemory};
use g_slots::SLOT_BLOCKS;
use std::alloc::Global;
use std::marker::Model;

/// The content of each of the 1,088 blocks of a slot, if it is known. Contracts see all of them. The memory for all is
/// reserved at once. Nearly all blocks of a slot are zeros: those after the last one that isn't are remembered without their
/// bytes, and their memory isn't touched.
#[derive(Drop)]
pub(crate) struct RememberedBlocks {
    known: Vec<bool>,
    blocks: Vec<KeptBlock>,
}

impl Model for RememberedBlocks {
    ghost use Rattle.std.specs.Prelude.{◌≡◌, ℕ, ◌≤◌, List, Option, length, vec_capacity};
    ghost use Rattle.g_dirs.specs.KnownBlocks.{seen};

    ghost Value = { List (Option (List ℕ)) };

    ghost view = { λ k. seen k.known.items k.blocks.items };

    ghost invariant = { λ k. (length k.known.items ≡ 1088) × (1088 ≤ vec_capacity k.blocks) };
}

impl RememberedBlocks {
    /// No block is known.
    pub(crate) fn nothing(alloc: Global) -> Result<RememberedBlocks, NoMemory>
        ensures { IfOk result (λ known. known ≡ replicate 1088 None) }
    {
        let known = vec![in alloc; false; SLOT_BLOCKS as usize]?;
        let blocks = Vec::with_capacity(alloc, SLOT_BLOCKS as usize)?;
        Ok(RememberedBlocks { known, blocks })
    }

    /// Whether block `k` is known to be the one of this writer.
    pub(crate) fn holds(&self, k: u32, writer: &BlockWriter) -> bool
        requires { k < 1088 }
        ensures { result ≡ is_remembered self.now k (padded 512 writer.now) }
    {
        let k = k as usize;
        if self.known[k] {
            is_at(&self.blocks, k, writer)
        } else {
            false
        }
    }

    /// Block `k` is now known to be the one of this writer. It allocates no memory.
    pub(crate) fn set(&mut self, k: u32, writer: &BlockWriter)
        requires { k < 1088 }
        ensures here { slice_get self.new k ≡ Some (Some (padded 512 writer.now)) }
        ensures rest { (j : ℕ) → j ≢ k → slice_get self.new j ≡ slice_get self.old j }
    {
        let k = k as usize;
        self.known[k] = true;
        put(&mut self.blocks, k, writer);
    }
}

/// Whether the block of this writer is stored at place `k`. Blocks after the end are zeros.
fn is_at(blocks: &[KeptBlock], k: usize, writer: &BlockWriter) -> bool
    ensures { result ≡ bytes_eq (slice_index_or blocks.now k (replicate 512 0)) (padded 512 writer.now) }
{
    match blocks.get(k) {
        Some(kept) => kept.equals(writer),
        None => is_zeros(writer),
    }
}

/// Whether the block of this writer is zeros. If nothing was put into it, it is, and no byte is compared.
fn is_zeros(writer: &BlockWriter) -> bool
    ensures { result ≡ bytes_eq (replicate 512 0) (padded 512 writer.now) }
{
    if writer.as_slice().is_empty() {
        return true;
    }
    KeptBlock::zeros().equals(writer)
}

/// Stores the block of a writer at place `k`. The capacity suffices for it, and zeros after the end aren't written.
fn put(blocks: &mut Vec<KeptBlock>, k: usize, writer: &BlockWriter)
    requires { k < vec_capacity blocks.old }
    ensures here { slice_index_or blocks.new.items k (replicate 512 0) ≡ padded 512 writer.now }
    ensures rest { (j : ℕ) → j ≢ k
        → slice_index_or blocks.new.items j (replicate 512 0) ≡ slice_index_or blocks.old.items j (replicate 512 0) }
    ensures capacity { vec_capacity blocks.old ≤ vec_capacity blocks.new }
{
    if blocks.len() <= k && is_zeros(writer) {
        return;
    }
    reach(blocks, k);
    blocks[k].keep(writer);
}

/// Appends zeros until there is a block `k`. The capacity suffices for it.
fn reach(blocks: &mut Vec<KeptBlock>, k: usize)
    requires { k < vec_capacity blocks.old }
    ensures items { blocks.new.items ≡ blocks.old.items ++ replicate (k + 1 - length blocks.old.items) (replicate 512 0) }
    ensures capacity { vec_capacity blocks.old ≤ vec_capacity blocks.new }
{
    let missing = (k + 1).saturating_sub(blocks.len());
    for _ in 0..missing {
        blocks.push_reserved(KeptBlock::zeros());
    }
}
