//! Blocks in memory. Those after the last written one are zeros, and take no memory until they are written.
ghost use Rattle.std.specs.Prelude.{◌≡◌, ◌+◌, ◌-◌, ◌<◌, ◌≤◌, ◌++◌, [], IfOk, Some, length, replicate, slice_get, slice_index_or, slice_set, vec_capacity};

use g_base::{Block, NoMemory};
use std::alloc::Global;
use std::marker::Model;

/// A fixed number of blocks; contracts see all of them. Memory for all is reserved at once. Blocks after the highest
/// one that was ever written are zeros, and their memory isn't touched.
#[derive(Drop)]
pub(crate) struct Blocks {
    written: Vec<Block>,
    count: u32,
}

impl Model for Blocks {
    ghost use Rattle.std.specs.Prelude.{ℕ, ◌-◌, ◌≤◌, List, ◌++◌, length, replicate, vec_capacity};

    ghost Value = { List (List ℕ) };

    ghost view = { λ b. b.written.items ++ replicate (b.count - length b.written.items) (replicate 512 0) };

    ghost invariant = { λ b. (length b.written.items ≤ b.count) × (b.count ≤ vec_capacity b.written) };
}

impl Blocks {
    /// `count` blocks of zeros.
    pub(crate) fn new(alloc: Global, count: u32) -> Result<Blocks, NoMemory>
        ensures { IfOk result (λ b. b ≡ replicate count (replicate 512 0)) }
    {
        let written = Vec::with_capacity(alloc, count as usize)?;
        Ok(Blocks { written, count })
    }

    /// The number of blocks.
    pub(crate) fn count(&self) -> u32
        ensures { result ≡ length self.now }
    {
        self.count
    }

    /// Block k.
    pub(crate) fn get(&self, k: u32) -> Block
        requires { k < length self.now }
        ensures told { slice_get self.now k ≡ Some result }
        ensures at { slice_index_or self.now k [] ≡ result }
    {
        match self.written.get(k as usize) {
            Some(block) => *block,
            None => [0; 512],
        }
    }

    /// Copies block k into `into`.
    pub(crate) fn read(&self, k: u32, into: &mut Block)
        requires { k < length self.now }
        ensures { slice_get self.now k ≡ Some into.new }
    {
        match self.written.get(k as usize) {
            Some(block) => *into = *block,
            None => *into = [0; 512],
        }
    }

    /// Replaces block k. It allocates no memory.
    pub(crate) fn set(&mut self, k: u32, block: &Block)
        requires { k < length self.old }
        ensures { self.new ≡ slice_set self.old k block.now }
    {
        let k = k as usize;
        reach(&mut self.written, k);
        self.written[k] = *block;
    }
}

/// Appends blocks of zeros until there is a block k. The capacity suffices for it.
fn reach(written: &mut Vec<Block>, k: usize)
    requires { k < vec_capacity written.old }
    ensures items { written.new.items ≡ written.old.items ++ replicate (k + 1 - length written.old.items) (replicate 512 0) }
    ensures capacity { vec_capacity written.old ≤ vec_capacity written.new }
{
    if k < written.len() {
        return;
    }
    match written.resize(k + 1, [0; 512]) {
        Ok(()) => {}
        Err(_) => unreachable!(),
    }
}
