//! The pool of copy blocks: a flag for each, the number of free ones, and where the search for free ones begins.
ghost use Rattle.std.specs.Prelude.{◌≡◌, ◌≢◌, ◌+◌, ◌-◌, ◌<◌, ◌≤◌, ◌↔◌, ◌⊎◌, All, AllPairs, IfOk, IfErr, OnErr, IsErrOf, IsOkUnless, slice_set, replicate, [], length, true, false};

use crate::free::{
    GROUP, first_free, least_free, next_without, note_full, put_least_free, search_start,
};
use g_base::{BlockList, FIRST_COPY_BLOCK};
use std::alloc::{AllocError, Global};
use std::marker::Model;
use thiserror::Error;

/// Why a pool isn't created, or provides no blocks. In both cases everything is unchanged.
#[derive(Clone, Copy, Debug, PartialEq, Eq, Error)]
pub enum PoolFault {
    /// More blocks are needed than are free.
    #[error("{need} blocks are needed and {room} are free")]
    DiscFull { need: u32, room: u32 },
    #[error("out of memory")]
    NoMemory,
}

/// The copy blocks of one disc. Contracts see the list of their flags, true for a taken block: the flag at place i is
/// that of block 2,177 + i. The search for free blocks begins at the place `low`, before which no block is free. If that
/// block is taken, it continues at the place `next`, since those between the two aren't free either, and skips groups of
/// 128 that are noted as full.
#[derive(Drop)]
pub struct Pool {
    taken: Vec<bool>,
    full: Vec<bool>,
    free: u32,
    low: usize,
    next: usize,
}

impl Model for Pool {
    ghost use Rattle.std.specs.Prelude.{◌≡◌, ◌+◌, ◌≤◌, List, Bool, length};
    ghost use Rattle.g_blocks.specs.Flags.{free_flags, AreFull, AreSetBefore, AreSetBetween};

    ghost Value = { List Bool };

    ghost view = { λ pool. pool.taken.items };

    ghost invariant = { λ pool. (pool.free ≡ free_flags pool.taken.items)
        × (2177 + length pool.taken.items ≤ 1_048_576) × AreSetBefore pool.low pool.taken.items
        × AreFull pool.full.items pool.taken.items
        × AreSetBetween pool.low pool.next pool.taken.items };
}

impl Pool {
    ghost use Rattle.g_blocks.specs.Pool.{IsInArea, IsFree, IsTaken, HasTaken, HasGiven, AreLeastFree, IsFresh, free_count};

    /// The pool of a disc of `size` blocks, on which these copy blocks are used.
    pub fn new(alloc: Global, size: u32, used: &[u32]) -> Result<Pool, PoolFault>
        requires low { 2177 < size }
        requires high { size ≤ 1_048_576 }
        requires area { All (IsInArea size) used.now }
        requires apart { AllPairs (λ one other. one ≢ other) used.now }
        ensures ok { IfOk result (IsFresh size used.now) }
        ensures err { IsOkUnless result PoolFault.NoMemory }
    {
        let Ok(mut pool) = Pool::all_free(alloc, size - FIRST_COPY_BLOCK) else {
            return Err(PoolFault::NoMemory);
        };
        pool.mark_all_taken(used);
        Ok(pool)
    }

    /// The number of free blocks.
    pub fn free(&self) -> u32
        ensures { result ≡ free_count self.now }
    {
        self.free
    }

    /// Takes the n least free blocks, in increasing order. Space is checked first: if too few blocks are free, or
    /// memory for the list runs out, no block is taken.
    pub fn take(&mut self, alloc: Global, n: u32) -> Result<Vec<u32>, PoolFault>
        ensures least { IfOk result (λ blocks. AreLeastFree self.old n blocks.items) }
        ensures taken { IfOk result (λ blocks. HasTaken blocks.items self.old self.new) }
        ensures full { IsErrOf result (PoolFault.DiscFull n (free_count self.old))
            ↔ (free_count self.old < n) }
        ensures fault { IfErr result (λ fault. (fault ≡ PoolFault.NoMemory)
            ⊎ (fault ≡ PoolFault.DiscFull n (free_count self.old))) }
        ensures err { OnErr result (self.new ≡ self.old) }
    {
        if self.free < n {
            return Err(PoolFault::DiscFull {
                need: n,
                room: self.free,
            });
        }
        // The search for the least free block is postponed to here: if it is freed again before, no search is needed.
        self.skip_taken();
        let Ok(blocks) = least_free(alloc, &self.taken, self.low, n as usize) else {
            return Err(PoolFault::NoMemory);
        };
        self.mark_all_taken(&blocks);
        Ok(blocks)
    }

    /// Takes the n least free blocks, at most 128, and appends them in increasing order to an empty list. At least n blocks
    /// must be free. It allocates nothing.
    pub fn take_into(&mut self, n: u32, blocks: &mut BlockList)
        requires empty { blocks.old ≡ [] }
        requires few { n ≤ 128 }
        requires room { n ≤ free_count self.old }
        ensures least { AreLeastFree self.old n blocks.new }
        ensures taken { HasTaken blocks.new self.old self.new }
    {
        self.skip_taken();
        put_least_free(&self.taken, self.low, n as usize, blocks);
        self.mark_all_taken(blocks.as_slice());
    }

    /// Frees blocks.
    pub fn give(&mut self, blocks: &[u32])
        requires apart { AllPairs (λ one other. one ≢ other) blocks.now }
        requires taken { All (IsTaken self.old) blocks.now }
        ensures { HasGiven blocks.now self.old self.new }
    {
        for block in blocks {
            self.mark_free(*block);
        }
    }

    /// Takes blocks again that were freed. It allocates nothing.
    pub fn retake(&mut self, blocks: &[u32])
        requires apart { AllPairs (λ one other. one ≢ other) blocks.now }
        requires free { All (IsFree self.old) blocks.now }
        ensures { HasTaken blocks.now self.old self.new }
    {
        self.mark_all_taken(blocks);
    }

    /// A pool of this many blocks, none of them taken.
    fn all_free(alloc: Global, blocks: u32) -> Result<Pool, AllocError>
        requires { 2177 + blocks ≤ 1_048_576 }
        ensures { IfOk result (λ pool. pool ≡ replicate blocks false) }
    {
        Ok(Pool {
            taken: vec![in alloc; false; blocks as usize]?,
            full: vec![in alloc; false; blocks as usize / GROUP + 1]?,
            free: blocks,
            low: 0,
            next: 0,
        })
    }

    /// Moves `low` to the least free block.
    fn skip_taken(&mut self)
        ensures { self.new ≡ self.old }
    {
        let start = search_start(&self.taken, self.low, self.next);
        let low = first_free(&self.taken, &self.full, start);
        note_full(&mut self.full, start / GROUP, low / GROUP);
        self.low = low;
    }

    fn mark_all_taken(&mut self, blocks: &[u32])
        requires apart { AllPairs (λ one other. one ≢ other) blocks.now }
        requires free { All (IsFree self.old) blocks.now }
        ensures { HasTaken blocks.now self.old self.new }
    {
        for block in blocks {
            self.mark_taken(*block);
        }
    }

    fn mark_taken(&mut self, block: u32)
        requires { IsFree self.old block }
        ensures flags { self.new ≡ slice_set self.old (block - 2177) true }
        ensures count { free_count self.new + 1 ≡ free_count self.old }
    {
        self.taken[(block - FIRST_COPY_BLOCK) as usize] = true;
        self.free -= 1;
    }

    fn mark_free(&mut self, block: u32)
        requires { IsTaken self.old block }
        ensures flags { self.new ≡ slice_set self.old (block - 2177) false }
        ensures count { free_count self.new ≡ free_count self.old + 1 }
    {
        let place = (block - FIRST_COPY_BLOCK) as usize;
        let start = search_start(&self.taken, self.low, self.next);
        self.next = next_without(place, self.low, self.next, start);
        self.taken[place] = false;
        self.full[place / GROUP] = false;
        self.free += 1;
        self.low = self.low.min(place);
    }
}
