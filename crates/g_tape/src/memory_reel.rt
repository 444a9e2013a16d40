//! One reel in memory: reserved memory for as many blocks as its capacity, with the reel's blocks at its front.
ghost use Rattle.std.specs.Prelude.{◌≡◌, ◌<◌, ◌≤◌, [], ◌∷◌, ◌++◌, IfOk, None, Some, map, slice_get, take, vec_capacity, vec_len};
ghost use Rattle.std.specs.Option.{ForSome};
ghost use Rattle.g_tape.specs.Rack.{refuses_read, refuses_write};
ghost use Rattle.g_tape.specs.Leave.{remains_of};
ghost use Rattle.g_tape.specs.Reel.{IsReel, empty_reel, empty_reel_of, with_mounted, cut_at, ending, read_at, left_by};

use crate::leave::{TapeLeave, half_of};
use crate::reel_state::ReelState;
use g_base::{Block, NoMemory, raised};
use std::alloc::Global;
use std::marker::Model;
use std::slice::from_ref;

/// A reel whose content is exposed. Contracts see it as such.
#[derive(Drop)]
pub(crate) struct MemoryReel {
    state: ReelState,
    store: Vec<Block>,
    times: Vec<u64>,
}

impl Model for MemoryReel {
    ghost use Rattle.std.specs.Prelude.{◌≡◌, ◌≤◌, Some, length, take, vec_capacity, vec_len};
    ghost use Rattle.g_tape.specs.Reel.{Reel};

    ghost Value = { Reel };

    ghost view = { λ r. record r.state {
      blocks = Some (take r.state.len r.store.items);
      times_read = Some r.times.items;
    } };

    ghost invariant = { λ r. (r.state.len ≤ r.state.capacity)
        × (r.state.len ≤ vec_len r.store) × (r.state.capacity ≤ vec_capacity r.store) × (length r.times.items ≡ r.state.capacity) };
}

impl MemoryReel {
    /// An empty, unmounted reel. It reserves the memory of its whole capacity, but touches that of a block only when
    /// the block is written.
    pub fn new(alloc: Global, serial: u32, capacity: u32) -> Result<MemoryReel, NoMemory>
        ensures { IfOk result (λ r. r ≡ empty_reel serial capacity) }
    {
        Ok(MemoryReel {
            state: ReelState::new(serial, capacity, 0),
            store: Vec::with_capacity(alloc, capacity as usize)?,
            times: vec![in alloc; 0; capacity as usize]?,
        })
    }

    /// The state that every reel has, independent of where its blocks are stored.
    pub fn state(&self) -> &ReelState
        ensures { result.now ≡ record self.now { blocks = result.now.blocks; times_read = result.now.times_read } }
    {
        &self.state
    }

    pub fn set_mounted(&mut self, mounted: bool)
        ensures value { self.new ≡ with_mounted mounted self.old }
        ensures keeps { IsReel self.old → IsReel self.new }
    {
        self.state.set_mounted(mounted);
    }

    /// Copies block k to `into` and counts that.
    pub fn read(&mut self, k: u32, into: &mut Block)
        requires { refuses_read k (Some self.old) ≡ None }
        ensures block { ForSome self.old.blocks (λ bs. slice_get bs k ≡ Some into.new) }
        ensures value { self.new ≡ read_at k self.old }
        ensures keeps { IsReel self.old → IsReel self.new }
    {
        *into = self.store[k as usize];
        self.times[k as usize] = raised(self.times[k as usize]);
    }

    /// Drops the blocks from k on and appends this one.
    pub fn end_with(&mut self, k: u32, block: &Block)
        requires { refuses_write k (Some self.old) ≡ None }
        ensures value { self.new ≡ ending k block.now self.old }
        ensures keeps { IsReel self.old → IsReel self.new }
    {
        put_last(&mut self.store, k as usize, block);
        self.state.end_with(k);
    }

    /// Applies the effect of a failing write of this block.
    pub fn tear(&mut self, leave: &TapeLeave, k: u32, block: &Block)
        requires { refuses_write k (Some self.old) ≡ None }
        ensures value { self.new ≡ left_by (remains_of leave.now block.now) k self.old }
        ensures serial { self.new.serial ≡ self.old.serial }
        ensures keeps { IsReel self.old → IsReel self.new }
    {
        match leave {
            TapeLeave::Old => {}
            TapeLeave::Cut => self.cut_at(k),
            TapeLeave::Half => self.end_with(k, &half_of(block)),
            TapeLeave::Whole => self.end_with(k, block),
            TapeLeave::These(bytes) => self.end_with(k, bytes),
        }
    }

    /// Drops the blocks from k on.
    fn cut_at(&mut self, k: u32)
        requires { refuses_write k (Some self.old) ≡ None }
        ensures value { self.new ≡ cut_at k self.old }
        ensures keeps { IsReel self.old → IsReel self.new }
    {
        self.state.cut_at(k);
    }
}

/// Drops the blocks from k on and appends this one, within the reserved memory.
fn put_last(store: &mut Vec<Block>, k: usize, block: &Block)
    requires place { k ≤ vec_len store.old }
    requires room { k < vec_capacity store.old }
    ensures items { store.new.items ≡ take k store.old.items ++ block.now ∷ [] }
    ensures capacity { vec_capacity store.old ≤ vec_capacity store.new }
{
    store.truncate(k);
    match store.extend_from_slice(from_ref(block)) {
        Ok(()) => {}
        Err(_) => unreachable!(),
    }
}

/// The empty reels of these serials and capacities, in their order.
pub(crate) fn empty_reels(alloc: Global, labels: &[(u32, u32)]) -> Result<Vec<MemoryReel>, NoMemory>
    ensures { IfOk result (λ reels. reels.items ≡ map empty_reel_of labels.now) }
{
    let mut reels = Vec::with_capacity(alloc, labels.len())?;
    for label in labels {
        reels.push(MemoryReel::new(alloc, label.0, label.1)?)?;
    }
    Ok(reels)
}
