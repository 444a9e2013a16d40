//! Blocks of a rack's files that are read in order are read ahead, many by one call.
ghost use Rattle.std.specs.Prelude.{◌≡◌, ◌-◌, ◌*◌, ◌≤◌, ℕ, [], IfOk, List, OnOk, length, take};
ghost use Rattle.std.specs.Option.{ForSome};
ghost use Rattle.g_files.specs.Bytes.{part};
ghost use Rattle.g_files.specs.Window.{window};

use crate::block_calls::read_block;
use crate::raw::RawFile;
use crate::window::{MOST, Window};
use g_base::Block;
use std::alloc::Global;
use std::io;

/// The place of no reel.
const NO_PLACE: usize = usize::MAX;

/// Blocks that were read ahead, of one file at a time.
#[derive(Drop)]
pub struct ReadAhead {
    blocks: Window,
    /// The place in the rack of the file that they are of.
    owner: usize,
    /// The block that follows the one read last.
    next: u32,
    /// How many blocks the last read-ahead asked for.
    wanted: u32,
    ghost few: { wanted ≤ 64 },
}

impl ReadAhead {
    ghost use Rattle.g_files.specs.Ahead.{IsFresh, owner_of, window_of};

    /// No block, and the memory for 64.
    pub fn new(alloc: Global) -> io::Result<ReadAhead>
        ensures { IfOk result (λ ahead. window_of ahead ≡ window 0 []) }
    {
        Ok(ReadAhead {
            blocks: Window::new(alloc)?,
            owner: NO_PLACE,
            next: 0,
            wanted: 1,
        })
    }

    /// Reads block k of the file at this place. If it is the next one in order, one call reads it and those that follow: 4, 16 and
    /// then 64 at a time. If such a call fails, block k is read by itself, so this fails exactly if that does.
    pub(crate) fn read<F: RawFile>(
        &mut self,
        file: &mut F,
        place: usize,
        k: u32,
        into: &mut Block,
    ) -> io::Result<()>
        requires fresh { owner_of self.old ≡ place → ForSome (F.content file.old) (IsFresh self.old) }
        ensures block { OnOk result (ForSome (F.content file.old) (λ bytes. into.new ≡ part (512 * k) 512 bytes)) }
        ensures owner { owner_of self.new ≡ place }
        ensures fresh { ForSome (F.content file.old) (IsFresh self.new) }
        ensures same { F.content file.new ≡ F.content file.old }
        ensures as_durable { F.durability file.new ≡ F.durability file.old }
    {
        let in_order = self.turn_to(place, k);
        if self.blocks.copy(k, into) {
            return Ok(());
        }
        self.look_ahead(file, k, in_order);
        if in_order && self.blocks.copy(k, into) {
            return Ok(());
        }
        read_block(file, k, into)
    }

    /// Notes that block k of the file at this place is read, and returns whether it is the next one in order. Drops the blocks of
    /// any other file.
    fn turn_to(&mut self, place: usize, k: u32) -> bool
        ensures owner { owner_of self.new ≡ place }
        ensures kept { (bytes : List ℕ) → (owner_of self.old ≡ place → IsFresh self.old bytes) → IsFresh self.new bytes }
    {
        let in_order = place == self.owner && k == self.next;
        if place != self.owner {
            self.blocks.truncate(0);
        }
        self.owner = place;
        self.next = k.saturating_add(1);
        in_order
    }

    /// If block k, which isn't in memory, is the next one in order, reads it and those that follow.
    fn look_ahead<F: RawFile>(&mut self, file: &mut F, k: u32, in_order: bool)
        requires fresh { ForSome (F.content file.old) (IsFresh self.old) }
        ensures owner { owner_of self.new ≡ owner_of self.old }
        ensures fresh { ForSome (F.content file.old) (IsFresh self.new) }
        ensures same { F.content file.new ≡ F.content file.old }
        ensures as_durable { F.durability file.new ≡ F.durability file.old }
    {
        if !in_order {
            self.wanted = 1;
            return;
        }
        self.wanted = MOST.min(4 * self.wanted);
        self.blocks.fetch(file, k, self.wanted);
    }

    /// Drops block k and those that follow it, since they are written.
    pub(crate) fn forget(&mut self, k: u32)
        ensures owner { owner_of self.new ≡ owner_of self.old }
        ensures window { window_of self.new ≡ window (window_of self.old).at (take (512 * k - (window_of self.old).at) (window_of self.old).bytes) }
    {
        self.blocks.truncate(k);
    }

    /// Does the same if the blocks are those of the file at this place.
    pub(crate) fn forget_of(&mut self, place: usize, k: u32)
        ensures owner { owner_of self.new ≡ owner_of self.old }
        ensures other { (owner_of self.old ≡ place → ⊥) → window_of self.new ≡ window_of self.old }
        ensures window { owner_of self.old ≡ place → window_of self.new ≡ window (window_of self.old).at (take (512 * k - (window_of self.old).at) (window_of self.old).bytes) }
    {
        if place == self.owner {
            self.blocks.truncate(k);
        }
    }
}
