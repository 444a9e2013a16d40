//! A reel in memory that loses power.
ghost use Rattle.std.specs.Prelude.{◌≡◌, ◌≤◌, IfOk, OnErr, OnOk, Some, None, true};
ghost use Rattle.g_tape.specs.Rack.{refuses_write};
ghost use Rattle.g_tape.specs.Reel.{IsLabel, IsReel, Remains, ending, left_by, with_mounted};

use crate::losing::Loss;
use crate::medium::{Left, Medium};
use crate::power::{Fate, Power};
use g_base::{Block, NoMemory, ReadFailed, WriteFailed};
use g_tape::ReelState;
use std::alloc::Global;

/// A reel whose power fails at a chosen call.
#[derive(Drop)]
pub(crate) struct CutReel {
    state: ReelState,
    medium: Medium,
    ghost label: { IsLabel (state.serial, state.capacity) },
    ghost within: { state.len ≤ state.capacity },
}

impl CutReel {
    ghost use Rattle.g_power.specs.CutReel.{reel_of};

    /// An empty, unmounted reel.
    pub(crate) fn new(alloc: Global, serial: u32, capacity: u32) -> Result<CutReel, NoMemory>
        requires { IsLabel (serial, capacity) }
    {
        Ok(CutReel {
            state: ReelState::new(serial, capacity, 0),
            medium: Medium::new(alloc)?,
        })
    }

    /// The state that every reel has.
    pub(crate) fn state(&self) -> &ReelState
        ensures value { result.now ≡ record (reel_of self.now) { blocks = result.now.blocks; times_read = result.now.times_read } }
    {
        &self.state
    }

    pub(crate) fn set_mounted(&mut self, is_mounted: bool)
        ensures value { reel_of self.new ≡ with_mounted is_mounted (reel_of self.old) }
    {
        self.state.set_mounted(is_mounted);
    }

    /// Reads block k.
    pub(crate) fn read(&mut self, power: &Power, k: u32, into: &mut Block) -> Result<(), ReadFailed>
        ensures same { reel_of self.new ≡ reel_of self.old }
    {
        if power.is_off() {
            return Err(ReadFailed);
        }
        *into = self.medium.block(k);
        Ok(())
    }

    /// Ends the reel with block k. It fails if the fuse fires.
    pub(crate) fn end_with(
        &mut self,
        power: &Power,
        fires: bool,
        k: u32,
        block: &Block,
    ) -> Result<(), WriteFailed>
        requires { refuses_write k (Some (reel_of self.old)) ≡ None }
        ensures fired { fires ≡ true → OnOk result ⊥ }
        ensures done { OnOk result (reel_of self.new ≡ ending k block.now (reel_of self.old)) }
        ensures left { OnErr result ((how : Remains) × (reel_of self.new ≡ left_by how k (reel_of self.old))) }
    {
        match power.call() {
            Fate::Done if !fires => match self.medium.end_with(k, block) {
                Ok(()) => {
                    self.state.end_with(k);
                    Ok(())
                }
                Err(NoMemory) => Err(WriteFailed),
            },
            Fate::Faulty => self.fail(power, k, block),
            _ => Err(WriteFailed),
        }
    }

    /// Power is lost at a write of block k, or the device fails.
    fn fail(&mut self, power: &Power, k: u32, block: &Block) -> Result<(), WriteFailed>
        requires { refuses_write k (Some (reel_of self.old)) ≡ None }
        ensures failed { OnOk result ⊥ }
        ensures left { OnErr result ((how : Remains) × (reel_of self.new ≡ left_by how k (reel_of self.old))) }
    {
        match self.medium.fail(power, k, block) {
            Ok(Left::Torn) => self.state.end_with(k),
            Ok(Left::Shortened) => self.state.cut_at(k),
            _ => {}
        }
        Err(WriteFailed)
    }

    /// Makes the reel durable.
    pub(crate) fn secure(&mut self, power: &Power) -> Result<(), ReadFailed>
        ensures same { reel_of self.new ≡ reel_of self.old }
    {
        match power.call() {
            Fate::Done => match self.medium.secure() {
                Ok(()) => Ok(()),
                Err(NoMemory) => Err(ReadFailed),
            },
            Fate::Faulty => {
                self.medium.fail_sync(power);
                Err(ReadFailed)
            }
            Fate::Dead => Err(ReadFailed),
        }
    }

    /// Another process opens the reel.
    pub(crate) fn reopen(&mut self) {
        self.state.set_mounted(false);
        self.medium.reopen();
    }

    /// Power was lost.
    pub(crate) fn lose(
        &mut self,
        power: &Power,
        loss: Loss,
        other: &Block,
    ) -> Result<(), NoMemory> {
        self.medium.lose(power, loss, other)?;
        let len = self.state.capacity().min(self.medium.len());
        self.state.cut_at(len);
        Ok(())
    }
}
