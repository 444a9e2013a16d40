//! One reel in a file of blocks.
ghost use Rattle.std.specs.Prelude.{◌≡◌, ◌+◌, ◌-◌, ◌*◌, ◌<◌, ◌≤◌, ℕ, IfOk, List, None, OnErr, OnOk, Some, false, slice_get, true};
ghost use Rattle.std.specs.Option.{ForSome};
ghost use Rattle.g_base.specs.ToldContent.{Changes};
ghost use Rattle.g_files.specs.Ahead.{IsFresh, owner_of};
ghost use Rattle.g_files.specs.Faults.{FailsByFault};
ghost use Rattle.g_files.specs.Front.{KeepsFront};
ghost use Rattle.g_tape.specs.Rack.{refuses_read, refuses_write};
ghost use Rattle.g_tape.specs.Reel.{IsLabel, IsReel, Remains, ending, left_by, with_mounted};

use crate::ahead::ReadAhead;
use crate::block_file::BlockFile;
use crate::raw::RawFile;
use g_base::{Block, WriteFailed};
use g_tape::ReelState;
use std::io;

/// A reel in an open file.
#[derive(Drop)]
pub struct FileReel<F: RawFile + Drop> {
    blocks: BlockFile<F>,
    state: ReelState,
    ghost counted: { state.len ≡ blocks.len },
    ghost label: { IsLabel (state.serial, state.capacity) },
    ghost within: { blocks.len ≤ state.capacity },
}

impl<F: RawFile + Drop> FileReel<F> {
    ghost use Rattle.g_files.specs.FileReel.{IsSaved, reel_faults, reel_file, reel_of};
    ghost use Rattle.g_files.specs.ReelRisk.{ReelKeeps, ReelLeavesNoMore, SecuresReel, WritesReel, risk_of, with_cuts};

    /// The reel on a file, not mounted: its whole blocks, at most as many as the capacity. `InvalidData` if there are more; otherwise
    /// the error is the system's. If all its blocks but the last one are durable, the reel is syncable: `secure` makes it durable.
    pub fn open(file: F, serial: u32, capacity: u32) -> io::Result<FileReel<F>>
        requires label { IsLabel (serial, capacity) }
        ensures label { IfOk result (λ r. ((reel_of r).serial ≡ serial) × ((reel_of r).capacity ≡ capacity)) }
        ensures unmounted { IfOk result (λ r. (reel_of r).mounted ≡ false) }
        ensures saved { IfOk result (λ r. IsSaved (reel_of r) (F.content file)) }
        ensures file { IfOk result (λ r. reel_file r ≡ F.content file) }
        ensures left { IfOk result (λ r. (risk_of r).remnants ≡ with_cuts (reel_of r).len (F.durability file).remnants) }
        ensures able { IfOk result (λ r. ReelKeeps ((reel_of r).len - 1) (reel_of r) (risk_of r) → (risk_of r).syncable ≡ true) }
    {
        let blocks = BlockFile::open(file, capacity)?;
        let len = blocks.len();
        Ok(FileReel {
            blocks,
            state: ReelState::new(serial, capacity, len),
        })
    }

    /// Its file.
    pub fn file(&self) -> &F
        ensures { F.content result.now ≡ reel_file self.now }
    {
        self.blocks.file()
    }

    /// What every reel has.
    pub fn state(&self) -> &ReelState
        ensures value { result.now ≡ record (reel_of self.now) { blocks = result.now.blocks; times_read = result.now.times_read } }
        ensures reel { IsReel (reel_of self.now) }
    {
        &self.state
    }

    /// Mounts or unmounts the reel. This makes no system call, so it changes nothing of what a power loss may leave.
    pub fn set_mounted(&mut self, mounted: bool)
        ensures value { reel_of self.new ≡ with_mounted mounted (reel_of self.old) }
        ensures file { reel_file self.new ≡ reel_file self.old }
        ensures risk { risk_of self.new ≡ risk_of self.old }
    {
        self.state.set_mounted(mounted);
    }

    /// Reads block k of the reel, which is at this place in the rack.
    pub fn read(
        &mut self,
        ahead: &mut ReadAhead,
        place: usize,
        k: u32,
        into: &mut Block,
    ) -> io::Result<()>
        requires within { k < (reel_of self.old).len }
        requires fresh { owner_of ahead.old ≡ place → ForSome (reel_file self.old) (IsFresh ahead.old) }
        ensures block { OnOk result (ForSome (reel_of self.old).blocks (λ blocks. slice_get blocks k ≡ Some into.new)) }
        ensures same { reel_of self.new ≡ reel_of self.old }
        ensures owner { owner_of ahead.new ≡ place }
        ensures fresh { ForSome (reel_file self.new) (IsFresh ahead.new) }
        ensures file { reel_file self.new ≡ reel_file self.old }
        ensures risk { risk_of self.new ≡ risk_of self.old }
    {
        self.blocks.read(ahead, place, k, into)
    }

    /// Writes block k, which is the reel's last block then. After a failure the reel ends where its file does, and takes no block
    /// until it was secured.
    pub fn end_with(&mut self, k: u32, block: &Block) -> Result<(), WriteFailed>
        requires free { refuses_write k (Some (reel_of self.old)) ≡ None }
        ensures done { OnOk result (reel_of self.new ≡ ending k block.now (reel_of self.old)) }
        ensures left { OnErr result ((how : Remains) × (reel_of self.new ≡ left_by how k (reel_of self.old))) }
        ensures front { Changes (KeepsFront (512 * k)) (reel_file self.old) (reel_file self.new) }
        ensures serial { (risk_of self.new).serial ≡ (risk_of self.old).serial }
        ensures durable { WritesReel k block.now (reel_of self.old) (reel_of self.new) (risk_of self.old) (risk_of self.new) result }
    {
        let written = self.blocks.end_with(k, block);
        let len = self.blocks.len();
        self.state.cut_at(len);
        written
    }

    /// Makes the reel durable as it is counted and read.
    pub fn secure(&mut self) -> io::Result<()>
        ensures same { reel_of self.new ≡ reel_of self.old }
        ensures front { Changes (KeepsFront (512 * (reel_of self.old).len)) (reel_file self.old) (reel_file self.new) }
        ensures serial { (risk_of self.new).serial ≡ (risk_of self.old).serial }
        ensures durable { SecuresReel (reel_of self.old) (reel_of self.new) (risk_of self.old) (risk_of self.new) result }
    {
        self.blocks.secure()
    }

    /// Cuts off what a failed call may have left after the reel, and syncs what this run wrote, at the end of a run. On Ok the file
    /// has exactly the reel's blocks.
    pub fn finish(&mut self) -> io::Result<()>
        ensures saved { OnOk result (IsSaved (reel_of self.new) (reel_file self.new)) }
        ensures same { reel_of self.new ≡ reel_of self.old }
        ensures serial { (risk_of self.new).serial ≡ (risk_of self.old).serial }
        ensures no_more { ReelLeavesNoMore (reel_of self.old) (reel_of self.new) (risk_of self.old) (risk_of self.new) }
        ensures cause { FailsByFault result (reel_faults self.old) (reel_faults self.new) }
    {
        self.blocks.finish()
    }
}
