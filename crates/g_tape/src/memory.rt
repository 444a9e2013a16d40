//! A rack of reels in memory, whose failures are set in advance.
ghost use Rattle.std.specs.Prelude.{◌≡◌, ◌≢◌, ◌≤◌, All, AllPairs, IfOk, Some, map, true, false, vec_len};
ghost use Rattle.g_base.specs.Fuse.{BurnsByFailures, armed_with};
ghost use Rattle.g_tape.specs.Reel.{IsLabel};
ghost use Rattle.g_tape.specs.Rack.{AreReels, Mounting, refuses_mount, refuses_unmount};

use crate::fault::TapeFault;
use crate::leave::TapeLeave;
use crate::memory_reel::{MemoryReel, empty_reels};
use crate::place::place_of;
use crate::tapes::Tapes;
use g_base::{Armings, Block, Fuse, NoMemory, raised};
use std::alloc::Global;

/// A rack in memory. Exactly these calls fail: the write at which its fuse is 1, chosen reads, and `secure` of chosen reels.
#[derive(Drop)]
pub struct MemoryTapes {
    reels: Vec<MemoryReel>,
    leave: TapeLeave,
    fail: Vec<u64>,
    reads: u64,
    insecure: Vec<u32>,
    read_faults: u64,
    write_faults: u64,
    fuse: Fuse,
    arms: Armings,
    ghost well_formed: { AreReels reels.items },
    ghost fused: { BurnsByFailures write_faults arms fuse },
}

impl MemoryTapes {
    ghost use Rattle.g_tape.specs.Memory.{memory_of, IsEmptyRack};

    /// A rack of empty, unmounted reels, from their serials and capacities in any order. It reserves the memory of all
    /// capacities at once. Failing writes leave the reel unchanged, until `set_leave` changes that.
    pub fn new(alloc: Global, reels: Vec<(u32, u32)>) -> Result<MemoryTapes, NoMemory>
        requires few { vec_len reels ≤ 16 }
        requires limits { All IsLabel reels.items }
        requires apart { AllPairs (λ one other. one ≢ other) (map (λ label. label.0) reels.items) }
        ensures { IfOk result (λ tapes. IsEmptyRack reels.items (memory_of tapes)) }
    {
        let mut labels = reels;
        labels.sort_by_key(|label| label.0)?;
        Ok(MemoryTapes {
            reels: empty_reels(alloc, &labels)?,
            leave: TapeLeave::Old,
            fail: Vec::new(alloc),
            reads: 0,
            insecure: Vec::new(alloc),
            read_faults: 0,
            write_faults: 0,
            fuse: Fuse::new(),
            arms: Armings::new(),
        })
    }

    /// Sets what failing writes leave from now on.
    pub fn set_leave(&mut self, leave: TapeLeave)
        ensures { memory_of self.new ≡ record (memory_of self.old) { leave = leave } }
    {
        self.leave = leave;
    }

    /// Sets the reads that fail, counted from 1 since the rack was created. It replaces an earlier setting. A refused
    /// read is counted too.
    pub fn fail_reads(&mut self, calls: Vec<u64>)
        ensures { memory_of self.new ≡ record (memory_of self.old) { fail = calls.items } }
    {
        self.fail = calls;
    }

    /// Sets the serials of the reels whose `secure` fails from now on. It replaces an earlier setting.
    pub fn set_insecure(&mut self, serials: Vec<u32>)
        ensures { memory_of self.new ≡ record (memory_of self.old) { insecure = serials.items } }
    {
        self.insecure = serials;
    }
}

impl Tapes for MemoryTapes {
    ghost use Rattle.g_tape.specs.Memory.{rack_of, memory_of, MemoryReads, MemorySecures, MemoryWrites};

    ghost rack = { rack_of };

    fn reels(&self) -> usize {
        self.reels.len()
    }

    fn serial(&self, i: usize) -> u32 {
        self.reels[i].state().serial()
    }

    fn mounted(&self, serial: u32) -> bool {
        match place_of(&self.reels, serial) {
            Some(place) => self.reels[place].state().is_mounted(),
            None => false,
        }
    }

    fn capacity(&self, serial: u32) -> Result<u32, TapeFault> {
        match place_of(&self.reels, serial) {
            Some(place) => Ok(self.reels[place].state().capacity()),
            None => Err(TapeFault::NoTape),
        }
    }

    fn length(&self, serial: u32) -> Result<u32, TapeFault> {
        match place_of(&self.reels, serial) {
            Some(place) => Ok(self.reels[place].state().len()),
            None => Err(TapeFault::NoTape),
        }
    }

    fn mount(&mut self, serial: u32) -> Result<(), TapeFault>
        ensures mounting { Mounting refuses_mount true serial (rack_of self.old) result (rack_of self.new) }
        ensures others { memory_of self.new ≡ record (memory_of self.old) { rack = rack_of self.new } }
    {
        let Some(place) = place_of(&self.reels, serial) else {
            return Err(TapeFault::NoTape);
        };
        self.reels[place].set_mounted(true);
        Ok(())
    }

    fn unmount(&mut self, serial: u32) -> Result<(), TapeFault>
        ensures mounting { Mounting refuses_unmount false serial (rack_of self.old) result (rack_of self.new) }
        ensures others { memory_of self.new ≡ record (memory_of self.old) { rack = rack_of self.new } }
    {
        let Some(place) = place_of(&self.reels, serial) else {
            return Err(TapeFault::NoTape);
        };
        if let Some(fault) = self.reels[place].state().refuses_unmount() {
            return Err(fault);
        }
        self.reels[place].set_mounted(false);
        Ok(())
    }

    fn read(&mut self, serial: u32, k: u32, into: &mut Block) -> Result<(), TapeFault>
        ensures { MemoryReads serial k (memory_of self.old) result into.new (memory_of self.new) }
    {
        self.reads = raised(self.reads);
        let Some(place) = place_of(&self.reels, serial) else {
            return Err(TapeFault::NoTape);
        };
        if let Some(fault) = self.reels[place].state().refuses_read(k) {
            return Err(fault);
        }
        if self.fail.contains(&self.reads) {
            self.read_faults = raised(self.read_faults);
            return Err(TapeFault::ReadFailed);
        }
        self.reels[place].read(k, into);
        Ok(())
    }

    fn write(&mut self, serial: u32, k: u32, from: &Block) -> Result<(), TapeFault>
        ensures { MemoryWrites serial k from.now (memory_of self.old) result (memory_of self.new) }
    {
        let Some(place) = place_of(&self.reels, serial) else {
            return Err(TapeFault::NoTape);
        };
        if let Some(fault) = self.reels[place].state().refuses_write(k) {
            return Err(fault);
        }
        if self.fuse.burn() {
            self.write_faults = raised(self.write_faults);
            self.reels[place].tear(&self.leave, k, from);
            return Err(TapeFault::WriteFailed);
        }
        self.reels[place].end_with(k, from);
        Ok(())
    }

    fn secure(&mut self, serial: u32) -> Result<(), TapeFault>
        ensures { MemorySecures serial (memory_of self.old) result (memory_of self.new) }
    {
        let Some(_place) = place_of(&self.reels, serial) else {
            return Err(TapeFault::NoTape);
        };
        if self.insecure.contains(&serial) {
            self.read_faults = raised(self.read_faults);
            return Err(TapeFault::ReadFailed);
        }
        Ok(())
    }

    fn arm(&mut self, k: u32)
        requires { 1 ≤ k }
        ensures { memory_of self.new ≡ record (memory_of self.old)
            { rack = record (rack_of self.old) { fuse = Some k; arms = armed_with k (rack_of self.old).write_faults (rack_of self.old).arms } } }
    {
        self.fuse.arm(k);
        self.arms.arm(k, self.write_faults);
    }

    ghost well_formed = { λ tapes. tapes.well_formed };

    ghost fused = { λ tapes. tapes.fused };
}
