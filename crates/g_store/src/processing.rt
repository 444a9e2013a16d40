//! All versions are consolidated on one reel.
ghost use Rattle.std.specs.Prelude.{◌≡◌, false};
ghost use Rattle.g_process.specs.Processing.{Processes, process_refuses};
ghost use Rattle.g_store.specs.Processing.{MovesDumps, StepsProcess};
ghost use Rattle.g_tape.specs.Rack.{AreReels};

use crate::dumping::is_stop;
use crate::store::Store;
use g_disc::Disc;
use g_dumper::LAST_NUMBER;
use g_plain::StoreFault;
use g_process::process;
use g_shelf::first_unmounted;
use g_tape::Tapes;
use std::alloc::Global;

impl<D: Disc, T: Tapes> Store<D, T> {
    /// Writes every user's directory and the bytes of every version to this reel as one dump, from block 0 on, notes the
    /// new copies on the disc, and releases every other reel that had a completed dump (docs/DEFINITIONS.md). Returns the
    /// dump's number. `NoTape`. `RackNotMounted`: the first reel that isn't mounted. `DumpOpen`: a dump is open.
    /// `CountersSpent`: the last dump has the greatest possible number. `TapeReadFault`: the dumps of the reels couldn't be
    /// read. `ReelNotFree`: the reel has a completed dump. `NoCopy`: the first file by owner and number that isn't on the
    /// disc and whose copy doesn't exist. `TapeFull`. After these and `NoMemory` nothing has changed. `DiscReadFault`,
    /// `TapeReadFault`: a version couldn't be read, and the new intent is on the disc. `Stopped`: a write of the disc or of
    /// a tape failed.
    pub fn process(&mut self, alloc: Global, serial: u32) -> Result<u64, StoreFault>
        requires running { self.old.spent ≡ false }
        ensures processes { Processes serial self.old result self.new }
        ensures step { StepsProcess serial self.old result self.new }
        ensures dumps { MovesDumps self.old self.new }
        // The rack was one of at most 16 reels, in the order of their serials, each within its limits.
        ensures reels { AreReels self.old.rack.reels }
    {
        match self.process_refused(serial) {
            Some(fault) => return Err(fault),
            None => {}
        }
        match process(alloc, &mut self.online, &mut self.tapes, serial) {
            Ok(number) => Ok(number),
            Err(fault) => {
                self.spent = is_stop(&fault);
                Err(fault)
            }
        }
    }

    /// The refusal of PROCESS that occurs before a reel is read, if any.
    fn process_refused(&self, serial: u32) -> Option<StoreFault>
        requires running { self.now.spent ≡ false }
        ensures { result ≡ process_refuses serial self.now }
    {
        if self.tapes.capacity(serial).is_err() {
            return Some(StoreFault::NoTape);
        }
        if let Some(reel) = first_unmounted(&self.tapes) {
            return Some(StoreFault::RackNotMounted(reel));
        }
        if let Some(dump) = &self.dump {
            return Some(StoreFault::DumpOpen(dump.number()));
        }
        if self.online.head().last_dump == LAST_NUMBER {
            return Some(StoreFault::CountersSpent);
        }
        None
    }
}
