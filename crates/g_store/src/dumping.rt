//! Dumps are opened, and written block by block.
ghost use Rattle.std.specs.Prelude.{◌≡◌, false, is_some, true};
ghost use Rattle.g_tape.specs.Rack.{reel};
ghost use Rattle.g_dumper.specs.Steps.{stepped_of};
ghost use Rattle.g_store.specs.Dumping.{KeepsDumps, KeepsDumpsSafe, OpensDump, Progresses, RefusesDump, StepsAs, is_stop_at};
ghost use Rattle.g_store.specs.Events.{Opens, StepsDump};
ghost use Rattle.g_store.specs.Refusing.{open_refuses};

use crate::store::Store;
use g_disc::Disc;
use g_dumper::{Dump, DumpStep, LAST_NUMBER};
use g_plain::StoreFault;
use g_tape::Tapes;
use std::alloc::Global;

impl<D: Disc, T: Tapes> Store<D, T> {
    /// Opens a dump on the reel, after its completed dumps, and returns its number (docs/DEFINITIONS.md). `NoTape`,
    /// `NotMounted`. `DumpOpen`: a dump is open already. `CountersSpent`: the last dump has the greatest possible number.
    /// `TapeReadFault`: the reel couldn't be read. `TapeFull`: the dump needs more blocks than the reel has room for. After
    /// these and `NoMemory` nothing has changed. `Stopped`: a write of the disc failed.
    pub fn open_dump(&mut self, alloc: Global, serial: u32) -> Result<u64, StoreFault>
        requires running { self.old.spent ≡ false }
        ensures event { Opens serial self.old result self.new }
        ensures begins { OpensDump serial self.old result self.new }
        ensures refuses { RefusesDump serial self.old result self.new }
    {
        match self.opening_refused(serial) {
            Some(fault) => return Err(fault),
            None => {}
        }
        match Dump::begin(alloc, &mut self.online, &mut self.tapes, serial) {
            Ok(dump) => {
                let number = dump.number();
                self.dump = Some(dump);
                Ok(number)
            }
            Err(fault) => {
                self.spent = is_stop(&fault);
                Err(fault)
            }
        }
    }

    /// Writes the next block of the open dump to its reel (docs/DEFINITIONS.md). `Going`: there are more. `Completed`: that
    /// was the last one, the mark; the disc has the dump's number and copies, and no dump is open. `DiscReadFault`: a block
    /// of a version couldn't be read; the dump is given up, and none is open. `Stopped`: a write of tape or disc failed.
    pub fn dump_step(&mut self) -> Result<DumpStep, StoreFault>
        requires running { self.old.spent ≡ false }
        requires open { is_some self.old.dump ≡ true }
        ensures event { StepsDump self.old (stepped_of result) self.new }
        ensures steps { StepsAs self.old (stepped_of result) self.new }
        ensures progress { Progresses self.old (stepped_of result) self.new }
        ensures dumps { KeepsDumps self.old (stepped_of result) self.new }
        ensures safe { KeepsDumpsSafe self.old (stepped_of result) self.new }
    {
        match &mut self.dump {
            Some(dump) => match dump.step(&mut self.online, &mut self.tapes) {
                Ok(DumpStep::Going) => Ok(DumpStep::Going),
                Ok(DumpStep::Completed(number)) => {
                    self.dump = None;
                    Ok(DumpStep::Completed(number))
                }
                Err(fault) => {
                    self.dump = None;
                    self.spent = is_stop(&fault);
                    Err(fault)
                }
            },
            None => unreachable!(),
        }
    }

    /// The refusal of an opening that occurs before the reel is read, if any.
    fn opening_refused(&self, serial: u32) -> Option<StoreFault>
        requires running { self.now.spent ≡ false }
        ensures { result ≡ open_refuses serial self.now }
    {
        if self.tapes.capacity(serial).is_err() {
            return Some(StoreFault::NoTape);
        }
        if !self.tapes.mounted(serial) {
            return Some(StoreFault::NotMounted);
        }
        if let Some(dump) = &self.dump {
            return Some(StoreFault::DumpOpen(dump.number()));
        }
        if self.online.head().last_dump == LAST_NUMBER {
            return Some(StoreFault::CountersSpent);
        }
        None
    }
}

/// Whether the fault is `Stopped`.
pub(crate) fn is_stop(fault: &StoreFault) -> bool
    ensures { result ≡ is_stop_at fault.now }
{
    matches!(fault, StoreFault::Stopped)
}
