//! The steps of a dump.
ghost use Rattle.std.specs.Prelude.{◌≡◌, ℕ, ◌<◌, List, None, Ok, OnErr, OnOk, Some, true};
ghost use Rattle.g_disc_contents.specs.Facts.{IsTied, Pin};
ghost use Rattle.g_incr.specs.Plan.{first_content, needs, waiting};
ghost use Rattle.g_store_meaning.specs.StoreInvariant.{ArePinned, IsOpen};
ghost use Rattle.g_store_model.specs.DumpSteps.{Completed, Going};
ghost use Rattle.g_dumper.specs.Invariant.{CompletesOpening, KeepsStore, LeavesDumps, behind_step, up_with};
ghost use Rattle.g_dumper.specs.Steps.{Abandoned, IsNextBlock, Stepping, stepped_of};

use crate::dump::{Dump, DumpStep};
use g_base::{Block, ReadFailed};
use g_disc::Disc;
use g_incr::{Piece, Writer};
use g_online::Online;
use g_plain::StoreFault;
use g_tape::Tapes;

impl Dump {
    /// Writes the next block to tape. After the last one, the mark, the disc gets the copies of those versions that are
    /// still current, the dump's number, and no intent. `DiscReadFault`: a block of a version couldn't be read; the dump is
    /// given up and its versions no longer wait. `Stopped`: a write of tape or disc failed, and neither accepts a further
    /// call.
    pub fn step<D: Disc, T: Tapes>(
        &mut self,
        online: &mut Online<D>,
        tapes: &mut T,
    ) -> Result<DumpStep, StoreFault>
        requires open { IsOpen self.old online.old (T.rack tapes.old) }
        requires live { online.old.live ≡ true }
        requires tied { IsTied online.old }
        ensures step { Stepping self.old online.old (T.rack tapes.old) (stepped_of result) self.new online.new (T.rack tapes.new) }
        ensures open { stepped_of result ≡ Ok Going → IsOpen self.new online.new (T.rack tapes.new) }
        ensures tied { IsTied online.new }
        ensures keeps { KeepsStore (up_with online.old (T.rack tapes.old) (Some self.old))
            (behind_step (stepped_of result) self.new online.new (T.rack tapes.new)) }
        ensures left { LeavesDumps self.old (up_with online.old (T.rack tapes.old) (Some self.old)) (stepped_of result)
            (behind_step (stepped_of result) self.new online.new (T.rack tapes.new)) }
        ensures dumped { (number : ℕ) → stepped_of result ≡ Ok (Completed number)
            → CompletesOpening self.old (up_with online.old (T.rack tapes.old) (Some self.old))
            (up_with online.new (T.rack tapes.new) None) }
    {
        self.write_next(online, tapes)
    }

    /// What `step` does, without the clauses about invariants.
    fn write_next<D: Disc, T: Tapes>(
        &mut self,
        online: &mut Online<D>,
        tapes: &mut T,
    ) -> Result<DumpStep, StoreFault>
        requires open { IsOpen self.old online.old (T.rack tapes.old) }
        requires live { online.old.live ≡ true }
        requires tied { IsTied online.old }
        ensures step { Stepping self.old online.old (T.rack tapes.old) (stepped_of result) self.new online.new (T.rack tapes.new) }
        ensures open { stepped_of result ≡ Ok Going → IsOpen self.new online.new (T.rack tapes.new) }
        ensures tied { IsTied online.new }
    {
        let mut block: Block = [0; 512];
        match next_block(&self.writer, self.done, online, &mut block) {
            Ok(()) => {}
            Err(ReadFailed) => return Err(StoreFault::DiscReadFault),
        }
        let at = self.place + self.done;
        match tapes.write(self.serial, at, &block) {
            Ok(()) => {}
            Err(_) => return Err(StoreFault::Stopped),
        }
        self.done += 1;
        if self.done < self.writer.needs() {
            return Ok(DumpStep::Going);
        }
        match online.close_dump(self.number) {
            Ok(()) => Ok(DumpStep::Completed(self.number)),
            Err(_) => Err(StoreFault::Stopped),
        }
    }
}

/// Writes the next block of the dump into `into`. `ReadFailed`: a block of a version couldn't be read, the versions no
/// longer wait, and the contents of `into` are unspecified.
fn next_block<D: Disc>(
    writer: &Writer,
    done: u32,
    online: &mut Online<D>,
    into: &mut Block,
) -> Result<(), ReadFailed>
    requires within { done < needs writer.now }
    requires live { online.old.live ≡ true }
    requires pinned { (pins : List Pin) × (online.old.pins ≡ Some pins)
        × ArePinned writer.now.serial (first_content writer.now) (waiting writer.now.files) pins }
    requires tied { IsTied online.old }
    ensures block { OnOk result (IsNextBlock (record { plan = writer.now; done = done }) online.old.pins into.new) }
    ensures same { OnOk result (online.new ≡ online.old) }
    ensures given_up { OnErr result (Abandoned (record { plan = writer.now; done = done }) online.old online.new) }
    ensures tied { IsTied online.new }
{
    match writer.piece(done, into) {
        Piece::Ready => Ok(()),
        Piece::Content { version, part } => match online.pinned_block(version, part, into) {
            Ok(()) => Ok(()),
            Err(_) => {
                online.unpin();
                Err(ReadFailed)
            }
        },
    }
}
