//! PROCESS, from its refusals to the release of the old reels.
ghost use Rattle.std.specs.Prelude.{◌≡◌, All, Err, IfErr, IfOk, IfNone, IfSome, None, true};
ghost use Rattle.g_tape.specs.Reads.{OnlyReads};
ghost use Rattle.g_disc_contents.specs.Facts.{IsTied};
ghost use Rattle.g_dumper.specs.Invariant.{up_with};
ghost use Rattle.g_process.specs.Preparation.{CarriesOut, IsGranted, MayCarry, Preparing};
ghost use Rattle.g_process.specs.Processing.{Processes, behind_process, process_refuses};

use crate::job::{Job, planned};
use crate::release::release;
use crate::write::write_blocks;
use g_disc::Disc;
use g_dumper::LAST_NUMBER;
use g_entry::Intent;
use g_known::{KnownReels, catalogue};
use g_online::Online;
use g_plain::StoreFault;
use g_shelf::first_unmounted;
use g_tape::Tapes;
use std::alloc::Global;

/// Writes every user's directory and the bytes of every version to this reel as one dump, from block 0 on. The bytes of
/// files on the disc are read there, the others from their copies on tape. One commit before the dump notes its intent. One
/// commit after it notes the new copies of all files and the dump's number; then no user counts as changed. Finally every
/// other reel that had a completed dump is released: its block 0 is overwritten and becomes its only block
/// (docs/FORMATS.md). Returns the dump's number.
///
/// The refusals, in this order: `NoTape`; `RackNotMounted`, for the first reel that isn't mounted; `CountersSpent`;
/// `TapeReadFault`, if the dumps of some reel couldn't be read; `ReelNotFree`, if the reel has a completed dump; `NoCopy`,
/// for the first file by owner and number that isn't on the disc and whose bytes aren't in a completed dump; `TapeFull`, in
/// blocks of tape; `NoMemory`. After these nothing has changed. `DiscReadFault`, `TapeReadFault`: a version couldn't be
/// read; the new intent is on the disc, and the reel has blocks of an incomplete dump. `Stopped`: a write failed, and no
/// further call is accepted.
pub fn process<D: Disc, T: Tapes>(
    alloc: Global,
    online: &mut Online<D>,
    tapes: &mut KnownReels<T>,
    serial: u32,
) -> Result<u64, StoreFault>
    requires live { online.old.live ≡ true }
    requires pins { online.old.pins ≡ None }
    requires tied { IsTied online.old }
    ensures { Processes serial (up_with online.old (T.rack tapes.old) None) result
        (behind_process result online.new (T.rack tapes.new)) }
{
    match prepared(alloc, online, tapes, serial) {
        Ok(job) => carry_out(online, tapes, job),
        Err(fault) => Err(fault),
    }
}

/// Prepares the job, with all memory that it takes, or returns the reason why nothing is done. The reels are only read.
fn prepared<D: Disc, T: Tapes>(
    alloc: Global,
    online: &Online<D>,
    tapes: &mut KnownReels<T>,
    serial: u32,
) -> Result<Job, StoreFault>
    requires live { online.now.live ≡ true }
    requires tied { IsTied online.now }
    ensures job { Preparing serial online.now (T.rack tapes.old) result (T.rack tapes.new) }
    ensures reads { OnlyReads (T.rack tapes.old) (T.rack tapes.new) }
{
    if let Some(fault) = refused(online, tapes, serial) {
        return Err(fault);
    }
    match catalogue(alloc, tapes) {
        Ok(lists) => planned(alloc, online, tapes, serial, lists),
        Err(fault) => Err(fault.into()),
    }
}

/// The refusal that is known without a read, if any.
fn refused<D: Disc, T: Tapes>(online: &Online<D>, tapes: &T, serial: u32) -> Option<StoreFault>
    requires live { online.now.live ≡ true }
    ensures is { result ≡ process_refuses serial (up_with online.now (T.rack tapes.now) None) }
    ensures granted { IfNone result (IsGranted serial online.now (T.rack tapes.now)) }
{
    if tapes.capacity(serial).is_err() {
        return Some(StoreFault::NoTape);
    }
    if let Some(reel) = first_unmounted(tapes) {
        return Some(StoreFault::RackNotMounted(reel));
    }
    if online.head().last_dump == LAST_NUMBER {
        return Some(StoreFault::CountersSpent);
    }
    None
}

/// Writes the intent, the dump and the commit after it, and releases the other reels. It allocates nothing.
fn carry_out<D: Disc, T: Tapes>(
    online: &mut Online<D>,
    tapes: &mut T,
    job: Job,
) -> Result<u64, StoreFault>
    requires live { online.old.live ≡ true }
    requires pins { online.old.pins ≡ None }
    requires tied { IsTied online.old }
    requires may { MayCarry online.old (T.rack tapes.old) job }
    ensures carried { CarriesOut job online.old (T.rack tapes.old) result online.new (T.rack tapes.new) }
    ensures tied { IsTied online.new }
{
    let intent = Intent {
        serial: job.serial,
        place: 0,
        number: job.number,
    };
    match online.set_intent(Some(intent)) {
        Ok(()) => {}
        Err(_) => return Err(StoreFault::Stopped),
    }
    match write_blocks(online, tapes, &job) {
        Ok(()) => {}
        Err(fault) => return Err(fault),
    }
    match online.adopt_ready(job.number, job.ready) {
        Ok(()) => {}
        Err(_) => return Err(StoreFault::Stopped),
    }
    match release(tapes, job.lists.as_slice(), job.serial) {
        Ok(()) => Ok(job.number),
        Err(_) => Err(StoreFault::Stopped),
    }
}
