//! The check against a seal with a second rack.
ghost use Rattle.std.specs.Prelude.{◌≡◌, ◌<◌, All, true};
ghost use Rattle.g_tape.specs.Reads.{OnlyReads};
ghost use Rattle.g_store_meaning.specs.Meaning.{told_reels};
ghost use Rattle.g_store_meaning.specs.Reading.{AllTold, ReelsTold};
ghost use Rattle.g_look_program.specs.BothRacks.{EndsInBoth};
ghost use Rattle.g_look_program.specs.Exit.{IsOfLook};
ghost use Rattle.g_look_program.specs.Telling as told;

use crate::Status;
use crate::against::{Against, look_against};
use crate::tell::put;
use crate::twins::{tell_rotten_twins, tell_twins};
use g_disc::Disc;
use g_io::Sink;
use g_look::LookFault;
use g_seal::{Seal, twins_of};
use g_tape::Tapes;
use std::alloc::Global;

/// A rack, and a second one whose reels should be twins of the first one's.
#[derive(Drop)]
pub struct Racks<T: Tapes> {
    pub first: T,
    pub second: T,
}

/// Checks disc and first rack against this seal, as `look_against` does, with what the second rack has of it. Then prints which reels of the racks differ, and
/// which sealed dumps are rotten in the second one. All reels have to be mounted. The devices are only read.
pub fn look_against_both<K: Sink, D: Disc, T: Tapes>(
    alloc: Global,
    seal: Seal,
    out: &mut K,
    disc: &mut D,
    racks: &mut Racks<T>,
) -> Status
    requires size { 2177 < (D.state disc.old).size }
    requires mounted { All (λ r. r.mounted ≡ true) (T.rack racks.old.first).reels }
    requires mounted_too { All (λ r. r.mounted ≡ true) (T.rack racks.old.second).reels }
    ensures report { AllTold (D.state disc.old).held (told_reels (T.rack racks.old.first)) → ReelsTold (told_reels (T.rack racks.old.second)) → EndsInBoth result
        (D.state disc.old).size (D.state disc.old).held (T.rack racks.old.first) (T.rack racks.old.second) seal.dumps.items seal.files.items
        (record { before = K.written out.old; after = K.written out.new; faults_before = K.faults out.old; faults_after = K.faults out.new }) }
    ensures look { IsOfLook result }
    ensures disc { told.LeavesDisc (D.state disc.old) (D.state disc.new) }
    ensures first { OnlyReads (T.rack racks.old.first) (T.rack racks.new.first) }
    ensures second { OnlyReads (T.rack racks.old.second) (T.rack racks.new.second) }
{
    let twins = match twins_of(alloc, &mut racks.second, &seal) {
        Ok(twins) => twins,
        Err(LookFault::TapeUnread) => return put(out, b"TAPE READ\n", Status::Unread),
        Err(_) => return Status::NoMemory,
    };
    let against = Against {
        seal,
        twins: &twins,
    };
    let status = look_against(alloc, against, out, disc, &mut racks.first);
    match status {
        Status::Done | Status::No | Status::Nothing => {}
        _ => return status,
    }
    let status = tell_twins(alloc, out, &mut racks.first, &mut racks.second, status);
    tell_rotten_twins(alloc, &twins, out, status)
}
