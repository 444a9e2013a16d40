//! What a check says of a second rack.
ghost use Rattle.std.specs.Prelude.{◌≡◌, ◌≢◌, ◌⊎◌, All, true};
ghost use Rattle.g_base.specs.Counts.{Rose};
ghost use Rattle.g_tape.specs.Reads.{OnlyReads};
ghost use Rattle.g_lines.specs.Lines.{text_of};
ghost use Rattle.g_seal.specs.Rotten.{twin_lines};
ghost use Rattle.g_twins.specs.Twins.{AreExposed, twin_text};
ghost use Rattle.g_look_program.specs.Exit.{IsOfLook};
ghost use Rattle.g_look_program.specs.Telling as told;

use crate::Status;
use crate::tell::put;
use g_io::Sink;
use g_seal::Twins;
use g_tape::Tapes;
use g_twins::{TwinsFault, compare_twins};
use std::alloc::Global;

/// Prints which reels of two racks differ, after a check that ended with the status `so_far`. If none does, nothing is printed, and that
/// remains the status; otherwise it is `No`. If a reel can't be read, `TAPE READ` is printed, and the status is `Unread`. Both racks are
/// only read. All reels must be mounted.
pub fn tell_twins<K: Sink, T: Tapes>(
    alloc: Global,
    out: &mut K,
    first: &mut T,
    second: &mut T,
    so_far: Status,
) -> Status
    requires mounted { All (λ r. r.mounted ≡ true) (T.rack first.old).reels }
    requires mounted_too { All (λ r. r.mounted ≡ true) (T.rack second.old).reels }
    requires look { IsOfLook so_far }
    ensures twins { AreExposed (T.rack first.old) → AreExposed (T.rack second.old) → told.EndsTwins so_far
        (twin_text (T.rack first.old) (T.rack second.old)) result
        (record { before = K.written out.old; after = K.written out.new; faults_before = K.faults out.old; faults_after = K.faults out.new }) }
    ensures look { IsOfLook result }
    ensures first { OnlyReads (T.rack first.old) (T.rack first.new) }
    ensures second { OnlyReads (T.rack second.old) (T.rack second.new) }
    ensures unread { so_far ≢ Status.Unread → result ≡ Status.Unread
        → Rose (T.rack first.old).read_faults (T.rack first.new).read_faults
        ⊎ Rose (T.rack second.old).read_faults (T.rack second.new).read_faults }
{
    match compare_twins(alloc, first, second) {
        Ok(text) => {
            if text.as_slice().is_empty() {
                so_far
            } else {
                put(out, text.as_slice(), Status::No)
            }
        }
        Err(TwinsFault::ReadFailed) => put(out, b"TAPE READ\n", Status::Unread),
        Err(TwinsFault::NoMemory) => Status::NoMemory,
    }
}

/// Prints which sealed dumps are rotten in the second rack, after a check against the seal that ended with the status `so_far`. If none is, or
/// that check failed, nothing is printed, and that remains the status; otherwise it is `No`.
pub fn tell_rotten_twins<K: Sink>(
    alloc: Global,
    twins: &Twins,
    out: &mut K,
    so_far: Status,
) -> Status
    requires look { IsOfLook so_far }
    ensures rotten { told.EndsRottenTwins so_far (text_of (twin_lines twins.now)) result
        (record { before = K.written out.old; after = K.written out.new; faults_before = K.faults out.old; faults_after = K.faults out.new }) }
    ensures look { IsOfLook result }
{
    match so_far {
        Status::Done | Status::No | Status::Nothing => {}
        _ => return so_far,
    }
    match twins.text(alloc) {
        Ok(text) => {
            if text.as_slice().is_empty() {
                so_far
            } else {
                put(out, text.as_slice(), Status::No)
            }
        }
        Err(_) => Status::NoMemory,
    }
}
