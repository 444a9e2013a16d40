//! The last dump of a rack.
ghost use Rattle.std.specs.Prelude.{◌≡◌, ◌⊎◌, All, IfNone, IfOk, IfSome, OnErr, true};
ghost use Rattle.std.specs.Option.{option_copied};
ghost use Rattle.g_base.specs.Counts.{Rose};
ghost use Rattle.g_tape.specs.Reads.{OnlyReads};
ghost use Rattle.g_incr.specs.Reading.{HasReadDump};
ghost use Rattle.g_shelf.specs.LastDump.{HaveNone, IsLast, first_unmounted};
ghost use Rattle.g_shelf.specs.ReaderSteps.{later};

use crate::notes::completed;
use g_incr::{DumpNote, ShelfFault};
use g_tape::Tapes;
use std::alloc::Global;

/// The serial of the first reel that isn't mounted, if there is one.
pub fn first_unmounted<T: Tapes>(tapes: &T) -> Option<u32>
    ensures first { result ≡ first_unmounted (T.rack tapes.now).reels }
    ensures all { IfNone result (All (λ r. r.mounted ≡ true) (T.rack tapes.now).reels) }
{
    for i in 0..tapes.reels() {
        let serial = tapes.serial(i);
        if !tapes.mounted(serial) {
            return Some(serial);
        }
    }
    None
}

/// The completed dump with the greatest number on any reel, and the serial of its reel; among equal numbers, the one on the
/// first reel. `None` if and only if no reel has a completed dump. `ReadFault`, `NoMemory`; the content of the reels is
/// unchanged.
pub fn last_dump<T: Tapes>(
    alloc: Global,
    tapes: &mut T,
) -> Result<Option<(u32, DumpNote)>, ShelfFault>
    requires mounted { All (λ r. r.mounted ≡ true) (T.rack tapes.old).reels }
    ensures some { IfOk result (λ found. IfSome found (λ last. IsLast (T.rack tapes.old).reels last.0 last.1)) }
    ensures none { IfOk result (λ found. IfNone found (HaveNone (T.rack tapes.old).reels)) }
    ensures read { IfOk result (λ found. IfSome found (λ last. HasReadDump last.0 last.1 (T.rack tapes.old) (T.rack tapes.new))) }
    ensures only { OnlyReads (T.rack tapes.old) (T.rack tapes.new) }
    ensures faults { OnErr result ((result ≡ Err ShelfFault.ReadFault) ⊎ (result ≡ Err ShelfFault.NoMemory)) }
    ensures kept { (result ≡ Err ShelfFault.ReadFault → ⊥) → (T.rack tapes.new).read_faults ≡ (T.rack tapes.old).read_faults }
    ensures rose { result ≡ Err ShelfFault.ReadFault → Rose (T.rack tapes.old).read_faults (T.rack tapes.new).read_faults }
{
    let mut last = None;
    for i in 0..tapes.reels() {
        let serial = tapes.serial(i);
        // A `match`, since the proof names its arms (`in-Ok`, `in-Err`).
        match completed(alloc, tapes, serial) {
            Ok(notes) => last = later(last, serial, notes.last()),
            Err(fault) => return Err(fault),
        }
    }
    Ok(last)
}

/// The dump with the greater number of these two, or the first if they are equal.
fn later(
    last: Option<(u32, DumpNote)>,
    serial: u32,
    note: Option<&DumpNote>,
) -> Option<(u32, DumpNote)>
    ensures { result ≡ later last serial (option_copied note.entry) }
{
    match (last, note) {
        (last, None) => last,
        (None, Some(note)) => Some((serial, *note)),
        (Some((before, least)), Some(note)) => {
            if least.number < note.number {
                Some((serial, *note))
            } else {
                Some((before, least))
            }
        }
    }
}
