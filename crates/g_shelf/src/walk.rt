//! The walk over a reel's completed dumps, generic in what its caller collects from them.
ghost use Rattle.std.specs.Prelude.{◌≡◌, ◌+◌, ◌^◌, ◌<◌, ◌≤◌, IfNone, IfOk, IfSome, OnOk};
ghost use Rattle.std.specs.Option.{ForSome};
ghost use Rattle.g_tape.specs.Reads.{blocks_of};
ghost use Rattle.g_incr.specs.Layout.{Dump};
ghost use Rattle.g_incr.specs.Notes.{IsDirOf};
ghost use Rattle.g_incr.specs.Reading.{ReadsReel};
ghost use Rattle.g_shelf.specs.CompletedDumps.{IsNext};
ghost use Rattle.g_shelf.specs.Walk.{HasMore, IsNextDump};

use g_incr::{DumpDir, DumpNote, ShelfFault, read_dump};
use g_tape::Tapes;
use std::alloc::Global;

/// What a reader of a reel collects from each of its dumps.
pub trait OfDump {
    ghost is_of: { Self → Dump → Type 0 };

    /// The item for the dump with these records, which is on the reel with this serial.
    fn of_dump(serial: u32, dir: DumpDir) -> Self
        ensures { (d : Dump) → d.serial ≡ serial → IsDirOf d dir → is_of result d };
}

/// Appends an item for each completed dump of the reel (docs/FORMATS.md). These are the complete dumps that follow one
/// another from the reel's first block on, with increasing numbers. Only the records of one dump at a time are in memory,
/// and no content. `NoTape`, `NotMounted`, `ReadFault`, `NoMemory`; the reel's content is unchanged.
pub fn read_reel<T: Tapes, K: OfDump + Drop>(
    alloc: Global,
    tapes: &mut T,
    serial: u32,
    kept: &mut Vec<K>,
) -> Result<(), ShelfFault>
    ensures reads { ReadsReel serial result (T.rack tapes.old) (T.rack tapes.new) }
    ensures more { OnOk result (HasMore K.is_of serial kept.old.items kept.new.items (T.rack tapes.old) (T.rack tapes.new)) }
{
    let mut at = 0;
    let mut least = 0;
    loop {
        // A `match`, since the proof names its arms (`in-Ok`, `in-Err`).
        match next_dump(alloc, tapes, serial, at, least) {
            Ok(Some(dir)) => {
                at = end_block(&dir.note);
                least = dir.note.number + 1;
                match kept.push(K::of_dump(serial, dir)) {
                    Ok(()) => {}
                    Err(_) => return Err(ShelfFault::NoMemory),
                }
            }
            Ok(None) => return Ok(()),
            Err(fault) => return Err(fault),
        }
    }
}

/// The complete dump at block `at` of the reel, if its number is at least `least` (docs/FORMATS.md): the next one of a walk.
/// Its content isn't read. `NoTape`, `NotMounted`, `ReadFault`, `NoMemory`; the reel's content is unchanged.
pub fn next_dump<T: Tapes>(
    alloc: Global,
    tapes: &mut T,
    serial: u32,
    at: u32,
    least: u64,
) -> Result<Option<DumpDir>, ShelfFault>
    ensures reads { ReadsReel serial result (T.rack tapes.old) (T.rack tapes.new) }
    ensures some { IfOk result (λ found. IfSome found (IsNextDump serial at least (T.rack tapes.old) (T.rack tapes.new))) }
    ensures none { IfOk result (λ found. IfNone found (ForSome (blocks_of serial (T.rack tapes.old))
        (λ blocks. (d : Dump) → IsNext serial blocks at least d → ⊥))) }
    ensures low { IfOk result (λ found. IfSome found (λ dir. dir.note.place + dir.note.count + 2 ≤ 65536)) }
    ensures limit { IfOk result (λ found. IfSome found (λ dir. dir.note.number < 2 ^ 62)) }
{
    match read_dump(alloc, tapes, serial, at)? {
        Some(dir) => {
            if dir.note.number < least {
                Ok(None)
            } else {
                Ok(Some(dir))
            }
        }
        None => Ok(None),
    }
}

/// The block after the dump, which has two blocks more than its header counts.
pub(crate) fn end_block(note: &DumpNote) -> u32
    requires { note.now.place + note.now.count + 2 < 2 ^ 32 }
    ensures { result ≡ note.now.place + note.now.count + 2 }
{
    note.place + note.count + 2
}
