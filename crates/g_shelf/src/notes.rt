//! The completed dumps of a reel, read from its first block on.
ghost use Rattle.std.specs.Prelude.{◌≡◌, ◌≤◌, IfOk, List, map};
ghost use Rattle.std.specs.Option.{ForSome};
ghost use Rattle.g_tape.specs.Rack.{reel};
ghost use Rattle.g_incr.specs.Layout.{Dump};
ghost use Rattle.g_incr.specs.Reading.{ReadsReel};
ghost use Rattle.g_shelf.specs.CompletedDumps.{end_of};
ghost use Rattle.g_shelf.specs.FoundDumps.{AreRead, note_of};

use crate::walk::{OfDump, end_block, read_reel};
use g_incr::{DumpDir, DumpNote, ShelfFault};
use g_tape::Tapes;
use std::alloc::Global;

impl OfDump for DumpNote {
    ghost use Rattle.std.specs.Prelude.{◌≡◌};
    ghost use Rattle.g_shelf.specs.FoundDumps.{note_of};

    ghost is_of = { λ note d. note ≡ note_of d };

    fn of_dump(_serial: u32, dir: DumpDir) -> DumpNote {
        dir.note
    }
}

/// The completed dumps of the reel (docs/FORMATS.md): the complete ones that follow one another from its first block on,
/// with increasing numbers. Their content isn't read. `NoTape`, `NotMounted`, `ReadFault`, `NoMemory`; the reel's content
/// is unchanged.
pub fn completed<T: Tapes>(
    alloc: Global,
    tapes: &mut T,
    serial: u32,
) -> Result<Vec<DumpNote>, ShelfFault>
    ensures reads { ReadsReel serial result (T.rack tapes.old) (T.rack tapes.new) }
    ensures found { IfOk result (λ notes. (dumps : List Dump)
        × AreRead serial dumps (T.rack tapes.old) (T.rack tapes.new) × (notes.items ≡ map note_of dumps)) }
{
    let mut notes = Vec::new(alloc);
    match read_reel(alloc, tapes, serial, &mut notes) {
        Ok(()) => Ok(notes),
        Err(fault) => Err(fault),
    }
}

/// The block after the completed dumps of the reel, at most the reel's length in blocks. `NoTape`, `NotMounted`,
/// `ReadFault`, `NoMemory`; the reel's content is unchanged.
pub fn end_of<T: Tapes>(alloc: Global, tapes: &mut T, serial: u32) -> Result<u32, ShelfFault>
    ensures reads { ReadsReel serial result (T.rack tapes.old) (T.rack tapes.new) }
    ensures end { IfOk result (λ end. (dumps : List Dump)
        × AreRead serial dumps (T.rack tapes.old) (T.rack tapes.new) × (end ≡ end_of dumps)) }
    ensures fits { IfOk result (λ end. ForSome (reel serial (T.rack tapes.old).reels) (λ r. end ≤ r.len)) }
{
    let notes = completed(alloc, tapes, serial)?;
    match notes.last() {
        Some(note) => Ok(end_block(note)),
        None => Ok(0),
    }
}
