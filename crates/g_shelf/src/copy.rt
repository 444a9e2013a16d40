//! Checks whether a file's copy is still on tape.
ghost use Rattle.std.specs.Prelude.{◌≡◌, ◌↔◌, ◌+◌, ◌<◌, ◌≤◌, IfOk, IsTrue, List, map};
ghost use Rattle.std.specs.Option.{ForSome};
ghost use Rattle.g_tape.specs.Rack.{reel};
ghost use Rattle.g_incr.specs.Layout.{Dump};
ghost use Rattle.g_incr.specs.Reading.{ReadsReel};
ghost use Rattle.g_shelf.specs.FoundDumps.{AreInRow, AreRead, note_of};
ghost use Rattle.g_shelf.specs.HeldBlocks.{AreHeld};
ghost use Rattle.g_shelf.specs.ReaderSteps.{AnyHolds, Holds};

use crate::notes::completed;
use g_entry::TapeCopy;
use g_incr::{DumpNote, ShelfFault};
use g_tape::Tapes;
use std::alloc::Global;

/// Whether all `blocks` blocks from the copy's first one on are content of completed dumps of its reel. `NoTape`,
/// `NotMounted`, `ReadFault`, `NoMemory`; the reel's content is unchanged.
pub fn find_copy<T: Tapes>(
    alloc: Global,
    tapes: &mut T,
    copy: &TapeCopy,
    blocks: u32,
) -> Result<bool, ShelfFault>
    ensures reads { ReadsReel copy.now.serial result (T.rack tapes.old) (T.rack tapes.new) }
    ensures held { IfOk result (λ is. (dumps : List Dump)
        × AreRead copy.now.serial dumps (T.rack tapes.old) (T.rack tapes.new) × (IsTrue is ↔ AreHeld dumps copy.now blocks)) }
    ensures fits { IfOk result (λ is. IsTrue is → 0 < blocks →
        ForSome (reel copy.now.serial (T.rack tapes.old).reels) (λ r. copy.now.first + blocks ≤ r.len)) }
{
    let notes = completed(alloc, tapes, copy.serial)?;
    Ok(is_held(notes.as_slice(), copy, blocks))
}

/// Whether all `blocks` blocks from the copy's first one on are content of these dumps, which are those of the copy's
/// reel. It reads nothing.
pub fn is_held(notes: &[DumpNote], copy: &TapeCopy, blocks: u32) -> bool
    ensures { (dumps : List Dump) → notes.now ≡ map note_of dumps → AreInRow copy.now.serial 0 0 dumps
        → IsTrue result ↔ AreHeld dumps copy.now blocks }
{
    blocks == 0 || any_holds(notes, copy.first, blocks)
}

/// Whether the content of one of the dumps has all these blocks.
fn any_holds(notes: &[DumpNote], first: u32, blocks: u32) -> bool
    ensures { IsTrue result ↔ AnyHolds notes.now first blocks }
{
    for note in notes {
        if holds(note, first, blocks) {
            return true;
        }
    }
    false
}

/// Whether the dump's content has all these blocks. The sums have 64 bits, since a copy may name any block.
pub fn holds(note: &DumpNote, first: u32, blocks: u32) -> bool
    ensures { IsTrue result ↔ Holds note.now first blocks }
{
    let content = u64::from(note.place) + 1 + u64::from(note.users) + u64::from(note.files);
    let mark = u64::from(note.place) + 1 + u64::from(note.count);
    content <= u64::from(first) && u64::from(first) + u64::from(blocks) <= mark
}
