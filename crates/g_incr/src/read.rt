//! Reads the dump at a place of a reel, without its content.
ghost use Rattle.std.specs.Prelude.{◌≡◌, ◌<◌, ◌≤◌, ◌^◌, IfNone, IfOk, IfSome, IsTrue};
ghost use Rattle.g_tape.specs.Reads.{HasRead};
ghost use Rattle.g_incr.specs.Finding.{FindsHeader, FindsMark, HasHeader, HasMark, HasNoRecords, HoldsRecords, mark_at};
ghost use Rattle.g_incr.specs.Layout.{Dump, mark_block};
ghost use Rattle.g_incr.specs.Notes.{IsInLimits, IsNoteOf};
ghost use Rattle.g_incr.specs.Reading.{HasNone, HasReadDump, IsFound, ReadsReel};

use crate::fault::ShelfFault;
use crate::header::{decode_header, encode_mark};
use crate::note::{DumpDir, DumpNote, Header};
use crate::records::records_in;
use crate::tape::{read_block, read_blocks};
use g_base::Block;
use g_entry::is_same;
use g_tape::Tapes;
use std::alloc::Global;

/// The complete dump at block `place` of the reel, in either format (docs/FORMATS.md). `None` if and only if there is no
/// such dump. Its content isn't read. `NoTape`, `NotMounted`, `ReadFault`, `NoMemory`.
pub fn read_dump<T: Tapes>(
    alloc: Global,
    tapes: &mut T,
    serial: u32,
    place: u32,
) -> Result<Option<DumpDir>, ShelfFault>
    ensures reads { ReadsReel serial result (T.rack tapes.old) (T.rack tapes.new) }
    ensures some { IfOk result (λ found. IfSome found (IsFound serial place (T.rack tapes.old))) }
    ensures none { IfOk result (λ found. IfNone found (HasNone serial place (T.rack tapes.old))) }
    ensures read { IfOk result (λ found. IfSome found (λ dir. HasReadDump serial dir.note (T.rack tapes.old) (T.rack tapes.new))) }
{
    let header = match read_header(tapes, serial, place) {
        Ok(Some(header)) => header,
        Ok(None) => return Ok(None),
        Err(fault) => return Err(fault),
    };
    match read_mark(tapes, serial, &header.note) {
        Ok(true) => {}
        Ok(false) => return Ok(None),
        Err(fault) => return Err(fault),
    }
    read_records(alloc, tapes, serial, &header)
}

/// The header at this place. `None` if there is the header of no dump.
fn read_header<T: Tapes>(
    tapes: &mut T,
    serial: u32,
    place: u32,
) -> Result<Option<Header>, ShelfFault>
    ensures reads { ReadsReel serial result (T.rack tapes.old) (T.rack tapes.new) }
    ensures found { IfOk result (λ found. IfSome found (HasHeader serial place (T.rack tapes.old))) }
    ensures again { IfOk result (FindsHeader serial place (T.rack tapes.old)) }
    ensures read { IfOk result (λ found. IfSome found (λ h. HasRead serial place (T.rack tapes.old) (T.rack tapes.new))) }
{
    match read_block(tapes, serial, place) {
        Ok(Some(block)) => Ok(decode_header(&block, place)),
        Ok(None) => Ok(None),
        Err(fault) => Err(fault),
    }
}

/// Whether the mark of the dump that the note describes follows its content.
fn read_mark<T: Tapes>(tapes: &mut T, serial: u32, n: &DumpNote) -> Result<bool, ShelfFault>
    ensures reads { ReadsReel serial result (T.rack tapes.old) (T.rack tapes.new) }
    ensures found { IfOk result (λ found. IsTrue found → HasMark serial n.now (T.rack tapes.old) (T.rack tapes.new)) }
    ensures again { IfOk result (FindsMark serial n.now (T.rack tapes.old)) }
{
    match read_block(tapes, serial, mark_place(n)) {
        Ok(Some(block)) => Ok(is_mark(&block, n)),
        Ok(None) => Ok(false),
        Err(fault) => Err(fault),
    }
}

/// The block after the content, or 65,536 if that is less: no reel has so great a block number.
fn mark_place(n: &DumpNote) -> u32
    ensures most { result ≤ mark_at n.now }
    ensures exact { result < 65536 → result ≡ mark_at n.now }
{
    let behind = u64::from(n.place) + 1 + u64::from(n.count);
    if behind < 65_536 {
        behind as u32
    } else {
        65_536
    }
}

fn is_mark(block: &Block, n: &DumpNote) -> bool
    ensures found { IsTrue result → (d : Dump) → IsNoteOf d n.now → block.now ≡ mark_block d }
    ensures again { (d : Dump) → IsNoteOf d n.now → block.now ≡ mark_block d → IsTrue result }
{
    is_same(&encode_mark(n), block)
}

/// The records after the header. `None` if and only if they aren't those of a dump with this header.
fn read_records<T: Tapes>(
    alloc: Global,
    tapes: &mut T,
    serial: u32,
    h: &Header,
) -> Result<Option<DumpDir>, ShelfFault>
    requires limits { IsInLimits h.now.note }
    requires low { mark_at h.now.note < 2 ^ 32 }
    ensures reads { ReadsReel serial result (T.rack tapes.old) (T.rack tapes.new) }
    ensures found { IfOk result (λ found. IfSome found (HoldsRecords serial h.now (T.rack tapes.old) (T.rack tapes.new))) }
    ensures none { IfOk result (λ found. IfNone found (HasNoRecords serial h.now (T.rack tapes.old))) }
{
    let records = u32::from(h.note.users) + u32::from(h.note.files);
    match read_blocks(alloc, tapes, serial, h.note.place + 1, records) {
        Ok(blocks) => match records_in(alloc, serial, h, blocks.as_slice()) {
            Ok(found) => Ok(found),
            Err(_) => Err(ShelfFault::NoMemory),
        },
        Err(fault) => Err(fault),
    }
}
