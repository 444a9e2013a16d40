//! The header and the mark of a dump, written and read (docs/FORMATS.md).
ghost use Rattle.std.specs.Prelude.{◌≡◌, ◌↔◌, IsTrue, IfSome, Some};
ghost use Rattle.g_entry.specs.Formats.{format_number};
ghost use Rattle.g_incr.specs.Layout.{Dump, IsDump, header_block, mark_block};
ghost use Rattle.g_incr.specs.Notes.{IsHeaderOf, IsInLimits, IsNoteOf};

use crate::note::{DumpNote, Header};
use g_base::{Block, BlockReader, BlockWriter};
use g_entry::{Format, is_same};

/// The header of every dump that `h` describes.
#[tactic(auto, using(g_base::proofs::FieldLemmas::length_fields))]
pub(crate) fn encode_header(h: &Header) -> Block
    ensures { (d : Dump) → IsHeaderOf d h.now → result ≡ header_block d }
{
    let mut writer = BlockWriter::new();
    writer.put_bytes(b"G3HD");
    writer.put_u16(h.format.number());
    writer.put_u64(h.note.number);
    writer.put_u32(h.note.place);
    writer.put_u32(h.note.count);
    writer.put_u16(h.note.users);
    writer.put_u16(h.note.files);
    writer.put_u64(h.note.next_stamp);
    writer.finish()
}

/// The header in the block at this place. `None` if it is the header of no dump.
pub(crate) fn decode_header(b: &Block, place: u32) -> Option<Header>
    ensures limits { IfSome result (λ h. IsInLimits h.note × (h.note.place ≡ place)) }
    ensures found { IfSome result (λ h. (d : Dump) → IsHeaderOf d h → b.now ≡ header_block d) }

    // What was written is decoded as itself.
    ensures again { (d : Dump) → IsDump d → d.place ≡ place → b.now ≡ header_block d
        → (h : Header) × (result ≡ Some h) × IsHeaderOf d h }
{
    let (format, note) = fields_of(b);
    let header = Header {
        format: format_of(format)?,
        note,
    };
    if note.place == place && are_in_limits(&note) && is_same(&encode_header(&header), b) {
        Some(header)
    } else {
        None
    }
}

/// The values in the fields of a header, preceded by the number of the format.
fn fields_of(b: &Block) -> (u16, DumpNote)
    ensures { (d : Dump) → IsDump d → b.now ≡ header_block d
        → (result.0 ≡ format_number d.format) × IsNoteOf d result.1 }
{
    let mut reader = BlockReader::new(b);
    let _letters = reader.take_bytes(4);
    let format = reader.take_u16();
    let number = reader.take_u64();
    let place = reader.take_u32();
    let count = reader.take_u32();
    let users = reader.take_u16();
    let files = reader.take_u16();
    let next_stamp = reader.take_u64();
    let note = DumpNote {
        number,
        place,
        count,
        users,
        files,
        next_stamp,
    };
    (format, note)
}

/// The format with this number.
fn format_of(number: u16) -> Option<Format>
    ensures { (format : Format) → number ≡ format_number format → result ≡ Some format }
{
    match number {
        1 => Some(Format::One),
        2 => Some(Format::Two),
        _ => None,
    }
}

fn are_in_limits(n: &DumpNote) -> bool
    ensures { IsTrue result ↔ IsInLimits n.now }
{
    let most = 1 << 62;
    let records = u32::from(n.users) + u32::from(n.files);
    n.number < most
        && 1 <= n.next_stamp
        && n.next_stamp <= most
        && n.users <= 63
        && n.files <= 1024
        && records <= n.count
}

/// The mark of every dump that the note describes.
#[tactic(auto, using(g_base::proofs::FieldLemmas::length_fields))]
pub(crate) fn encode_mark(n: &DumpNote) -> Block
    ensures { (d : Dump) → IsNoteOf d n.now → result ≡ mark_block d }
{
    let mut writer = BlockWriter::new();
    writer.put_bytes(b"G3MK");
    writer.put_u64(n.number);
    writer.put_u32(n.place);
    writer.put_u32(n.count);
    writer.put_zeros(488);
    writer.put_u32(n.count);
    writer.finish()
}
