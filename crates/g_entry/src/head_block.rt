//! The block of a head, written and read.
ghost use Rattle.std.specs.Prelude.{◌≡◌, [], ◌^◌, ◌<◌, ◌↔◌, IsTrue, IfSome, IfNone, Some};
ghost use Rattle.g_entry.specs.HeadFields.{IsHead, IsIntent, head_block, head_fields};

use crate::put::put_intent;
use crate::take::take_intent;
use crate::{Format, Head, Intent};
use g_base::{Block, BlockReader, BlockWriter};

/// The block of a head in a format.
pub fn encode_head_in(format: Format, h: &Head) -> Block
    requires { IsHead h.now }
    ensures { result ≡ head_block format h.now }
{
    let mut writer = BlockWriter::new();
    put_head(&mut writer, format, h);
    writer.finish()
}

/// Writes the fields of a head's block to a new writer, so that the block needn't be moved.
#[tactic(auto, using(crate::proofs::FieldLemmas::field_lengths), unfolding(crate::specs::HeadFields::head_fields))]
pub fn put_head(writer: &mut BlockWriter, format: Format, h: &Head)
    requires empty { writer.old ≡ [] }
    requires head { IsHead h.now }
    ensures { writer.new ≡ head_fields format h.now }
{
    writer.put_bytes(b"G3SL");
    writer.put_u16(format.number());
    writer.put_u64(h.next_stamp);
    writer.put_u64(h.last_dump);
    put_intent(writer, h.intent);
}

/// The head with this block in a format. `None` if and only if no head has that block.
pub fn decode_head_in(format: Format, b: &Block) -> Option<Head>
    ensures found { IfSome result (λ h. IsHead h × (b.now ≡ head_block format h)) }
    ensures none { IfNone result ((h : Head) → IsHead h → b.now ≡ head_block format h → ⊥) }

    // What was written is decoded as itself, so a head has exactly one block.
    ensures again { (h : Head) → IsHead h → b.now ≡ head_block format h → result ≡ Some h }
{
    let h = fields_of(b);
    if keeps_limits(&h) && encode_head_in(format, &h) == *b {
        Some(h)
    } else {
        None
    }
}

/// The head in the fields of a head's block.
fn fields_of(b: &Block) -> Head
    ensures { (format : Format) (h : Head) → IsHead h → b.now ≡ head_block format h → result ≡ h }
{
    let mut reader = BlockReader::new(b);
    let _letters = reader.take_bytes(4);
    let _number = reader.take_u16();
    let next_stamp = reader.take_u64();
    let last_dump = reader.take_u64();
    let intent = take_intent(&mut reader);
    Head {
        next_stamp,
        last_dump,
        intent,
    }
}

fn keeps_limits(h: &Head) -> bool
    ensures { IsTrue result ↔ IsHead h.now }
{
    let most = 1 << 62;
    1 <= h.next_stamp
        && h.next_stamp <= most
        && h.last_dump < most
        && keeps_intent(h.last_dump, h.intent)
}

fn keeps_intent(last: u64, intent: Option<Intent>) -> bool
    requires { last < 2 ^ 62 }
    ensures { IsTrue result ↔ IfSome intent (IsIntent last) }
{
    match intent {
        None => true,
        Some(intent) => (1..=999_999).contains(&intent.serial)
            && intent.number == last + 1
            && intent.number < 1 << 62,
    }
}
