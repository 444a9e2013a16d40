//! The block of a user, written and read.
ghost use Rattle.std.specs.Prelude.{◌≡◌, [], ◌↔◌, Bool, IsTrue, IfSome, IfNone, Some};
ghost use Rattle.g_entry.specs.Formats.{IsMoney};
ghost use Rattle.g_entry.specs.UserFields.{IsUser, held_byte, user_block, user_fields};

use crate::put::{put_money, put_word};
use crate::same::is_same;
use crate::take::{take_money, take_user};
use crate::{Format, UserRec};
use g_base::{Block, BlockReader, BlockWriter};

/// The block of a user on disc, in a format.
pub fn encode_user_in(format: Format, r: &UserRec) -> Block
    requires { IsUser format r.now }
    ensures { result ≡ user_block format 0 r.now }
{
    encode_user_held(format, r, false)
}

/// The user of this number with this block on disc, in a format. `None` if and only if no user has that block.
pub fn decode_user_in(format: Format, b: &Block, number: u8) -> Option<UserRec>
    ensures found { IfSome result (λ r. (r.number ≡ number) × IsUser format r
        × (b.now ≡ user_block format 0 r)) }
    ensures none { IfNone result ((r : UserRec) → r.number ≡ number → IsUser format r
        → b.now ≡ user_block format 0 r → ⊥) }

    // What was written is decoded as itself, so a user has exactly one block.
    ensures again { (r : UserRec) → r.number ≡ number → IsUser format r
        → b.now ≡ user_block format 0 r → result ≡ Some r }
{
    match decode_user_held(format, b, number) {
        Some((r, false)) => Some(r),
        _ => None,
    }
}

/// The block of a user in a dump. Its byte 27 says whether the dump has the user's files (docs/FORMATS.md); on disc it is
/// 0.
pub fn encode_user_held(format: Format, r: &UserRec, held: bool) -> Block
    requires { IsUser format r.now }
    ensures { result ≡ user_block format (held_byte held) r.now }
{
    let mut writer = BlockWriter::new();
    put_user(&mut writer, format, r, held);
    writer.finish()
}

/// Writes the fields of a user's block to a new writer, so that the block needn't be moved.
#[tactic(auto, using(crate::proofs::FieldLemmas::field_lengths, crate::proofs::FieldLemmas::name_lengths), unfolding(crate::specs::UserFields::user_fields))]
pub fn put_user(writer: &mut BlockWriter, format: Format, r: &UserRec, held: bool)
    requires empty { writer.old ≡ [] }
    requires user { IsUser format r.now }
    ensures { writer.new ≡ user_fields format (held_byte held) r.now }
{
    writer.put_u8(1);
    put_word(writer, r.user.as_slice());
    writer.put_u8(r.superior);
    writer.put_u32(r.space);
    writer.put_u64(r.time);
    writer.put_u8(flag(held));
    put_money(writer, format, r.money);
}

/// The byte that says whether a user is held.
fn flag(held: bool) -> u8
    ensures { result ≡ held_byte held }
{
    if held { 1 } else { 0 }
}

/// The user of this number with this block in a dump, and whether the dump has the user's files. `None` if and only if no
/// user has that block.
pub fn decode_user_held(format: Format, b: &Block, number: u8) -> Option<(UserRec, bool)>
    ensures found { IfSome result (λ f. (f.0.number ≡ number) × IsUser format f.0
        × (b.now ≡ user_block format (held_byte f.1) f.0)) }
    ensures none { IfNone result ((r : UserRec) (held : Bool) → r.number ≡ number → IsUser format r
        → b.now ≡ user_block format (held_byte held) r → ⊥) }

    // What was written is decoded as itself, so a user has exactly one block, which says whether the user is held.
    ensures again { (r : UserRec) (held : Bool) → r.number ≡ number → IsUser format r
        → b.now ≡ user_block format (held_byte held) r → result ≡ Some (r, held) }
{
    let (r, held) = fields_of(format, b, number)?;
    if keeps_limits(format, &r) && is_same(&encode_user_held(format, &r, held), b) {
        Some((r, held))
    } else {
        None
    }
}

/// The user in the fields of a user's block.
fn fields_of(format: Format, b: &Block, number: u8) -> Option<(UserRec, bool)>
    ensures number { IfSome result (λ f. f.0.number ≡ number) }
    ensures again { (r : UserRec) (held : Bool) → r.number ≡ number → IsUser format r
        → b.now ≡ user_block format (held_byte held) r → result ≡ Some (r, held) }
{
    let mut reader = BlockReader::new(b);
    let _used = reader.take_u8();
    let user = take_user(&mut reader);
    let superior = reader.take_u8();
    let space = reader.take_u32();
    let time = reader.take_u64();
    let held = reader.take_u8();
    let money = take_money(&mut reader, format);
    let r = UserRec {
        number,
        user: user?,
        superior,
        space,
        time,
        money,
    };
    Some((r, held == 1))
}

fn keeps_limits(format: Format, r: &UserRec) -> bool
    ensures { IsTrue result ↔ IsUser format r.now }
{
    let _word = r.user.as_slice();
    r.space <= 65_535 && r.time <= 1_000_000_000 && is_money(format, r.money)
}

fn is_money(format: Format, money: u64) -> bool
    ensures { IsTrue result ↔ IsMoney format money }
{
    match format {
        Format::One => money == 1_000_000,
        Format::Two => money <= 1_000_000_000,
    }
}
