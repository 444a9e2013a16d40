//! Writes the parts of a record.
ghost use Rattle.std.specs.Prelude.{◌≡◌, ◌+◌, ◌≤◌, true, [], ◌∷◌, ◌++◌, length, IfSome};
ghost use Rattle.std.specs.Option.{option_copied};
ghost use Rattle.std.specs.List.{flat_map, list_all};
ghost use Rattle.g_base.specs.Fields.{number, padded};
ghost use Rattle.g_entry.specs.FileFields.{pair_fields, lang_field, copy_fields, online_fields};
ghost use Rattle.g_entry.specs.Formats.{place_width, is_place};
ghost use Rattle.g_entry.specs.HeadFields.{intent_fields};
ghost use Rattle.g_entry.specs.UserFields.{money_fields};

use crate::{Format, Intent, TapeCopy};
use g_base::{BlockList, BlockWriter};
use g_name::Lang;
use g_trap::Traps;

/// The length of a word, and a field of 12 bytes with it.
#[tactic(auto, using(crate::proofs::FieldLemmas::field_lengths))]
pub(crate) fn put_word(writer: &mut BlockWriter, word: &[u8])
    requires fits { length word.now ≤ 12 }
    requires room { length writer.old + 13 ≤ 512 }
    ensures fields { writer.new ≡ writer.old ++ (length word.now ∷ []) ++ padded 12 word.now }
    ensures len { length writer.new ≡ length writer.old + 13 }
{
    writer.put_u8(word.len() as u8);
    writer.put_padded(12, word);
}

/// MONEY, if the format has it.
#[tactic(auto, using(crate::proofs::FieldLemmas::field_lengths))]
pub(crate) fn put_money(writer: &mut BlockWriter, format: Format, money: u64)
    requires { length writer.old + 8 ≤ 512 }
    ensures fields { writer.new ≡ writer.old ++ money_fields format money }
    ensures len { length writer.new ≤ length writer.old + 8 }
{
    match format {
        Format::One => {}
        Format::Two => writer.put_u64(money),
    }
}

/// An intent, or zeros in its place.
#[tactic(auto, using(crate::proofs::FieldLemmas::field_lengths))]
pub(crate) fn put_intent(writer: &mut BlockWriter, intent: Option<Intent>)
    requires { length writer.old + 17 ≤ 512 }
    ensures fields { writer.new ≡ writer.old ++ intent_fields intent }
    ensures len { length writer.new ≡ length writer.old + 17 }
{
    match intent {
        None => writer.put_zeros(17),
        Some(intent) => {
            writer.put_u8(1);
            writer.put_u32(intent.serial);
            writer.put_u32(intent.place);
            writer.put_u64(intent.number);
        }
    }
}

/// A tape copy, or zeros in its place.
#[tactic(auto, using(crate::proofs::FieldLemmas::field_lengths))]
pub(crate) fn put_copy(writer: &mut BlockWriter, copy: Option<TapeCopy>)
    requires { length writer.old + 9 ≤ 512 }
    ensures fields { writer.new ≡ writer.old ++ copy_fields copy }
    ensures len { length writer.new ≡ length writer.old + 9 }
{
    match copy {
        None => writer.put_zeros(9),
        Some(copy) => {
            writer.put_u8(1);
            writer.put_u32(copy.serial);
            writer.put_u32(copy.first);
        }
    }
}

/// The four characters of a language, padded with spaces.
pub(crate) fn put_lang(writer: &mut BlockWriter, lang: &Lang)
    requires { length writer.old + 4 ≤ 512 }
    ensures fields { writer.new ≡ writer.old ++ lang_field lang.now }
    ensures len { length writer.new ≡ length writer.old + 4 }
{
    let characters = lang.as_slice();
    writer.put_bytes(characters);
    let spaces = [b' '; 4];
    writer.put_bytes(&spaces[characters.len()..]);
}

/// The owner's modes, the number of other users, and a field of 16 bytes with each one's number and modes.
pub(crate) fn put_traps(writer: &mut BlockWriter, traps: &Traps)
    requires { length writer.old + 18 ≤ 512 }
    ensures fields { writer.new ≡ writer.old ++ (traps.now.owner ∷ length traps.now.others ∷ []) ++ pair_fields traps.now.others }
    ensures len { length writer.new ≡ length writer.old + 18 }
{
    let others = traps.others();
    writer.put_u8(traps.owner_modes().bits());
    writer.put_u8(others.len() as u8);
    for (user, modes) in others {
        writer.put_u8(*user);
        writer.put_u8(modes.bits());
    }
    writer.put_zeros(16 - 2 * others.len());
}

/// Whether a file is online, and its block numbers if it is.
pub(crate) fn put_online(writer: &mut BlockWriter, format: Format, online: Option<&BlockList>)
    requires places { IfSome (option_copied online) (λ places. list_all (is_place format) places ≡ true) }
    requires room { length writer.old + 385 ≤ 512 }
    ensures { writer.new ≡ writer.old ++ online_fields format (option_copied online.entry) }
{
    match online {
        None => writer.put_u8(0),
        Some(places) => {
            writer.put_u8(1);
            put_places(writer, format, places.as_slice());
        }
    }
}

/// Block numbers.
fn put_places(writer: &mut BlockWriter, format: Format, places: &[u32])
    requires each { list_all (is_place format) places.now ≡ true }
    requires few { length places.now ≤ 128 }
    requires room { length writer.old + 384 ≤ 512 }
    ensures { writer.new ≡ writer.old ++ flat_map (number (place_width format)) places.now }
{
    for place in places {
        put_place(writer, format, *place);
    }
}

/// A block number, in as many bytes as the format has for it.
#[tactic(auto, using(crate::proofs::FieldLemmas::field_lengths))]
fn put_place(writer: &mut BlockWriter, format: Format, place: u32)
    requires fits { is_place format place ≡ true }
    requires room { length writer.old + 3 ≤ 512 }
    ensures fields { writer.new ≡ writer.old ++ number (place_width format) place }
    ensures len { length writer.new ≤ length writer.old + 3 }
{
    match format {
        Format::One => writer.put_u16(place as u16),
        Format::Two => writer.put_u24(place),
    }
}
