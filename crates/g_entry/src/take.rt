//! Reads the parts of a record. Each call is the inverse of the one that writes the part. For other bytes the result is
//! unspecified, since a decoder compares the whole block.
ghost use Rattle.std.specs.Prelude.{◌≡◌, ◌≤◌, ◌+◌, ◌^◌, ◌<◌, ◌*◌, ℕ, List, nat_lt, true, ◌∷◌, ◌++◌, length, drop, Option, Some, IfSome, IsSomeAnd};
ghost use Rattle.std.specs.List.{flat_map, list_all};
ghost use Rattle.g_base.specs.Fields.{number, padded};
ghost use Rattle.g_name.specs.Grammar.{is_word, is_lang};
ghost use Rattle.g_trap.specs.TrapList.{TrapList, IsOthers};
ghost use Rattle.g_entry.specs.FileFields.{AreSets, IsCopy, ArePlaces, pair_fields, lang_field, copy_fields, online_fields};
ghost use Rattle.g_entry.specs.Formats.{IsMoney, place_width, is_place};
ghost use Rattle.g_entry.specs.HeadFields.{IsIntent, intent_fields};
ghost use Rattle.g_entry.specs.UserFields.{money_fields};

use crate::{Format, Intent, TapeCopy};
use arrayvec::ArrayVec;
use g_base::{BlockList, BlockReader, blocks_for};
use g_name::{Lang, Local, User};
use g_trap::{Modes, Traps};

/// A user's name.
pub(crate) fn take_user(reader: &mut BlockReader) -> Option<User>
    requires { 13 ≤ length reader.old }
    ensures left { length reader.new + 13 ≡ length reader.old }
    ensures again { (word rest : List ℕ) → is_word word ≡ true → reader.old ≡ length word ∷ (padded 12 word ++ rest)
        → (result ≡ Some word) × (reader.new ≡ rest) }
{
    let len = reader.take_u8();
    let field = reader.take_bytes(12);
    User::new(front_of(len, field))
}

/// A local name.
pub(crate) fn take_local(reader: &mut BlockReader) -> Option<Local>
    requires { 13 ≤ length reader.old }
    ensures left { length reader.new + 13 ≡ length reader.old }
    ensures again { (word rest : List ℕ) → is_word word ≡ true → reader.old ≡ length word ∷ (padded 12 word ++ rest)
        → (result ≡ Some word) × (reader.new ≡ rest) }
{
    let len = reader.take_u8();
    let field = reader.take_bytes(12);
    Local::new(front_of(len, field))
}

/// The first `len` bytes of a field, or all of it if it is shorter.
fn front_of(len: u8, field: &[u8]) -> &[u8]
    ensures { (bytes : List ℕ) → length bytes ≤ length field.now → len ≡ length bytes → field.now ≡ padded (length field.now) bytes
        → result.now ≡ bytes }
{
    &field[..field.len().min(usize::from(len))]
}

/// A language, padded with spaces.
pub(crate) fn take_lang(reader: &mut BlockReader) -> Option<Lang>
    requires { 4 ≤ length reader.old }
    ensures left { length reader.new + 4 ≡ length reader.old }
    ensures again { (lang rest : List ℕ) → is_lang lang ≡ true → reader.old ≡ lang_field lang ++ rest
        → (result ≡ Some lang) × (reader.new ≡ rest) }
{
    let field = reader.take_bytes(4);
    Lang::new(without_spaces(field))
}

/// The bytes before the first space.
fn without_spaces(field: &[u8]) -> &[u8]
    ensures { (lang : List ℕ) → is_lang lang ≡ true → field.now ≡ lang_field lang → result.now ≡ lang }
{
    for (at, byte) in field.iter().enumerate() {
        if *byte == b' ' {
            return &field[..at];
        }
    }
    field
}

/// MONEY, or 1,000,000 in the format that has none.
pub(crate) fn take_money(reader: &mut BlockReader, format: Format) -> u64
    requires { 8 ≤ length reader.old }
    ensures { (money : ℕ) (rest : List ℕ) → IsMoney format money → reader.old ≡ money_fields format money ++ rest → result ≡ money }
{
    match format {
        Format::One => 1_000_000,
        Format::Two => reader.take_u64(),
    }
}

/// An intent, if there is one.
pub(crate) fn take_intent(reader: &mut BlockReader) -> Option<Intent>
    requires { 17 ≤ length reader.old }
    ensures { (last : ℕ) (intent : Option Intent) (rest : List ℕ) → IfSome intent (IsIntent last) → reader.old ≡ intent_fields intent ++ rest
        → result ≡ intent }
{
    let flag = reader.take_u8();
    let serial = reader.take_u32();
    let place = reader.take_u32();
    let number = reader.take_u64();
    (flag == 1).then_some(Intent {
        serial,
        place,
        number,
    })
}

/// A tape copy, if there is one.
pub(crate) fn take_copy(reader: &mut BlockReader) -> Option<TapeCopy>
    requires { 9 ≤ length reader.old }
    ensures left { length reader.new + 9 ≡ length reader.old }
    ensures again { (copy : Option TapeCopy) (rest : List ℕ) → IfSome copy IsCopy → reader.old ≡ copy_fields copy ++ rest
        → (result ≡ copy) × (reader.new ≡ rest) }
{
    let flag = reader.take_u8();
    let serial = reader.take_u32();
    let first = reader.take_u32();
    (flag == 1).then_some(TapeCopy { serial, first })
}

/// The traps of a file.
pub(crate) fn take_traps(reader: &mut BlockReader) -> Option<Traps>
    requires { 18 ≤ length reader.old }
    ensures left { length reader.new + 18 ≡ length reader.old }
    ensures again { (traps : TrapList) (rest : List ℕ) → IsOthers traps.others → AreSets traps
        → reader.old ≡ traps.owner ∷ length traps.others ∷ (pair_fields traps.others ++ rest)
        → (result ≡ Some traps) × (reader.new ≡ rest) }
{
    let owner = reader.take_u8();
    let count = reader.take_u8();
    let field = reader.take_bytes(16);
    traps_of(owner, count, field)
}

fn traps_of(owner: u8, count: u8, field: &[u8]) -> Option<Traps>
    requires { length field.now ≡ 16 }
    ensures { (traps : TrapList) → IsOthers traps.others → AreSets traps → owner ≡ traps.owner → count ≡ length traps.others
        → field.now ≡ pair_fields traps.others → result ≡ Some traps }
{
    let owner = Modes::from_bits(owner)?;
    let others = pairs_of(count, field)?;
    Traps::of(owner, others.as_slice())
}

/// Pairs of a user's number and modes. `None` if a number isn't a valid set of modes.
fn pairs_of(count: u8, field: &[u8]) -> Option<ArrayVec<(u8, Modes), 8>>
    requires { length field.now ≡ 16 }
    ensures { (pairs : List (ℕ × ℕ)) → length pairs ≤ 8 → list_all (λ pair. nat_lt pair.1 32) pairs ≡ true → count ≡ length pairs
        → field.now ≡ pair_fields pairs → IsSomeAnd result (λ taken. taken.items ≡ pairs) }
{
    let mut reader = BlockReader::new(field);
    let mut pairs = ArrayVec::new();
    for _pair in 0..count.min(8) {
        let user = reader.take_u8();
        let modes = Modes::from_bits(reader.take_u8())?;
        pairs.push((user, modes));
    }
    Some(pairs)
}

/// The block numbers of a file of this length, if it is online.
pub(crate) fn take_places(reader: &mut BlockReader, format: Format, len: u32) -> Option<BlockList>
    requires { 385 ≤ length reader.old }
    ensures { (online : Option (List ℕ)) (rest : List ℕ) → len ≤ 65536 → IfSome online (ArePlaces format len)
        → reader.old ≡ online_fields format online ++ rest → result ≡ online }
{
    if reader.take_u8() != 1 || len > 65_536 {
        return None;
    }
    let mut places = BlockList::new();
    for _place in 0..blocks_for(len) {
        places.push(take_place(reader, format));
    }
    Some(places)
}

/// A block number.
fn take_place(reader: &mut BlockReader, format: Format) -> u32
    requires { 3 ≤ length reader.old }
    ensures left { length reader.old ≤ length reader.new + 3 }
    ensures again { (place : ℕ) (rest : List ℕ) → is_place format place ≡ true → reader.old ≡ number (place_width format) place ++ rest
        → (result ≡ place) × (reader.new ≡ rest) }
{
    match format {
        Format::One => u32::from(reader.take_u16()),
        Format::Two => reader.take_u24(),
    }
}
