//! The block of a file, written and read.
ghost use Rattle.std.specs.Prelude.{◌≡◌, ◌≤◌, ◌==◌, ◌↔◌, [], ◌++◌, ℕ, List, Option, true, IsTrue, IfSome, IfNone, Some, length, nat_lt, if◌then◌else◌};
ghost use Rattle.std.specs.List.{list_all};
ghost use Rattle.std.specs.Option.{option_copied};
ghost use Rattle.g_trap.specs.TrapList.{IsOthers};
ghost use Rattle.g_entry.specs.FileFields.{IsFile, IsCopy, AreSets, ArePlaces, lacks, file_block, file_fields, on_tape, online_fields};
ghost use Rattle.g_entry.specs.Formats.{is_place};

use crate::compare::{both, next_bytes_equal, rec_comes, zeros_come};
use crate::put::{put_copy, put_lang, put_online, put_traps, put_word};
use crate::same::is_same;
use crate::take::{take_copy, take_lang, take_local, take_places, take_traps};
use crate::{FileRec, Format, TapeCopy};
use g_base::{Block, BlockList, BlockReader, BlockWriter, blocks_for};
use g_trap::{Modes, Traps};

/// The block of a file in a format.
pub fn encode_file_in(format: Format, r: &FileRec, online: Option<&BlockList>) -> Block
    requires file { IsFile r.now }
    requires places { IfSome (option_copied online) (ArePlaces format r.now.len) }
    ensures { result ≡ file_block format r.now (option_copied online.entry) }
{
    let mut writer = BlockWriter::new();
    put_file(&mut writer, format, r, online);
    writer.finish()
}

/// Writes the fields of a file's block to a new writer, so that the block needn't be moved.
#[tactic(auto, using(crate::proofs::FieldLemmas::field_lengths, crate::proofs::FieldLemmas::name_lengths), unfolding(crate::specs::FileFields::file_fields))]
pub fn put_file(writer: &mut BlockWriter, format: Format, r: &FileRec, online: Option<&BlockList>)
    requires empty { writer.old ≡ [] }
    requires file { IsFile r.now }
    requires places { IfSome (option_copied online) (ArePlaces format r.now.len) }
    ensures { writer.new ≡ file_fields format r.now (option_copied online.entry) }
{
    writer.put_u8(1);
    writer.put_u8(r.owner);
    put_word(writer, r.local.as_slice());
    writer.put_u16(r.generation);
    put_lang(writer, &r.lang);
    writer.put_u64(r.stamp);
    writer.put_u32(r.len);
    put_traps(writer, &r.traps);
    put_copy(writer, r.tape);
    put_online(writer, format, online);
}

/// The file of this number with this block, and its block numbers if it is online. `None` if and only if no file has
/// that block.
pub fn decode_file_in(
    format: Format,
    b: &Block,
    number: u16,
) -> Option<(FileRec, Option<BlockList>)>
    ensures number { IfSome result (λ found. found.0.number ≡ number) }
    ensures file { IfSome result (λ found. IsFile found.0 × IfSome found.1 (ArePlaces format found.0.len)) }
    ensures block { IfSome result (λ found. b.now ≡ file_block format found.0 found.1) }
    ensures none { IfNone result ((r : FileRec) (online : Option (List ℕ)) → r.number ≡ number → IsFile r
        → IfSome online (ArePlaces format r.len) → b.now ≡ file_block format r online → ⊥) }

    // What was written is decoded as itself, so a file has exactly one block.
    ensures again { (r : FileRec) (online : Option (List ℕ)) → r.number ≡ number → IsFile r
        → IfSome online (ArePlaces format r.len) → b.now ≡ file_block format r online → result ≡ Some (r, online) }
{
    let (r, online) = fields_of(format, b, number)?;
    if keeps_file(&r)
        && keep_places(format, r.len, online.as_ref())
        && is_same(&encode_file_in(format, &r, online.as_ref()), b)
    {
        Some((r, online))
    } else {
        None
    }
}

/// The record in the fields of a file's block.
fn fields_of(format: Format, b: &Block, number: u16) -> Option<(FileRec, Option<BlockList>)>
    ensures number { IfSome result (λ found. found.0.number ≡ number) }
    ensures again { (r : FileRec) (online : Option (List ℕ)) → r.number ≡ number → IsFile r
        → IfSome online (ArePlaces format r.len) → b.now ≡ file_block format r online → result ≡ Some (r, online) }
{
    let mut reader = BlockReader::new(b);
    let r = take_rec(&mut reader, number)?;
    let online = take_places(&mut reader, format, r.len);
    Some((r, online))
}

/// The file of this number with this block on tape. There it has no block numbers, and an empty file is online. `None`
/// if and only if no file has that block.
pub fn decode_file_on_tape(format: Format, b: &Block, number: u16) -> Option<FileRec>
    ensures found { IfSome result (λ r. (r.number ≡ number) × IsFile r × (b.now ≡ file_block format r (on_tape r))) }
    ensures none { IfNone result ((r : FileRec) → r.number ≡ number → IsFile r → b.now ≡ file_block format r (on_tape r) → ⊥) }
{
    let r = file_of_fields(b, number)?;
    if stands_on_tape(format, &r, b) {
        Some(r)
    } else {
        None
    }
}

/// Whether it is the block of this file on tape. Nearly all files trap no other user, and can be compared without
/// encoding a block.
fn stands_on_tape(format: Format, r: &FileRec, b: &Block) -> bool
    requires { IsFile r.now }
    ensures { IsTrue result ↔ (b.now ≡ file_block format r.now (on_tape r.now)) }
{
    if r.traps.others().is_empty() {
        fields_stand(r, b)
    } else {
        is_same(&encode_on_tape(format, r), b)
    }
}

/// Whether it is the block on tape of this file, which traps no other user.
fn fields_stand(r: &FileRec, b: &Block) -> bool
    requires file { IsFile r.now }
    requires nobody { r.now.traps.others ≡ [] }
    ensures { (format : Format) → IsTrue result ↔ (b.now ≡ file_block format r.now (on_tape r.now)) }
{
    let mut reader = BlockReader::new(b);
    let fields = rec_comes(&mut reader, r);
    let flag = [online_flag(r.len)];
    let online = next_bytes_equal(&mut reader, &flag);
    let zeros = zeros_come(&mut reader, 451);
    both(fields, both(online, zeros))
}

fn online_flag(len: u32) -> u8
    ensures { result ≡ (if len == 0 then 1 else 0) }
{
    if len == 0 { 1 } else { 0 }
}

/// The record in a file's block, without block numbers, if it is within the limits. A block that was written gives the
/// record that was written. For other bytes the result is unspecified; the caller compares.
fn file_of_fields(b: &Block, number: u16) -> Option<FileRec>
    ensures file { IfSome result (λ r. (r.number ≡ number) × IsFile r) }
    ensures again { (format : Format) (r : FileRec) (online : Option (List ℕ)) → r.number ≡ number → IsFile r
        → b.now ≡ file_block format r online → result ≡ Some r }
{
    let r = rec_of(b, number)?;
    if keeps_file(&r) { Some(r) } else { None }
}

/// The block of a file on tape.
fn encode_on_tape(format: Format, r: &FileRec) -> Block
    requires file { IsFile r.now }
    ensures { result ≡ file_block format r.now (on_tape r.now) }
{
    if r.len == 0 {
        encode_file_in(format, r, Some(&BlockList::new()))
    } else {
        encode_file_in(format, r, None)
    }
}

/// The record in the fields of a file's block before the block numbers.
fn rec_of(b: &Block, number: u16) -> Option<FileRec>
    ensures number { IfSome result (λ r. r.number ≡ number) }
    ensures again { (format : Format) (r : FileRec) (online : Option (List ℕ)) → r.number ≡ number → IsFile r
        → b.now ≡ file_block format r online → result ≡ Some r }
{
    let mut reader = BlockReader::new(b);
    take_rec(&mut reader, number)
}

/// The fields of a file before its block numbers.
fn take_rec(reader: &mut BlockReader, number: u16) -> Option<FileRec>
    requires { length reader.old ≡ 512 }
    ensures left { 385 ≤ length reader.new }
    ensures number { IfSome result (λ r. r.number ≡ number) }
    ensures again { (format : Format) (r : FileRec) (online : Option (List ℕ)) → r.number ≡ number → IsFile r
        → reader.old ≡ file_block format r online
        → (zeros : List ℕ) × (result ≡ Some r) × (reader.new ≡ online_fields format online ++ zeros) }
{
    let _used = reader.take_u8();
    let owner = reader.take_u8();
    let local = take_local(reader);
    let generation = reader.take_u16();
    let lang = take_lang(reader);
    let stamp = reader.take_u64();
    let len = reader.take_u32();
    let traps = take_traps(reader);
    let tape = take_copy(reader);
    Some(FileRec {
        number,
        owner,
        local: local?,
        generation,
        lang: lang?,
        stamp,
        len,
        traps: traps?,
        tape,
    })
}

fn keeps_file(r: &FileRec) -> bool
    ensures { IsTrue result ↔ IsFile r.now }
{
    let _word = r.local.as_slice();
    let _characters = r.lang.as_slice();
    let least = 1 <= r.generation && r.stamp < 1 << 62;
    least
        && r.generation <= 4095
        && r.len <= 65_536
        && keep_traps(r.owner, &r.traps)
        && keeps_copy(r.tape)
}

fn keep_traps(owner: u8, traps: &Traps) -> bool
    ensures cases { IsTrue result ↔ (AreSets traps.now × (lacks owner traps.now.others ≡ true)) }
    ensures others { IsOthers traps.now.others }
{
    let _owner_modes = traps.owner_modes().bits();
    are_sets(traps.others()) && is_absent(owner, traps.others())
}

/// Whether the modes are sets. Every value of the type is; this call exists so that its contract states it.
fn are_sets(others: &[(u8, Modes)]) -> bool
    ensures { result ≡ list_all (λ pair. nat_lt pair.1 32) others.now }
{
    others.iter().all(|(_, modes)| modes.bits() < 32)
}

fn is_absent(owner: u8, others: &[(u8, Modes)]) -> bool
    ensures { result ≡ lacks owner others.now }
{
    others.iter().all(|(user, _)| *user != owner)
}

fn keeps_copy(tape: Option<TapeCopy>) -> bool
    ensures { IsTrue result ↔ IfSome tape IsCopy }
{
    match tape {
        None => true,
        Some(copy) => (1..=999_999).contains(&copy.serial),
    }
}

fn keep_places(format: Format, len: u32, online: Option<&BlockList>) -> bool
    ensures { IsTrue result ↔ IfSome (option_copied online.entry) (ArePlaces format len) }
{
    match online {
        None => true,
        Some(places) => u32::try_from(places.as_slice().len()) == Ok(blocks_for(len))
            && are_places(format, places.as_slice()),
    }
}

fn are_places(format: Format, places: &[u32]) -> bool
    ensures { result ≡ list_all (is_place format) places.now }
{
    let end = match format {
        Format::One => 65_536,
        Format::Two => 16_777_216,
    };
    places.iter().all(|place| *place < end)
}
