//! Compares the fields of a block with those of a record, in order.
ghost use Rattle.std.specs.Prelude.{◌≡◌, ◌↔◌, ◌+◌, ◌≤◌, [], ◌∷◌, IsTrue, length, replicate};
ghost use Rattle.g_base.specs.Fields.{padded};
ghost use Rattle.g_entry.specs.Comparison.{Comes, rec_fields};
ghost use Rattle.g_entry.specs.FileFields.{IsFile, copy_fields, lang_field};

use crate::same::is_same;
use crate::{FileRec, TapeCopy};
use g_base::BlockReader;
use g_name::Lang;

/// Reads as many bytes as `bytes` has and returns whether they are the same.
pub(crate) fn next_bytes_equal(reader: &mut BlockReader, bytes: &[u8]) -> bool
    requires { length bytes.now ≤ length reader.old }
    ensures { Comes bytes.now reader.old reader.new result }
{
    let taken = reader.take_bytes(bytes.len());
    is_same(taken, bytes)
}

/// Reads `count` bytes and returns whether they are zeros.
pub(crate) fn zeros_come(reader: &mut BlockReader, count: usize) -> bool
    requires few { count ≤ 512 }
    requires within { count ≤ length reader.old }
    ensures { Comes (replicate count 0) reader.old reader.new result }
{
    let zeros = [0; 512];
    next_bytes_equal(reader, &zeros[..count])
}

/// Whether both are true.
pub(crate) fn both(one: bool, other: bool) -> bool
    ensures { IsTrue result ↔ (IsTrue one × IsTrue other) }
{
    one & other
}

/// Compares a word: its length, and a field of 12 bytes with it.
fn word_comes(reader: &mut BlockReader, word: &[u8]) -> bool
    requires fits { length word.now ≤ 12 }
    requires within { 13 ≤ length reader.old }
    ensures comes { Comes (length word.now ∷ padded 12 word.now) reader.old reader.new result }
    ensures left { length reader.old ≡ 13 + length reader.new }
{
    let len = [word.len() as u8];
    let counted = next_bytes_equal(reader, &len);
    let same = next_bytes_equal(reader, word);
    let zeros = zeros_come(reader, 12 - word.len());
    both(counted, both(same, zeros))
}

/// Compares a language: four characters, padded with spaces.
fn lang_comes(reader: &mut BlockReader, lang: &Lang) -> bool
    requires { 4 ≤ length reader.old }
    ensures comes { Comes (lang_field lang.now) reader.old reader.new result }
    ensures left { length reader.old ≡ 4 + length reader.new }
{
    let characters = lang.as_slice();
    let spaces = [b' '; 4];
    let same = next_bytes_equal(reader, characters);
    let behind = next_bytes_equal(reader, &spaces[characters.len()..]);
    both(same, behind)
}

/// Compares a tape copy, or the zeros in its place.
fn copy_comes(reader: &mut BlockReader, copy: Option<TapeCopy>) -> bool
    requires { 9 ≤ length reader.old }
    ensures comes { Comes (copy_fields copy) reader.old reader.new result }
    ensures left { length reader.old ≡ 9 + length reader.new }
{
    match copy {
        None => zeros_come(reader, 9),
        Some(copy) => {
            let flag = [1];
            let there = next_bytes_equal(reader, &flag);
            let serial = next_bytes_equal(reader, &copy.serial.to_be_bytes());
            let first = next_bytes_equal(reader, &copy.first.to_be_bytes());
            both(there, both(serial, first))
        }
    }
}

/// Compares the fields of a file that traps no other user, up to the block numbers.
pub(crate) fn rec_comes(reader: &mut BlockReader, r: &FileRec) -> bool
    requires file { IsFile r.now }
    requires nobody { r.now.traps.others ≡ [] }
    requires within { length reader.old ≡ 512 }
    ensures comes { Comes (rec_fields r.now) reader.old reader.new result }
    ensures left { length reader.old ≡ 60 + length reader.new }
{
    let head = [1, r.owner];
    let used = next_bytes_equal(reader, &head);
    let local = word_comes(reader, r.local.as_slice());
    let generation = next_bytes_equal(reader, &r.generation.to_be_bytes());
    let lang = lang_comes(reader, &r.lang);
    let stamp = next_bytes_equal(reader, &r.stamp.to_be_bytes());
    let len = next_bytes_equal(reader, &r.len.to_be_bytes());
    let modes = [r.traps.owner_modes().bits(), 0];
    let traps = next_bytes_equal(reader, &modes);
    let others = zeros_come(reader, 16);
    let copy = copy_comes(reader, r.tape);
    let front = both(used, both(local, both(generation, lang)));
    let back = both(stamp, both(len, both(traps, both(others, copy))));
    both(front, back)
}
