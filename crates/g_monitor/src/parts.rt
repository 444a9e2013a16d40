//! The parts of lines: numbers, full names, modes and words of a program.
ghost use Rattle.std.specs.Fmt.{decimal};
ghost use Rattle.std.specs.Prelude.{◌≡◌, ◌≤◌, ◌+◌, ◌++◌, ◌∷◌, [], length, IfSome, OnOk};
ghost use Rattle.arrayvec.specs.ArrayVec.{array_vec_len};
ghost use Rattle.g_word.specs.Octal.{octal_digits};
ghost use Rattle.g_monitor.specs.Parts.{mode_word, full_text, shown_mode, modes_text, with_number, with_numbers, with_copy};

use arrayvec::ArrayVec;
use g_base::NoMemory;
use g_lines::push_decimal;
use g_name::{Full, Text};
use g_trap::{Mode, Modes};
use g_word::Word;
use itoa::Buffer;

/// The word for a mode, as commands and texts write it.
pub fn mode_word(mode: Mode) -> &'static [u8]
    ensures { result.now ≡ mode_word mode }
{
    match mode {
        Mode::Read => b"READ",
        Mode::Write => b"WRITE",
        Mode::Append => b"APPEND",
        Mode::Execute => b"EXECUTE",
        Mode::Erase => b"ERASE",
    }
}

/// Appends the text of a full name; without memory the text is unchanged.
pub fn push_full(text: &mut Text, full: &Full) -> Result<(), NoMemory>
    ensures { OnOk result (text.new ≡ text.old ++ full_text full.now) }
{
    let name = text_of_full(full);
    text.extend(name.as_slice())
}

/// The text of a full name, which has at most 38 bytes and is built without allocation, so that appending it needs only one allocation.
fn text_of_full(full: &Full) -> ArrayVec<u8, 40>
    ensures { result.items ≡ full_text full.now }
{
    let mut name = ArrayVec::new();
    name.push(b':');
    put(&mut name, full.user.as_slice());
    name.push(b'.');
    put(&mut name, full.local.as_slice());
    name.push(b'(');
    put_generation(&mut name, full.generation);
    name.push(b'/');
    put(&mut name, full.lang.as_slice());
    name.push(b')');
    name
}

/// Appends a few bytes to those of a name.
fn put(name: &mut ArrayVec<u8, 40>, bytes: &[u8])
    requires { array_vec_len name.old + length bytes.now ≤ 40 }
    ensures items { name.new.items ≡ name.old.items ++ bytes.now }
    ensures len { array_vec_len name.new ≡ array_vec_len name.old + length bytes.now }
{
    for byte in bytes {
        name.push(*byte);
    }
}

/// Appends the digits of a generation to a name. Most generations have one digit.
fn put_generation(name: &mut ArrayVec<u8, 40>, generation: u16)
    requires { array_vec_len name.old + 5 ≤ 40 }
    ensures items { name.new.items ≡ name.old.items ++ decimal generation }
    ensures len { array_vec_len name.new ≤ array_vec_len name.old + 5 }
{
    match only_digit(generation) {
        Some(digit) => name.push(digit),
        None => put(name, Buffer::new().format(generation).as_bytes()),
    }
}

/// Appends the digits of a generation. Most generations have one digit.
pub(crate) fn push_generation(text: &mut Text, generation: u16) -> Result<(), NoMemory>
    ensures ok { OnOk result (text.new ≡ text.old ++ decimal generation) }
{
    match only_digit(generation) {
        Some(digit) => text.push(digit),
        None => push_decimal(text, u64::from(generation)),
    }
}

/// The digit of a number that has only one.
#[tactic(auto, using(crate::proofs::NumberLemmas::only_digit))]
fn only_digit(number: u16) -> Option<u8>
    ensures { IfSome result (λ digit. decimal number ≡ digit ∷ []) }
{
    if number < 10 {
        Some(b'0' + number as u8)
    } else {
        None
    }
}

/// Appends words and a number.
pub fn push_number(text: &mut Text, words: &[u8], number: u64) -> Result<(), NoMemory>
    ensures { OnOk result (text.new ≡ text.old ++ with_number words.now number) }
{
    text.extend(words)?;
    push_decimal(text, number)
}

/// Appends words and two numbers.
pub fn push_numbers(text: &mut Text, words: &[u8], first: u64, second: u64) -> Result<(), NoMemory>
    ensures { OnOk result (text.new ≡ text.old ++ with_numbers words.now first second) }
{
    text.extend(words)?;
    push_decimal(text, first)?;
    text.extend(b" ")?;
    push_decimal(text, second)
}

/// Appends words, a full name and a number.
pub(crate) fn push_copy(
    text: &mut Text,
    words: &[u8],
    full: &Full,
    number: u64,
) -> Result<(), NoMemory>
    ensures { OnOk result (text.new ≡ text.old ++ with_copy words.now full.now number) }
{
    text.extend(words)?;
    push_full(text, full)?;
    text.extend(b" ")?;
    push_decimal(text, number)
}

/// Appends words and a text.
pub(crate) fn push_words(text: &mut Text, words: &[u8], rest: &[u8]) -> Result<(), NoMemory>
    ensures { OnOk result (text.new ≡ text.old ++ (words.now ++ rest.now)) }
{
    text.extend(words)?;
    text.extend(rest)
}

/// Appends words and a full name.
pub(crate) fn push_named(text: &mut Text, words: &[u8], full: &Full) -> Result<(), NoMemory>
    ensures { OnOk result (text.new ≡ text.old ++ (words.now ++ full_text full.now)) }
{
    text.extend(words)?;
    push_full(text, full)
}

/// The letter of a mode, or a dot if the mode is closed.
fn shown_mode(modes: Modes, mode: Mode, letter: u8) -> u8
    ensures { result ≡ shown_mode modes mode letter }
{
    if modes.contains(mode) { letter } else { b'.' }
}

/// Appends `RWAXE`, with a dot for each mode that is closed.
#[tactic(auto, unfolding(crate::specs::Parts::modes_text))]
pub(crate) fn push_modes(text: &mut Text, modes: Modes) -> Result<(), NoMemory>
    ensures { OnOk result (text.new ≡ text.old ++ modes_text modes) }
{
    text.extend(&[
        shown_mode(modes, Mode::Read, b'R'),
        shown_mode(modes, Mode::Write, b'W'),
        shown_mode(modes, Mode::Append, b'A'),
        shown_mode(modes, Mode::Execute, b'X'),
        shown_mode(modes, Mode::Erase, b'E'),
    ])
}

/// Appends a word in eight octal digits.
pub(crate) fn push_octal(text: &mut Text, word: Word) -> Result<(), NoMemory>
    ensures { OnOk result (text.new ≡ text.old ++ octal_digits 8 word) }
{
    text.extend(&word.octal())
}
