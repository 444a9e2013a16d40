//! The form of a line.
ghost use Rattle.std.specs.Prelude.{◌≡◌, ◌-◌, ◌≤◌, ◌<◌, IfSome};
ghost use Rattle.g_plan.specs.LineReader as how;
ghost use Rattle.g_plan.specs.Words.{words};

use crate::form::{Characters, Form, Value};
use crate::mnemonic::Mnemonic;
use crate::words::{
    before, is_label, is_printed, label, next_word, only_word, without_back, without_front,
};
use g_lines::number;

/// The form of a line; `None` if it has none.
pub(crate) fn read_line(line: &[u8]) -> Option<Form>
    ensures { result ≡ how.form_read line.now }
{
    if !is_printed(line) {
        return None;
    }
    let front = before(b' ', line);
    if !front.is_empty() && !is_label(front) {
        return None;
    }
    read_words(!front.is_empty(), &line[front.len()..])
}

/// The form of the rest after a label, or after what is in its place.
fn read_words(labelled: bool, rest: &[u8]) -> Option<Form>
    ensures { result ≡ how.words_read labelled (words rest.now) rest.now }
{
    match next_word(rest) {
        Some((name, behind)) => read_named(labelled, name, behind, rest),
        None => Some(Form::Nothing),
    }
}

/// The form of a first word, of what follows it, and of the text of both.
fn read_named(labelled: bool, name: &[u8], behind: &[u8], rest: &[u8]) -> Option<Form>
    ensures { result ≡ how.named_read labelled name.now (words behind.now) rest.now }
{
    if name == b"CHARS".as_slice() {
        read_chars(rest)
    } else if name == b"PROGRAM".as_slice() {
        if labelled { None } else { read_program(behind) }
    } else if name == b"AT".as_slice() {
        if labelled { None } else { read_at(behind) }
    } else if name == b"WORD".as_slice() {
        read_word_line(behind)
    } else {
        match Mnemonic::of(name) {
            Some(name) => read_order(name, behind),
            None => None,
        }
    }
}

/// Characters, which follow `CHARS` and a space.
fn read_chars(rest: &[u8]) -> Option<Form>
    ensures { result ≡ how.chars_line_read rest.now }
{
    let line = without_back(without_front(rest));
    if 7 <= line.len() && line.len() <= 46 {
        Some(Form::Chars(Characters::new(&line[6..])))
    } else {
        None
    }
}

/// The size of a program.
fn read_program(text: &[u8]) -> Option<Form>
    ensures { result ≡ how.program_read (words text.now) }
{
    let size = number(only_word(text)?, 0x8000)?;
    if 32 <= size {
        Some(Form::Program(size as u16))
    } else {
        None
    }
}

/// A place.
fn read_at(text: &[u8]) -> Option<Form>
    ensures { result ≡ how.at_read (words text.now) }
{
    let place = number(only_word(text)?, 0x7fff)?;
    Some(Form::At(place as u16))
}

/// A word.
fn read_word_line(text: &[u8]) -> Option<Form>
    ensures { result ≡ how.word_line_read (words text.now) }
{
    let value = read_word(only_word(text)?)?;
    Some(Form::Word(value))
}

/// The word of a WORD line.
fn read_word(text: &[u8]) -> Option<Value>
    ensures { result ≡ how.word_read text.now }
{
    match text {
        [b'-', digits @ ..] => read_negative(digits),
        [] => None,
        _ => read_value(text, 0xff_ffff),
    }
}

/// A negative number by the digits after its sign.
fn read_negative(digits: &[u8]) -> Option<Value>
    ensures { result ≡ how.negative_read digits.now }
{
    let number = number(digits, 0x80_0000)?;
    if 1 <= number {
        Some(Value::Number(0x100_0000 - number as u32))
    } else {
        None
    }
}

/// A label, or a number up to `most`.
fn read_value(text: &[u8], most: u32) -> Option<Value>
    ensures { result ≡ how.value_read most text.now }
{
    match label(text) {
        Some(label) => Some(Value::Named(label)),
        None => read_number(text, most),
    }
}

/// A number up to `most`.
fn read_number(text: &[u8], most: u32) -> Option<Value>
    ensures { result ≡ how.number_value most text.now }
{
    let number = number(text, u64::from(most))?;
    Some(Value::Number(number as u32))
}

/// An order after its name.
fn read_order(name: Mnemonic, text: &[u8]) -> Option<Form>
    ensures { result ≡ how.order_read name (words text.now) }
{
    match name.row().x {
        Some(x) => read_operand(name, x, text),
        None => read_accumulator(name, text),
    }
}

/// An order whose accumulator is written.
fn read_accumulator(name: Mnemonic, text: &[u8]) -> Option<Form>
    ensures { result ≡ how.accumulated name (words text.now) }
{
    let (word, behind) = next_word(text)?;
    let x = accumulator(word)?;
    read_operand(name, x, behind)
}

/// The accumulator that a word is.
fn accumulator(word: &[u8]) -> Option<u8>
    ensures { result ≡ how.accumulator_read word.now }
{
    match word {
        [digit] if b'0' <= *digit && *digit <= b'7' => Some(*digit - b'0'),
        _ => None,
    }
}

/// An order after its accumulator.
fn read_operand(name: Mnemonic, x: u8, text: &[u8]) -> Option<Form>
    ensures { result ≡ how.operand_read name x (words text.now) }
{
    if name.row().most.is_some() {
        read_address(name, x, only_word(text)?)
    } else if next_word(text).is_some() {
        None
    } else {
        Some(Form::Order(name, x, 0, Value::Number(0)))
    }
}

/// An order by the word of its address.
fn read_address(name: Mnemonic, x: u8, word: &[u8]) -> Option<Form>
    ensures { result ≡ how.address_read name x word.now }
{
    let address = before(b'(', word);
    let modifier = modifier(name.row().modified, &word[address.len()..])?;
    let value = read_value(address, 0x100_0000)?;
    Some(Form::Order(name, x, modifier, value))
}

/// The modifier after an address, if it may have one.
fn modifier(may: bool, text: &[u8]) -> Option<u8>
    ensures { result ≡ how.modifier_read may text.now }
{
    match text {
        [] => Some(0),
        [first, digit, last] if may => in_brackets(*first, *digit, *last),
        _ => None,
    }
}

/// The digit from 1 to 3 in brackets.
fn in_brackets(first: u8, digit: u8, last: u8) -> Option<u8>
    ensures { result ≡ how.in_brackets first digit last }
{
    if first == b'(' && b'1' <= digit && digit <= b'3' && last == b')' {
        Some(digit - b'0')
    } else {
        None
    }
}
