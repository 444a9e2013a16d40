//! The summary of a text that is given piece by piece.
ghost use Rattle.std.specs.List.{fold};
ghost use Rattle.std.specs.Prelude.{◌≡◌, ◌+◌, ◌*◌, ◌%◌, ◌<◌, ◌≤◌, ◌^◌, ◌++◌, [], ℕ, List, IfOk, length};
ghost use Rattle.g_demo.specs.Summary as spec;

use crate::demonstration::Demonstration;
use crate::text::push_line;
use g_base::NoMemory;
use g_lines::push_decimal;
use g_name::Text;
use std::alloc::Global;

/// The summary of a text: the number of its bytes 10, the number of its bytes, and the number into which each byte is folded.
#[derive(Clone, Copy, PartialEq, Eq)]
pub struct Summary {
    pub lines: u64,
    pub bytes: u64,
    pub fold: u32,
}

impl Summary {
    /// The summary of the empty text.
    pub fn new() -> Summary
        ensures { result ≡ spec.summary_of [] }
    {
        Summary {
            lines: 0,
            bytes: 0,
            fold: 0,
        }
    }

    /// The summary of a text in memory.
    pub fn of_text(text: &[u8]) -> Summary
        ensures { result ≡ spec.summary_of text.now }
    {
        let mut summary = Summary::new();
        summary.add(text);
        summary
    }

    /// Adds a piece: if this was the summary of a text, it becomes that of the text followed by the piece.
    pub fn add(&mut self, piece: &[u8])
        requires lines { self.old.lines ≤ self.old.bytes }
        requires room { self.old.bytes + length piece.now < 2 ^ 64 }
        ensures { (text : List ℕ) → self.old ≡ spec.summary_of text → self.new ≡ spec.summary_of (text ++ piece.now) }
    {
        self.lines += line_count(piece);
        self.bytes += piece.len() as u64;
        self.fold = folded_on(self.fold, piece);
    }
}

/// The number of bytes counted at once.
const FEW: usize = 128;

/// The number of bytes 10 in a piece.
fn line_count(piece: &[u8]) -> u64
    ensures { result ≡ spec.line_count piece.now }
{
    let mut count = 0u64;
    let mut rest = piece;
    while !rest.is_empty() {
        let (front, behind) = rest.split_at(rest.len().min(FEW));
        count += u64::from(few_lines(front));
        rest = behind;
    }
    count
}

/// The same for a piece so short that a byte can count them, which lets a compiler vectorize the loop.
fn few_lines(piece: &[u8]) -> u8
    requires { length piece.now ≤ 128 }
    ensures { result ≡ spec.line_count piece.now }
{
    let mut count = 0u8;
    for byte in piece {
        count += u8::from(*byte == b'\n');
    }
    count
}

/// A number into which a piece is folded, eight bytes at a time: with single bytes each fold would wait for the one before.
fn folded_on(so_far: u32, piece: &[u8]) -> u32
    ensures { result ≡ fold spec.folded so_far piece.now }
{
    let mut number = so_far;
    let mut rest = piece;
    while let [a, b, c, d, e, f, g, h, behind @ ..] = rest {
        number = folded_twice(number, four(*a, *b, *c, *d), four(*e, *f, *g, *h));
        rest = behind;
    }
    with_bytes(number, rest)
}

/// A number into which bytes are folded one by one.
fn with_bytes(so_far: u32, piece: &[u8]) -> u32
    ensures { result ≡ fold spec.folded so_far piece.now }
{
    let mut number = so_far;
    for byte in piece {
        number = folded(number, *byte);
    }
    number
}

/// What four bytes add to a number into which they are folded.
fn four(a: u8, b: u8, c: u8, d: u8) -> u64
    ensures value { result ≡ 29791 * a + 961 * b + 31 * c + d }
    ensures most { result ≤ 7849920 }
{
    29_791 * u64::from(a) + 961 * u64::from(b) + 31 * u64::from(c) + u64::from(d)
}

/// A number into which four bytes are folded, and four more, by what each four add.
fn folded_twice(so_far: u32, front: u64, back: u64) -> u32
    requires { (front ≤ 7849920) × (back ≤ 7849920) }
    ensures { result ≡ (2487512833 * so_far + 923521 * front + back) % 2 ^ 32 }
{
    // The first factor is 31^8, the second 31^4, each modulo 2^32.
    let sum = 2_487_512_833 * u64::from(so_far) + 923_521 * front + back;
    (sum % 4_294_967_296) as u32
}

/// One byte folded into a number.
fn folded(so_far: u32, byte: u8) -> u32
    ensures { result ≡ spec.folded so_far byte }
{
    ((31 * u64::from(so_far) + u64::from(byte)) % 4_294_967_296) as u32
}

/// The four lines that a demonstration prints: `DEMO` with its two numbers, `LINES`, `BYTES`, `FOLD`.
pub fn summary_text(
    alloc: Global,
    demo: &Demonstration,
    summary: &Summary,
) -> Result<Text, NoMemory>
    ensures { IfOk result (λ text. text ≡ spec.summary_text demo.now summary.now) }
{
    let mut text = Text::from_slice(alloc, b"DEMO ")?;
    push_decimal(&mut text, u64::from(demo.number))?;
    push_line(&mut text, b" ", u64::from(demo.rounds), b"")?;
    push_line(&mut text, b"LINES ", summary.lines, b"")?;
    push_line(&mut text, b"BYTES ", summary.bytes, b"")?;
    push_line(&mut text, b"FOLD ", u64::from(summary.fold), b"")?;
    Ok(text)
}
