//! The lines of a text, one after the other.
ghost use Rattle.std.specs.Prelude.{◌≡◌, ◌≢◌, ◌<◌, ◌↔◌, [], ◌∷◌, ◌++◌, length, All, IfNone, IsTrue, MatchOption};
ghost use Rattle.g_lines.specs.Lines.{lines_of};

use memchr::memchr;
use std::marker::Model;

/// The lines of a text that haven't been taken yet, without their bytes 10.
#[derive(Drop)]
pub struct Lines<'a> {
    rest: &'a [u8],
}

impl<'a> Model for Lines<'a> {
    ghost use Rattle.std.specs.Prelude.{ℕ, List};
    ghost use Rattle.g_lines.specs.Lines.{lines_of};

    ghost Value = { List (List ℕ) };

    ghost view = { λ lines. lines_of lines.rest.now };
}

impl<'a> Lines<'a> {
    /// The lines of a text.
    pub fn new(text: &'a [u8]) -> Lines<'a>
        ensures { result ≡ lines_of text.now }
    {
        Lines { rest: text }
    }

    /// Whether no line is left.
    pub fn is_empty(&self) -> bool
        ensures { IsTrue result ↔ (self.now ≡ []) }
    {
        self.rest.is_empty()
    }

    /// The part of the text that hasn't been taken yet.
    pub fn rest(&self) -> &'a [u8]
        ensures { lines_of result.now ≡ self.now }
    {
        self.rest
    }

    /// Takes the next line.
    pub fn next(&mut self) -> Option<&'a [u8]>
        ensures line { MatchOption result (self.old ≡ []) (λ line. self.old ≡ line.now ∷ self.new) }
        ensures end { IfNone result (self.new ≡ []) }
    {
        let text = self.rest;
        if text.is_empty() {
            return None;
        }
        let (line, rest) = split_line(text);
        self.rest = rest;
        Some(line)
    }
}

/// The first line of a text, and the bytes after its byte 10.
pub(crate) fn split_line(text: &[u8]) -> (&[u8], &[u8])
    requires { 0 < length text.now }
    ensures { lines_of text.now ≡ result.0.now ∷ lines_of result.1.now }
{
    match split_at_byte(text, b'\n') {
        Some(parts) => parts,
        None => (text, &[]),
    }
}

/// The bytes before and after the first byte of that value.
pub fn split_at_byte(text: &[u8], byte: u8) -> Option<(&[u8], &[u8])>
    ensures split { MatchOption result
        (All (λ b. b ≢ byte) text.now)
        (λ parts. (text.now ≡ parts.0.now ++ byte ∷ parts.1.now) × All (λ b. b ≢ byte) parts.0.now) }
{
    match memchr(byte, text) {
        Some(i) => Some((&text[..i], &text[i + 1..])),
        None => None,
    }
}
