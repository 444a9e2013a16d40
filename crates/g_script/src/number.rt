//! Numbers and pieces of lines.
ghost use Rattle.std.specs.Prelude.{◌≡◌, ◌≤◌, IfSome, MatchOption, None, Some};
ghost use Rattle.g_name.specs.Order.{same_text};
ghost use Rattle.g_script.specs.HeadReader as how;

use g_lang::behind;
use g_lines::{number, split_at_byte};

/// The number of these digits, from 1 to `most`.
pub(crate) fn from_one(digits: &[u8], most: u64) -> Option<u64>
    ensures value { result ≡ how.from_one_read most digits.now }
    ensures most { IfSome result (λ n. n ≤ most) }
{
    match number(digits, most) {
        Some(n) => if n == 0 { None } else { Some(n) },
        None => None,
    }
}

/// Such a number after a word.
pub(crate) fn number_behind(most: u64, word: &[u8], text: &[u8]) -> Option<u64>
    ensures value { result ≡ how.number_behind most word.now text.now }
    ensures most { IfSome result (λ n. n ≤ most) }
{
    match behind(word, text) {
        Some(digits) => from_one(digits, most),
        None => None,
    }
}

/// Whether two texts are the same.
pub(crate) fn is_same(one: &[u8], other: &[u8]) -> bool
    ensures { result ≡ same_text one.now other.now }
{
    one == other
}

/// The parts before and after the first byte of that value.
pub(crate) fn parts_at(text: &[u8], byte: u8) -> Option<(&[u8], &[u8])>
    ensures { MatchOption result (how.split_at byte text.now ≡ None)
        (λ parts. how.split_at byte text.now ≡ Some (parts.0.now, parts.1.now)) }
{
    split_at_byte(text, byte)
}
