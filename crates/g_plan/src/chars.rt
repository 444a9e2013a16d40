//! Characters as words, four in each.
ghost use Rattle.std.specs.Prelude.{◌≡◌, get_or};
ghost use Rattle.g_plan.specs.Assembly as assembly;

use g_word::{Word, code_of};

/// The word of a text's first four characters, filled up with spaces.
pub(crate) fn first_four(text: &[u8]) -> Word
    ensures { result ≡ assembly.four (get_or text.now 0 32) (get_or text.now 1 32) (get_or text.now 2 32) (get_or text.now 3 32) }
{
    four(
        byte_at(text, 0),
        byte_at(text, 1),
        byte_at(text, 2),
        byte_at(text, 3),
    )
}

/// The byte at a place, or a space after the last.
fn byte_at(text: &[u8], place: usize) -> u8
    ensures { result ≡ get_or text.now place 32 }
{
    if place < text.len() {
        text[place]
    } else {
        b' '
    }
}

/// The word of four characters.
fn four(a: u8, b: u8, c: u8, d: u8) -> Word
    ensures { result ≡ assembly.four a b c d }
{
    let front = u32::from(code_of(a)) * 64 + u32::from(code_of(b));
    let back = u32::from(code_of(c)) * 64 + u32::from(code_of(d));
    match Word::new(front * 0x1000 + back) {
        Some(word) => word,
        None => unreachable!(),
    }
}
