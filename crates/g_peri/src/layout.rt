//! The layout of lines in words, and the bytes that a printer prints of them.

ghost use Rattle.std.specs.Prelude.{◌≡◌, ◌+◌, ◌^◌, ◌<◌, ◌≤◌, length, take};
ghost use Rattle.g_mill.specs.Machine.{size, words_for};
ghost use Rattle.g_peri.specs.Layout as layout;

use g_mill::Program;
use g_word::{Word, code_of};

/// The number of bytes without the trailing spaces.
pub(crate) fn trimmed_len(bytes: &[u8]) -> usize
    ensures within { result ≤ length bytes.now }
    ensures trimmed { take result bytes.now ≡ layout.trimmed bytes.now }
{
    let mut end = bytes.len();
    while end > 0 && bytes[end - 1] == b' ' {
        end -= 1;
    }
    end
}

/// Writes a line into a buffer of a program, filled up with spaces; of a line that is too long, the first characters.
pub(crate) fn put_line(program: &mut Program, from: u16, count: u8, line: &[u8])
    requires in_range { from < 2 ^ 15 }
    requires within { from + words_for count ≤ size program.old }
    ensures size { size program.new ≡ size program.old }
    ensures put { program.new ≡ record program.old {
      words = layout.with_words program.old.words from (layout.line_words line.now count);
    } }
{
    let words = (u16::from(count) + 3) / 4;
    for j in 0..words {
        program.set_word(from + j, packed(line, count, 4 * usize::from(j)));
    }
}

/// The word of the four characters from a place of a line on.
fn packed(line: &[u8], count: u8, place: usize) -> Word
    requires { place < 1000 }
    ensures { result ≡ layout.packed line.now count place }
{
    Word::ZERO
        .with_char(0, code_at(line, count, place))
        .with_char(1, code_at(line, count, place + 1))
        .with_char(2, code_at(line, count, place + 2))
        .with_char(3, code_at(line, count, place + 3))
}

/// The character at a place of a line, or a space if the line or the buffer has none.
fn code_at(line: &[u8], count: u8, place: usize) -> u8
    ensures value { result ≡ layout.code_at line.now count place }
    ensures small { result < 64 }
{
    if place < usize::from(count) && place < line.len() {
        code_of(line[place])
    } else {
        code_of(b' ')
    }
}
