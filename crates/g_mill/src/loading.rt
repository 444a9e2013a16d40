//! Loading of program files.

ghost use Rattle.std.specs.Prelude.{◌≡◌, ◌≢◌, ◌+◌, ◌^◌, ◌≤◌, true, false, map, length, Some, None, MatchOption, MatchResult, Err};
ghost use Rattle.g_mill.specs.Lines.{lines};
ghost use Rattle.g_mill.specs.Loading.{is_word_line, is_size_line, octal, good_lines, bad_line, program_of, Loads, ReadsWords};

use crate::Program;
use crate::lines::split_line;
use g_word::Word;
use std::alloc::Global;
use thiserror::Error;

/// Why a program file isn't loaded.
#[derive(Clone, Copy, Debug, PartialEq, Eq, Error)]
pub enum LoadFault {
    /// The first line, from 1, that isn't eight octal digits, or isn't the size of a program, or follows the last word. A file without lines has the
    /// bad line 1.
    #[error("line {0} of the program file is bad")]
    BadProgram(usize),
    #[error("out of memory")]
    NoMemory,
}

/// The program of a file, with overflow clear. Words without a line are zero.
pub fn load(alloc: Global, text: &[u8]) -> Result<Program, LoadFault>
    ensures { Loads (lines text.now) result }
{
    let Some((first, behind)) = split_line(text) else {
        return Err(LoadFault::BadProgram(1));
    };
    let Some(size) = size_of_line(first) else {
        return Err(LoadFault::BadProgram(1));
    };
    let mut words = read_words(alloc, size, behind)?;
    match words.resize(size, Word::ZERO) {
        Ok(()) => Ok(Program::new(words)),
        Err(_) => Err(LoadFault::NoMemory),
    }
}

/// The words of the lines; refuses a line that is no word or for which the program has no room.
fn read_words(alloc: Global, size: usize, text: &[u8]) -> Result<Vec<Word>, LoadFault>
    requires { size ≤ 2 ^ 15 }
    ensures { ReadsWords size (lines text.now) result }
{
    let Ok(mut words) = Vec::with_capacity(alloc, size) else {
        return Err(LoadFault::NoMemory);
    };
    let mut rest = text;
    while let Some((line, behind)) = split_line(rest) {
        let number = words.len() + 2;
        if words.len() == size {
            return Err(LoadFault::BadProgram(number));
        }
        let Some(word) = word_of_line(line) else {
            return Err(LoadFault::BadProgram(number));
        };
        if words.push(word).is_err() {
            return Err(LoadFault::NoMemory);
        }
        rest = behind;
    }
    Ok(words)
}

/// The size of a program in a line, if the line is one.
fn size_of_line(line: &[u8]) -> Option<usize>
    ensures { MatchOption result (is_size_line line.now ≡ false)
        (λ n. (is_size_line line.now ≡ true) × (n ≡ octal line.now)) }
{
    let size = word_of_line(line)?.value();
    if (32..=0x8000).contains(&size) {
        Some(size as usize)
    } else {
        None
    }
}

/// The word of eight octal digits, if the line is one.
fn word_of_line(line: &[u8]) -> Option<Word>
    ensures { MatchOption result (is_word_line line.now ≡ false)
        (λ w. (is_word_line line.now ≡ true) × (w ≡ octal line.now)) }
{
    if line.len() != 8 {
        return None;
    }
    let mut bits = 0;
    for digit in line {
        if !(b'0'..=b'7').contains(digit) {
            return None;
        }
        bits = bits * 8 + u32::from(*digit - b'0');
    }
    Word::new(bits)
}
