//! The words of the command line.
ghost use Rattle.std.specs.Prelude.{◌≡◌, IfOk, map, string_bytes};

use std::alloc::{AllocError, Global};
use std::env::FillError;
use std::rt::Env;

/// The bytes of the longest word that is read: no known word has as many.
const LONGEST: usize = 256;

/// What a word is read as that is longer: no known word either.
const TOO_LONG: &str = "\u{FFFD}";

/// The words behind the program's own path, which isn't looked at. In a word that isn't UTF-8 the
/// character U+FFFD stands where it isn't, so that it is no known word.
pub fn words_of(rt: &HostRuntime) -> Result<Vec<String>, AllocError> {
    let mut words = Vec::new(rt.alloc());
    for i in 1..usize::MAX {
        match word_at(rt, i)? {
            Some(word) => words.push(word)?,
            None => break,
        }
    }
    Ok(words)
}

/// The i-th word, if there are so many.
fn word_at(rt: &HostRuntime, i: usize) -> Result<Option<String>, AllocError> {
    let mut bytes = [0; LONGEST];
    let word = match rt.arg(i, &mut bytes) {
        Ok(len) => String::from_utf8_lossy(rt.alloc(), &bytes[..len])?,
        Err(FillError::TooLong) => String::from_str(rt.alloc(), TOO_LONG)?,
        Err(FillError::NotPresent) => return Ok(None),
    };
    Ok(Some(word))
}

/// The words as they are lent to the run: each of them, in their order.
pub fn texts_of<'a>(alloc: Global, words: &'a [String]) -> Result<Vec<&'a str>, AllocError>
    ensures { IfOk result (λ texts. map (λ text. text.now) texts.items ≡ map string_bytes words.now) }
{
    let mut texts = Vec::new(alloc);
    for word in words {
        texts.push(word.as_str())?;
    }
    Ok(texts)
}
