//! Bytes of lines, and the words that they make.
ghost use Rattle.std.specs.Prelude.{◌≡◌};
ghost use Rattle.g_name.specs.Grammar as grammar;
ghost use Rattle.g_lang.specs.Words as words;
ghost use Rattle.g_lang.specs.Conditions as conditions;

use g_name::{are_name_chars, is_letter};

/// Whether a byte is one of `0` to `9`.
pub(crate) fn is_digit(byte: u8) -> bool
    ensures { result ≡ grammar.is_digit byte }
{
    byte.is_ascii_digit()
}

/// Whether a byte is one from space to tilde.
pub(crate) fn is_printed(byte: u8) -> bool
    ensures { result ≡ words.is_printed byte }
{
    (b' '..=b'~').contains(&byte)
}

/// Whether a byte is one of `A` to `X`, which name a level's parameters.
pub fn is_param_letter(byte: u8) -> bool
    ensures { result ≡ conditions.is_param_letter byte }
{
    (b'A'..=b'X').contains(&byte)
}

/// Whether a text is a word, as the names of verbs are.
pub(crate) fn is_word(text: &[u8]) -> bool
    ensures { result ≡ grammar.is_word text.now }
{
    match text.split_first() {
        Some((first, others)) => {
            is_letter(*first) && others.len() <= 11 && are_name_chars(others)
        }
        None => false,
    }
}

/// Whether a text is a label.
pub(crate) fn is_label(text: &[u8]) -> bool
    ensures { result ≡ words.is_label text.now }
{
    match text.split_first() {
        Some((first, others)) => is_digit(*first) && others.len() <= 11 && are_name_chars(others),
        None => false,
    }
}
