//! Which characters and words names are made of.
ghost use Rattle.std.specs.Prelude.{◌≡◌};
ghost use Rattle.std.specs.List.{list_all};
ghost use Rattle.g_name.specs.BadPlace.{IsBadPlace};
ghost use Rattle.g_name.specs.Grammar as grammar;
ghost use Rattle.g_name.specs.Names.{IsLocalText};
ghost use Rattle.g_name.specs.Words as words;

/// Whether a byte is one of `A` to `Z`.
pub fn is_letter(byte: u8) -> bool
    ensures { result ≡ grammar.is_letter byte }
{
    byte.is_ascii_uppercase()
}

/// Whether a byte is one of `A` to `Z`, `0` to `9` and `-`.
pub fn is_name_char(byte: u8) -> bool
    ensures { result ≡ grammar.is_name_char byte }
{
    is_letter(byte) || byte.is_ascii_digit() || byte == b'-'
}

/// Whether a text is a user name without its colon, or a local name.
pub(crate) fn is_word(text: &[u8]) -> bool
    ensures { result ≡ grammar.is_word text.now }
{
    match text.split_first() {
        Some((first, others)) => is_letter(*first) && others.len() <= 11 && are_name_chars(others),
        None => false,
    }
}

/// Whether a text is a language.
pub(crate) fn is_lang(text: &[u8]) -> bool
    ensures { result ≡ grammar.is_lang text.now }
{
    text.len() <= 4 && are_name_chars(text)
}

/// Whether each byte is one that names are made of.
pub fn are_name_chars(text: &[u8]) -> bool
    ensures { result ≡ list_all grammar.is_name_char text.now }
{
    text.iter().all(|byte| is_name_char(*byte))
}

/// Whether the byte may follow this prefix of a word.
pub fn extends(word: &[u8], byte: u8) -> bool
    ensures { result ≡ words.extends word.now byte }
{
    match word.split_first() {
        None => is_letter(byte),
        Some((_, others)) => is_name_char(byte) && others.len() < 11,
    }
}

/// The length of the longest prefix of the text that begins a word; for a word, its whole length.
pub(crate) fn word_end(text: &[u8]) -> usize
    ensures { IsBadPlace IsLocalText text.now result }
{
    for (place, byte) in text.iter().enumerate() {
        if !extends(&text[..place], *byte) {
            return place;
        }
    }
    text.len()
}
