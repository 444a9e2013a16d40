//! Lines of a source, split at spaces.
ghost use Rattle.std.specs.Prelude.{◌≡◌, ◌≢◌, ◌≤◌, ◌∷◌, ◌++◌, [], Some, None, All, MatchOption, length};
ghost use Rattle.std.specs.List.{list_all};
ghost use Rattle.g_plan.specs.LineReader as how;
ghost use Rattle.g_plan.specs.Words as words;

use g_lines::split_at_byte;
use g_name::Local;

/// Whether each byte is one from space to tilde.
pub(crate) fn is_printed(text: &[u8]) -> bool
    ensures { result ≡ list_all words.is_printed text.now }
{
    text.iter().all(|byte| b' ' <= *byte && *byte <= b'~')
}

/// Whether a text consists of spaces.
pub(crate) fn is_blank(text: &[u8]) -> bool
    ensures { result ≡ list_all words.is_space text.now }
{
    text.iter().all(|byte| *byte == b' ')
}

/// The part before the first byte of that value, or the whole text if there is none.
pub(crate) fn before(stop: u8, text: &[u8]) -> &[u8]
    ensures value { result.now ≡ words.before stop text.now }
    ensures short { length result.now ≤ length text.now }
{
    match split_at_byte(text, stop) {
        Some((front, _rest)) => front,
        None => text,
    }
}

/// The text without its leading spaces.
pub(crate) fn without_front(text: &[u8]) -> &[u8]
    ensures { result.now ≡ words.without_front text.now }
{
    let mut rest = text;
    while let [b' ', behind @ ..] = rest {
        rest = behind;
    }
    rest
}

/// The text without its trailing spaces.
pub(crate) fn without_back(text: &[u8]) -> &[u8]
    ensures { result.now ≡ words.without_back text.now }
{
    let mut rest = text;
    while let Some((last, front)) = rest.split_last() {
        if *last != b' ' {
            return rest;
        }
        rest = front;
    }
    rest
}

/// The first word of a text, and the rest after it; `None` if there is no word.
pub(crate) fn next_word(text: &[u8]) -> Option<(&[u8], &[u8])>
    ensures { MatchOption result (words.words text.now ≡ [])
        (λ parts. words.words text.now ≡ parts.0.now ∷ words.words parts.1.now) }
{
    let text = without_front(text);
    if text.is_empty() {
        return None;
    }
    let word = before(b' ', text);
    Some((word, &text[word.len()..]))
}

/// The only word of a text; `None` if there is none, or more.
pub(crate) fn only_word(text: &[u8]) -> Option<&[u8]>
    ensures { MatchOption result (how.only (words.words text.now) ≡ None)
        (λ word. how.only (words.words text.now) ≡ Some word.now) }
{
    let (word, behind) = next_word(text)?;
    match next_word(behind) {
        Some(_) => None,
        None => Some(word),
    }
}

/// The label that a text is, if it is one.
pub(crate) fn label(text: &[u8]) -> Option<Local>
    ensures { result ≡ words.label_read text.now }
{
    if is_label(text) {
        Local::new(text)
    } else {
        None
    }
}

/// Whether a text is a letter followed by up to 7 letters and digits.
pub(crate) fn is_label(text: &[u8]) -> bool
    ensures { result ≡ words.is_label text.now }
{
    match text.split_first() {
        Some((first, others)) => {
            first.is_ascii_uppercase() && others.len() <= 7 && are_label_bytes(others)
        }
        None => false,
    }
}

/// Whether each byte is a capital letter or a digit.
fn are_label_bytes(text: &[u8]) -> bool
    ensures { result ≡ list_all words.is_label_byte text.now }
{
    text.iter()
        .all(|byte| byte.is_ascii_uppercase() || byte.is_ascii_digit())
}
