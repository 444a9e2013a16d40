//! Splitting texts at spaces, commas and fixed words; allocates nothing.
ghost use Rattle.std.specs.Prelude.{◌≡◌, ◌^◌, ◌<◌, ◌≤◌, [], ◌∷◌, length, None, Some, MatchOption};
ghost use Rattle.g_lang.specs.LineReader as how;
ghost use Rattle.g_lang.specs.Words as words;

/// The text without its leading spaces.
pub(crate) fn without_front(text: &[u8]) -> &[u8]
    ensures { result.now ≡ words.without_front text.now }
{
    let mut rest = text;
    while let [b' ', behind @ ..] = rest {
        rest = behind;
    }
    rest
}

/// The text without its trailing spaces.
pub(crate) fn without_back(text: &[u8]) -> &[u8]
    ensures { result.now ≡ words.without_back text.now }
{
    let mut rest = text;
    while let Some((last, before)) = rest.split_last() {
        if *last != b' ' {
            return rest;
        }
        rest = before;
    }
    rest
}

/// The text without the spaces at both ends.
pub fn trimmed(text: &[u8]) -> &[u8]
    ensures { result.now ≡ words.trimmed text.now }
{
    without_back(without_front(text))
}

/// The first word of a text, and the rest after it and its spaces.
pub(crate) fn split_word(text: &[u8]) -> (&[u8], &[u8])
    ensures word { result.0.now ≡ words.word_of text.now }
    ensures behind { result.1.now ≡ how.behind_word text.now }
{
    for (i, byte) in text.iter().enumerate() {
        if *byte == b' ' {
            return (&text[..i], without_front(&text[i..]));
        }
    }
    (text, &[])
}

/// The text before its first comma outside of brackets, and the text after it, if there is one.
pub(crate) fn split_at_comma(text: &[u8]) -> (&[u8], Option<&[u8]>)
    ensures before { result.0.now ≡ how.before_comma 0 text.now }
    ensures behind { MatchOption result.1 (how.behind_comma 0 text.now ≡ [])
        (λ rest. (rest.now ≡ how.behind_comma 0 text.now) × (length rest.now < length text.now)) }
    ensures parts { MatchOption result.1 (how.parts_of 0 text.now ≡ result.0.now ∷ [])
        (λ rest. how.parts_of 0 text.now ≡ result.0.now ∷ how.parts_of 0 rest.now) }
{
    let mut depth = 0usize;
    for (i, byte) in text.iter().enumerate() {
        if *byte == b',' && depth == 0 {
            return (&text[..i], Some(&text[i + 1..]));
        }
        depth = depth_behind(*byte, depth);
    }
    (text, None)
}

/// A condition, and the command after its comma.
pub(crate) fn split_condition(text: &[u8]) -> (&[u8], &[u8])
    ensures before { result.0.now ≡ how.before_comma 0 text.now }
    ensures behind { result.1.now ≡ how.behind_comma 0 text.now }
    ensures shorter { length result.1.now ≤ length text.now }
{
    match split_at_comma(text) {
        (condition, Some(command)) => (condition, command),
        (condition, None) => (condition, &[]),
    }
}

/// The number of open brackets after a byte.
fn depth_behind(byte: u8, depth: usize) -> usize
    requires { depth < 2 ^ 63 }
    ensures { result ≡ how.depth_behind byte depth }
{
    match byte {
        b'(' => depth + 1,
        b')' => depth.saturating_sub(1),
        _ => depth,
    }
}

/// The rest of a text after a given front, if the text begins with it.
pub fn behind<'a>(front: &[u8], text: &'a [u8]) -> Option<&'a [u8]>
    ensures { MatchOption result (how.behind front.now text.now ≡ None)
        (λ rest. how.behind front.now text.now ≡ Some rest.now) }
{
    text.strip_prefix(front)
}

/// The text without its last byte.
pub(crate) fn without_last(text: &[u8]) -> &[u8]
    ensures { result.now ≡ how.without_last text.now }
{
    match text {
        [before @ .., _] => before,
        [] => text,
    }
}
