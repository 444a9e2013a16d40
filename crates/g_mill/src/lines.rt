//! The lines of a text.

ghost use Rattle.std.specs.Prelude.{◌≡◌, ◌-◌, ◌<◌, [], ◌∷◌, length, drop, MatchOption, IfSome};
ghost use Rattle.g_mill.specs.Lines.{lines};

/// The first line of a text, without its byte 10, and the rest; `None` if the text is empty. The last line of a text may be missing its byte 10.
pub fn split_line(text: &[u8]) -> Option<(&[u8], &[u8])>
    ensures lines { MatchOption result (text.now ≡ [])
        (λ p. lines text.now ≡ p.0.now ∷ lines p.1.now) }
    ensures suffix { IfSome result
        (λ p. p.1.now ≡ drop (length text.now - length p.1.now) text.now) }
    ensures shorter { IfSome result (λ p. length p.1.now < length text.now) }
{
    for (i, byte) in text.iter().enumerate() {
        if *byte == b'\n' {
            return Some((&text[..i], &text[i + 1..]));
        }
    }
    if text.is_empty() {
        None
    } else {
        Some(text.split_at(text.len()))
    }
}
