//! The deck of a card reader: a text whose lines are taken one by one.

ghost use Rattle.std.specs.Prelude.{◌≡◌, [], ◌∷◌, drop, length, MatchOption};
ghost use Rattle.g_mill.specs.Lines.{lines};

use g_mill::split_line;
use g_name::Text;
use std::marker::Model;

/// A text, some lines of which have been taken. Contracts see the lines that are left.
#[derive(Drop)]
pub(crate) struct Deck {
    text: Text,
    taken: usize,
}

impl Model for Deck {
    ghost use Rattle.std.specs.Prelude.{ℕ, List, drop, length, ◌≤◌};
    ghost use Rattle.g_mill.specs.Lines.{lines};

    ghost Value = { List (List ℕ) };

    ghost view = { λ d. lines (drop d.taken d.text) };

    ghost invariant = { λ d. d.taken ≤ length d.text };
}

impl Deck {
    /// The deck of a text; no line has been taken.
    pub(crate) fn new(text: Text) -> Deck
        ensures { result ≡ lines text }
    {
        Deck { text, taken: 0 }
    }

    /// The next line, if one is left.
    pub(crate) fn next_line(&self) -> Option<&[u8]>
        ensures { MatchOption result (self.now ≡ [])
            (λ line. self.now ≡ line.now ∷ drop 1 self.now) }
    {
        match split_line(&self.text.as_slice()[self.taken..]) {
            Some((line, _behind)) => Some(line),
            None => None,
        }
    }

    /// Takes the next line.
    pub(crate) fn pass(&mut self)
        ensures { self.new ≡ drop 1 self.old }
    {
        let text = self.text.as_slice();
        if let Some((_line, behind)) = split_line(&text[self.taken..]) {
            self.taken = text.len() - behind.len();
        }
    }
}
