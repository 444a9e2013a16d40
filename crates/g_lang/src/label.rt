//! Labels of lines.
ghost use Rattle.std.specs.Prelude.{◌≡◌, ◌↔◌, true, IsSome, IfSome};
ghost use Rattle.g_lang.specs.Words.{is_label};

use crate::bytes;
use arrayvec::ArrayVec;
use std::marker::Model;

/// The label of a line: a digit and up to 11 of `A` to `Z`, `0` to `9` and `-`.
#[derive(Drop, PartialEq, Eq)]
pub struct Label {
    characters: ArrayVec<u8, 12>,
}

impl Model for Label {
    ghost use Rattle.std.specs.Prelude.{◌≡◌, ℕ, List, true};
    ghost use Rattle.g_lang.specs.Words.{is_label};

    ghost Value = { List ℕ };

    ghost view = { λ l. l.characters.items };

    ghost invariant = { λ l. is_label l.characters.items ≡ true };

    ghost inverse = { λ xs. record { characters = record { items = xs } } };
}

impl Label {
    /// The label that is this text.
    pub fn new(text: &[u8]) -> Option<Label>
        ensures label { IsSome result ↔ (is_label text.now ≡ true) }
        ensures value { IfSome result (λ l. l ≡ text.now) }
    {
        if bytes::is_label(text) {
            Some(Label {
                characters: ArrayVec::try_from(text).unwrap(),
            })
        } else {
            None
        }
    }

    /// The characters.
    pub fn as_slice(&self) -> &[u8]
        ensures characters { result.now ≡ self.now }
        ensures label { is_label self.now ≡ true }
    {
        self.characters.as_slice()
    }
}
