//! Words: the names of users, and of files within a user.
ghost use Rattle.std.specs.Prelude.{◌≡◌, true, ◌↔◌, IsSome, IfSome};
ghost use Rattle.g_name.specs.Grammar.{is_word};

use crate::grammar;
use crate::short::Short;
use std::marker::Model;

/// 1 to 12 of `A` to `Z`, `0` to `9` and `-`, the first a letter. Words are ordered by their bytes.
#[derive(Clone, Copy, Debug, PartialEq, Eq, PartialOrd, Ord, Hash)]
pub(crate) struct Word {
    characters: Short<16>,
}

impl Model for Word {
    ghost use Rattle.std.specs.Prelude.{◌≡◌, ℕ, List, true};
    ghost use Rattle.g_name.specs.Grammar.{is_word};

    ghost Value = { List ℕ };

    ghost view = { λ w. w.characters };

    ghost invariant = { λ w. is_word w.characters ≡ true };

    ghost inverse = { λ xs. record { characters = xs } };
}

impl Word {
    /// The word of these characters.
    pub(crate) fn new(characters: &[u8]) -> Option<Word>
        ensures word { IsSome result ↔ (is_word characters.now ≡ true) }
        ensures value { IfSome result (λ w. w ≡ characters.now) }
    {
        if grammar::is_word(characters) {
            Some(Word {
                characters: Short::of(characters),
            })
        } else {
            None
        }
    }

    /// The word of characters that were checked already.
    pub(crate) fn of(characters: Short<16>) -> Word
        requires { is_word characters ≡ true }
        ensures { result ≡ characters }
    {
        Word { characters }
    }

    /// The characters.
    pub(crate) fn as_slice(&self) -> &[u8]
        ensures characters { result.now ≡ self.now }
        ensures word { is_word self.now ≡ true }
    {
        self.characters.as_slice()
    }
}
