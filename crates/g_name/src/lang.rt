//! Languages of files.
ghost use Rattle.std.specs.Prelude.{◌≡◌, true, ◌↔◌, IsSome, IfSome, []};
ghost use Rattle.g_name.specs.Grammar.{is_lang};

use crate::grammar;
use crate::short::Short;
use std::marker::Model;

/// The language of a file without its trailing spaces: up to 4 of `A` to `Z`, `0` to `9` and `-`. The empty one is the language of four spaces.
#[derive(Debug, Drop, PartialEq, Eq, PartialOrd, Ord, Hash)]
pub struct Lang {
    characters: Short<4>,
}

impl Model for Lang {
    ghost use Rattle.std.specs.Prelude.{◌≡◌, ℕ, List, true};
    ghost use Rattle.g_name.specs.Grammar.{is_lang};

    ghost Value = { List ℕ };

    ghost view = { λ l. l.characters };

    ghost invariant = { λ l. is_lang l.characters ≡ true };

    ghost inverse = { λ xs. record { characters = xs } };
}

impl Lang {
    /// The language of these characters, which have no trailing spaces.
    pub fn new(characters: &[u8]) -> Option<Lang>
        ensures lang { IsSome result ↔ (is_lang characters.now ≡ true) }
        ensures value { IfSome result (λ l. l ≡ characters.now) }
    {
        if grammar::is_lang(characters) {
            Some(Lang {
                characters: Short::of(characters),
            })
        } else {
            None
        }
    }

    /// The language of four spaces, which an absent language means.
    pub fn spaces() -> Lang
        ensures { result ≡ [] }
    {
        Lang {
            characters: Short::new(),
        }
    }

    /// The language of characters that were checked already.
    pub(crate) fn from_characters(characters: Short<4>) -> Lang
        requires { is_lang characters ≡ true }
        ensures { result ≡ characters }
    {
        Lang { characters }
    }

    /// The characters, without trailing spaces.
    pub fn as_slice(&self) -> &[u8]
        ensures characters { result.now ≡ self.now }
        ensures lang { is_lang self.now ≡ true }
    {
        self.characters.as_slice()
    }

    /// A copy of the language. It allocates nothing.
    pub fn copy(&self) -> Lang
        ensures { result ≡ self.now }
    {
        Lang {
            characters: self.characters,
        }
    }
}
