//! Names of users.
ghost use Rattle.std.specs.Prelude.{◌≡◌, true, ◌↔◌, IsSome, IfSome, IfOk, IfErr, false, ◌∷◌, codes};
ghost use Rattle.g_name.specs.BadPlace.{IsBadPlace};
ghost use Rattle.g_name.specs.Grammar.{is_word, is_user_text};
ghost use Rattle.g_name.specs.Names.{IsUserText};

use crate::short::Short;
use crate::word::Word;
use crate::{BadName, grammar};
use std::marker::Model;

/// The name of a user without its colon: 1 to 12 of `A` to `Z`, `0` to `9` and `-`, the first a letter. Names are ordered by their bytes.
#[derive(Debug, Drop, PartialEq, Eq, PartialOrd, Ord, Hash)]
pub struct User {
    word: Word,
}

impl Model for User {
    ghost use Rattle.std.specs.Prelude.{ℕ, List};

    ghost Value = { List ℕ };

    ghost view = { λ u. u.word };

    ghost inverse = { λ xs. record { word = xs } };
}

impl User {
    /// The user of a word, without the colon.
    pub fn new(word: &[u8]) -> Option<User>
        ensures word { IsSome result ↔ (is_word word.now ≡ true) }
        ensures value { IfSome result (λ u. u ≡ word.now) }
    {
        let word = Word::new(word)?;
        Some(User { word })
    }

    /// The user that a text with a colon is.
    pub fn parse(text: &[u8]) -> Result<User, BadName>
        ensures ok { IfOk result (λ u. (is_user_text text.now ≡ true) × (text.now ≡ 58 ∷ u)) }
        ensures err { IfErr result (λ e. (is_user_text text.now ≡ false) × IsBadPlace IsUserText text.now e.place) }
    {
        let Some((first, word)) = text.split_first() else {
            return Err(BadName { place: 0 });
        };
        if *first != b':' {
            return Err(BadName { place: 0 });
        }
        match User::new(word) {
            Some(user) => Ok(user),
            None => Err(BadName {
                place: 1 + grammar::word_end(word),
            }),
        }
    }

    /// `MASTER`, the first user, which is its own superior.
    pub fn master() -> User
        ensures { result ≡ codes "MASTER" }
    {
        User {
            word: Word::of(Short::of(b"MASTER")),
        }
    }

    /// `MACROS`, the user whose files all users may execute.
    pub fn macros() -> User
        ensures { result ≡ codes "MACROS" }
    {
        User {
            word: Word::of(Short::of(b"MACROS")),
        }
    }

    /// The name of characters that were checked already.
    pub(crate) fn from_word(word: Short<16>) -> User
        requires { is_word word ≡ true }
        ensures { result ≡ word }
    {
        User {
            word: Word::of(word),
        }
    }

    /// The characters.
    pub fn as_slice(&self) -> &[u8]
        ensures characters { result.now ≡ self.now }
        ensures word { is_word self.now ≡ true }
    {
        self.word.as_slice()
    }

    /// A copy of the name. It allocates nothing.
    pub fn copy(&self) -> User
        ensures { result ≡ self.now }
    {
        User { word: self.word }
    }
}
