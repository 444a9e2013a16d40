//! Local names of files.
ghost use Rattle.std.specs.Prelude.{◌≡◌, true, ◌↔◌, IsSome, IfSome, IfOk, IfErr, false};
ghost use Rattle.g_name.specs.BadPlace.{IsBadPlace};
ghost use Rattle.g_name.specs.Grammar.{is_word};
ghost use Rattle.g_name.specs.Names.{IsLocalText};

use crate::short::Short;
use crate::word::Word;
use crate::{BadName, grammar};
use std::marker::Model;

/// The name of a file within its user: 1 to 12 of `A` to `Z`, `0` to `9` and `-`, the first a letter. Names are ordered by their bytes.
#[derive(Debug, Drop, PartialEq, Eq, PartialOrd, Ord, Hash)]
pub struct Local {
    word: Word,
}

impl Model for Local {
    ghost use Rattle.std.specs.Prelude.{ℕ, List};

    ghost Value = { List ℕ };

    ghost view = { λ l. l.word };

    ghost inverse = { λ xs. record { word = xs } };
}

impl Local {
    /// The local name that is this word.
    pub fn new(word: &[u8]) -> Option<Local>
        ensures word { IsSome result ↔ (is_word word.now ≡ true) }
        ensures value { IfSome result (λ l. l ≡ word.now) }
    {
        let word = Word::new(word)?;
        Some(Local { word })
    }

    /// The local name that a text is.
    pub fn parse(text: &[u8]) -> Result<Local, BadName>
        ensures ok { IfOk result (λ l. (is_word text.now ≡ true) × (l ≡ text.now)) }
        ensures err { IfErr result (λ e. (is_word text.now ≡ false) × IsBadPlace IsLocalText text.now e.place) }
    {
        match Local::new(text) {
            Some(local) => Ok(local),
            None => Err(BadName {
                place: grammar::word_end(text),
            }),
        }
    }

    /// The name of characters that were checked already.
    pub(crate) fn from_word(word: Short<16>) -> Local
        requires { is_word word ≡ true }
        ensures { result ≡ word }
    {
        Local {
            word: Word::of(word),
        }
    }

    /// The characters.
    pub fn as_slice(&self) -> &[u8]
        ensures characters { result.now ≡ self.now }
        ensures word { is_word self.now ≡ true }
    {
        self.word.as_slice()
    }

    /// A copy of the name. It allocates nothing.
    pub fn copy(&self) -> Local
        ensures { result ≡ self.now }
    {
        Local { word: self.word }
    }
}
