//! The words of the command line.
ghost use Rattle.std.specs.Prelude.{◌≡◌, MatchOption, [], ◌∷◌};
ghost use Rattle.g_look_program.specs.Words.{AskNothing, IsAsked, texts_of, words_of};

use g_name::{Path, User, parse_path};

/// What is requested.
#[derive(Drop)]
pub enum Asked {
    /// Whether disc and rack belong together.
    Check,
    /// The dumps of the rack.
    Dumps,
    /// The files of the disc, of all users or of this one.
    List(Option<User>),
    /// The bytes of this file.
    Show(Path),
    /// What RESTORE would give.
    Restorable,
    /// The seal of disc and rack.
    Seal,
}

/// What the words request: `check`, `dumps`, `list`, `list :USER`, `show PATH`, `restorable` or `seal`. Any other words request nothing.
pub fn asked_by(words: &[&str]) -> Option<Asked>
    ensures { MatchOption result (AskNothing (texts_of words.now)) (λ asked. IsAsked asked × (texts_of words.now ≡ words_of asked)) }
{
    match words {
        [word] => asked_alone(word),
        [word, of] => asked_of(word, of),
        _ => None,
    }
}

/// What one word requests.
fn asked_alone(word: &str) -> Option<Asked>
    ensures { MatchOption result (AskNothing (word.now ∷ [])) (λ asked. IsAsked asked × ((word.now ∷ []) ≡ words_of asked)) }
{
    if word == "check" {
        return Some(Asked::Check);
    }
    if word == "dumps" {
        return Some(Asked::Dumps);
    }
    if word == "list" {
        return Some(Asked::List(None));
    }
    if word == "restorable" {
        return Some(Asked::Restorable);
    }
    if word == "seal" {
        return Some(Asked::Seal);
    }
    None
}

/// What a word and a name request.
fn asked_of(word: &str, of: &str) -> Option<Asked>
    ensures { MatchOption result (AskNothing (word.now ∷ of.now ∷ [])) (λ asked. IsAsked asked × ((word.now ∷ of.now ∷ []) ≡ words_of asked)) }
{
    if word == "list" {
        return match User::parse(of.as_bytes()) {
            Ok(user) => Some(Asked::List(Some(user))),
            Err(_) => None,
        };
    }
    if word == "show" {
        return match parse_path(of.as_bytes()) {
            Ok(path) => Some(Asked::Show(path)),
            Err(_) => None,
        };
    }
    None
}
