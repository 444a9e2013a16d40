//! The words of the command line.
ghost use Rattle.std.specs.Prelude.{◌≡◌, ◌≢◌, ◌<◌, ◌^◌, ℕ, MatchOption, [], ◌∷◌};
ghost use Rattle.std.specs.Fmt.{decimal};
ghost use Rattle.g_demo.specs.Words.{AskNothing, IsAsked, IsDemonstration, demo_words, texts_of, words_of};

use crate::demonstration::Demonstration;
use g_lines::number;

/// The greatest number of a demonstration.
const MOST_NUMBER: u64 = 0xffff_ffff;

/// The maximum number of rounds of a demonstration.
const MOST_ROUNDS: u32 = 1_000;

/// What the words of the command line request.
#[derive(Clone, Copy, PartialEq, Eq)]
pub enum Asked {
    /// The script of the source.
    Run,
    /// The demonstration of these numbers.
    Demo(Demonstration),
}

/// What the words request: only the word `run`; or `demo`, a number below 2^32, and the number of rounds from 1 to 1,000, both in decimal digits
/// without a sign and without a leading zero. Any other words request nothing.
pub fn asked_by(words: &[&str]) -> Option<Asked>
    ensures { MatchOption result (AskNothing (texts_of words.now)) (λ asked. IsAsked asked × (texts_of words.now ≡ words_of asked)) }
{
    match words {
        [word] => if *word == "run" {
            Some(Asked::Run)
        } else {
            None
        },
        [word, number, rounds] => match demo_by(word, number, rounds) {
            Some(demo) => Some(Asked::Demo(demo)),
            None => None,
        },
        _ => None,
    }
}

/// The demonstration that three words request.
fn demo_by(word: &str, number: &str, rounds: &str) -> Option<Demonstration>
    ensures { MatchOption result
        ((demo : Demonstration) → IsDemonstration demo → (word.now ∷ number.now ∷ rounds.now ∷ []) ≢ demo_words demo)
        (λ demo. IsDemonstration demo × ((word.now ∷ number.now ∷ rounds.now ∷ []) ≡ demo_words demo)) }
{
    if word != "demo" {
        return None;
    }
    let number = number_in(number)?;
    let rounds = number_in(rounds)?;
    if rounds == 0 || rounds > MOST_ROUNDS {
        return None;
    }
    Some(Demonstration { number, rounds })
}

/// The number below 2^32 of these digits, without a sign and without a leading zero.
fn number_in(digits: &str) -> Option<u32>
    ensures { MatchOption result ((n : ℕ) → n < 2 ^ 32 → digits.now ≢ decimal n) (λ n. (n < 2 ^ 32) × (digits.now ≡ decimal n)) }
{
    match number(digits.as_bytes(), MOST_NUMBER) {
        Some(number) => Some(number as u32),
        None => None,
    }
}
