//! Questions to the console: lines that aren't items, and that the console answers by itself.
ghost use Rattle.std.specs.Prelude.{◌≡◌, ◌++◌, List, MatchOption, codes, ℕ};
ghost use Rattle.g_typing.specs.Reader.{IsNoRefusal};
ghost use Rattle.g_typing.specs.Typed.{IsQuery, IsUnasked};

use g_lines::number;

/// The maximum number of a refusal that HELP explains.
const MOST_REFUSAL: u64 = 99;

/// What a line asks of the console.
#[derive(Clone, Copy, PartialEq, Eq)]
pub enum Query {
    /// `?`: where things stand.
    State,
    /// `HELP`: what may be typed.
    Help,
    /// `HELP N`: what the refusal of this number means.
    Refusal(u64),
}

/// What a line asks of the console, if it asks anything.
pub(crate) fn query_of(line: &[u8]) -> Option<Query>
    ensures { MatchOption result (IsUnasked line.now) (λ query. IsQuery line.now query) }
{
    if line == b"?".as_slice() {
        return Some(Query::State);
    }
    if line == b"HELP".as_slice() {
        return Some(Query::Help);
    }
    match refusal_in(line) {
        Some(refusal) => Some(Query::Refusal(refusal)),
        None => None,
    }
}

/// The number of the refusal of which a line asks the meaning.
#[tactic(auto, using(crate::proofs::QueryLemmas::refusal_is))]
fn refusal_in(line: &[u8]) -> Option<u64>
    ensures { MatchOption result (IsNoRefusal line.now) (λ refusal. IsQuery line.now (Query.Refusal refusal)) }
{
    match after_help(line) {
        Some(digits) => match number(digits, MOST_REFUSAL) {
            Some(refusal) => Some(refusal),
            None => None,
        },
        None => None,
    }
}

/// What a line has after the word HELP and a space.
fn after_help(line: &[u8]) -> Option<&[u8]>
    ensures { MatchOption result ((rest : List ℕ) → line.now ≡ codes "HELP " ++ rest → ⊥) (λ rest. line.now ≡ codes "HELP " ++ rest.now) }
{
    line.strip_prefix(b"HELP ")
}
