//! The choice: one pass over the standings, which keeps the first of the least.
ghost use Rattle.g_rules.specs.Choice.{IsChosen, IsNoLater};
ghost use Rattle.g_rules.specs.Rule.{IsWeighRule, IsInRange};
ghost use Rattle.std.specs.Prelude.{◌≡◌, ◌⊎◌, ◌<◌, ◌≤◌, ◌↔◌, All, [], IfSome, IsNone, IsTrue, Some, false};

use crate::rule::{Standing, WeighRule};

/// The place of a standing that can be chosen, with its weight and the number of its job, by which it is chosen.
#[derive(Clone, Copy, PartialEq, Eq)]
pub struct Candidate {
    pub place: usize,
    pub weight: u64,
    pub number: u64,
}

impl Candidate {
    /// Whether this candidate may precede the other: by weight, then by number.
    fn is_no_later(&self, other: &Candidate) -> bool
        ensures yes { IsTrue result
            → IsNoLater self.now.weight self.now.number other.now.weight other.now.number }
        ensures no { (result ≡ false)
            → IsNoLater other.now.weight other.now.number self.now.weight self.now.number }
    {
        if self.weight == other.weight {
            self.number <= other.number
        } else {
            self.weight < other.weight
        }
    }
}

/// The place of the standing of least weight, and among equal weights of least number.
pub fn choose<U: Fn(&Standing) -> u64>(rule: &WeighRule<U>, list: &[Standing]) -> Option<usize>
    requires rule { IsWeighRule U.Fn rule.now }
    requires in_range { All IsInRange list.now }
    ensures none { IsNone result ↔ (list.now ≡ []) }
    ensures chosen { IfSome result (IsChosen U.Fn rule.now list.now) }
{
    let mut best: Option<Candidate> = None;
    for (place, standing) in list.iter().enumerate() {
        let candidate = Candidate {
            place,
            weight: rule.weight(standing),
            number: standing.number,
        };
        best = Some(earlier(best, candidate));
    }
    best.map(|candidate| candidate.place)
}

/// Which of two candidates goes first: the best so far, unless the next one precedes it. Used in one pass, it finds the first of a list that is never
/// built, as `choose` does for a list in memory.
pub fn earlier(best: Option<Candidate>, candidate: Candidate) -> Candidate
    ensures one { (result ≡ candidate) ⊎ (best ≡ Some result) }
    ensures before { IsNoLater result.weight result.number candidate.weight candidate.number }
    ensures before_best { IfSome best
        (λ b. IsNoLater result.weight result.number b.weight b.number) }
{
    match best {
        Some(best) if best.is_no_later(&candidate) => best,
        _ => candidate,
    }
}
