//! The standing of a job, and the rule that weighs it: a closure of the caller.
ghost use Rattle.g_rules.specs.Rule.{IsWeighRule, IsInRange};
ghost use Rattle.std.specs.Fn.{FnReturnsAt};
ghost use Rattle.std.specs.Prelude.{◌≡◌, ◌≤◌, ◌^◌};

use std::marker::Model;

/// The greatest allowance of a job, in units of TIME.
pub const MAX_ALLOWANCE: u64 = 1_000_000;

/// The greatest weight: 2 to the power of 40.
pub const MAX_WEIGHT: u64 = 1_099_511_627_776;

const _: () = prove!(MAX_ALLOWANCE == 1_000_000 && MAX_WEIGHT == 1_099_511_627_776);

/// The standing of a job: its number, the units of TIME charged so far, its allowance in units, and the number of its charged turns.
#[derive(Clone, Copy, PartialEq, Eq)]
pub struct Standing {
    pub number: u64,
    pub used: u64,
    pub allowance: u64,
    pub turns: u64,
}

/// The rule that weighs standings. It is the caller's closure, and contracts see it as that closure.
#[derive(Drop)]
pub struct WeighRule<U> {
    rule: U,
}

impl<U> Model for WeighRule<U> {
    ghost Value = { U };

    ghost view = { λ weigh. weigh.rule };
}

impl<U: Fn(&Standing) -> u64> WeighRule<U> {
    /// A rule that weighs as the closure does, which must accept every standing in range.
    pub fn new(rule: U) -> WeighRule<U>
        requires { IsWeighRule U.Fn rule }
        ensures { result ≡ rule }
    {
        WeighRule { rule }
    }

    /// The weight of a standing by the rule.
    pub fn weight(&self, standing: &Standing) -> u64
        requires rule { IsWeighRule U.Fn self.now }
        requires in_range { IsInRange standing.now }
        ensures bounded { result ≤ 2 ^ 40 }
        ensures kept { FnReturnsAt U.Fn self.now standing.now result }
    {
        (self.rule)(standing)
    }
}
