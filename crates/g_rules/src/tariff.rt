//! A turn's usage, its charge, and the tariff that computes the charge: a closure of the caller.
ghost use Rattle.g_rules.specs.Tariff.{IsTariff, IsUsage, IsCharge};
ghost use Rattle.std.specs.Fn.{FnReturnsAt};
ghost use Rattle.std.specs.Prelude.{◌≡◌};

use std::marker::Model;

/// The most orders that a turn runs.
pub const MAX_ORDERS: u32 = 64;

/// The most blocks of file bytes that a turn moves.
pub const MAX_BLOCKS: u32 = 4_096;

const _: () = prove!(MAX_ORDERS == 64 && MAX_BLOCKS == 4_096);

/// What one turn of a job used: orders run, and blocks of 512 bytes fetched, written or appended.
#[derive(Clone, Copy, PartialEq, Eq)]
pub struct Usage {
    pub orders: u32,
    pub blocks: u32,
}

/// What one turn of a job costs: units of TIME, at least one, and MONEY.
#[derive(Clone, Copy, PartialEq, Eq)]
pub struct Charge {
    pub units: u64,
    pub money: u64,
}

/// The rule that prices a turn. It is the caller's closure, and contracts see it as that closure.
#[derive(Drop)]
pub struct Tariff<F> {
    rule: F,
}

impl<F> Model for Tariff<F> {
    ghost Value = { F };

    ghost view = { λ tariff. tariff.rule };
}

impl<F: Fn(&Usage) -> Charge> Tariff<F> {
    /// A tariff that answers as the rule does, which must accept every usage in range.
    pub fn new(rule: F) -> Tariff<F>
        requires { IsTariff F.Fn rule }
        ensures { result ≡ rule }
    {
        Tariff { rule }
    }

    /// What a turn of this usage costs by the rule.
    pub fn charge(&self, usage: &Usage) -> Charge
        requires tariff { IsTariff F.Fn self.now }
        requires in_range { IsUsage usage.now }
        ensures within { IsCharge result }
        ensures kept { FnReturnsAt F.Fn self.now usage.now result }
    {
        (self.rule)(usage)
    }
}
