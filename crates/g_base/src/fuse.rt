//! The fuse of a device, which makes one later write fail, and what the device was armed with.
ghost use Rattle.std.specs.Prelude.{◌≡◌, ◌≤◌, ◌↔◌, IsTrue, Some, None};
ghost use Rattle.g_base.specs.Fuse.{armed_with, burnt, never};

use crate::counter::raised;
use std::marker::Model;

/// A fuse: none, or a number k, which makes the k-th next write fail.
#[derive(Drop)]
pub struct Fuse {
    left: Option<u32>,
}

impl Model for Fuse {
    ghost use Rattle.std.specs.Prelude.{ℕ, Option};

    ghost Value = { Option ℕ };

    ghost view = { λ f. f.left };
}

impl Fuse {
    /// A device without a fuse.
    pub fn new() -> Self
        ensures { result ≡ None }
    {
        Fuse { left: None }
    }

    /// From now on the k-th next write fails. It replaces any earlier fuse.
    pub fn arm(&mut self, k: u32)
        requires { 1 ≤ k }
        ensures { self.new ≡ Some k }
    {
        self.left = Some(k);
    }

    /// Counts one write. Returns whether it is the one that must fail; the fuse is then spent.
    pub fn burn(&mut self) -> bool
        ensures left { self.new ≡ burnt self.old }
        ensures fires { IsTrue result ↔ (self.old ≡ Some 1) }
    {
        let fires = self.left == Some(1);
        self.left = match self.left {
            Some(k) if k > 1 => Some(k - 1),
            _ => None,
        };
        fires
    }
}

/// What a device was armed with: how often (saturating at 2^64 - 1), the last number, and the device's count at that
/// time. A disc counts writes for this, a rack failed writes.
#[derive(Drop)]
pub struct Armings {
    times: u64,
    number: Option<u32>,
    since: u64,
}

impl Model for Armings {
    ghost use Rattle.g_base.specs.Fuse.{Arms};

    ghost Value = { Arms };

    ghost view = { λ a. record { times = a.times; number = a.number; since = a.since } };
}

impl Armings {
    /// A device that was never armed.
    pub fn new() -> Self
        ensures { result ≡ never }
    {
        Armings {
            times: 0,
            number: None,
            since: 0,
        }
    }

    /// Records that the device was armed with `k` when its count was `since`.
    pub fn arm(&mut self, k: u32, since: u64)
        ensures { self.new ≡ armed_with k since self.old }
    {
        self.times = raised(self.times);
        self.number = Some(k);
        self.since = since;
    }
}
