//! The modes in which a file is used, and sets of them.
ghost use Rattle.std.specs.Prelude.{◌≡◌, ◌-◌, ◌^◌, ◌≤◌, ◌<◌, ◌==◌, not, bit_and, bit_or, IsNone, IfSome, ◌↔◌};
ghost use Rattle.g_trap.specs.ModeSet.{mode_bit, allows};

use std::marker::Model;

/// A way of using a file. A mode is closed to a user who doesn't have it.
#[derive(Clone, Copy, Debug, PartialEq, Eq, Hash)]
pub enum Mode {
    Read,
    Write,
    Append,
    Execute,
    Erase,
}

impl Mode {
    /// The mode's bit: READ 16, WRITE 8, APPEND 4, EXECUTE 2, ERASE 1.
    pub fn bit(self) -> u8
        ensures { result ≡ mode_bit self }
    {
        match self {
            Mode::Read => 16,
            Mode::Write => 8,
            Mode::Append => 4,
            Mode::Execute => 2,
            Mode::Erase => 1,
        }
    }
}

/// A set of modes. Contracts see it as the sum of its modes' bits, a number below 32.
#[derive(Clone, Copy, PartialEq, Eq, PartialOrd, Ord, Hash, Default)]
pub struct Modes {
    bits: u8,
}

impl Model for Modes {
    ghost use Rattle.std.specs.Prelude.{ℕ, ◌<◌};

    ghost Value = { ℕ };

    ghost view = { λ m. m.bits };

    ghost invariant = { λ m. m.bits < 32 };

    ghost inverse = { λ n. record { bits = n } };
}

impl Modes {
    /// The set whose modes' bits add up to `bits`.
    pub fn from_bits(bits: u8) -> Option<Modes>
        ensures none { IsNone result ↔ (32 ≤ bits) }
        ensures some { IfSome result (λ modes. modes ≡ bits) }
    {
        if bits < 32 {
            Some(Modes { bits })
        } else {
            None
        }
    }

    /// The sum of the modes' bits.
    pub fn bits(self) -> u8
        ensures value { result ≡ self }
        ensures below { result < 32 }
    {
        self.bits
    }

    /// The empty set.
    pub fn none() -> Modes
        ensures { result ≡ 0 }
    {
        Modes { bits: 0 }
    }

    /// All five modes.
    pub fn all() -> Modes
        ensures { result ≡ 31 }
    {
        Modes { bits: 31 }
    }

    /// The set of this mode only.
    pub fn only(mode: Mode) -> Modes
        ensures { result ≡ mode_bit mode }
    {
        Modes { bits: mode.bit() }
    }

    pub fn is_empty(self) -> bool
        ensures value { result ≡ (self == 0) }
        ensures below { self < 32 }
    {
        self.bits == 0
    }

    /// Whether the mode is in the set.
    pub fn contains(self, mode: Mode) -> bool
        ensures { result ≡ allows self mode }
    {
        self.bits & mode.bit() != 0
    }

    /// The modes that are in at least one of the sets.
    pub fn union(self, other: Modes) -> Modes
        ensures { result ≡ bit_or self other }
    {
        Modes {
            bits: self.bits | other.bits,
        }
    }

    /// The modes that are in this set and not in the other.
    pub fn without(self, other: Modes) -> Modes
        ensures { result ≡ self - bit_and self other }
    {
        Modes {
            bits: self.bits - (self.bits & other.bits),
        }
    }
}
