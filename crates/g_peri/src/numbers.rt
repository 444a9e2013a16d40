//! The numbers of units in control areas, and their places.

ghost use Rattle.std.specs.Prelude.{◌≡◌, ◌+◌, ◌<◌, ◌≤◌, MatchOption, nat_lt};
ghost use Rattle.g_peri.specs.JobUnits.{is_reader, place_of, number_of};

use crate::unit::{Kind, Unit};

impl Unit {
    /// Whether it is a card reader.
    pub(crate) fn is_reader(self) -> bool
        ensures kind { result ≡ is_reader self.kind }
        ensures number { result ≡ nat_lt (number_of self) 8 }
    {
        match self.kind {
            Kind::Cr => true,
            Kind::Lp | Kind::Tp => false,
        }
    }

    /// The place of a card reader among its kind, and of a printer or a punch among both.
    pub(crate) fn place(self) -> usize
        ensures value { result ≡ place_of self.kind self.number }
        ensures within { result < 16 }
        ensures reader { number_of self < 8 → result ≡ number_of self }
        ensures writer { 8 ≤ number_of self → result + 8 ≡ number_of self }
    {
        match self.kind {
            Kind::Cr | Kind::Lp => usize::from(self.number),
            Kind::Tp => usize::from(self.number) + 8,
        }
    }

    /// The unit of a number in a control area; no unit has 24 or more.
    pub(crate) fn of_number(number: u32) -> Option<Unit>
        ensures { MatchOption result (24 ≤ number) (λ u. number_of u ≡ number) }
    {
        let kind = match number / 8 {
            0 => Kind::Cr,
            1 => Kind::Lp,
            2 => Kind::Tp,
            _ => return None,
        };
        let number = (number % 8) as u8;
        Some(Unit { kind, number })
    }
}
