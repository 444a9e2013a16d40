//! The names of units.

ghost use Rattle.std.specs.Prelude.{◌<◌};

/// What a unit does.
#[derive(Clone, Copy, PartialEq, Eq)]
pub enum Kind {
    /// *CR, a card reader.
    Cr,
    /// *LP, a line printer.
    Lp,
    /// *TP, a tape punch.
    Tp,
}

/// One of the 24 units.
#[derive(Clone, Copy, PartialEq, Eq)]
pub struct Unit {
    pub kind: Kind,
    /// 0 to 7.
    pub number: u8,
    pub ghost in_range: { number < 8 },
}
