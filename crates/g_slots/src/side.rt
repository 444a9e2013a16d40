//! The two slots, and how the gate names one of them.

ghost use Rattle.std.specs.Prelude.{◌≡◌, ◌==◌, ◌%◌, slice_index, if◌then◌else◌};
ghost use Rattle.g_slots.specs.Layout.{byte_of, other, start_of};

use g_base::Block;

/// One of the two slots. Slot A begins at block 1 of the disc and slot B at block 1,089.
#[derive(Clone, Copy, PartialEq, Eq)]
pub enum Side {
    A,
    B,
}

impl Side {
    /// The opposite slot.
    pub fn other(self) -> Side
        ensures { result ≡ other self }
    {
        match self {
            Side::A => Side::B,
            Side::B => Side::A,
        }
    }

    /// The number of the slot's first block on the disc.
    pub fn start(self) -> u32
        ensures { result ≡ start_of self }
    {
        match self {
            Side::A => 1,
            Side::B => 1089,
        }
    }

    /// The slot that a gate names. Only the parity of its first byte counts, because a failed write may
    /// leave any bytes in the gate.
    pub(crate) fn named_by(gate: &Block) -> Side
        ensures { result ≡ (if slice_index gate.now 0 % 2 == 0 then Side.A else Side.B) }
    {
        if gate[0].is_multiple_of(2) {
            Side::A
        } else {
            Side::B
        }
    }

    /// The first byte of the gate that names the slot.
    pub(crate) fn byte(self) -> u8
        ensures { result ≡ byte_of self }
    {
        match self {
            Side::A => 0,
            Side::B => 1,
        }
    }
}
