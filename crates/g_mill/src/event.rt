//! The event of a program's step.

ghost use Rattle.std.specs.Prelude.{◌≡◌, ◌<◌, ◌≤◌, [], ◌∷◌, ◌++◌, length};

use arrayvec::ArrayVec;
use g_word::Word;
use std::marker::Model;

/// A text of up to 40 bytes. Contracts see it as a list.
#[derive(Drop, PartialEq, Eq)]
pub struct Text40 {
    bytes: ArrayVec<u8, 40>,
}

impl Model for Text40 {
    ghost use Rattle.std.specs.Prelude.{ℕ, List, ◌≤◌, length};

    ghost Value = { List ℕ };

    ghost view = { λ t. t.bytes.items };

    ghost invariant = { λ t. length t.bytes.items ≤ 40 };

    ghost inverse = { λ xs. record { bytes = record { items = xs } } };
}

impl Text40 {
    /// The empty text.
    pub fn new() -> Text40
        ensures { result ≡ [] }
    {
        Text40 {
            bytes: ArrayVec::new(),
        }
    }

    /// The text of these bytes.
    pub(crate) fn of(bytes: ArrayVec<u8, 40>) -> Text40
        requires { length bytes.items ≤ 40 }
        ensures { result ≡ bytes.items }
    {
        Text40 { bytes }
    }

    /// The bytes.
    pub fn as_slice(&self) -> &[u8]
        ensures bytes { result.now ≡ self.now }
        ensures short { length self.now ≤ 40 }
    {
        self.bytes.as_slice()
    }

    /// Appends a byte.
    pub fn push(&mut self, byte: u8)
        requires { length self.old < 40 }
        ensures { self.new ≡ self.old ++ byte ∷ [] }
    {
        self.bytes.push(byte);
    }

    /// A copy of the text; allocates nothing.
    pub fn copy(&self) -> Text40
        ensures { result ≡ self.now }
    {
        let mut copy = Text40::new();
        for byte in self.bytes.as_slice() {
            copy.push(*byte);
        }
        copy
    }
}

/// The event of one step of a program.
#[derive(Drop, PartialEq, Eq)]
pub enum Event {
    /// An order was executed.
    Ran,
    /// The program requests a transfer with a unit; `area` is the address of the control area.
    Peri {
        area: u16,
    },
    /// The program halted and waits to be resumed.
    Halted(Text40),
    /// The program displays a text and continues.
    Displayed(Text40),
    /// The program deletes itself.
    Deleted(Text40),
    /// The order is illegal, or needs words past the program's end. Nothing changed.
    Illegal {
        /// The word of the order, or 0 if the program has no word at `at`.
        word: Word,
        /// The address of the order.
        at: u16,
    },
}
