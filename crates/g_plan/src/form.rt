//! What a line of a source says after its label.
use crate::mnemonic::Mnemonic;
use arrayvec::ArrayVec;
use g_name::Local;
use std::marker::Model;

/// A number or a label, used as an address or a word.
#[derive(Drop)]
pub enum Value {
    /// A number, 2^24 at most.
    Number(u32),
    Named(Local),
}

/// What a line says after its label.
#[derive(Drop)]
pub enum Form {
    Nothing,
    /// How many words the program has.
    Program(u16),
    /// The place of the next word.
    At(u16),
    Word(Value),
    Chars(Characters),
    /// A name with its accumulator, its modifier and its address, which is 0 if the order has none.
    Order(Mnemonic, u8, u8, Value),
}

/// Up to 40 bytes, which contracts see as a list.
#[derive(Drop)]
pub struct Characters {
    text: ArrayVec<u8, 40>,
}

impl Model for Characters {
    ghost use Rattle.std.specs.Prelude.{ℕ, List};

    ghost Value = { List ℕ };

    ghost view = { λ c. c.text.items };
}

impl Characters {
    ghost use Rattle.std.specs.Prelude.{◌≡◌, ◌≤◌, length};

    /// These bytes.
    pub fn new(text: &[u8]) -> Characters
        requires { length text.now ≤ 40 }
        ensures { result ≡ text.now }
    {
        Characters {
            text: ArrayVec::try_from(text).unwrap(),
        }
    }

    /// The bytes.
    pub fn as_slice(&self) -> &[u8]
        ensures text { result.now ≡ self.now }
        ensures few { length self.now ≤ 40 }
    {
        self.text.as_slice()
    }
}
