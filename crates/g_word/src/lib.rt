//! Words of 24 bits, their six-bit characters, and their octal digits.
#![tactic(auto)]

mod characters;
mod octal;
mod words;

pub use characters::{byte_of, code_of};
pub use words::Word;
