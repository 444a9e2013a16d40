//! The lines of texts, documents and lists of texts that own them, and numbers as texts write them (docs/DEFINITIONS.md, "g_lines", *Lines*).
#![tactic(auto)]

mod cursor;
mod document;
mod laws;
mod lines;
mod numbers;
mod texts;

pub use cursor::Cursor;
pub use document::Document;
pub use laws::lines_are_those_of_their_text;
pub use lines::{Lines, split_at_byte};
pub use numbers::{begins_plainly, number, push_decimal};
pub use texts::Texts;
