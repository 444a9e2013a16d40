//! A console: one device that is asked for lines and prints text, with one history of both.
#![tactic(auto)]

mod console;
mod law;

pub use console::Console;
pub use law::only_printing_lengthens_a_transcript;
