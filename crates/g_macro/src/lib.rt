//! The levels of a job: its document and the macros that it has called, the lines that it takes from them with parameters substituted, and the
//! commands that wait for a condition.
#![tactic(auto)]

mod entry;
mod expansion;
mod fault;
mod level;
mod levels;
mod outcome;
mod params;

pub use entry::Entry;
pub use fault::MacroFault;
pub use levels::Levels;
pub use outcome::{EventNote, Outcome};
