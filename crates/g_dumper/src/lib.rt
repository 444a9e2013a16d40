//! A dump that is being written, one block of tape in each step.
#![tactic(auto)]

mod begin;
mod dump;
mod step;

pub use begin::{LAST_NUMBER, held_files};
pub use dump::{Dump, DumpStep};
