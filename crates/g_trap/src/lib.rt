//! Traps: which users may use a file, and in which modes. Users are represented by their numbers.
#![tactic(auto)]

mod mode_set;
mod trap_list;

pub use mode_set::{Mode, Modes};
pub use trap_list::{Traps, TrapsFull};
