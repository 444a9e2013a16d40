//! Terminals: the jobs at them, and the mark before each line that is printed at one.
#![tactic(auto)]

mod fault;
mod seat;
mod shown;
mod terminals;

pub use fault::MopFault;
pub use seat::Seat;
pub use shown::{mark, push_mark};
pub use terminals::Terminals;
