//! A day: what a run has at hand between two events. The system is up or down; the rest are the jobs and the count of
//! ticks. This crate also prints the results of events.
#![tactic(auto)]

mod day;
mod progress;
mod puts;
mod running;
mod stopping;
mod system;
mod turn_stop;

pub use day::Day;
pub use progress::{Ended, Failure};
pub use puts::{ROOM, push_told, put, put_made, refuse, say, say_made, told};
pub use running::{EmptyBox, Running};
pub use stopping::{goes_down, refuse_or_go_down, tell_fault};
pub use system::{System, take_down};
pub use turn_stop::stops_behind;
