//! The calls of a job, each answered as the whole store answers it: by the step of the state that it represents.
#![tactic(auto)]

mod answering;
mod appending;
mod changing;
mod fetching;
mod putting;
mod setting;
mod telling;

pub use answering::answer;
