//! The operator's lines: each is done on a system that is up or down, and its result is printed.
#![tactic(auto)]

mod arming;
mod dumping;
mod jobs;
mod operator;
mod reels;
mod rising;
mod terminals;

pub use operator::operator_line;
