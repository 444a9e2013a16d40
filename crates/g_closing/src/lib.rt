//! Closing the files of a disc and a rack at the end of a run.
#![tactic(auto)]

mod files;

pub use files::{close, close_pair};
