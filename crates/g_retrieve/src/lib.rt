//! The bytes of files that are only on tape, and how such a file is brought back to the disc.
#![tactic(auto)]

mod back;
mod bytes;

pub use back::{bring_back, file_of, read_copy};
pub use bytes::tape_bytes;
