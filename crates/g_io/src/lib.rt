//! Bytes in and bytes out: the source of a script and the sink of the text. Each fault has its cause in a count.
#![tactic(auto)]

mod memory;
mod stream;

pub use memory::{MemorySink, MemorySource};
pub use stream::{Sink, Source};
