//! A console in memory: what will be typed is given beforehand, and it exposes its transcript.
#![tactic(auto)]

mod memory;

pub use memory::MemoryConsole;
