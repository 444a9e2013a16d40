//! Discs: blocks that are read and written one at a time, with counts of what failed and a fuse.
#![tactic(auto)]

mod blocks;
mod disc;
mod laws;
mod memory;

pub use disc::Disc;
pub use g_base::{ReadFailed, WriteFailed};
pub use laws::durable_discs_stay;
pub use memory::{Leave, MemoryDisc};
