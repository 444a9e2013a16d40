//! The blocks of a disc that hold copies of files: which are free, and which are taken.
#![tactic(auto)]

mod free;
mod pool;

pub use g_base::{FIRST_COPY_BLOCK, MAX_DISC_BLOCKS};
pub use pool::{Pool, PoolFault};
