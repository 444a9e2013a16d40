//! A disc with a cache of the blocks that were read last.
#![tactic(auto)]

mod absent;
mod block_cache;
mod cached_disc;

pub use cached_disc::CachedDisc;
