//! A rack that remembers the completed dumps of its reels from the first time they are read until the reel is
//! unmounted.
#![tactic(auto)]

mod asked;
mod known;
mod lists;
mod reading;
mod remembered;

pub use asked::catalogue;
pub use known::KnownReels;
