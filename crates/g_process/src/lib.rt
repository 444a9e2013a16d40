//! PROCESS: all current versions are consolidated on one reel, and the other reels are released.
#![tactic(auto)]

mod event;
mod job;
mod living;
mod release;
mod shelves;
mod sources;
mod write;

pub use event::process;
