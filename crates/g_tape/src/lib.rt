//! Magnetic tapes: the rack of reels as all layers see it, and a rack in memory.
#![tactic(auto)]

mod fault;
mod leave;
mod memory;
mod memory_reel;
mod place;
mod reel_state;
mod securing;
mod tapes;

pub use fault::TapeFault;
pub use leave::{TapeLeave, half_of};
pub use memory::MemoryTapes;
pub use reel_state::ReelState;
pub use securing::secure_all;
pub use tapes::{Tapes, reads_only_read};
