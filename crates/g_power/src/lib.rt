//! Devices in memory that lose power: a disc and a rack, for tests.
#![tactic(auto)]

mod cut_blocks;
mod cut_disc;
mod cut_reel;
mod cut_tapes;
mod losing;
mod medium;
mod power;

pub use cut_disc::CutDisc;
pub use cut_tapes::CutTapes;
pub use losing::{Loss, losses};
pub use power::{Fault, Power, Shared};
