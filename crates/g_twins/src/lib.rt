//! Two racks that should hold the same: a text that names the reels that differ. Nothing is written.
#![tactic(auto)]

mod comparing;
mod fault;

pub use comparing::compare_twins;
pub use fault::TwinsFault;
