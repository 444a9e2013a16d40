//! The two slots of a disc: which one is current, and the atomic commit that makes the other one
//! current.
#![tactic(auto)]

mod fault;
mod gate;
mod side;
mod slots;

pub use fault::SlotFault;
pub use g_base::SLOT_BLOCKS;
pub use side::Side;
pub use slots::Slots;
