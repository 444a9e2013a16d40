//! The mill: programs of 24-bit words, loaded from program files and stepped order by order.
#![tactic(auto)]

mod event;
mod lines;
mod loading;
mod operands;
mod operations;
mod orders;
mod program;
mod step;

pub use event::{Event, Text40};
pub use lines::split_line;
pub use loading::{LoadFault, load};
pub use program::Program;
