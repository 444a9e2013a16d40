//! Two racks that are opened as one: whether a dump's number was given twice, once in each of them. Nothing is written.
#![tactic(auto)]

mod fork;
mod held;
mod mount;

pub use fork::{Fork, find_fork};
pub use held::{Held, dumps_in};
pub use mount::mount_all;
