//! The warning that a RESTORE from a rack would be refused, or would lack a dump. Nothing is written to disc or rack.
#![tactic(auto)]

mod mounts;
mod outlook;
mod warning;

pub use outlook::{Untold, tell_outlook};
