//! A worked row: a line that names its files and says what differs from the plain case, the devices that it requires, and whether the results of its
//! run are the expected ones.
#![tactic(auto)]

mod devices;
mod row;

pub use devices::{disc_of, seen_of, tapes_of};
pub use row::{Row, Seen, Taped};
