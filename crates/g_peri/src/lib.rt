//! The units of a job: card readers, line printers and tape punches, and the transfers of its program.
#![tactic(auto)]

mod control;
mod deck;
mod layout;
mod numbers;
mod ordered;
mod unit;
mod units;
mod writers;

pub use ordered::OrderEvent;
pub use unit::{Kind, Unit};
pub use units::{PeriFault, UnitFault, Units};
