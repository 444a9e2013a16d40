//! The rules of a run, which its caller chooses: what a turn of a job costs, and which job takes the next turn.
#![tactic(auto)]

mod choice;
mod rule;
mod tariff;
mod turn;

pub use choice::{Candidate, choose, earlier};
pub use rule::{MAX_ALLOWANCE, MAX_WEIGHT, Standing, WeighRule};
pub use tariff::{Charge, MAX_BLOCKS, MAX_ORDERS, Tariff, Usage};
pub use turn::Turn;
