//! Ticks: each writes a block of the open dump to tape and gives one job its turn, as long as something can step and no
//! line is due.
#![tactic(auto)]

mod day_up;
mod dumping;
mod ending;
mod rules;
mod showing;
mod ticking;
mod ticks;
mod turning;
mod watched;

pub use rules::Rules;
pub use ticks::tick_until_due;
