//! The script of an operator: its lines parsed into operator lines with their turns, and the first line that isn't valid.
#![tactic(auto)]

mod head;
mod law;
mod number;
mod operator;
mod parse;
mod read;

pub use law::one_reading;
pub use operator::{Operator, Script, Timed, Timeds};
pub use parse::{parse_item, parse_script};
