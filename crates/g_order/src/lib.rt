//! The orders of the order code: their fields, the words that hold them, and the function of each.
#![tactic(auto)]

mod coding;
mod functions;
mod orders;

pub use coding::{
    Illegal, accumulator_in, branch_operand, decode, encode, function_in, plain_operands,
    read_order,
};
pub use functions::{Condition, Function, Operation, function_of};
pub use orders::{Order, is_branch};
