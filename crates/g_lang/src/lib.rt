//! The command language: written lines, and what they say.
#![tactic(auto)]

mod bytes;
mod fault;
mod label;
mod laws;
mod line;
mod params;
mod parse;
mod pieces;
mod reader;
mod rest;

pub use bytes::is_param_letter;
pub use fault::LangFault;
pub use label::Label;
pub use laws::{lines_are_read_by_the_grammar, same_conditions_are_equal};
pub use line::{Command, Cond, Line, Test};
pub use params::{Param, Params, count_params, param_at};
pub use parse::{
    has_label, is_input_line, label_of, only_param, parse_line, read_params, two_params,
};
pub use pieces::{behind, trimmed};
pub use rest::Rest;
