//! The verbs of the command language: the parameters that each takes, and the action that it requests.
#![tactic(auto)]

mod action;
mod asked;
mod fault;
mod form;
mod laws;
mod parameter;
mod read;
mod values;
mod verb;

pub use action::Action;
pub use fault::VerbFault;
pub use form::{Form, Forms};
pub use laws::verbs_are_read_by_their_forms;
pub use read::{only_file, read_known, read_verb};
pub use verb::Verb;
