//! PLAN, an assembler: the source of a program to a program file (docs/DEFINITIONS.md, "g_plan").
#![tactic(auto)]

mod assembly;
mod chars;
mod fault;
mod form;
mod given;
mod image;
mod laws;
mod mnemonic;
mod print;
mod read;
mod reader;
mod source;
mod words;

pub use assembly::assemble;
pub use fault::PlanFault;
pub use form::{Characters, Form, Value};
pub use laws::lines_are_read_by_their_forms;
pub use mnemonic::{Mnemonic, Row};
pub use source::{Line, Source};
