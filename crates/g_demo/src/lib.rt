//! A demonstration: a script generated from a number, and the summary of the text of its run; and the words of the command line that request it
//! (docs/DEFINITIONS.md, "g_demo").
#![tactic(auto)]

mod demonstration;
mod draws;
mod law;
mod script;
mod sink;
mod summary;
mod text;
mod told;
mod words;

pub use demonstration::Demonstration;
pub use law::words_have_one_reading;
pub use script::script_of;
pub use sink::SummarySink;
pub use summary::{Summary, summary_text};
pub use words::{Asked, asked_by};
