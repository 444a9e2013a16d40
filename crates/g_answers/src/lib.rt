//! The answers of a console to questions: where things stand, what may be typed, and what a refusal means.
#![tactic(auto)]

mod help;
mod meanings;
mod state;

pub use help::{help_text, refusal_text};
pub use state::{push_dump_line, push_job_line, push_reel_line, push_system_line, push_tick_line};
