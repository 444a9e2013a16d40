//! The texts that jobs and operators read, byte by byte: replies and refusals of a store, errors of commands, listings,
//! and the lines of a monitoring file.
#![tactic(auto)]

mod errors;
mod faults;
mod job_lines;
mod laws;
mod listing;
mod parts;
mod replies;

pub use errors::{CommandError, push_error};
pub use faults::{fault_text, push_fault};
pub use job_lines::{JobLine, Mark, push_header, push_job_line, push_marked};
pub use laws::refusals_begin_with_their_numbers;
pub use listing::{list_text, push_row, push_shown};
pub use parts::{mode_word, push_full, push_number, push_numbers};
pub use replies::{push_last, reply_text};
