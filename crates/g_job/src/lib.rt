//! Jobs: a document, the macros that it calls, units, a program, an allowance; and the calls that one turn of a job makes to a store, with the use of
//! the answers. A job at a terminal has a document that grows by the lines that are typed.
#![tactic(auto)]

mod ending;
mod job;
mod laws;
mod making;
mod new_job;
mod parts;
mod terminal;

pub use job::Job;
pub use laws::{
    lines_are_lines_of_programs, turns_are_asked_of_a_plain_tree, turns_come_to_one_end,
    turns_keep_the_document, turns_keep_the_rules, turns_keep_their_limits,
    turns_leave_their_store, turns_say_why_they_are_over,
};
pub use new_job::NewJob;
