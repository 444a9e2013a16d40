//! The jobs and accounts of a run: the jobs that were taken in and aren't over, the accounts of users, and the number of the next job; and the texts
//! that the operator reads.
#![tactic(auto)]

mod account;
mod choice;
mod crew;
mod files;
mod place;
mod seating;
mod seats;
mod taken;
mod taking;
mod terminals;
mod texts;
mod weights;

pub use account::Account;
pub use crew::Crew;
pub use g_job::NewJob;
pub use seating::{
    NewLogin, NoTerminal, NotSeated, NotTyped, push_busy, push_no_terminal, terminal_name,
};
pub use taken::Taken;
pub use taking::{NotTaken, push_refusal};
pub use texts::{closing_text, dump_text, job_text, push_operator_line, started_text, tape_text};
pub use weights::Weights;
