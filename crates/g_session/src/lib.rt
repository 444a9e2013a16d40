//! A session: what is typed at a console is done line by line, and each line is answered before the next is requested.
#![tactic(auto)]

mod answering;
mod asking;
mod exchange;
mod taking;
mod top;

pub use top::session;
