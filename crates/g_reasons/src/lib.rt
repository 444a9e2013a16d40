//! Why a line isn't a line of a script: the first reason of a closed list that applies to it.
#![tactic(auto)]

mod choice;
mod reason;
mod word;

pub use choice::reason_of;
pub use reason::Reason;
pub use word::Word;
