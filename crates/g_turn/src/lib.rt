//! The work of a turn: the calls that its lines, commands and verbs make to a store, the use of the answers, and the lines that are printed.
#![tactic(auto)]

mod acts;
mod asker;
mod asking;
mod command;
mod fetching;
mod lines;
mod listing;
mod macros;
mod made;
mod releases;
mod room;
mod runs;
mod say;
mod stop;
mod suspended;
mod turning;
mod typing;
mod uses;
mod work;

pub use asker::Asker;
pub use stop::Stop;
pub use suspended::Suspended;
pub use work::Work;
