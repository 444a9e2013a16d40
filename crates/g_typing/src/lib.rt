//! What is typed at a console, line by line: an item of the operator's language with or without a time, a document, or a line that is refused.
#![tactic(auto)]

mod item;
mod query;

pub use item::{ItemReader, Place, Reply, time_of};
pub use query::Query;
