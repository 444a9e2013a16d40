//! The whole store: a disc and a rack of reels, the files on both, and the open dump. Each of its events is a step of the
//! state that it represents.
#![tactic(auto)]

mod calling;
mod dumping;
mod laws;
mod making;
mod migrating;
mod mounting;
mod processing;
mod starting;
mod store;

pub use laws::{making_is_complete, process_is_complete};
pub use making::{Refused, format, restore};
pub use mounting::rack_answer;
pub use starting::start;
pub use store::Store;
