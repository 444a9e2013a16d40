//! Copies of texts on disc: written into blocks of the copy area and read back from them.
#![tactic(auto)]

mod copy;
mod fault;
mod laws;
mod read;
mod store;
mod write;

pub use copy::DiscCopy;
pub use fault::CopyFault;
pub use laws::copies_stay;
pub use read::read_copy;
pub use store::{drop_copy, store_copy};
pub use write::write_copy;
