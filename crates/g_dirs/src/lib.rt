//! The directory on a disc: read from the current slot, and written by one commit into the other one.
#![tactic(auto)]

mod boxed_copy;
mod copy_table;
mod dirs;
mod fault;
mod kept_block;
mod known;
mod laws;
mod listing;
mod marks;
mod pages;
mod read;
mod rules;
mod write;

pub use boxed_copy::{BoxedCopy, FileCopy};
pub use copy_table::CopyTable;
pub use dirs::Dirs;
pub use fault::DirsFault;
pub use laws::{one_directory, power_losses, quiet_writes};
pub use listing::Listing;
pub use pages::Pages;
pub use read::read_dirs;
pub use write::write_changed;
