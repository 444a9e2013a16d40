//! The online filestore: each change is one commit, completely done or not at all.
#![tactic(auto)]

mod adopt;
mod apply;
mod bring;
mod bytes;
mod change;
mod closing;
mod commit;
mod erase;
mod fault;
mod load;
mod numbers;
mod off;
mod online;
mod pin_list;
mod pinned;
mod pins;
mod put;
mod ready;
mod records;
mod unjam;

pub use change::{Change, CopyList};
pub use fault::OnlineFault;
pub use online::Online;
pub use ready::Ready;
pub use unjam::Unjam;
