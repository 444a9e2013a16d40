//! The plain directory tree, the reference for every store: the calls of jobs with their replies and faults, the order
//! of refusals, the effect of each call on a tree, programs that call a store, and a store in memory.
#![tactic(auto)]

mod calls;
mod fault_text;
mod faults;
mod filestore;
mod laws;
mod names;
mod questions;
mod refusals;
mod runs;

pub use calls::{BudgetKind, Listing, StoreCall, StoreReply};
pub use faults::StoreFault;
pub use filestore::Filestore;
pub use laws::{plain_refusal_changes_nothing, plain_step_keeps_rules};
pub use names::{NamedFile, call_is_named, named, with_local};
pub use questions::Questions;
pub use refusals::{CallName, GrantedName, granted_name, refusal};
pub use runs::{HoldsTree, StandsFor, runs_are_plain, runs_go_along, runs_have_answers};
