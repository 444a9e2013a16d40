//! A store in memory that is the plain directory tree itself: what every other store is compared with in tests.
#![tactic(auto)]

mod file_entry;
mod file_map;
mod plain_calls;
mod plain_store;
mod plain_tree;
mod user_entry;

pub use plain_store::PlainStore;
