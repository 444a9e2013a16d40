//! The users and files of a filestore in memory, as numbered records without bytes. Its calls are those of the plain
//! directory tree that the records represent.
#![tactic(auto)]

mod asked;
mod counts;
mod index;
mod laws;
mod number_list;
mod output;
mod scan;
mod sorted;
mod tree;

pub use asked::{Granted, refusal_of};
pub use laws::{
    bytes_go_by_record, records_change_the_tree, records_make_a_tree, refusals_go_by_length,
    rows_are_of_records, traps_go_by_name, users_go_by_name,
};
pub use number_list::NumberList;
pub use output::Output;
pub use scan::full_of;
pub use tree::Tree;
