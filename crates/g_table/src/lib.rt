//! Tables of items with numbers below 1,024, in which no item moves when another is added or removed; and the records
//! of files in such a table.
#![tactic(auto)]

mod file_table;
mod files;
mod iter;
mod number_table;
mod numbers;

pub use file_table::FileTable;
pub use files::Files;
pub use iter::Iter;
pub use number_table::NumberTable;
