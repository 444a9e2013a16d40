//! The names of the filestore: users, local names, languages, written paths, and full names with their order.
#![tactic(auto)]

mod bad_name;
mod full;
mod grammar;
mod lang;
mod local;
mod parse;
mod path;
mod path_reader;
mod short;
mod text;
mod user;
mod word;

pub use bad_name::BadName;
pub use full::Full;
pub use grammar::{are_name_chars, extends, is_letter, is_name_char};
pub use lang::Lang;
pub use local::Local;
pub use parse::parse_path;
pub use path::Path;
pub use text::Text;
pub use user::User;
