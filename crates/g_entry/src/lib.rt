//! The records of a filestore, each in a block of its own: users, files, and the head of a directory.
#![tactic(auto)]

mod boxed_rec;
mod compare;
mod file_block;
mod file_rec;
mod format;
mod head;
mod head_block;
mod put;
mod rules;
mod same;
mod take;
mod user_block;
mod user_rec;

pub use boxed_rec::BoxedRec;
pub use file_block::{decode_file_in, decode_file_on_tape, encode_file_in, put_file};
pub use file_rec::{FileRec, TapeCopy};
pub use format::{Format, empty_block};
pub use head::{Head, Intent};
pub use head_block::{decode_head_in, encode_head_in, put_head};
pub use rules::{files_keep, stamps_are_below, users_keep};
pub use same::is_same;
pub use user_block::{
    decode_user_held, decode_user_in, encode_user_held, encode_user_in, put_user,
};
pub use user_rec::UserRec;
