//! The job that a line of the script begins.
use g_lines::Document;
use g_name::{Local, User};

/// The job that a line of the script begins: 1 to 1,000,000 units of TIME, at most 1,000,000 of MONEY, and the lines of its document.
#[derive(Drop)]
pub struct NewJob {
    pub name: Local,
    pub user: User,
    pub time: u64,
    pub money: u64,
    pub lines: Document,
}
