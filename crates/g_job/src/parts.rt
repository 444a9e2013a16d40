//! The parts of a job.
use g_name::{Local, Text, User};
use g_turn::{Suspended, Work};

/// The parts of a job. Its work stores the results of the last turn until the next one begins; contracts of a job don't see that.
#[derive(Drop)]
pub(crate) struct Parts {
    pub number: u64,
    pub name: Local,
    pub user: User,
    pub allowance: u64,
    pub money: u64,
    pub used: u64,
    pub used_money: u64,
    pub turns: u64,
    pub work: Work,
    /// What the next turn resumes with, if the last one waited.
    pub again: Option<Suspended>,
    pub wants: Option<u32>,
    pub monitor: Text,
    pub over: bool,
    /// The terminal of the job, if it has one.
    pub terminal: Option<u8>,
    /// Whether it may take a turn, which is computed once a turn and for each typed line.
    pub ready: bool,
}
