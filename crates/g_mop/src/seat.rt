//! A terminal with its job.

/// A terminal, from 1 to 8, with the number of its job, and whether it was logged out.
#[derive(Clone, Copy, Default, PartialEq, Eq)]
pub struct Seat {
    pub terminal: u8,
    pub job: u64,
    pub out: bool,
}
