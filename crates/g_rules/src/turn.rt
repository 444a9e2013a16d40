//! The result of a job's turn.

/// The result of a job's turn. Units of TIME and MONEY are those of this turn, each limited to what the job had left.
#[derive(Clone, Copy, PartialEq, Eq)]
pub enum Turn {
    /// The job continues.
    Ran { units: u64, money: u64 },
    /// A call waits for the reel of this serial. Nothing was charged, and the turn resumes once it is mounted.
    Wants { serial: u32 },
    /// The job ended: it was done, its monitoring file was full, or its TIME or its MONEY was used up.
    Ended { units: u64, money: u64 },
    /// A device write failed during a call: the store takes no more calls, and the job no more turns. Nothing was charged.
    Broken,
}
