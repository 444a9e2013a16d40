//! Why a turn's work is over.

/// Why a turn's work is over.
#[derive(Clone, Copy, PartialEq, Eq)]
pub enum Stop {
    /// The monitoring file has no room for the next line.
    Full,
    /// A call waits for the reel of this serial.
    Waits(u32),
    /// A device write failed during a call.
    Broken,
    /// The job is done.
    Done,
}
