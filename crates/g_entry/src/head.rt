//! The head of a directory.

/// A dump that is open, or was when the system went down: its reel, the place of its first block there, and its number.
#[derive(Clone, Copy, PartialEq, Eq)]
pub struct Intent {
    pub serial: u32,
    pub place: u32,
    pub number: u64,
}

/// The contents of a directory apart from its users and files.
#[derive(Clone, Copy, PartialEq, Eq)]
pub struct Head {
    /// The stamp of the next version.
    pub next_stamp: u64,
    /// The number of the last dump, or 0.
    pub last_dump: u64,
    pub intent: Option<Intent>,
}
