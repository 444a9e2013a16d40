//! The result of a turn, and the place in its job's file from which it was written.
use g_rules::Turn;

/// A turn that was taken: how it ended and, for a job at a terminal, the length of its file before.
#[derive(Clone, Copy, PartialEq, Eq)]
pub struct Taken {
    pub turn: Turn,
    pub shown: Option<usize>,
}
