//! The numbers of a demonstration.

/// A demonstration: the number that its draws begin with, and the number of its rounds, from 1 to 1,000 if the command line requests it (`asked_by`).
#[derive(Clone, Copy, PartialEq, Eq)]
pub struct Demonstration {
    pub number: u32,
    pub rounds: u32,
}
