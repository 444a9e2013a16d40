//! How far a run came.
use crate::day::Day;
use g_disc::Disc;
use g_tape::Tapes;

/// Why a run ends early: the sink failed, and its fault counter rose, or memory ran out.
#[derive(Clone, Copy, PartialEq, Eq)]
pub enum Failure {
    Output,
    Memory,
}

/// The day after a part of a run, and why the run ends there, if it does.
#[derive(Drop)]
pub struct Ended<D: Disc, T: Tapes> {
    pub day: Day<D, T>,
    pub failure: Option<Failure>,
}
