//! Why a line of a terminal is refused.
use thiserror::Error;

/// Why a line of a terminal is refused. Nothing has changed then.
#[derive(Clone, Copy, Debug, PartialEq, Eq, Drop, Error)]
pub enum MopFault {
    /// The job of this terminal isn't over yet.
    #[error("terminal {0} is busy")]
    TerminalBusy(u8),
    /// This terminal has no job that isn't over, or was logged out.
    #[error("no job is at terminal {0}")]
    NoTerminal(u8),
}
