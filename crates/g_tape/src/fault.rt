//! Why a call of the tapes is refused or fails.
use thiserror::Error;

/// A refused call changes nothing. A failure is returned only if the count of its kind rose.
#[derive(Clone, Copy, Debug, PartialEq, Eq, Error)]
pub enum TapeFault {
    /// No reel of that serial is in the rack.
    #[error("no such tape")]
    NoTape,
    /// The reel isn't mounted.
    #[error("the tape is not mounted")]
    NotMounted,
    /// A read past the last block, or a write past the place after it or past the capacity.
    #[error("end of tape")]
    End,
    /// The read failed. The contents of the buffer are unspecified.
    #[error("a tape read failed")]
    ReadFailed,
    /// The write failed: the reel is unchanged, truncated there, or truncated and ends in a torn block.
    #[error("a tape write failed")]
    WriteFailed,
}
