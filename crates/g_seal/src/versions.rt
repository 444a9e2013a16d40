//! A sealed version as it is found on the disc, and the states of its copies.
ghost use Rattle.std.specs.Prelude.{◌≡◌};
ghost use Rattle.g_seal.specs.Rotten.{is_other, is_sealed};

use g_entry::TapeCopy;
use g_name::Full;

/// The bytes of a copy: the sealed ones, or others, or there is no copy.
#[derive(Clone, Copy, PartialEq, Eq)]
pub(crate) enum CopyState {
    Sealed,
    Other,
    Absent,
}

/// A version with its present name, the place of its copy on tape, and the states of its copies on disc, on tape and in the second rack.
#[derive(Drop)]
pub(crate) struct FoundVersion {
    pub full: Full,
    pub stamp: u64,
    pub place: Option<TapeCopy>,
    pub disc: CopyState,
    pub tape: CopyState,
    pub twin: CopyState,
}

impl CopyState {
    /// Whether the bytes are others.
    pub(crate) fn is_other(self) -> bool
        ensures { result ≡ is_other self }
    {
        match self {
            CopyState::Sealed => false,
            CopyState::Other => true,
            CopyState::Absent => false,
        }
    }

    /// Whether the bytes are the sealed ones.
    pub(crate) fn is_sealed(self) -> bool
        ensures { result ≡ is_sealed self }
    {
        match self {
            CopyState::Sealed => true,
            CopyState::Other => false,
            CopyState::Absent => false,
        }
    }
}
