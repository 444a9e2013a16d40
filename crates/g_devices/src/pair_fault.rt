//! Why two racks can't be opened as one.
use g_duplex::Twin;
use std::io::{self, ErrorKind};

/// Why image and racks can't be used, and in which reel that lies if it lies in one.
#[derive(Drop)]
pub enum PairFault {
    /// It lies in no single reel.
    Racks(io::Error),
    /// The reel of this serial in the folder of this twin can't be opened or read. The other one may be whole.
    Reel(u32, Twin, io::Error),
    /// The same of a reel whose other one is missing, empty or rebuilt from it only in part.
    OnlyReel(u32, Twin, io::Error),
    /// That reel can't be rebuilt from the other one.
    NotRebuilt(u32, Twin, io::Error),
}

impl PairFault {
    /// A fault of one reel, whose other one has blocks or not. A reel that another run has isn't to blame, nor is one that takes
    /// memory which there isn't.
    pub(crate) fn in_reel(serial: u32, twin: Twin, has_other: bool, error: io::Error) -> PairFault {
        match error.kind() {
            ErrorKind::WouldBlock | ErrorKind::OutOfMemory | ErrorKind::Unsupported => {
                PairFault::Racks(error)
            }
            _ if has_other => PairFault::Reel(serial, twin, error),
            _ => PairFault::OnlyReel(serial, twin, error),
        }
    }

    /// A reel that can't be rebuilt.
    pub(crate) fn not_rebuilt(serial: u32, twin: Twin, error: io::Error) -> PairFault {
        match error.kind() {
            ErrorKind::WouldBlock | ErrorKind::OutOfMemory | ErrorKind::Unsupported => {
                PairFault::Racks(error)
            }
            _ => PairFault::NotRebuilt(serial, twin, error),
        }
    }

    /// What sort of error it is.
    pub fn kind(&self) -> ErrorKind {
        match self {
            PairFault::Racks(error) => error.kind(),
            PairFault::Reel(_, _, error) => error.kind(),
            PairFault::OnlyReel(_, _, error) => error.kind(),
            PairFault::NotRebuilt(_, _, error) => error.kind(),
        }
    }
}

impl From<io::Error> for PairFault {
    fn from(error: io::Error) -> PairFault {
        PairFault::Racks(error)
    }
}
