//! Why a reel could not be read.
use g_plain::StoreFault;
use thiserror::Error;

/// Why a reader of a reel returns no result. No fault changes what the reel holds.
#[derive(Clone, Copy, Debug, PartialEq, Eq, Error)]
pub enum ShelfFault {
    /// No reel of that serial is in the rack.
    #[error("no such tape")]
    NoTape,
    /// The reel isn't mounted.
    #[error("the tape is not mounted")]
    NotMounted,
    /// A read of the reel failed.
    #[error("the tape could not be read")]
    ReadFault,
    /// Memory ran out.
    #[error("out of memory")]
    NoMemory,
}

/// The fault as a store returns it.
impl From<ShelfFault> for StoreFault {
    ghost use Rattle.std.specs.Prelude.{◌≡◌};
    ghost use Rattle.g_incr.specs.Faults.{store_fault};

    ghost from_gives = { λ fault e. e ≡ store_fault fault };

    fn from(fault: ShelfFault) -> StoreFault {
        match fault {
            ShelfFault::NoTape => StoreFault::NoTape,
            ShelfFault::NotMounted => StoreFault::NotMounted,
            ShelfFault::ReadFault => StoreFault::TapeReadFault,
            ShelfFault::NoMemory => StoreFault::NoMemory,
        }
    }
}
