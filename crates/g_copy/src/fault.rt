//! Why a copy can't be written or read.
use g_blocks::PoolFault;
use std::alloc::AllocError;
use thiserror::Error;

/// Why a copy was not written or not read.
#[derive(Clone, Copy, Debug, PartialEq, Eq, Error)]
pub enum CopyFault {
    /// The text needs `need` blocks, and only `room` are free.
    #[error("{need} blocks are needed and {room} are free")]
    DiscFull { need: u32, room: u32 },
    /// A read of the disc failed.
    #[error("the disc could not be read")]
    ReadFault,
    /// A write of the disc failed.
    #[error("the disc could not be written")]
    Stopped,
    /// Memory ran out.
    #[error("out of memory")]
    NoMemory,
}

impl From<AllocError> for CopyFault {
    ghost use Rattle.std.specs.Prelude.{◌≡◌};
    ghost use Rattle.g_copy.specs.declared.fault.CopyFault.TheVariants.{NoMemory};

    ghost from_gives = { λ _ e. e ≡ NoMemory };

    fn from(_e: AllocError) -> CopyFault {
        CopyFault::NoMemory
    }
}

impl From<PoolFault> for CopyFault {
    ghost use Rattle.std.specs.Prelude.{◌≡◌};
    ghost use Rattle.g_copy.specs.Fault.{copy_fault_of};

    ghost from_gives = { λ fault e. e ≡ copy_fault_of fault };

    fn from(fault: PoolFault) -> CopyFault {
        match fault {
            PoolFault::DiscFull { need, room } => CopyFault::DiscFull { need, room },
            PoolFault::NoMemory => CopyFault::NoMemory,
        }
    }
}
