//! The faults of the filestore.
use g_base::NoMemory;
use g_plain::StoreFault;
use std::alloc::AllocError;
use thiserror::Error;

/// Why a call on the filestore was refused.
#[derive(Clone, Copy, Debug, PartialEq, Eq, Error)]
pub enum OnlineFault {
    /// The new bytes need `need` blocks, and only `room` would be free.
    #[error("{need} blocks are needed and {room} are free")]
    DiscFull { need: u32, room: u32 },
    /// A read of the disc failed; nothing has changed.
    #[error("the disc could not be read")]
    ReadFault,
    /// A write of the disc failed. The disc holds the old contents or the new ones. If files were taken off for the change,
    /// it may also hold the old contents without those files. The filestore accepts no further call.
    #[error("the disc could not be written")]
    Stopped,
    /// The disc holds no filestore.
    #[error("the disc holds no filestore")]
    NoFilestore,
    /// Memory ran out; nothing has changed.
    #[error("out of memory")]
    NoMemory,
}

impl From<AllocError> for OnlineFault {
    ghost use Rattle.std.specs.Prelude.{◌≡◌};
    ghost use Rattle.g_online.specs.declared.fault.OnlineFault.TheVariants.{NoMemory};

    ghost from_gives = { λ _ e. e ≡ NoMemory };

    fn from(_e: AllocError) -> OnlineFault {
        OnlineFault::NoMemory
    }
}

impl From<NoMemory> for OnlineFault {
    ghost use Rattle.std.specs.Prelude.{◌≡◌};
    ghost use Rattle.g_online.specs.declared.fault.OnlineFault.TheVariants.{NoMemory};

    ghost from_gives = { λ _ e. e ≡ NoMemory };

    fn from(_e: NoMemory) -> OnlineFault {
        OnlineFault::NoMemory
    }
}

impl From<OnlineFault> for StoreFault {
    ghost use Rattle.std.specs.Prelude.{◌≡◌};
    ghost use Rattle.g_online.specs.Faults.{store_fault_of};

    ghost from_gives = { λ fault e. e ≡ store_fault_of fault };

    /// The fault as the store reports it.
    fn from(fault: OnlineFault) -> StoreFault {
        match fault {
            OnlineFault::DiscFull { need, room } => StoreFault::DiscFull { need, room },
            OnlineFault::ReadFault => StoreFault::DiscReadFault,
            OnlineFault::Stopped => StoreFault::Stopped,
            OnlineFault::NoFilestore => StoreFault::NoFilestore,
            OnlineFault::NoMemory => StoreFault::NoMemory,
        }
    }
}
