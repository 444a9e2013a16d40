//! Why a directory can't be read or written.
use g_base::NoMemory;
use g_slots::SlotFault;
use thiserror::Error;

/// Why a directory was not read or not written.
#[derive(Clone, Copy, Debug, PartialEq, Eq, Error)]
pub enum DirsFault {
    /// A read of the disc failed.
    #[error("the disc could not be read")]
    ReadFault,
    /// The current slot holds no directory.
    #[error("the disc holds no filestore")]
    NoFilestore,
    /// A write of the disc failed.
    #[error("the disc could not be written")]
    Stopped,
    /// Memory ran out.
    #[error("out of memory")]
    NoMemory,
}

impl From<NoMemory> for DirsFault {
    ghost use Rattle.std.specs.Prelude.{◌≡◌};
    ghost use Rattle.g_dirs.specs.declared.fault.DirsFault.TheVariants.{NoMemory};

    ghost from_gives = { λ _ e. e ≡ NoMemory };

    fn from(_e: NoMemory) -> DirsFault {
        DirsFault::NoMemory
    }
}

impl From<SlotFault> for DirsFault {
    ghost use Rattle.std.specs.Prelude.{◌≡◌};
    ghost use Rattle.g_dirs.specs.Fault.{dirs_fault_of};

    ghost from_gives = { λ fault e. e ≡ dirs_fault_of fault };

    fn from(fault: SlotFault) -> DirsFault {
        match fault {
            SlotFault::ReadFault => DirsFault::ReadFault,
            SlotFault::Stopped => DirsFault::Stopped,
        }
    }
}
