//! Why two racks can't be compared.
ghost use Rattle.std.specs.Prelude.{◌≡◌};
ghost use Rattle.g_twins.specs.declared.fault.TwinsFault.TheVariants.{NoMemory};

use g_base::NoMemory;
use thiserror::Error;

/// Neither rack has changed, except for counts of reads.
#[derive(Clone, Copy, Debug, PartialEq, Eq, Error)]
pub enum TwinsFault {
    /// A read of a reel failed.
    #[error("a tape read failed")]
    ReadFailed,
    /// Memory ran out.
    #[error("out of memory")]
    NoMemory,
}

impl From<NoMemory> for TwinsFault {
    ghost from_gives = { λ e fault. fault ≡ NoMemory };

    fn from(_fault: NoMemory) -> TwinsFault {
        TwinsFault::NoMemory
    }
}
