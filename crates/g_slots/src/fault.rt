//! Why a call on the slots failed.

use g_base::{ReadFailed, WriteFailed};
use thiserror::Error;

/// The disc failed, and its count of that kind of fault rose. Nothing else makes a call on the slots fail.
#[derive(Clone, Copy, Debug, PartialEq, Eq, Error)]
pub enum SlotFault {
    /// A block couldn't be read; nothing on the disc has changed.
    #[error("a block of the disc can't be read")]
    ReadFault,
    /// A block couldn't be written. The call says what the disc then holds.
    #[error("a block of the disc can't be written")]
    Stopped,
}

impl From<ReadFailed> for SlotFault {
    ghost use Rattle.std.specs.Prelude.{◌≡◌};
    ghost use Rattle.g_slots.specs.declared.fault.SlotFault.TheVariants.{ReadFault};

    ghost from_gives = { λ _ fault. fault ≡ ReadFault };

    fn from(_failed: ReadFailed) -> SlotFault {
        SlotFault::ReadFault
    }
}

impl From<WriteFailed> for SlotFault {
    ghost use Rattle.std.specs.Prelude.{◌≡◌};
    ghost use Rattle.g_slots.specs.declared.fault.SlotFault.TheVariants.{Stopped};

    ghost from_gives = { λ _ fault. fault ≡ Stopped };

    fn from(_failed: WriteFailed) -> SlotFault {
        SlotFault::Stopped
    }
}
