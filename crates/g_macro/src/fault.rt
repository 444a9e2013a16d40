//! The refusals of calls on the levels.
ghost use Rattle.std.specs.Prelude.{◌≡◌};
ghost use Rattle.g_macro.specs.declared.fault.MacroFault.TheVariants.{NoMemory};

use g_base::NoMemory;
use g_name::Text;
use std::alloc::AllocFailed;
use thiserror::Error;

/// Why a call on the levels is refused. After each of them but `TooLong` the levels are unchanged.
#[derive(Debug, Drop, Error)]
pub enum MacroFault {
    /// There are 8 levels already.
    #[error("eight levels are the most")]
    TooDeep,
    /// No line of the current level has the label.
    #[error("no line has the label")]
    NoLabel,
    /// The current level has 16 waiting commands already.
    #[error("sixteen commands are the most")]
    WheneversFull,
    /// The line is longer than 240 bytes after substitution. These are its first 240 bytes; the line counts as taken.
    #[error("the line is too long")]
    TooLong(Text),
    /// Memory ran out; the call would have been granted.
    #[error("out of memory")]
    NoMemory,
}

impl From<NoMemory> for MacroFault {
    ghost from_gives = { λ e fault. fault ≡ NoMemory };

    fn from(_e: NoMemory) -> MacroFault {
        MacroFault::NoMemory
    }
}

impl<T: Drop> From<AllocFailed<T>> for MacroFault {
    ghost from_gives = { λ e fault. fault ≡ NoMemory };

    fn from(_e: AllocFailed<T>) -> MacroFault {
        MacroFault::NoMemory
    }
}
