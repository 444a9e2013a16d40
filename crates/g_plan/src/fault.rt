//! Why a source isn't assembled.
use thiserror::Error;

/// Why a source isn't assembled.
#[derive(Clone, Copy, Debug, PartialEq, Eq, Error)]
pub enum PlanFault {
    /// The first line, from 1, that is bad (`docs/DEFINITIONS.md`, "g_plan").
    #[error("line {0} of the source is bad")]
    BadPlan(usize),
    #[error("out of memory")]
    NoMemory,
}

impl From<g_base::NoMemory> for PlanFault {
    ghost use Rattle.std.specs.Prelude.{◌≡◌};
    ghost use Rattle.g_plan.specs.declared.fault.PlanFault.TheVariants.{NoMemory};

    ghost from_gives = { λ _ fault. fault ≡ NoMemory };

    fn from(_: g_base::NoMemory) -> PlanFault {
        PlanFault::NoMemory
    }
}
