//! The refusal of a verb.
use thiserror::Error;

/// Why a verb is refused.
#[derive(Clone, Copy, Debug, PartialEq, Eq, Error)]
pub enum VerbFault {
    /// The number counts parameters from 1: the first that doesn't have the form required at its place, or is one too many, or is missing
    /// (`docs/DEFINITIONS.md`, "g_verbs").
    #[error("parameter {0} isn't what the verb asks for")]
    BadParameter(usize),
}
