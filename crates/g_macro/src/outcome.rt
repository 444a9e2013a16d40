//! The outcome of the last command.
ghost use Rattle.std.specs.Prelude.{◌≡◌};
ghost use Rattle.g_macro.specs.Questions as asked;

use g_mill::Text40;

/// The outcome of the last command, which conditions test.
#[derive(Drop, PartialEq, Eq)]
pub struct Outcome {
    /// It was an error.
    pub error: bool,
    pub event: EventNote,
}

/// What happened to the program in the last command.
#[derive(Drop, PartialEq, Eq)]
pub enum EventNote {
    /// The command ran no program, or the program continues.
    None,
    /// The program halted with this text.
    Halted(Text40),
    /// The program was deleted with this text.
    Deleted(Text40),
    /// The program reached an illegal order.
    Failed,
}

impl EventNote {
    /// Whether the program halted with this text.
    pub(crate) fn has_halted(&self, text: &[u8]) -> bool
        ensures { result ≡ asked.has_halted self.now text.now }
    {
        match self {
            EventNote::Halted(told) => told.as_slice() == text,
            _ => false,
        }
    }

    /// Whether the program was deleted with this text.
    pub(crate) fn has_deleted(&self, text: &[u8]) -> bool
        ensures { result ≡ asked.has_deleted self.now text.now }
    {
        match self {
            EventNote::Deleted(told) => told.as_slice() == text,
            _ => false,
        }
    }

    /// Whether the program reached an illegal order.
    pub(crate) fn has_failed(&self) -> bool
        ensures { result ≡ asked.has_failed self.now }
    {
        matches!(self, EventNote::Failed)
    }
}
