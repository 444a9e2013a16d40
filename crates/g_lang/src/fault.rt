//! The refusals of a line.
use thiserror::Error;

/// A line that isn't read.
#[derive(Clone, Copy, Debug, PartialEq, Eq, Error)]
pub enum LangFault {
    /// The text is no line of the language (`docs/DEFINITIONS.md`, "g_lang"). The number of bytes is the length of the longest
    /// prefix of the text that begins some line.
    #[error("the line goes wrong behind its first {0} bytes")]
    BadLine(usize),
    /// Memory ran out for the value; the text is a line of the language.
    #[error("out of memory")]
    NoMemory,
}
