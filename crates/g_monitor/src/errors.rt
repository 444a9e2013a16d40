//! Errors of commands that aren't faults of a store.
ghost use Rattle.std.specs.Prelude.{◌≡◌, ◌++◌, OnOk};
ghost use Rattle.g_monitor.specs.Refusals.{error_line, error_number};

use crate::parts::push_number;
use g_base::NoMemory;
use g_name::Text;
use thiserror::Error;

/// Why a command of a job isn't executed, other than a fault of a store.
#[derive(Clone, Copy, Debug, PartialEq, Eq, Error)]
pub enum CommandError {
    /// The line isn't in the command language. The number of bytes is the length of its longest prefix that begins some line; 240 if the line is
    /// longer than that.
    #[error("the line goes wrong behind its first {0} bytes")]
    BadLine(usize),
    /// The language has no such verb, and no macro has its name.
    #[error("unknown verb")]
    UnknownVerb,
    /// A macro was called in the eighth level.
    #[error("too deep")]
    TooDeep,
    /// No line of the level has the label.
    #[error("no label")]
    NoLabel,
    /// The job has no program.
    #[error("no program")]
    NoProgram,
    /// The program's last event wasn't a halt.
    #[error("not halted")]
    NotHalted,
    /// The first line of the program file, from 1, that is bad.
    #[error("line {0} of the program file is bad")]
    BadProgram(usize),
    /// The unit isn't assigned.
    #[error("not assigned")]
    NotAssigned,
    /// The unit is assigned.
    #[error("in use")]
    InUse,
    /// The first parameter, from 1, that isn't of the verb's form, or is one too many, or is missing.
    #[error("parameter {0} is bad")]
    BadParameter(usize),
    /// A seventeenth command would wait in the level.
    #[error("whenevers full")]
    WheneversFull,
    /// The first line of the source, from 1, that is bad.
    #[error("line {0} of the source is bad")]
    BadPlan(usize),
}

impl CommandError {
    /// The number of the error, 50 to 61, as its text has it.
    pub fn number(&self) -> u8
        ensures { result ≡ error_number self.now }
    {
        match self {
            CommandError::BadLine(_) => 50,
            CommandError::UnknownVerb => 51,
            CommandError::TooDeep => 52,
            CommandError::NoLabel => 53,
            CommandError::NoProgram => 54,
            CommandError::NotHalted => 55,
            CommandError::BadProgram(_) => 56,
            CommandError::NotAssigned => 57,
            CommandError::InUse => 58,
            CommandError::BadParameter(_) => 59,
            CommandError::WheneversFull => 60,
            CommandError::BadPlan(_) => 61,
        }
    }
}

/// Appends number and text of an error, without a byte 10 (`docs/MANUAL.md`, "Texts of jobs and refusals"). If memory runs out, a prefix of it may
/// have been appended.
pub fn push_error(text: &mut Text, error: CommandError) -> Result<(), NoMemory>
    ensures { OnOk result (text.new ≡ text.old ++ error_line error) }
{
    match error {
        CommandError::BadLine(place) => push_number(text, b"50 BAD LINE ", place as u64),
        CommandError::UnknownVerb => text.extend(b"51 UNKNOWN VERB"),
        CommandError::TooDeep => text.extend(b"52 TOO DEEP"),
        CommandError::NoLabel => text.extend(b"53 NO LABEL"),
        CommandError::NoProgram => text.extend(b"54 NO PROGRAM"),
        CommandError::NotHalted => text.extend(b"55 NOT HALTED"),
        CommandError::BadProgram(line) => push_number(text, b"56 BAD PROGRAM ", line as u64),
        CommandError::NotAssigned => text.extend(b"57 NOT ASSIGNED"),
        CommandError::InUse => text.extend(b"58 IN USE"),
        CommandError::BadParameter(index) => push_number(text, b"59 BAD PARAMETER ", index as u64),
        CommandError::WheneversFull => text.extend(b"60 WHENEVERS FULL"),
        CommandError::BadPlan(line) => push_number(text, b"61 BAD PLAN ", line as u64),
    }
}
