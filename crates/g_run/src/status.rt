//! How a call of the whole program ended.
ghost use Rattle.std.specs.Prelude.{◌≡◌};

/// The status of a run. Each has a number, the program's exit status.
#[derive(Clone, Copy, PartialEq, Eq)]
pub enum Status {
    /// The script was read whole and done to its end.
    Done,
    /// The words of the command line are unknown. One line that says so was printed, and nothing was done.
    Words,
    /// This line, counted from 1, is the first that no script can have. Everything before it was done to its end.
    BadScript(u64),
    /// The source failed, and its count of faults rose. Nothing was done.
    ScriptFault,
    /// The sink failed, and its count of faults rose. A prefix of the run's text was printed.
    OutputFault,
    /// Memory ran out. A prefix of the run's text was printed.
    NoMemory,
    /// The script has more than 16,777,216 bytes. Nothing was done.
    TooLong,
}

impl Status {
    ghost use Rattle.g_run.specs.Top.{code_of};

    /// The exit status: 0 to 6, in the order of the variants.
    pub fn code(&self) -> u8
        ensures { result ≡ code_of self.now }
    {
        match self {
            Status::Done => 0,
            Status::Words => 1,
            Status::BadScript(_) => 2,
            Status::ScriptFault => 3,
            Status::OutputFault => 4,
            Status::NoMemory => 5,
            Status::TooLong => 6,
        }
    }
}
