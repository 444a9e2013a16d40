//! The end of a look.
ghost use Rattle.std.specs.Prelude.{◌≡◌};
ghost use Rattle.g_look_program.specs.Exit.{code_of};

/// The status of a look. Each has a number, the program's exit status.
#[derive(Clone, Copy, PartialEq, Eq)]
pub enum Status {
    /// The text was printed; for a check: disc and rack belong together, no dump is missing and the disc holds a filestore.
    Done,
    /// The answer is no: a rule is broken, there is no such file or user, the rack can't be restored, or a dump is missing.
    No,
    /// The words of the command line aren't known.
    Words,
    /// A block of a device couldn't be read, and that device's count of faults rose.
    Unread,
    /// The sink failed, and its count of faults rose.
    OutputFault,
    /// Memory ran out.
    NoMemory,
    /// For a check: disc and rack belong together, no dump is missing, and the disc holds no filestore.
    Nothing,
    /// The seal of the command line isn't one, or couldn't be read.
    NoSeal,
}

impl Status {
    /// The exit status.
    pub fn code(self) -> u8
        ensures { result ≡ code_of self }
    {
        match self {
            Status::Done => 0,
            Status::No => 1,
            Status::Words => 2,
            Status::Unread => 3,
            Status::OutputFault => 4,
            Status::NoMemory => 5,
            Status::Nothing => 6,
            Status::NoSeal => 8,
        }
    }
}
