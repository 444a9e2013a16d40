//! The words with which operator lines begin, and how such a line is written.
ghost use Rattle.std.specs.Prelude.{◌≡◌};
ghost use Rattle.g_reasons.specs.Words.{word_text};

/// The word of an operator line.
#[derive(Clone, Copy, PartialEq, Eq)]
pub enum Word {
    Format,
    Start,
    Restore,
    Shut,
    Mount,
    Unmount,
    Dump,
    Process,
    Migrate,
    Stop,
    Login,
    Type,
    Logout,
    Job,
}

impl Word {
    /// The word.
    pub fn text(self) -> &'static [u8]
        ensures { result.now ≡ word_text self }
    {
        match self {
            Word::Format => b"FORMAT",
            Word::Start => b"START",
            Word::Restore => b"RESTORE",
            Word::Shut => b"SHUT",
            Word::Mount => b"MOUNT",
            Word::Unmount => b"UNMOUNT",
            Word::Dump => b"DUMP",
            Word::Process => b"PROCESS",
            Word::Migrate => b"MIGRATE",
            Word::Stop => b"STOP",
            Word::Login => b"LOGIN",
            Word::Type => b"TYPE",
            Word::Logout => b"LOGOUT",
            Word::Job => b"JOB",
        }
    }

    /// How a line with the word is written.
    pub fn form(self) -> &'static str {
        match self {
            Word::Format => "FORMAT is a line of its own",
            Word::Start => "START is a line of its own",
            Word::Restore => "RESTORE is a line of its own",
            Word::Shut => "SHUT is a line of its own",
            Word::Mount => "MOUNT is written MOUNT SERIAL, with a serial from 1 to 999999",
            Word::Unmount => "UNMOUNT is written UNMOUNT SERIAL, with a serial from 1 to 999999",
            Word::Dump => "DUMP is written DUMP SERIAL, with a serial from 1 to 999999",
            Word::Process => "PROCESS is written PROCESS SERIAL, with a serial from 1 to 999999",
            Word::Migrate => "MIGRATE is written MIGRATE FILE, with a file as :USER.NAME",
            Word::Stop => "STOP is written STOP DISC K or STOP TAPE K, with K from 1 to 1000000000",
            Word::Login => {
                "LOGIN is written LOGIN T,:USER,TIME N, with T from 1 to 8 and N from 1 to 1000000; a name has 1 to 12 of A-Z, 0-9 and -, the first a letter"
            }
            Word::Type => "TYPE is written TYPE T,TEXT, with T from 1 to 8",
            Word::Logout => "LOGOUT is written LOGOUT T, with T from 1 to 8",
            Word::Job => {
                "JOB is written JOB NAME,:USER,TIME N or JOB NAME,:USER,TIME N,MONEY M, with N from 1 and both up to 1000000; a name has 1 to 12 of A-Z, 0-9 and -, the first a letter"
            }
        }
    }
}
