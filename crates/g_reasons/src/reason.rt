//! The reasons why a line isn't one of a script.
use crate::word::Word;

/// Why a line isn't one of a script.
#[derive(Clone, Copy, PartialEq, Eq)]
pub enum Reason {
    /// It is empty.
    Blank,
    /// It has a carriage return.
    Return,
    /// It has a tab.
    Tab,
    /// It has another byte that isn't printed.
    Byte,
    /// It has more than 160 bytes.
    Long,
    /// It doesn't begin with a time and a space.
    NoTime,
    /// It is a JOB or a LOGIN, and has no colon.
    NoColon,
    /// It begins with this word, and goes on otherwise than it may.
    BadForm(Word),
    /// Its first word begins with a small letter.
    SmallLetter,
    /// It has none of the words.
    NoWord,
}

impl Reason {
    /// The reason in words.
    pub fn text(self) -> &'static str {
        match self {
            Reason::Blank => "a line is empty; outside a document no line may be",
            Reason::Return => "a carriage return; lines end with a line feed only",
            Reason::Tab => "a tab; a line has only printed characters of ASCII",
            Reason::Byte => {
                "a byte that isn't a printed character of ASCII; a line has only those"
            }
            Reason::Long => "more than 160 bytes in a line",
            Reason::NoTime => {
                "a line begins with its time, from 0 to 1000000000 without leading zeros, and a space"
            }
            Reason::NoColon => "a user is written :NAME",
            Reason::BadForm(word) => word.form(),
            Reason::SmallLetter => "the operator's words are written in capitals",
            Reason::NoWord => {
                "a line asks for FORMAT, START, RESTORE, SHUT, MOUNT, UNMOUNT, DUMP, PROCESS, MIGRATE, STOP, LOGIN, TYPE, LOGOUT or JOB"
            }
        }
    }
}
