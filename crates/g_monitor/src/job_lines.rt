//! The lines of a job's monitoring file that don't belong to a reply.
ghost use Rattle.std.specs.Prelude.{◌≡◌, ◌++◌, OnOk};
ghost use Rattle.std.specs.Fmt.{decimal};
ghost use Rattle.g_monitor.specs.JobLines.{header, mark_text, marked, job_line};
ghost use Rattle.g_monitor.specs.declared.job_lines.JobLine.TheVariants as line;

use crate::parts::{push_number, push_octal, push_words};
use g_base::NoMemory;
use g_lines::push_decimal;
use g_name::{Local, Text, User};
use g_word::Word;

/// The text before the rest of a marked line.
#[derive(Clone, Copy, Debug, PartialEq, Eq)]
pub enum Mark {
    /// A line that was taken, without the spaces at its ends: `- `.
    Taken,
    /// The command of a WHENEVER that fires: `+ `.
    Fired,
    /// Number and text of an error: `ERROR `.
    Error,
    /// The text with which the program halted: `HALTED `.
    Halted,
    /// The text with which the program was deleted: `DELETED `.
    Deleted,
    /// What the program, or the command DISPLAY, displays: `DISPLAY `.
    Displayed,
}

/// A line of words and numbers.
#[derive(Clone, Copy, Debug, PartialEq, Eq)]
pub enum JobLine {
    /// A program of this many words was loaded.
    Loaded(u32),
    /// The program reached an illegal order: the word, and its address.
    Illegal { word: Word, at: u16 },
    /// A unit was assigned.
    Assigned,
    /// A unit that reads was released.
    Released,
    /// The program was dropped by the command DELETE.
    Deleted,
    /// The last line of a job that is done: the units of TIME that it used.
    End(u64),
    /// The last line of a job that has used up its TIME.
    TimeUp(u64),
    /// The last line of a job that has used up its MONEY.
    MoneyUp(u64),
    /// The last line of a monitoring file that is full.
    Full,
    /// The last line of a job that SHUT or a failed device write ended.
    Break,
    /// The last line of a job that waits for this reel at the end of the run.
    WaitingTape(u32),
}

/// Appends the first line of a monitoring file, without a byte 10. If memory runs out, a prefix of it may have been appended.
pub fn push_header(text: &mut Text, number: u64, name: &Local, user: &User) -> Result<(), NoMemory>
    ensures { OnOk result (text.new ≡ text.old ++ header number name.now user.now) }
{
    push_number(text, b"JOB ", number)?;
    text.extend(b" ")?;
    text.extend(name.as_slice())?;
    text.extend(b" :")?;
    text.extend(user.as_slice())
}

/// The text before the rest of a marked line.
fn mark_text(mark: Mark) -> &'static [u8]
    ensures { result.now ≡ mark_text mark }
{
    match mark {
        Mark::Taken => b"- ",
        Mark::Fired => b"+ ",
        Mark::Error => b"ERROR ",
        Mark::Halted => b"HALTED ",
        Mark::Deleted => b"DELETED ",
        Mark::Displayed => b"DISPLAY ",
    }
}

/// Appends a mark and its text, without a byte 10. If memory runs out, a prefix of it may have been appended.
pub fn push_marked(text: &mut Text, mark: Mark, rest: &[u8]) -> Result<(), NoMemory>
    ensures { OnOk result (text.new ≡ text.old ++ marked mark rest.now) }
{
    push_words(text, mark_text(mark), rest)
}

/// Appends a number between words.
fn push_between(text: &mut Text, before: &[u8], number: u64, behind: &[u8]) -> Result<(), NoMemory>
    ensures { OnOk result (text.new ≡ text.old ++ ((before.now ++ decimal number) ++ behind.now)) }
{
    push_number(text, before, number)?;
    text.extend(behind)
}

/// Appends the line of an illegal order.
fn push_illegal(text: &mut Text, word: Word, at: u16) -> Result<(), NoMemory>
    ensures { OnOk result (text.new ≡ text.old ++ job_line (line.Illegal word at)) }
{
    text.extend(b"ILLEGAL ")?;
    push_octal(text, word)?;
    text.extend(b" AT ")?;
    push_decimal(text, u64::from(at))
}

/// Appends a line of words and numbers, without a byte 10. If memory runs out, a prefix of it may have been appended.
pub fn push_job_line(text: &mut Text, line: JobLine) -> Result<(), NoMemory>
    ensures { OnOk result (text.new ≡ text.old ++ job_line line) }
{
    match line {
        JobLine::Loaded(size) => push_between(text, b"LOADED ", u64::from(size), b" WORDS"),
        JobLine::Illegal { word, at } => push_illegal(text, word, at),
        JobLine::Assigned => text.extend(b"ASSIGNED"),
        JobLine::Released => text.extend(b"RELEASED"),
        JobLine::Deleted => text.extend(b"DELETED"),
        JobLine::End(units) => push_between(text, b"END ", units, b" UNITS"),
        JobLine::TimeUp(units) => push_between(text, b"TIME UP ", units, b" UNITS"),
        JobLine::MoneyUp(money) => push_between(text, b"MONEY UP ", money, b" MONEY"),
        JobLine::Full => text.extend(b"MONITORING FILE FULL"),
        JobLine::Break => text.extend(b"BREAK"),
        JobLine::WaitingTape(serial) => push_number(text, b"WAITING TAPE ", u64::from(serial)),
    }
}
