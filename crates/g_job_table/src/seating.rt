//! A terminal's LOGIN, and the refusals of a login and of a typed line.
ghost use Rattle.std.specs.Prelude.{◌≡◌, ◌≤◌, ◌++◌, IfOk, OnOk};
ghost use Rattle.g_mop.specs.Seats.{busy_text, none_text};
ghost use Rattle.g_mop.specs.TerminalLines.{terminal_name};
ghost use Rattle.g_run_model.specs.Lines.{terminal_job};

use crate::taking::NotTaken;
use g_base::NoMemory;
use g_job::{Job, NewJob};
use g_lines::Document;
use g_monitor::push_number;
use g_name::{Local, Text, User};
use std::alloc::Global;
use thiserror::Error;

/// The request of a LOGIN: the terminal, 1 to 8, and 1 to 1,000,000 units of TIME. Its MONEY is 1,000.
#[derive(Drop)]
pub struct NewLogin {
    pub terminal: u8,
    pub user: User,
    pub time: u64,
}

/// Why a terminal's job isn't taken in. Nothing changes then.
#[derive(Clone, Copy, Debug, PartialEq, Eq, Error)]
pub enum NotSeated {
    /// An unfinished job is at the terminal.
    #[error("an unfinished job is at terminal {0}")]
    TerminalBusy(u8),
    /// It is refused as any other job may be.
    #[error("{0}")]
    NotTaken(NotTaken),
}

/// Why a line isn't typed. Nothing changes then.
#[derive(Clone, Copy, Debug, PartialEq, Eq, Error)]
pub enum NotTyped {
    /// The terminal has no unfinished job, or was logged out.
    #[error("the terminal has no unfinished job, or was logged out")]
    NoTerminal,
    /// Memory ran out; the line would have been typed.
    #[error("out of memory")]
    NoMemory,
}

/// The terminal has no unfinished job, or was logged out already. Nothing changes then.
#[derive(Clone, Copy, Debug, PartialEq, Eq, Error)]
#[error("the terminal has no unfinished job, or was logged out")]
pub struct NoTerminal;

impl NewLogin {
    /// The job of this number at its beginning: its document is empty, and held open.
    pub(crate) fn begin(self, alloc: Global, number: u64) -> Result<Job, NoMemory>
        requires terminal { (1 ≤ self.terminal) × (self.terminal ≤ 8) }
        requires time { (1 ≤ self.time) × (self.time ≤ 1000000) }
        ensures { IfOk result (λ job. job ≡ terminal_job number self.terminal self.user self.time) }
    {
        let job = NewJob {
            name: terminal_name(self.terminal),
            user: self.user,
            time: self.time,
            money: 1000,
            lines: Document::new(alloc),
        };
        let mut job = Job::new(alloc, number, job)?;
        job.hold();
        job.seat(self.terminal);
        Ok(job)
    }
}

/// The name of the job of a terminal, 1 to 8.
pub fn terminal_name(terminal: u8) -> Local
    requires { (1 ≤ terminal) × (terminal ≤ 8) }
    ensures { result ≡ terminal_name terminal }
{
    let word = [b'M', b'O', b'P', b'0' + terminal];
    match Local::new(&word) {
        Some(name) => name,
        None => unreachable!(),
    }
}

/// Appends number and text of the refusal of a LOGIN at a busy terminal, without a byte 10 (`docs/MANUAL.md`, "Texts of jobs and refusals"). If
/// memory runs out, a prefix of it may have been appended.
pub fn push_busy(text: &mut Text, terminal: u8) -> Result<(), NoMemory>
    ensures { OnOk result (text.new ≡ text.old ++ busy_text terminal) }
{
    push_number(text, b"43 TERMINAL BUSY ", u64::from(terminal))
}

/// The same for a TYPE or LOGOUT at a terminal that has no unfinished job, or was logged out.
pub fn push_no_terminal(text: &mut Text, terminal: u8) -> Result<(), NoMemory>
    ensures { OnOk result (text.new ≡ text.old ++ none_text terminal) }
{
    push_number(text, b"44 NO TERMINAL ", u64::from(terminal))
}
