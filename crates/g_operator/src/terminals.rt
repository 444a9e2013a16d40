//! Terminals: a job is accepted at one, a line is typed there, it is logged out.
ghost use Rattle.std.specs.Prelude.{◌≡◌, ◌+◌, ◌<◌, ◌≤◌, ◌++◌, Some, IfOk, codes};
ghost use Rattle.g_day.specs.Parts.{DidLine, IsReady};
ghost use Rattle.g_day.specs.System.{facts_of};
ghost use Rattle.g_day.specs.Terminals.{ChangesAt, SeatsJob, TellsSeat, is_up_in};
ghost use Rattle.g_job_table.specs.Numbers.{job_in};
ghost use Rattle.g_job_table.specs.Seating.{pushed_of};
ghost use Rattle.g_job.specs.State.{JobState};
ghost use Rattle.g_job.specs.Terminal.{logged_out, typed_to};
ghost use Rattle.g_lines.specs.Documents.{IsOneLine};
ghost use Rattle.g_mop.specs.Seats.{busy_text, none_text};
ghost use Rattle.g_mop.specs.TerminalLines as shown;
ghost use Rattle.g_script.specs.declared.operator.Operator.TheVariants as line;
ghost use Rattle.g_run_model.specs.Texts as texts;

use crate::jobs::{came_in, knows, turned_away};
use g_base::NoMemory;
use g_day::{Day, Ended, Failure, System, put_made, refuse_or_go_down, say_made};
use g_disc::Disc;
use g_io::Sink;
use g_job_table::{
    Crew, NewLogin, NotSeated, NotTyped, push_busy, push_no_terminal, terminal_name,
};
use g_name::Text;
use g_plain::StoreFault;
use g_tape::Tapes;
use std::alloc::Global;

/// LOGIN: a job is accepted at the terminal, and the first line of its file is printed there. `NotStarted`: the system is
/// down; then `NoUser`, the terminal is busy, 64 unfinished jobs, TIME, MONEY.
pub(crate) fn login_line<K: Sink, D: Disc, T: Tapes>(
    alloc: Global,
    day: Day<D, T>,
    login: NewLogin,
    out: &mut K,
) -> Ended<D, T>
    requires ready { IsReady day.system day.crew }
    requires terminal { (1 ≤ login.terminal) × (login.terminal ≤ 8) }
    requires time { (1 ≤ login.time) × (login.time ≤ 1000000) }
    requires numbers { day.crew.next_job + 1 < 18446744073709551616 }
    ensures { DidLine (line.Login login.terminal login.user login.time) day result.failure result.day
        (K.written out.old) (K.written out.new) (K.faults out.old) (K.faults out.new) }
{
    match knows(&day.system, &login.user) {
        Some(known) => seat_job(alloc, day, known, login, out),
        None => refuse_or_go_down(alloc, day, StoreFault::NotStarted, out),
    }
}

/// A terminal's job for a system that is up, whose user may be known or not.
fn seat_job<K: Sink, D: Disc, T: Tapes>(
    alloc: Global,
    day: Day<D, T>,
    known: bool,
    login: NewLogin,
    out: &mut K,
) -> Ended<D, T>
    requires terminal { (1 ≤ login.terminal) × (login.terminal ≤ 8) }
    requires time { (1 ≤ login.time) × (login.time ≤ 1000000) }
    requires numbers { day.crew.next_job + 1 < 18446744073709551616 }
    ensures same { result.day ≡ record day { crew = result.day.crew } }
    ensures seated { SeatsJob known login day.count day.crew result.failure result.day.crew (K.written out.old) (K.written out.new) (K.faults out.old) (K.faults out.new) }
{
    let mut day = day;
    let terminal = login.terminal;
    match day.crew.login(alloc, known, login) {
        Ok(number) => {
            let made = logged_in(alloc, &day.crew, day.count, number, terminal);
            let failure = put_made(out, made);
            Ended { day, failure }
        }
        Err(why) => {
            let failure = seat_refused(alloc, day.count, why, out);
            Ended { day, failure }
        }
    }
}

/// The line that reports an accepted terminal's job, and the text for the terminal.
fn logged_in(
    alloc: Global,
    crew: &Crew,
    count: u64,
    number: u64,
    terminal: u8,
) -> Result<Text, NoMemory>
    requires terminal { (1 ≤ terminal) × (terminal ≤ 8) }
    requires there { (job : JobState) × (job_in number crew.now.jobs ≡ Some job) }
    ensures { IfOk result (λ text. (job : JobState) → job_in number crew.now.jobs ≡ Some job
        → text ≡ texts.operator_line count (texts.job_text number (shown.terminal_name terminal ++ codes " IN")) ++ pushed_of job 0) }
{
    let name = terminal_name(terminal);
    let mut text = came_in(alloc, count, number, &name)?;
    crew.push_shown(&mut text, number, 0)?;
    Ok(text)
}

/// Reports why a terminal's job isn't accepted. Nothing is printed if memory ran out.
fn seat_refused<K: Sink>(alloc: Global, count: u64, why: NotSeated, out: &mut K) -> Option<Failure>
    ensures { TellsSeat why count result (K.written out.old) (K.written out.new) (K.faults out.old) (K.faults out.new) }
{
    match why {
        NotSeated::TerminalBusy(terminal) => {
            let made = busy(alloc, terminal);
            say_made(alloc, count, made, out)
        }
        NotSeated::NotTaken(why) => turned_away(alloc, count, why, out),
    }
}

/// The text for a LOGIN at a busy terminal.
fn busy(alloc: Global, terminal: u8) -> Result<Text, NoMemory>
    ensures { IfOk result (λ text. text ≡ codes "REFUSED " ++ busy_text terminal) }
{
    let mut text = Text::from_slice(alloc, b"REFUSED ")?;
    push_busy(&mut text, terminal)?;
    Ok(text)
}

/// The text for a TYPE or LOGOUT without such a job.
fn no_terminal(alloc: Global, terminal: u8) -> Result<Text, NoMemory>
    ensures { IfOk result (λ text. text ≡ codes "REFUSED " ++ none_text terminal) }
{
    let mut text = Text::from_slice(alloc, b"REFUSED ")?;
    push_no_terminal(&mut text, terminal)?;
    Ok(text)
}

/// Whether the system is up.
fn is_up<D: Disc, T: Tapes>(system: &System<D, T>) -> bool
    ensures { result ≡ is_up_in (facts_of D.state T.rack system.now) }
{
    match system {
        System::Up(_) => true,
        System::Down(_, _) => false,
    }
}

/// TYPE: a line is appended to the document of the terminal's job, and nothing is printed. `NotStarted`; or the terminal
/// has no unfinished job, or was logged out.
pub(crate) fn type_line<K: Sink, D: Disc, T: Tapes>(
    alloc: Global,
    day: Day<D, T>,
    terminal: u8,
    text: Text,
    out: &mut K,
) -> Ended<D, T>
    requires ready { IsReady day.system day.crew }
    requires line { IsOneLine text }
    ensures { DidLine (line.Typed terminal text) day result.failure result.day
        (K.written out.old) (K.written out.new) (K.faults out.old) (K.faults out.new) }
{
    if is_up(&day.system) {
        type_at(alloc, day, terminal, text, out)
    } else {
        refuse_or_go_down(alloc, day, StoreFault::NotStarted, out)
    }
}

/// The line is typed on a system that is up.
fn type_at<K: Sink, D: Disc, T: Tapes>(
    alloc: Global,
    day: Day<D, T>,
    terminal: u8,
    text: Text,
    out: &mut K,
) -> Ended<D, T>
    requires { IsOneLine text }
    ensures same { result.day ≡ record day { crew = result.day.crew } }
    ensures typed { ChangesAt terminal (typed_to text) day.count day.crew result.failure result.day.crew (K.written out.old) (K.written out.new) (K.faults out.old) (K.faults out.new) }
{
    let mut day = day;
    match day.crew.type_line(terminal, text) {
        Ok(()) => Ended { day, failure: None },
        Err(NotTyped::NoTerminal) => {
            let made = no_terminal(alloc, terminal);
            let failure = say_made(alloc, day.count, made, out);
            Ended { day, failure }
        }
        Err(NotTyped::NoMemory) => Ended {
            day,
            failure: Some(Failure::Memory),
        },
    }
}

/// LOGOUT: the terminal gets no more lines, and nothing is printed. `NotStarted`; or the terminal has no unfinished job, or
/// was logged out.
pub(crate) fn logout_line<K: Sink, D: Disc, T: Tapes>(
    alloc: Global,
    day: Day<D, T>,
    terminal: u8,
    out: &mut K,
) -> Ended<D, T>
    requires ready { IsReady day.system day.crew }
    ensures { DidLine (line.Logout terminal) day result.failure result.day
        (K.written out.old) (K.written out.new) (K.faults out.old) (K.faults out.new) }
{
    if is_up(&day.system) {
        log_out_at(alloc, day, terminal, out)
    } else {
        refuse_or_go_down(alloc, day, StoreFault::NotStarted, out)
    }
}

/// The terminal is logged out on a system that is up.
fn log_out_at<K: Sink, D: Disc, T: Tapes>(
    alloc: Global,
    day: Day<D, T>,
    terminal: u8,
    out: &mut K,
) -> Ended<D, T>
    ensures same { result.day ≡ record day { crew = result.day.crew } }
    ensures left { ChangesAt terminal logged_out day.count day.crew result.failure result.day.crew (K.written out.old) (K.written out.new) (K.faults out.old) (K.faults out.new) }
{
    let mut day = day;
    match day.crew.logout(terminal) {
        Ok(()) => Ended { day, failure: None },
        Err(_) => {
            let made = no_terminal(alloc, terminal);
            let failure = say_made(alloc, day.count, made, out);
            Ended { day, failure }
        }
    }
}
