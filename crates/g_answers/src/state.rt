//! The lines that say where things stand: the system, a reel, the open dump, a job, the count of ticks.
ghost use Rattle.std.specs.Prelude.{◌≡◌, ◌++◌, OnOk};
ghost use Rattle.g_run_model.specs.Texts.{waiting_line};
ghost use Rattle.g_laws_sessions.specs.Asked as asked;
ghost use Rattle.g_laws_sessions.specs.Asked.{dump_line, job_line, reel_line, seat_text, system_line, tick_line, used_text, wait_text};

use g_base::NoMemory;
use g_job::Job;
use g_lines::{Lines, push_decimal};
use g_monitor::push_number;
use g_name::Text;

/// Appends the line that says whether the system is up.
pub fn push_system_line(text: &mut Text, up: bool) -> Result<(), NoMemory>
    ensures { OnOk result (text.new ≡ text.old ++ system_line up) }
{
    if up {
        text.extend(b"? UP\n")
    } else {
        text.extend(b"? DOWN\n")
    }
}

/// Appends the line of a reel.
pub fn push_reel_line(text: &mut Text, serial: u32, mounted: bool) -> Result<(), NoMemory>
    ensures { OnOk result (text.new ≡ text.old ++ reel_line serial mounted) }
{
    push_number(text, b"? TAPE ", u64::from(serial))?;
    if mounted {
        text.extend(b" MOUNTED\n")
    } else {
        text.push(b'\n')
    }
}

/// Appends the line of the open dump, if there is one.
pub fn push_dump_line(text: &mut Text, number: Option<u64>) -> Result<(), NoMemory>
    ensures { OnOk result (text.new ≡ text.old ++ dump_line number) }
{
    match number {
        Some(number) => {
            push_number(text, b"? DUMP ", number)?;
            text.extend(b" OPEN\n")
        }
        None => Ok(()),
    }
}

/// Appends the line of a job, which says what it waits for unless it can step.
pub fn push_job_line(text: &mut Text, job: &Job, steps: bool) -> Result<(), NoMemory>
    ensures { OnOk result (text.new ≡ text.old ++ job_line steps job.now) }
{
    text.extend(b"? ")?;
    push_seat(text, job.terminal())?;
    text.extend(first_line(job.monitor()))?;
    let standing = job.standing();
    push_used(text, standing.used, standing.allowance)?;
    push_wait(text, steps, job.wants())?;
    text.push(b'\n')
}

/// Appends the line with the count of ticks.
pub fn push_tick_line(text: &mut Text, count: u64) -> Result<(), NoMemory>
    ensures { OnOk result (text.new ≡ text.old ++ tick_line count) }
{
    push_number(text, b"? TICK ", count)?;
    text.push(b'\n')
}

/// Appends the terminal of a job, if it has one.
fn push_seat(text: &mut Text, terminal: Option<u8>) -> Result<(), NoMemory>
    ensures { OnOk result (text.new ≡ text.old ++ seat_text terminal) }
{
    match terminal {
        Some(terminal) => {
            push_number(text, b"T", u64::from(terminal))?;
            text.extend(b" ")
        }
        None => Ok(()),
    }
}

/// The first line of a text.
fn first_line(text: &[u8]) -> &[u8]
    ensures { result.now ≡ asked.first_line text.now }
{
    match Lines::new(text).next() {
        Some(line) => line,
        None => &[],
    }
}

/// Appends the TIME that a job has used, and its allowance.
fn push_used(text: &mut Text, used: u64, allowance: u64) -> Result<(), NoMemory>
    ensures { OnOk result (text.new ≡ text.old ++ used_text used allowance) }
{
    push_number(text, b" ", used)?;
    push_number(text, b" OF ", allowance)
}

/// Appends what a job waits for, unless it can step.
fn push_wait(text: &mut Text, steps: bool, wants: Option<u32>) -> Result<(), NoMemory>
    ensures { OnOk result (text.new ≡ text.old ++ wait_text steps wants) }
{
    if steps {
        Ok(())
    } else {
        text.extend(b" ")?;
        push_waiting(text, wants)
    }
}

/// Appends what a job waits for: its reel, or, if it waits for none, a line.
fn push_waiting(text: &mut Text, wants: Option<u32>) -> Result<(), NoMemory>
    ensures { OnOk result (text.new ≡ text.old ++ waiting_line wants) }
{
    match wants {
        Some(serial) => push_number(text, b"WAITING TAPE ", u64::from(serial)),
        None => text.extend(b"WAITING LINE"),
    }
}
