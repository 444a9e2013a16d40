//! What happens to a job after its turn, and what is printed for it.
ghost use Rattle.std.specs.Prelude.{◌≡◌, ◌↔◌, ◌++◌, ℕ, List, Option, None, Some, [], IfOk, codes, true, false};
ghost use Rattle.std.specs.Fmt.{decimal};
ghost use Rattle.g_job_table.specs.Crew.{CrewState};
ghost use Rattle.g_job_table.specs.Numbers.{job_in};
ghost use Rattle.g_job.specs.State.{JobState};
ghost use Rattle.g_run_model.specs.Texts as texts;
ghost use Rattle.g_run_model.specs.Texts.{operator_line};
ghost use Rattle.g_ticks.specs.Turning.{EndsTurn, GoesDown, GoesOn, ShowsAs, TakenOut, added_of, left_of};
ghost use Rattle.g_ticks.specs.Watch.{HaveAll};

use crate::day_up::DayUp;
use crate::showing::{Seated, end_shown};
use g_base::NoMemory;
use g_day::{Failure, put, say_made, tell_fault};
use g_disc::Disc;
use g_io::Sink;
use g_job::Job;
use g_job_table::{Taken, job_text};
use g_name::Text;
use g_plain::StoreFault;
use g_rules::Turn;
use g_tape::Tapes;
use std::alloc::Global;

/// The turn of the job of this number is over. What it has added to a terminal's file is written. A job that waits is
/// reported, one that has ended is removed and its file written, and after a stop the system is reported down. Accounts
/// open for users that the turn has created, unless it was stopped.
pub(crate) fn end_turn<K: Sink, D: Disc, T: Tapes>(
    alloc: Global,
    up: &mut DayUp<D, T>,
    number: u64,
    taken: Taken,
    out: &mut K,
) -> Option<Failure>
    requires stopped { (up.old.store.running.spent ≡ true) ↔ (taken.turn ≡ Turn.Broken) }
    requires there { (job : JobState) × (job_in number up.old.crew.jobs ≡ Some job) × ShowsAs taken.shown job.terminal }
    requires accounts { HaveAll up.old.store up.old.crew }
    ensures ends { (job : JobState) → job_in number up.old.crew.jobs ≡ Some job
        → EndsTurn up.old.count number up.old.store.running up.old.crew (added_of taken.shown job) taken.turn result (left_of up.new.store.running) up.new.crew
        (K.written out.old) (K.written out.new) (K.faults out.old) (K.faults out.new) }
    ensures count { up.new.count ≡ up.old.count }
    ensures accounts { result ≡ None → up.new.store.running.spent ≡ false → HaveAll up.new.store up.new.crew }
{
    match taken.shown {
        None => end_untold(alloc, up, number, taken.turn, out),
        Some(before) => end_shown(alloc, up, Seated { number, before }, taken.turn, out),
    }
}

/// The turn of a job at no terminal is over. Nearly each turn ends as Ran: the functions of the other ends are cold, so
/// that this case is tested first.
fn end_untold<K: Sink, D: Disc, T: Tapes>(
    alloc: Global,
    up: &mut DayUp<D, T>,
    number: u64,
    turn: Turn,
    out: &mut K,
) -> Option<Failure>
    requires stopped { (up.old.store.running.spent ≡ true) ↔ (turn ≡ Turn.Broken) }
    requires there { (job : JobState) × (job_in number up.old.crew.jobs ≡ Some job) × (job.terminal ≡ None) }
    requires accounts { HaveAll up.old.store up.old.crew }
    ensures ends { EndsTurn up.old.count number up.old.store.running up.old.crew [] turn result (left_of up.new.store.running) up.new.crew
        (K.written out.old) (K.written out.new) (K.faults out.old) (K.faults out.new) }
    ensures count { up.new.count ≡ up.old.count }
    ensures accounts { result ≡ None → up.new.store.running.spent ≡ false → HaveAll up.new.store up.new.crew }
{
    match turn {
        Turn::Broken => stops(alloc, up, out),
        Turn::Wants { serial } => waits(alloc, up, number, serial, out),
        Turn::Ran { .. } => goes_on(up),
        Turn::Ended { .. } => ends(up, number, out),
    }
}

/// The system was stopped.
// This is rare: a function of its own keeps its stack space out of every tick.
#[cold]
#[inline(never)]
fn stops<K: Sink, D: Disc, T: Tapes>(
    alloc: Global,
    up: &mut DayUp<D, T>,
    out: &mut K,
) -> Option<Failure>
    requires stopped { up.old.store.running.spent ≡ true }
    ensures ends { GoesDown up.old.store.running [] up.old.count up.old.crew result (left_of up.new.store.running) up.new.crew
        (K.written out.old) (K.written out.new) (K.faults out.old) (K.faults out.new) }
    ensures count { up.new.count ≡ up.old.count }
    ensures accounts { result ≡ None → up.new.store.running.spent ≡ false → HaveAll up.new.store up.new.crew }
{
    tell_fault(alloc, &mut up.crew, up.count, &StoreFault::Stopped, out)
}

/// The job continues.
fn goes_on<D: Disc, T: Tapes>(up: &mut DayUp<D, T>) -> Option<Failure>
    requires running { up.old.store.running.spent ≡ false }
    requires accounts { HaveAll up.old.store up.old.crew }
    ensures goes { (text : Option (List ℕ)) (faults : ℕ) → GoesOn up.old.store.running [] up.old.crew result (left_of up.new.store.running) up.new.crew text text faults faults }
    ensures count { up.new.count ≡ up.old.count }
    ensures accounts { result ≡ None → up.new.store.running.spent ≡ false → HaveAll up.new.store up.new.crew }
{
    if up.store.asked() {
        match up.open_each() {
            Ok(()) => None,
            Err(NoMemory) => Some(Failure::Memory),
        }
    } else {
        None
    }
}

/// The job waits for this reel.
// This is rare: a function of its own keeps its stack space out of every tick.
#[cold]
#[inline(never)]
fn waits<K: Sink, D: Disc, T: Tapes>(
    alloc: Global,
    up: &mut DayUp<D, T>,
    number: u64,
    serial: u32,
    out: &mut K,
) -> Option<Failure>
    requires running { up.old.store.running.spent ≡ false }
    requires accounts { HaveAll up.old.store up.old.crew }
    ensures goes { GoesOn up.old.store.running (operator_line up.old.count (texts.job_text number (codes "WANTS TAPE " ++ decimal serial))) up.old.crew result
        (left_of up.new.store.running) up.new.crew (K.written out.old) (K.written out.new) (K.faults out.old) (K.faults out.new) }
    ensures count { up.new.count ≡ up.old.count }
    ensures accounts { result ≡ None → up.new.store.running.spent ≡ false → HaveAll up.new.store up.new.crew }
{
    match up.open_accounts() {
        Ok(()) => {
            let made = wants(alloc, number, serial);
            say_made(alloc, up.count, made, out)
        }
        Err(NoMemory) => Some(Failure::Memory),
    }
}

/// The text about a job that waits.
pub(crate) fn wants(alloc: Global, number: u64, serial: u32) -> Result<Text, NoMemory>
    ensures { IfOk result (λ text. text ≡ texts.job_text number (codes "WANTS TAPE " ++ decimal serial)) }
{
    let mut how = Text::from_slice(alloc, b"WANTS TAPE ")?;
    let digits = u64::from(serial).to_string(alloc)?;
    how.extend(digits.as_bytes())?;
    job_text(alloc, number, how.as_slice())
}

/// The job of this number has ended: it is removed, and its file written.
// This is rare: a function of its own keeps its stack space out of every tick.
#[cold]
#[inline(never)]
fn ends<K: Sink, D: Disc, T: Tapes>(
    up: &mut DayUp<D, T>,
    number: u64,
    out: &mut K,
) -> Option<Failure>
    requires running { up.old.store.running.spent ≡ false }
    requires accounts { HaveAll up.old.store up.old.crew }
    requires there { (job : JobState) × (job_in number up.old.crew.jobs ≡ Some job) }
    ensures ends { (job : JobState) × (mid : CrewState) × TakenOut job number up.old.crew mid × GoesOn up.old.store.running job.monitor mid result
        (left_of up.new.store.running) up.new.crew (K.written out.old) (K.written out.new) (K.faults out.old) (K.faults out.new) }
    ensures count { up.new.count ≡ up.old.count }
    ensures accounts { result ≡ None → up.new.store.running.spent ≡ false → HaveAll up.new.store up.new.crew }
{
    match up.crew.end(number) {
        Some(job) => put_file(up, &job, out),
        None => unreachable!(),
    }
}

/// The file of a job that has ended is written.
fn put_file<K: Sink, D: Disc, T: Tapes>(
    up: &mut DayUp<D, T>,
    job: &Job,
    out: &mut K,
) -> Option<Failure>
    requires running { up.old.store.running.spent ≡ false }
    requires accounts { HaveAll up.old.store up.old.crew }
    ensures goes { GoesOn up.old.store.running job.now.monitor up.old.crew result (left_of up.new.store.running) up.new.crew
        (K.written out.old) (K.written out.new) (K.faults out.old) (K.faults out.new) }
    ensures count { up.new.count ≡ up.old.count }
    ensures accounts { result ≡ None → up.new.store.running.spent ≡ false → HaveAll up.new.store up.new.crew }
{
    match up.open_accounts() {
        Ok(()) => put(out, job.monitor()),
        Err(NoMemory) => Some(Failure::Memory),
    }
}
