//! What happens to a terminal's job after its turn: what the turn has added to its file is written at once, in one text
//! with its report.
ghost use Rattle.std.specs.Prelude.{◌≡◌, ◌↔◌, ◌++◌, ℕ, List, Option, Some, IfOk, codes, true, false};
ghost use Rattle.std.specs.Fmt.{decimal};
ghost use Rattle.g_job_table.specs.Crew.{CrewState};
ghost use Rattle.g_job_table.specs.Numbers.{job_in};
ghost use Rattle.g_job_table.specs.Seating.{pushed_of};
ghost use Rattle.g_job.specs.State.{JobState};
ghost use Rattle.g_run_model.specs.Texts as texts;
ghost use Rattle.g_run_model.specs.Texts.{operator_line};
ghost use Rattle.g_ticks.specs.Turning.{EndsTurn, GoesDown, GoesOn, TakenOut, left_of};
ghost use Rattle.g_ticks.specs.Watch.{HaveAll};

use crate::day_up::DayUp;
use crate::ending::wants;
use g_base::NoMemory;
use g_day::{Failure, put_made, stops_behind};
use g_disc::Disc;
use g_io::Sink;
use g_job_table::{Crew, push_operator_line};
use g_name::Text;
use g_rules::Turn;
use g_tape::Tapes;
use std::alloc::Global;

/// A terminal's job by its number, and how many bytes its file had before its turn.
#[derive(Drop)]
pub(crate) struct Seated {
    pub(crate) number: u64,
    pub(crate) before: usize,
}

/// The turn of this terminal's job is over.
// This is rare: a function of its own keeps its stack space out of every tick.
#[inline(never)]
pub(crate) fn end_shown<K: Sink, D: Disc, T: Tapes>(
    alloc: Global,
    up: &mut DayUp<D, T>,
    seated: Seated,
    turn: Turn,
    out: &mut K,
) -> Option<Failure>
    requires stopped { (up.old.store.running.spent ≡ true) ↔ (turn ≡ Turn.Broken) }
    requires there { (job : JobState) × (terminal : ℕ) × (job_in seated.number up.old.crew.jobs ≡ Some job) × (job.terminal ≡ Some terminal) }
    requires accounts { HaveAll up.old.store up.old.crew }
    ensures ends { (job : JobState) → job_in seated.number up.old.crew.jobs ≡ Some job
        → EndsTurn up.old.count seated.number up.old.store.running up.old.crew (pushed_of job seated.before) turn result (left_of up.new.store.running) up.new.crew
        (K.written out.old) (K.written out.new) (K.faults out.old) (K.faults out.new) }
    ensures count { up.new.count ≡ up.old.count }
    ensures accounts { result ≡ None → up.new.store.running.spent ≡ false → HaveAll up.new.store up.new.crew }
{
    let made = shown(alloc, &up.crew, seated.number, seated.before);
    match turn {
        Turn::Broken => stops(up, made, out),
        Turn::Wants { serial } => {
            let told = wants_behind(alloc, made, up.count, seated.number, serial);
            goes_on(up, told, out)
        }
        Turn::Ran { .. } => goes_on(up, made, out),
        Turn::Ended { .. } => ends(up, seated.number, made, out),
    }
}

/// What the turn has added to the file, as it is printed.
fn shown(alloc: Global, crew: &Crew, number: u64, before: usize) -> Result<Text, NoMemory>
    requires { (job : JobState) × (job_in number crew.now.jobs ≡ Some job) }
    ensures { IfOk result (λ text. (job : JobState) → job_in number crew.now.jobs ≡ Some job → text ≡ pushed_of job before) }
{
    let mut text = Text::new(alloc);
    crew.push_shown(&mut text, number, before)?;
    Ok(text)
}

/// The same, followed by the report that the job waits.
fn wants_behind(
    alloc: Global,
    made: Result<Text, NoMemory>,
    count: u64,
    number: u64,
    serial: u32,
) -> Result<Text, NoMemory>
    ensures { (text : List ℕ) → IfOk made (λ t. t ≡ text)
        → IfOk result (λ t. t ≡ text ++ operator_line count (texts.job_text number (codes "WANTS TAPE " ++ decimal serial))) }
{
    let mut text = made?;
    let what = wants(alloc, number, serial)?;
    push_operator_line(&mut text, count, what.as_slice())?;
    Ok(text)
}

/// The system was stopped.
fn stops<K: Sink, D: Disc, T: Tapes>(
    up: &mut DayUp<D, T>,
    made: Result<Text, NoMemory>,
    out: &mut K,
) -> Option<Failure>
    requires stopped { up.old.store.running.spent ≡ true }
    ensures ends { (text : List ℕ) → IfOk made (λ t. t ≡ text)
        → GoesDown up.old.store.running text up.old.count up.old.crew result (left_of up.new.store.running) up.new.crew
        (K.written out.old) (K.written out.new) (K.faults out.old) (K.faults out.new) }
    ensures count { up.new.count ≡ up.old.count }
    ensures accounts { result ≡ None → up.new.store.running.spent ≡ false → HaveAll up.new.store up.new.crew }
{
    stops_behind(&mut up.crew, up.count, made, out)
}

/// Accounts open for users that the turn has created, and a text is written.
fn goes_on<K: Sink, D: Disc, T: Tapes>(
    up: &mut DayUp<D, T>,
    made: Result<Text, NoMemory>,
    out: &mut K,
) -> Option<Failure>
    requires running { up.old.store.running.spent ≡ false }
    requires accounts { HaveAll up.old.store up.old.crew }
    ensures goes { (text : List ℕ) → IfOk made (λ t. t ≡ text)
        → GoesOn up.old.store.running text up.old.crew result (left_of up.new.store.running) up.new.crew
        (K.written out.old) (K.written out.new) (K.faults out.old) (K.faults out.new) }
    ensures count { up.new.count ≡ up.old.count }
    ensures accounts { result ≡ None → up.new.store.running.spent ≡ false → HaveAll up.new.store up.new.crew }
{
    match up.open_accounts() {
        Ok(()) => put_made(out, made),
        Err(NoMemory) => Some(Failure::Memory),
    }
}

/// The job of this number has ended: it is removed, and the end of its file written.
fn ends<K: Sink, D: Disc, T: Tapes>(
    up: &mut DayUp<D, T>,
    number: u64,
    made: Result<Text, NoMemory>,
    out: &mut K,
) -> Option<Failure>
    requires running { up.old.store.running.spent ≡ false }
    requires accounts { HaveAll up.old.store up.old.crew }
    requires there { (job : JobState) × (job_in number up.old.crew.jobs ≡ Some job) }
    ensures ends { (text : List ℕ) → IfOk made (λ t. t ≡ text)
        → (job : JobState) × (mid : CrewState) × TakenOut job number up.old.crew mid
        × GoesOn up.old.store.running text mid result (left_of up.new.store.running) up.new.crew
        (K.written out.old) (K.written out.new) (K.faults out.old) (K.faults out.new) }
    ensures count { up.new.count ≡ up.old.count }
    ensures accounts { result ≡ None → up.new.store.running.spent ≡ false → HaveAll up.new.store up.new.crew }
{
    match up.crew.end(number) {
        Some(_job) => goes_on(up, made, out),
        None => unreachable!(),
    }
}
