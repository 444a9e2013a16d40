//! A job is accepted, and the system is shut down.
ghost use Rattle.std.specs.Prelude.{◌≡◌, ◌+◌, ◌<◌, ◌≤◌, ◌++◌, IfOk, codes};
ghost use Rattle.g_day.specs.Jobs.{KnowsIn, TakesJob, TellsWhy};
ghost use Rattle.g_day.specs.Parts.{DidLine, IsReady};
ghost use Rattle.g_day.specs.System.{IsRunning, facts_of};
ghost use Rattle.g_job_table.specs.Taking.{IsPrinted, refusal_line};
ghost use Rattle.g_script.specs.declared.operator.Operator.TheVariants as line;
ghost use Rattle.g_run_model.specs.Texts as texts;

use g_base::NoMemory;
use g_day::{
    Day, Ended, Failure, ROOM, System, goes_down, put_made, refuse_or_go_down, say_made, take_down,
};
use g_disc::Disc;
use g_io::Sink;
use g_job_table::{NewJob, NotTaken, push_refusal};
use g_lines::push_decimal;
use g_monitor::push_number;
use g_name::{Local, Text, User};
use g_plain::StoreFault;
use g_tape::Tapes;
use std::alloc::Global;

/// JOB: the job is added after the others. `NotStarted`: the system is down; then `NoUser`, 64 unfinished jobs, TIME,
/// MONEY.
pub(crate) fn job_line<K: Sink, D: Disc, T: Tapes>(
    alloc: Global,
    day: Day<D, T>,
    job: NewJob,
    out: &mut K,
) -> Ended<D, T>
    requires ready { IsReady day.system day.crew }
    requires time { (1 ≤ job.time) × (job.time ≤ 1000000) }
    requires money { job.money ≤ 1000000 }
    requires numbers { day.crew.next_job + 1 < 18446744073709551616 }
    ensures { DidLine (line.Job job.name job.user job.time job.money job.lines) day result.failure result.day
        (K.written out.old) (K.written out.new) (K.faults out.old) (K.faults out.new) }
{
    match knows(&day.system, &job.user) {
        Some(known) => take_job(alloc, day, known, job, out),
        None => refuse_or_go_down(alloc, day, StoreFault::NotStarted, out),
    }
}

/// Whether a system that is up knows the user.
pub(crate) fn knows<D: Disc, T: Tapes>(system: &System<D, T>, user: &User) -> Option<bool>
    requires running { IsRunning (facts_of D.state T.rack system.now) }
    ensures { KnowsIn user.now (facts_of D.state T.rack system.now) result }
{
    match system {
        System::Up(store) => {
            let known = store.user_time(user).is_some();
            Some(known)
        }
        System::Down(_, _) => None,
    }
}

/// A job for a system that is up, whose user may be known or not.
fn take_job<K: Sink, D: Disc, T: Tapes>(
    alloc: Global,
    day: Day<D, T>,
    known: bool,
    job: NewJob,
    out: &mut K,
) -> Ended<D, T>
    requires time { (1 ≤ job.time) × (job.time ≤ 1000000) }
    requires money { job.money ≤ 1000000 }
    requires numbers { day.crew.next_job + 1 < 18446744073709551616 }
    ensures same { result.day ≡ record day { crew = result.day.crew } }
    ensures taken { TakesJob known job day.count day.crew result.failure result.day.crew (K.written out.old) (K.written out.new) (K.faults out.old) (K.faults out.new) }
{
    let mut day = day;
    let name = job.name.copy();
    match day.crew.take_in(alloc, known, job) {
        Ok(number) => {
            let made = came_in(alloc, day.count, number, &name);
            let failure = put_made(out, made);
            Ended { day, failure }
        }
        Err(why) => {
            let failure = turned_away(alloc, day.count, why, out);
            Ended { day, failure }
        }
    }
}

/// Reports why a job isn't accepted. Nothing is printed if memory ran out.
pub(crate) fn turned_away<K: Sink>(
    alloc: Global,
    count: u64,
    why: NotTaken,
    out: &mut K,
) -> Option<Failure>
    ensures { TellsWhy why count result (K.written out.old) (K.written out.new) (K.faults out.old) (K.faults out.new) }
{
    match why {
        NotTaken::NoMemory => Some(Failure::Memory),
        _ => {
            let made = refusal(alloc, why);
            say_made(alloc, count, made, out)
        }
    }
}

/// The line that reports an accepted job, built in one text.
pub(crate) fn came_in(
    alloc: Global,
    count: u64,
    number: u64,
    name: &Local,
) -> Result<Text, NoMemory>
    ensures { IfOk result (λ text. text ≡ texts.operator_line count (texts.job_text number (name.now ++ codes " IN"))) }
{
    let mut text = Text::from(Vec::with_capacity(alloc, ROOM)?);
    push_decimal(&mut text, count)?;
    text.extend(b" ")?;
    push_number(&mut text, b"JOB ", number)?;
    text.extend(b" ")?;
    text.extend(name.as_slice())?;
    text.extend(b" IN\n")?;
    Ok(text)
}

/// The text for a job that isn't accepted.
fn refusal(alloc: Global, why: NotTaken) -> Result<Text, NoMemory>
    requires { IsPrinted why }
    ensures { IfOk result (λ text. text ≡ codes "REFUSED " ++ refusal_line why) }
{
    let mut text = Text::from_slice(alloc, b"REFUSED ")?;
    push_refusal(&mut text, why)?;
    Ok(text)
}

/// SHUT: the system goes down, and each unfinished job is broken off. `NotStarted`; `DumpOpen`: a dump is open.
pub(crate) fn shut_line<K: Sink, D: Disc, T: Tapes>(
    alloc: Global,
    day: Day<D, T>,
    out: &mut K,
) -> Ended<D, T>
    requires ready { IsReady day.system day.crew }
    ensures { DidLine line.Shut day result.failure result.day (K.written out.old) (K.written out.new) (K.faults out.old) (K.faults out.new) }
{
    let Day {
        system,
        mut crew,
        count,
    } = day;
    match system {
        System::Up(store) => match store.dump_number() {
            Some(number) => {
                let day = Day {
                    system: System::Up(store),
                    crew,
                    count,
                };
                refuse_or_go_down(alloc, day, StoreFault::DumpOpen(number), out)
            }
            None => {
                let failure = goes_down(alloc, &mut crew, count, b"SHUT", out);
                let (disc, tapes) = take_down(store);
                let day = Day {
                    system: System::Down(disc, tapes),
                    crew,
                    count,
                };
                Ended { day, failure }
            }
        },
        System::Down(disc, tapes) => {
            let day = Day {
                system: System::Down(disc, tapes),
                crew,
                count,
            };
            refuse_or_go_down(alloc, day, StoreFault::NotStarted, out)
        }
    }
}
