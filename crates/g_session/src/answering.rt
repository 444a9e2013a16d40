//! The answers to questions.
ghost use Rattle.std.specs.Prelude.{◌≡◌, ◌++◌, IfOk, List, OnOk, ℕ};
ghost use Rattle.g_day.specs.Parts.{IsReady};
ghost use Rattle.g_day.specs.Puts.{Puts};
ghost use Rattle.g_day.specs.System.{facts_of};
ghost use Rattle.g_ticks.specs.Tick.{may_step};
ghost use Rattle.g_session.specs.Exchanging.{AnswersBoth};
ghost use Rattle.g_session.specs.Standing.{jobs_on, jobs_text, rack_serials, reels_text, seen_text, serials_in, system_text};

use arrayvec::ArrayVec;
use g_answers::{
    help_text, push_dump_line, push_job_line, push_reel_line, push_system_line, push_tick_line,
    refusal_text,
};
use g_base::NoMemory;
use g_day::{Day, Failure, Running, System, put_made};
use g_disc::Disc;
use g_io::Sink;
use g_job::Job;
use g_known::KnownReels;
use g_name::Text;
use g_tape::Tapes;
use g_typing::Query;
use std::alloc::Global;

/// The most reels that a rack may have.
pub(crate) const MOST_REELS: usize = 16;

/// Prints the answer to a question; the reels have these serials.
pub(crate) fn answer_query<K: Sink, D: Disc, T: Tapes>(
    alloc: Global,
    query: Query,
    day: &Day<D, T>,
    serials: &[u32],
    out: &mut K,
) -> Option<Failure>
    requires ready { IsReady day.now.system day.now.crew }
    requires reels { serials.now ≡ serials_in day.now.system }
    ensures { (text : List ℕ) × AnswersBoth query day.now text
        × Puts result text (K.written out.old) (K.written out.new) (K.faults out.old) (K.faults out.new) }
{
    match query {
        Query::State => put_made(out, state_text(alloc, day, serials)),
        Query::Help => put_made(out, help_text(alloc)),
        Query::Refusal(number) => put_made(out, refusal_text(alloc, number)),
    }
}

/// Where things stand.
fn state_text<D: Disc, T: Tapes>(
    alloc: Global,
    day: &Day<D, T>,
    serials: &[u32],
) -> Result<Text, NoMemory>
    ensures { IfOk result (λ text. text ≡ seen_text day.now serials.now) }
{
    let mut text = Text::new(alloc);
    push_system(&mut text, &day.system, serials)?;
    push_jobs(&mut text, &day.system, day.crew.jobs())?;
    push_tick_line(&mut text, day.count)?;
    Ok(text)
}

/// Appends the lines of the system, its reels and its open dump.
fn push_system<D: Disc, T: Tapes>(
    text: &mut Text,
    system: &System<D, T>,
    serials: &[u32],
) -> Result<(), NoMemory>
    ensures { OnOk result (text.new ≡ text.old ++ system_text (facts_of D.state T.rack system.now) serials.now) }
{
    match system {
        System::Up(store) => {
            push_system_line(text, true)?;
            push_running_reels(text, store, serials)?;
            push_dump_line(text, store.dump_number())
        }
        System::Down(_, tapes) => {
            push_system_line(text, false)?;
            push_reels(text, tapes, serials)
        }
    }
}

/// Appends the lines of the reels of a system that is up.
fn push_running_reels<D: Disc, T: Tapes>(
    text: &mut Text,
    store: &Running<D, T>,
    serials: &[u32],
) -> Result<(), NoMemory>
    ensures { OnOk result (text.new ≡ text.old ++ reels_text store.now.rack serials.now) }
{
    for serial in serials {
        push_reel_line(text, *serial, store.mounted(*serial))?;
    }
    Ok(())
}

/// Appends the lines of the reels of a system that is down.
fn push_reels<T: Tapes>(
    text: &mut Text,
    tapes: &KnownReels<T>,
    serials: &[u32],
) -> Result<(), NoMemory>
    ensures { OnOk result (text.new ≡ text.old ++ reels_text (T.rack tapes.now) serials.now) }
{
    for serial in serials {
        push_reel_line(text, *serial, tapes.mounted(*serial))?;
    }
    Ok(())
}

/// Appends the lines of the jobs. While the system is down there are none.
fn push_jobs<D: Disc, T: Tapes>(
    text: &mut Text,
    system: &System<D, T>,
    jobs: &[Job],
) -> Result<(), NoMemory>
    ensures { OnOk result (text.new ≡ text.old ++ jobs_on (facts_of D.state T.rack system.now) jobs.now) }
{
    match system {
        System::Up(store) => push_running_jobs(text, store, jobs),
        System::Down(_, _) => Ok(()),
    }
}

/// Appends the lines of the jobs of a system that is up.
fn push_running_jobs<D: Disc, T: Tapes>(
    text: &mut Text,
    store: &Running<D, T>,
    jobs: &[Job],
) -> Result<(), NoMemory>
    ensures { OnOk result (text.new ≡ text.old ++ jobs_text store.now.rack jobs.now) }
{
    for job in jobs {
        push_job_line(text, job, steps(store, job))?;
    }
    Ok(())
}

/// Whether a job can step.
fn steps<D: Disc, T: Tapes>(store: &Running<D, T>, job: &Job) -> bool
    ensures { result ≡ may_step store.now.rack job.now }
{
    match job.wants() {
        Some(serial) => store.mounted(serial) && job.ready(),
        None => job.ready(),
    }
}

/// The serials of the reels of a rack.
pub(crate) fn serials_of<T: Tapes>(tapes: &T) -> ArrayVec<u32, MOST_REELS>
    ensures { result.items ≡ rack_serials (T.rack tapes.now) }
{
    let mut serials = ArrayVec::new();
    for i in 0..tapes.reels() {
        serials.push(tapes.serial(i));
    }
    serials
}
