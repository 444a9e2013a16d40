//! The top call of a session: what is typed is done line by line, and then the system runs to its end.
ghost use Rattle.std.specs.Prelude.{◌≡◌, ◌+◌, ◌<◌, ◌≤◌, ℕ, Bool, List, [], Option, Some, None};
ghost use Rattle.g_rules.specs.Tariff.{IsTariff};
ghost use Rattle.g_console.specs.Transcript.{Transcript, blank};
ghost use Rattle.g_day.specs.Parts.{IsReady, Seen};
ghost use Rattle.g_day.specs.System.{BelongTogether, SameDevices};
ghost use Rattle.g_job_table.specs.Numbers.{AreOpen};
ghost use Rattle.g_rules.specs.Rule.{IsWeighRule};
ghost use Rattle.g_script.specs.declared.operator.Timed.{Timed};
ghost use Rattle.g_store_meaning.specs.Safety.{AreSafe};
ghost use Rattle.g_store_model.specs.State.{State};
ghost use Rattle.g_laws_store.specs.Moving.{DumpsMove};
ghost use Rattle.g_run_model.specs.Devices.{Devices, StandFor};
ghost use Rattle.g_run_model.specs.Top.{AreFused};
ghost use Rattle.g_laws_runs.specs.BeginningAnew.{AreBlank, with_new_disc};
ghost use Rattle.g_laws_runs.specs.Filestores.{HasFilestore};
ghost use Rattle.g_laws_sessions.specs.Session.{AlwaysAnswers};
ghost use Rattle.g_run.specs.ScriptEnd.{both};
ghost use Rattle.g_typing.specs.Reader.{Holds};
ghost use Rattle.g_session.specs.Anew.{AfterLinesAnew, RestsAnew, StandsAnew};
ghost use Rattle.g_session.specs.Ending as ending;
ghost use Rattle.g_session.specs.Ending.{AfterLines, DidOpen, DidSession, EndCause, KeepsMany, RestsAtEnd, first_seen};
ghost use Rattle.g_session.specs.Exchanging.{CourseCause, failure_of};
ghost use Rattle.g_session.specs.Parts.{Stands};
ghost use Rattle.g_session.specs.Session.{EndsAnew, EndsSession, IsOfSession, SessionCause, SessionSurvives};
ghost use Rattle.g_session.specs.Standing.{rack_serials, serials_in};

use crate::answering::serials_of;
use crate::exchange::{Course, Talk, exchange, refuse};
use crate::taking::rest;
use g_console::Console;
use g_day::{Day, Ended, Failure, System};
use g_disc::Disc;
use g_io::Sink;
use g_job_table::Crew;
use g_known::KnownReels;
use g_rules::{Charge, Standing, Tariff, Usage, WeighRule};
use g_run::{
    Finish, ScriptEnd, Status, close, in_boxes, not_begun, taken_down, tell_fuses, unboxed,
};
use g_tape::Tapes;
use g_ticks::Rules;
use g_typing::{ItemReader, Place};
use std::alloc::Global;

/// Does what is typed at a console, line by line, on a disc of 2,178 to 1,048,576 blocks and the reels of a rack. Everything that a line causes is done and
/// printed before the next line is requested; each item that is taken is first written to the log, as a script has it (docs/MANUAL.md, "The console").
///
/// The status is `Done`; `BadScript` with the number of the first line that was refused; `ScriptFault` if a request failed; `OutputFault` if
/// the console or the log failed to print; or `NoMemory`. Both devices are returned with every status.
pub fn session<
    C: Console,
    L: Sink,
    D: Disc,
    T: Tapes,
    F: Fn(&Usage) -> Charge,
    U: Fn(&Standing) -> u64,
>(
    alloc: Global,
    console: &mut C,
    log: &mut L,
    disc: D,
    tapes: T,
    tariff: &Tariff<F>,
    weigh: &WeighRule<U>,
) -> Finish<D, T>
    requires size { (2177 < (D.state disc).size) × ((D.state disc).size ≤ 1048576) }
    requires tariff { IsTariff F.Fn tariff.now }
    requires rule { IsWeighRule U.Fn weigh.now }
    ensures of { IsOfSession result.status }

    // Each time a line was requested, all lines before it were answered, and nothing else was printed.
    ensures answers { C.transcript console.old ≡ Some blank → (t : Transcript) → C.transcript console.new ≡ Some t → (s : State) → StandFor (both (D.state disc) (T.rack tapes)) s
        → AlwaysAnswers F.Fn tariff.now U.Fn weigh.now s t }

    // All that was printed, what both devices are then, and what the log has.
    ensures ends { C.transcript console.old ≡ Some blank → (t : Transcript) → C.transcript console.new ≡ Some t → (s : State) → StandFor (both (D.state disc) (T.rack tapes)) s
        → EndsSession F.Fn tariff.now U.Fn weigh.now result.status s (both (D.state disc) (T.rack tapes)) (both (D.state result.disc) (T.rack result.tapes)) t (L.written log.old) (L.written log.new) }

    // Starting over, on a disc that may name copies which no reel has, so that disc and rack don't belong together: with every status, if a FORMAT took
    // effect, the session is one from the state of a new disc with the same reels.
    ensures anew { C.transcript console.old ≡ Some blank → (t : Transcript) → C.transcript console.new ≡ Some t → AreBlank (both (D.state disc) (T.rack tapes))
        → (s : State) → StandFor (with_new_disc (both (D.state disc) (T.rack tapes))) s
        → EndsAnew F.Fn tariff.now U.Fn weigh.now result.status s (both (D.state disc) (T.rack tapes)) (both (D.state result.disc) (T.rack result.tapes)) t (L.written log.old) (L.written log.new) }

    // Each fault has its cause.
    ensures causes { SessionCause result.status (C.faults console.old) (C.faults console.new) (L.faults log.old) (L.faults log.new) }

    // With every status, of all devices, as a run's.
    ensures fuses { AreFused (both (D.state result.disc) (T.rack result.tapes)) }
    ensures same { SameDevices (both (D.state disc) (T.rack tapes)) (both (D.state result.disc) (T.rack result.tapes)) }
    ensures belongs { BelongTogether (both (D.state disc) (T.rack tapes)) → BelongTogether (both (D.state result.disc) (T.rack result.tapes)) }
    ensures dumps { BelongTogether (both (D.state disc) (T.rack tapes)) → DumpsMove (T.rack tapes) (T.rack result.tapes) }
    ensures stands { BelongTogether (both (D.state disc) (T.rack tapes)) → HasFilestore (both (D.state disc) (T.rack tapes))
        → HasFilestore (both (D.state result.disc) (T.rack result.tapes)) }
    ensures safe { AreSafe (D.state disc) (T.rack tapes) → AreSafe (D.state result.disc) (T.rack result.tapes) }

    // With every status, if the devices are safe, also for a session that was cut short: whatever a power loss leaves of them represents a state
    // that may be left after the lines whose answers were printed, whole or in part.
    ensures survives { AreSafe (D.state disc) (T.rack tapes) → C.transcript console.old ≡ Some blank → (t : Transcript) → C.transcript console.new ≡ Some t
        → (s : State) → StandFor (both (D.state disc) (T.rack tapes)) s
        → SessionSurvives F.Fn tariff.now U.Fn weigh.now s (both (D.state disc) (T.rack tapes)) (both (D.state result.disc) (T.rack result.tapes)) t (L.written log.old) (L.written log.new) }
{
    let rules = Rules { tariff, weigh };
    match in_boxes(alloc, (disc, tapes)) {
        Ok(devices) => {
            let Finish {
                status,
                disc,
                tapes,
            } = session_on(alloc, devices, &rules, console, log);
            let ScriptEnd { disc, tapes, .. } = unboxed(ScriptEnd {
                disc,
                tapes,
                failure: None,
            });
            tell_fuses(&disc, &tapes);
            Finish {
                status,
                disc,
                tapes,
            }
        }
        Err((disc, tapes)) => not_begun(Status::NoMemory, disc, tapes),
    }
}

/// A session on these devices.
fn session_on<
    C: Console,
    L: Sink,
    D: Disc,
    T: Tapes,
    F: Fn(&Usage) -> Charge,
    U: Fn(&Standing) -> u64,
>(
    alloc: Global,
    devices: (D, T),
    rules: &Rules<'_, F, U>,
    console: &mut C,
    log: &mut L,
) -> Finish<D, T>
    requires size { (2177 < (D.state devices.0).size) × ((D.state devices.0).size ≤ 1048576) }
    requires tariff { IsTariff F.Fn rules.now.tariff.now }
    requires rule { IsWeighRule U.Fn rules.now.weigh.now }
    ensures { DidSession F.Fn rules.now.tariff.now U.Fn rules.now.weigh.now result.status (both (D.state devices.0) (T.rack devices.1)) (both (D.state result.disc) (T.rack result.tapes))
        (C.transcript console.old) (C.transcript console.new) (L.written log.old) (L.written log.new) (C.faults console.old) (C.faults console.new) (L.faults log.old) (L.faults log.new) }
{
    let talk = answer_lines(alloc, first_talk(alloc, devices), rules, console, log);
    let talk = end_session(alloc, talk, rules, console);
    let failure = close(
        alloc,
        &talk.day.crew,
        None,
        failure_in(talk.course),
        console,
    );
    let Talk {
        day,
        bad,
        course,
        ..
    } = talk;
    let (disc, tapes) = taken_down(day);
    Finish {
        status: session_status(failure, course, bad),
        disc,
        tapes,
    }
}

/// A session before its first line, with the system down.
fn first_talk<D: Disc, T: Tapes>(alloc: Global, devices: (D, T)) -> Talk<D, T>
    ensures serials { result.serials.items ≡ rack_serials (T.rack devices.1) }
    ensures day { result.day ≡ first_seen (both (D.state devices.0) (T.rack devices.1)) }
    ensures reader { result.reader.place ≡ Place.Start }
    ensures number { result.number ≡ 1 }
    ensures bad { result.bad ≡ None }
    ensures course { result.course ≡ Course.Goes }
{
    let (disc, tapes) = devices;
    let serials = serials_of(&tapes);
    let tapes = KnownReels::new(alloc, tapes);
    let crew = Crew::new(alloc);
    // The first line begins an item.
    let mut reader = ItemReader::new(alloc);
    reader.place = Place::Start;
    Talk {
        day: Day {
            system: System::Down(disc, tapes),
            crew,
            count: 0,
        },
        serials,
        reader,
        number: 1,
        bad: None,
        course: Course::Goes,
    }
}

/// The failure that cut a session short.
fn failure_in(course: Course) -> Option<Failure>
    ensures { result ≡ failure_of course }
{
    match course {
        Course::Breaks(failure) => Some(failure),
        _ => None,
    }
}

/// The status of a session: why it was cut short, if it was, whether a request failed, and the first line that was refused.
fn session_status(failure: Option<Failure>, course: Course, bad: Option<u64>) -> Status
    ensures { result ≡ ending.session_status failure course bad }
{
    match (failure, course, bad) {
        (Some(Failure::Output), _, _) => Status::OutputFault,
        (Some(Failure::Memory), _, _) => Status::NoMemory,
        (None, Course::Fails, _) => Status::ScriptFault,
        (None, _, Some(line)) => Status::BadScript(line),
        (None, _, None) => Status::Done,
    }
}

/// Answers line by line, until no more lines come, a request fails or something breaks. After 2^64 - 2 lines the session ends as if memory ran out.
fn answer_lines<
    C: Console,
    L: Sink,
    D: Disc,
    T: Tapes,
    F: Fn(&Usage) -> Charge,
    U: Fn(&Standing) -> u64,
>(
    alloc: Global,
    talk: Talk<D, T>,
    rules: &Rules<'_, F, U>,
    console: &mut C,
    log: &mut L,
) -> Talk<D, T>
    requires ready { IsReady talk.day.system talk.day.crew }
    requires open { AreOpen talk.day.crew.jobs }
    requires first { talk.number ≡ 1 }
    requires numbers { talk.day.crew.next_job ≤ talk.number }
    requires reels { talk.serials.items ≡ serials_in talk.day.system }
    requires typed { (lines : List (List ℕ)) × Holds talk.day.count lines talk.reader }
    requires goes { talk.course ≡ Course.Goes }
    requires tariff { IsTariff F.Fn rules.now.tariff.now }
    requires rule { IsWeighRule U.Fn rules.now.weigh.now }
    ensures keeps { KeepsMany talk.day result.course result.day }
    ensures cause { CourseCause result.course (C.faults console.old) (C.faults console.new) (L.faults log.old) (L.faults log.new) }
    ensures said { (s : State) (real : Bool) (old : Devices) (done : List Timed) (from : Option Transcript) (log0 : Option (List ℕ))
        → Stands F.Fn rules.now.tariff.now U.Fn rules.now.weigh.now s real old done talk.bad talk.day talk.reader talk.number [] from (C.transcript console.old) log0 (L.written log.old)
        → AfterLines F.Fn rules.now.tariff.now U.Fn rules.now.weigh.now s real old from log0 result.course result.bad result.day result.reader result.number (C.transcript console.new) (L.written log.new) }
    ensures anew { (s : State) (old : Devices) (from : Option Transcript) (log0 : Option (List ℕ))
        → StandsAnew F.Fn rules.now.tariff.now U.Fn rules.now.weigh.now s old talk.bad talk.day talk.reader talk.number from (C.transcript console.old) log0 (L.written log.old)
        → AfterLinesAnew F.Fn rules.now.tariff.now U.Fn rules.now.weigh.now s old from log0 result.course result.bad result.day result.reader result.number (C.transcript console.new) (L.written log.new) }
{
    let mut talk = talk;
    'lines: while talk.number < u64::MAX {
        talk = exchange(alloc, talk, rules, console, log);
        match talk.course {
            Course::Goes => talk.number += 1,
            _ => return talk,
        }
    }
    talk.course = Course::Breaks(Failure::Memory);
    talk
}

/// No more lines come: the JOB line of an open document is refused, and the system runs until nothing can step.
fn end_session<C: Console, D: Disc, T: Tapes, F: Fn(&Usage) -> Charge, U: Fn(&Standing) -> u64>(
    alloc: Global,
    talk: Talk<D, T>,
    rules: &Rules<'_, F, U>,
    console: &mut C,
) -> Talk<D, T>
    requires ready { failure_of talk.course ≡ None → IsReady talk.day.system talk.day.crew × AreOpen talk.day.crew.jobs }
    requires tariff { IsTariff F.Fn rules.now.tariff.now }
    requires rule { IsWeighRule U.Fn rules.now.weigh.now }
    ensures keeps { (start : Seen) → KeepsMany start talk.course talk.day → KeepsMany start result.course result.day }
    ensures cause { EndCause talk.course result.course (C.faults console.old) (C.faults console.new) }
    ensures said { (s : State) (real : Bool) (old : Devices) (from : Option Transcript) (log0 log : Option (List ℕ))
        → AfterLines F.Fn rules.now.tariff.now U.Fn rules.now.weigh.now s real old from log0 talk.course talk.bad talk.day talk.reader talk.number (C.transcript console.old) log
        → RestsAtEnd F.Fn rules.now.tariff.now U.Fn rules.now.weigh.now s real old from log0 result.course result.bad result.day (C.transcript console.new) log }
    ensures anew { (s : State) (old : Devices) (from : Option Transcript) (log0 log : Option (List ℕ))
        → AfterLinesAnew F.Fn rules.now.tariff.now U.Fn rules.now.weigh.now s old from log0 talk.course talk.bad talk.day talk.reader talk.number (C.transcript console.old) log
        → RestsAnew F.Fn rules.now.tariff.now U.Fn rules.now.weigh.now s old from log0 result.course result.bad result.day (C.transcript console.new) log }
{
    let talk = refuse_open(alloc, talk, console);
    if let Course::Breaks(_) = talk.course {
        return talk;
    }
    let Ended { day, failure } = rest(alloc, talk.day, rules, console);
    Talk {
        day,
        course: course_at_end(talk.course, failure),
        ..talk
    }
}

/// The course at the end: that of the lines, unless something failed after them.
fn course_at_end(course: Course, failure: Option<Failure>) -> Course
    ensures { result ≡ ending.course_at_end course failure }
{
    match failure {
        None => course,
        Some(failure) => Course::Breaks(failure),
    }
}

/// Refuses the JOB line of a document that is open when no more lines come.
fn refuse_open<C: Console, D: Disc, T: Tapes>(
    alloc: Global,
    talk: Talk<D, T>,
    console: &mut C,
) -> Talk<D, T>
    ensures day { result.day ≡ talk.day }
    ensures open { DidOpen talk.course talk.reader.place talk.bad result.course result.bad (C.written console.old) (C.written console.new) (C.faults console.old) (C.faults console.new) }
{
    if let Course::Breaks(_) = talk.course {
        return talk;
    }
    match talk.reader.place {
        Place::Document(number) => {
            let failure = refuse(alloc, number, console);
            Talk {
                bad: talk.bad.or(Some(number)),
                course: course_at_end(talk.course, failure),
                ..talk
            }
        }
        _ => talk,
    }
}
