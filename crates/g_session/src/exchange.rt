//! One exchange of a session: a line is requested and answered.
ghost use Rattle.std.specs.Prelude.{◌≡◌, ◌+◌, ◌<◌, ◌≤◌, ℕ, Bool, List, [], Option};
ghost use Rattle.g_rules.specs.Tariff.{IsTariff};
ghost use Rattle.g_console.specs.Transcript.{Transcript};
ghost use Rattle.g_day.specs.Parts.{IsReady};
ghost use Rattle.g_day.specs.Puts.{Puts};
ghost use Rattle.g_job_table.specs.Numbers.{AreOpen};
ghost use Rattle.g_laws_sessions.specs.Session.{refusal_line};
ghost use Rattle.g_run_model.specs.Devices.{Devices};
ghost use Rattle.g_rules.specs.Rule.{IsWeighRule};
ghost use Rattle.g_script.specs.declared.operator.Timed.{Timed};
ghost use Rattle.g_store_model.specs.State.{State};
ghost use Rattle.g_typing.specs.Reader.{Holds};
ghost use Rattle.g_session.specs.Anew.{AfterExchangeAnew, StandsAnew};
ghost use Rattle.g_session.specs.Exchanging as parts;
ghost use Rattle.g_session.specs.Exchanging.{AfterExchange, CourseCause, DidAnswer, IsReplyWithin, KeepsOne, LogsReply, bad_after};
ghost use Rattle.g_session.specs.Parts.{Stands};
ghost use Rattle.g_session.specs.Standing.{serials_in};

use crate::answering::{MOST_REELS, answer_query};
use crate::asking::{Heard, hear};
use crate::taking::{own_line, rest_and_tell, take};
use arrayvec::ArrayVec;
use g_console::Console;
use g_day::{Day, Ended, Failure, put_made};
use g_disc::Disc;
use g_io::Sink;
use g_rules::{Charge, Standing, Usage};
use g_tape::Tapes;
use g_ticks::Rules;
use g_typing::{ItemReader, Reply};
use std::alloc::Global;

/// How a session goes on.
#[derive(Clone, Copy, PartialEq, Eq)]
pub(crate) enum Course {
    /// The next line is requested.
    Goes,
    /// No more lines come.
    Ends,
    /// A request failed.
    Fails,
    /// The console or the log failed to print, or memory ran out.
    Breaks(Failure),
}

/// A session between two lines: the system, the serials of its reels, the item that is being typed, the number of the next line, and the first line that
/// was refused.
#[derive(Drop)]
pub(crate) struct Talk<D: Disc, T: Tapes> {
    pub(crate) day: Day<D, T>,
    /// The serials of all reels, which never change.
    pub(crate) serials: ArrayVec<u32, MOST_REELS>,
    pub(crate) reader: ItemReader,
    pub(crate) number: u64,
    pub(crate) bad: Option<u64>,
    pub(crate) course: Course,
}

/// Requests a line and answers it. An item is written to the log before it is taken.
pub(crate) fn exchange<
    C: Console,
    L: Sink,
    D: Disc,
    T: Tapes,
    F: Fn(&Usage) -> Charge,
    U: Fn(&Standing) -> u64,
>(
    alloc: Global,
    talk: Talk<D, T>,
    rules: &Rules<'_, F, U>,
    console: &mut C,
    log: &mut L,
) -> Talk<D, T>
    requires ready { IsReady talk.day.system talk.day.crew }
    requires open { AreOpen talk.day.crew.jobs }
    requires numbers { talk.day.crew.next_job + 1 < 18446744073709551616 }
    requires reels { talk.serials.items ≡ serials_in talk.day.system }
    requires typed { (lines : List (List ℕ)) × Holds talk.day.count lines talk.reader }
    requires tariff { IsTariff F.Fn rules.now.tariff.now }
    requires rule { IsWeighRule U.Fn rules.now.weigh.now }
    ensures number { result.number ≡ talk.number }
    ensures serials { result.serials.items ≡ talk.serials.items }
    ensures typed { result.course ≡ Course.Goes → (lines : List (List ℕ)) × Holds result.day.count lines result.reader }
    ensures keeps { KeepsOne talk.day result.course result.day }
    ensures cause { CourseCause result.course (C.faults console.old) (C.faults console.new) (L.faults log.old) (L.faults log.new) }
    ensures said { (s : State) (real : Bool) (old : Devices) (done : List Timed) (from : Option Transcript) (log0 : Option (List ℕ))
        → Stands F.Fn rules.now.tariff.now U.Fn rules.now.weigh.now s real old done talk.bad talk.day talk.reader talk.number [] from (C.transcript console.old) log0 (L.written log.old)
        → AfterExchange F.Fn rules.now.tariff.now U.Fn rules.now.weigh.now s real old from log0 result.course result.bad result.day result.reader talk.number (C.transcript console.new) (L.written log.new) }
    ensures anew { (s : State) (old : Devices) (from : Option Transcript) (log0 : Option (List ℕ))
        → StandsAnew F.Fn rules.now.tariff.now U.Fn rules.now.weigh.now s old talk.bad talk.day talk.reader talk.number from (C.transcript console.old) log0 (L.written log.old)
        → AfterExchangeAnew F.Fn rules.now.tariff.now U.Fn rules.now.weigh.now s old from log0 result.course result.bad result.day result.reader talk.number (C.transcript console.new) (L.written log.new) }
{
    let Talk {
        day,
        serials,
        mut reader,
        number,
        bad,
        ..
    } = talk;
    match hear(alloc, &mut reader, number, day.count, console) {
        Heard::Reply(reply) => match log_reply(&reply, reader.text.as_slice(), log) {
            None => {
                let talk = Talk {
                    day,
                    serials,
                    reader,
                    number,
                    bad,
                    course: Course::Goes,
                };
                answer(alloc, talk, reply, rules, console)
            }
            Some(failure) => Talk {
                day,
                serials,
                reader,
                number,
                bad,
                course: Course::Breaks(failure),
            },
        },
        Heard::End => Talk {
            day,
            serials,
            reader,
            number,
            bad,
            course: Course::Ends,
        },
        Heard::Failed => Talk {
            day,
            serials,
            reader,
            number,
            bad,
            course: Course::Fails,
        },
        Heard::NoMemory => Talk {
            day,
            serials,
            reader,
            number,
            bad,
            course: Course::Breaks(Failure::Memory),
        },
    }
}

/// The course of a session after a part of it that may have failed.
pub(crate) fn course_after(failure: Option<Failure>) -> Course
    ensures { result ≡ parts.course_after failure }
{
    match failure {
        None => Course::Goes,
        Some(failure) => Course::Breaks(failure),
    }
}

/// Writes an item, whose lines are this text, to the log.
fn log_reply<L: Sink>(reply: &Reply, text: &[u8], log: &mut L) -> Option<Failure>
    ensures { LogsReply reply.now text.now result (L.written log.old) (L.written log.new) (L.faults log.old) (L.faults log.new) }
{
    match reply {
        Reply::Item(_, _) => match log.put(text) {
            Ok(()) => None,
            Err(_) => Some(Failure::Output),
        },
        _ => None,
    }
}

/// Does what the reply to a line says.
fn answer<C: Console, D: Disc, T: Tapes, F: Fn(&Usage) -> Charge, U: Fn(&Standing) -> u64>(
    alloc: Global,
    talk: Talk<D, T>,
    reply: Reply,
    rules: &Rules<'_, F, U>,
    console: &mut C,
) -> Talk<D, T>
    requires ready { IsReady talk.day.system talk.day.crew }
    requires open { AreOpen talk.day.crew.jobs }
    requires within { IsReplyWithin reply }
    requires numbers { talk.day.crew.next_job + 1 < 18446744073709551616 }
    requires reels { talk.serials.items ≡ serials_in talk.day.system }
    requires tariff { IsTariff F.Fn rules.now.tariff.now }
    requires rule { IsWeighRule U.Fn rules.now.weigh.now }
    ensures reader { result.reader ≡ talk.reader }
    ensures number { result.number ≡ talk.number }
    ensures serials { result.serials.items ≡ talk.serials.items }
    ensures bad { result.bad ≡ bad_after reply talk.number talk.bad }
    ensures did { talk.course ≡ Course.Goes → DidAnswer F.Fn rules.now.tariff.now U.Fn rules.now.weigh.now reply talk.number talk.day result.course result.day
        (C.written console.old) (C.written console.new) (C.faults console.old) (C.faults console.new) }
{
    match reply {
        Reply::Item(next, timed) => {
            let Ended { day, failure } = take(alloc, next, timed, talk.day, rules, console);
            Talk {
                day,
                course: course_after(failure),
                ..talk
            }
        }
        Reply::Rest => {
            let Ended { day, failure } = rest_and_tell(alloc, talk.day, rules, console);
            Talk {
                day,
                course: course_after(failure),
                ..talk
            }
        }
        Reply::Asked(query) => {
            let failure = answer_query(alloc, query, &talk.day, talk.serials.as_slice(), console);
            Talk {
                course: course_after(failure),
                ..talk
            }
        }
        Reply::Refused => {
            let failure = refuse(alloc, talk.number, console);
            Talk {
                bad: talk.bad.or(Some(talk.number)),
                course: course_after(failure),
                ..talk
            }
        }
        Reply::More | Reply::SkippedAll => talk,
    }
}

/// Prints that the line of this number is refused.
pub(crate) fn refuse<C: Console>(alloc: Global, number: u64, console: &mut C) -> Option<Failure>
    ensures { Puts result (refusal_line number) (C.written console.old) (C.written console.new) (C.faults console.old) (C.faults console.new) }
{
    put_made(console, own_line(alloc, b"? LINE ", number))
}
