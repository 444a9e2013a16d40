//! What a session does for an item or an empty line.
ghost use Rattle.std.specs.Prelude.{◌≡◌, ◌+◌, ◌<◌, ◌++◌, IfOk};
ghost use Rattle.std.specs.Fmt.{decimal};
ghost use Rattle.g_rules.specs.Tariff.{IsTariff};
ghost use Rattle.g_day.specs.Parts.{IsReady};
ghost use Rattle.g_job_table.specs.Numbers.{AreOpen};
ghost use Rattle.g_lines.specs.Lines.{ended};
ghost use Rattle.g_rules.specs.Rule.{IsWeighRule};
ghost use Rattle.g_ticks.specs.Parts.{IsTimedWithin};
ghost use Rattle.g_session.specs.Taking.{DidRest, DidTake, DidRestAndTell};

use g_base::NoMemory;
use g_day::{Day, Ended, Failure, put_made};
use g_disc::Disc;
use g_io::Sink;
use g_lines::push_decimal;
use g_name::Text;
use g_rules::{Charge, Standing, Usage};
use g_run::{next_line, remaining_ticks_fit};
use g_script::Timed;
use g_tape::Tapes;
use g_ticks::{Rules, tick_until_due};
use std::alloc::Global;

/// The most ticks that a session counts; the count has room for what is left to do then.
const MOST_COUNT: u64 = 1_000_000_000_000_000_000;

/// Takes an item: one with a time of its own as a line of a script; any other at once, and then the system runs until nothing can step.
pub(crate) fn take<K: Sink, D: Disc, T: Tapes, F: Fn(&Usage) -> Charge, U: Fn(&Standing) -> u64>(
    alloc: Global,
    next: Timed,
    timed: bool,
    day: Day<D, T>,
    rules: &Rules<'_, F, U>,
    out: &mut K,
) -> Ended<D, T>
    requires ready { IsReady day.system day.crew }
    requires open { AreOpen day.crew.jobs }
    requires within { IsTimedWithin next }
    requires numbers { day.crew.next_job + 1 < 18446744073709551616 }
    requires tariff { IsTariff F.Fn rules.now.tariff.now }
    requires rule { IsWeighRule U.Fn rules.now.weigh.now }
    ensures { DidTake F.Fn rules.now.tariff.now U.Fn rules.now.weigh.now timed next day result.failure result.day
        (K.written out.old) (K.written out.new) (K.faults out.old) (K.faults out.new) }
{
    let Ended { day, failure } = next_line(alloc, next, day, rules, out);
    match failure {
        None => {
            if timed {
                Ended { day, failure: None }
            } else {
                rest(alloc, day, rules, out)
            }
        }
        Some(failure) => Ended {
            day,
            failure: Some(failure),
        },
    }
}

/// Lets the system run until nothing can step, and prints the count of ticks then.
#[tactic(auto, using(crate::proofs::TakeLemmas::rest_untold))]
pub(crate) fn rest_and_tell<
    K: Sink,
    D: Disc,
    T: Tapes,
    F: Fn(&Usage) -> Charge,
    U: Fn(&Standing) -> u64,
>(alloc: Global, day: Day<D, T>, rules: &Rules<'_, F, U>, out: &mut K) -> Ended<D, T>
    requires ready { IsReady day.system day.crew }
    requires open { AreOpen day.crew.jobs }
    requires tariff { IsTariff F.Fn rules.now.tariff.now }
    requires rule { IsWeighRule U.Fn rules.now.weigh.now }
    ensures { DidRestAndTell F.Fn rules.now.tariff.now U.Fn rules.now.weigh.now day result.failure result.day
        (K.written out.old) (K.written out.new) (K.faults out.old) (K.faults out.new) }
{
    let Ended { day, failure } = rest(alloc, day, rules, out);
    match failure {
        None => {
            let failure = put_made(out, own_line(alloc, b"? TICK ", day.count));
            Ended { day, failure }
        }
        Some(failure) => Ended {
            day,
            failure: Some(failure),
        },
    }
}

/// Lets the system run until nothing can step. A session that has counted to its most has no room for more, as if memory ran out.
#[tactic(auto, using(crate::proofs::TakeLemmas::room_for_rest))]
pub(crate) fn rest<K: Sink, D: Disc, T: Tapes, F: Fn(&Usage) -> Charge, U: Fn(&Standing) -> u64>(
    alloc: Global,
    day: Day<D, T>,
    rules: &Rules<'_, F, U>,
    out: &mut K,
) -> Ended<D, T>
    requires ready { IsReady day.system day.crew }
    requires open { AreOpen day.crew.jobs }
    requires tariff { IsTariff F.Fn rules.now.tariff.now }
    requires rule { IsWeighRule U.Fn rules.now.weigh.now }
    ensures { DidRest F.Fn rules.now.tariff.now U.Fn rules.now.weigh.now day result.failure result.day
        (K.written out.old) (K.written out.new) (K.faults out.old) (K.faults out.new) }
{
    if day.count > MOST_COUNT {
        Ended {
            day,
            failure: Some(Failure::Memory),
        }
    } else {
        remaining_ticks_fit(&day);
        tick_until_due(alloc, day, None, rules, out)
    }
}

/// A line of the console's own.
pub(crate) fn own_line(alloc: Global, what: &[u8], number: u64) -> Result<Text, NoMemory>
    ensures { IfOk result (λ text. text ≡ ended (what.now ++ decimal number)) }
{
    let mut text = Text::from_slice(alloc, what)?;
    push_decimal(&mut text, number)?;
    text.push(b'\n')?;
    Ok(text)
}
