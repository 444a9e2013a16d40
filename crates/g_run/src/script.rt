//! The lines of a script, each done when it is due, or when nothing can step.
ghost use Rattle.std.specs.Prelude.{◌≡◌, ◌+◌, ◌<◌, All, length};
ghost use Rattle.g_rules.specs.Tariff.{IsTariff};
ghost use Rattle.g_day.specs.Parts.{IsReady};
ghost use Rattle.g_job_table.specs.Numbers.{AreOpen};
ghost use Rattle.g_rules.specs.Rule.{IsWeighRule};
ghost use Rattle.g_ticks.specs.Parts.{DidLines, IsTimedWithin};
ghost use Rattle.g_run.specs.NextLine.{DidNext};

use g_day::{Day, Ended};
use g_disc::Disc;
use g_io::Sink;
use g_operator::operator_line;
use g_rules::{Charge, Standing, Usage};
use g_script::{Timed, Timeds};
use g_tape::Tapes;
use g_ticks::{Rules, tick_until_due};
use std::alloc::Global;
use std::collections::VecDeque;

/// Does all lines, in order, as far as a failure lets it.
pub(crate) fn do_lines<
    K: Sink,
    D: Disc,
    T: Tapes,
    F: Fn(&Usage) -> Charge,
    U: Fn(&Standing) -> u64,
>(alloc: Global, lines: Timeds, day: Day<D, T>, rules: &Rules<'_, F, U>, out: &mut K) -> Ended<D, T>
    requires ready { IsReady day.system day.crew }
    requires open { AreOpen day.crew.jobs }
    requires within { All IsTimedWithin lines }
    requires numbers { day.crew.next_job + length lines < 18446744073709551616 }
    requires tariff { IsTariff F.Fn rules.now.tariff.now }
    requires rule { IsWeighRule U.Fn rules.now.weigh.now }
    ensures { DidLines F.Fn rules.now.tariff.now U.Fn rules.now.weigh.now lines day result.failure result.day
        (K.written out.old) (K.written out.new) (K.faults out.old) (K.faults out.new) }
{
    let mut lines: VecDeque<Timed> = VecDeque::from(Vec::from(lines));
    let mut ended = Ended { day, failure: None };
    'lines: while let Some(next) = lines.pop_front() {
        ended = next_line(alloc, next, ended.day, rules, out);
        if ended.failure.is_some() {
            return ended;
        }
    }
    ended
}

/// Ticks until the line is due or nothing can step, and then does the line; nothing happens after it. A failure ends it earlier.
pub fn next_line<K: Sink, D: Disc, T: Tapes, F: Fn(&Usage) -> Charge, U: Fn(&Standing) -> u64>(
    alloc: Global,
    next: Timed,
    day: Day<D, T>,
    rules: &Rules<'_, F, U>,
    out: &mut K,
) -> Ended<D, T>
    requires ready { IsReady day.system day.crew }
    requires open { AreOpen day.crew.jobs }
    requires within { IsTimedWithin next }
    requires numbers { day.crew.next_job + 1 < 18446744073709551616 }
    requires tariff { IsTariff F.Fn rules.now.tariff.now }
    requires rule { IsWeighRule U.Fn rules.now.weigh.now }
    ensures { DidNext F.Fn rules.now.tariff.now U.Fn rules.now.weigh.now next day result.failure result.day
        (K.written out.old) (K.written out.new) (K.faults out.old) (K.faults out.new) }
{
    let Timed { turn, what } = next;
    let Ended { day, failure } = tick_until_due(alloc, day, Some(turn), rules, out);
    match failure {
        None => operator_line(alloc, day, what, out),
        Some(failure) => Ended {
            day,
            failure: Some(failure),
        },
    }
}
