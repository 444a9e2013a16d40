//! A tick: a step of the open dump, and a turn of the next job.
ghost use Rattle.std.specs.Prelude.{◌≡◌, None, false};
ghost use Rattle.g_rules.specs.Tariff.{IsTariff};
ghost use Rattle.g_day.specs.Parts.{IsReady, seen};
ghost use Rattle.g_day.specs.System as system;
ghost use Rattle.g_job_table.specs.Numbers.{AreOpen};
ghost use Rattle.g_job_table.specs.Weights.{AreWeights};
ghost use Rattle.g_rules.specs.Rule.{IsWeighRule};
ghost use Rattle.g_ticks.specs.Tick.{DidTick};
ghost use Rattle.g_ticks.specs.Turning.{left_of};
ghost use Rattle.g_ticks.specs.Watch.{HaveAll};

use crate::day_up::DayUp;
use crate::dumping::dump_step;
use crate::rules::Rules;
use crate::turning::take_turn;
use g_day::Failure;
use g_disc::Disc;
use g_io::Sink;
use g_job_table::Weights;
use g_rules::{Charge, Standing, Usage};
use g_tape::Tapes;
use std::alloc::Global;

/// A tick of a system that is up, when no line is due and something can step: a step of the open dump, if there is one;
/// then, unless that stopped the system, a turn of the chosen job, if one can step. The caller raises the count.
pub(crate) fn tick<K: Sink, D: Disc, T: Tapes, F: Fn(&Usage) -> Charge, U: Fn(&Standing) -> u64>(
    alloc: Global,
    up: &mut DayUp<D, T>,
    weights: &mut Weights,
    rules: &Rules<'_, F, U>,
    out: &mut K,
) -> Option<Failure>
    requires ready { IsReady (system.Up up.old.store.running) up.old.crew }
    requires open { AreOpen up.old.crew.jobs }
    requires weighed { AreWeights U.Fn rules.now.weigh.now up.old.crew.jobs weights.old }
    requires accounts { HaveAll up.old.store up.old.crew }
    requires tariff { IsTariff F.Fn rules.now.tariff.now }
    requires rule { IsWeighRule U.Fn rules.now.weigh.now }
    ensures did { DidTick F.Fn rules.now.tariff.now U.Fn rules.now.weigh.now (seen (system.Up up.old.store.running) up.old.crew up.old.count) result
        (seen (left_of up.new.store.running) up.new.crew up.old.count)
        (K.written out.old) (K.written out.new) (K.faults out.old) (K.faults out.new) }
    ensures count { up.new.count ≡ up.old.count }
    ensures weighed { result ≡ None → up.new.store.running.spent ≡ false → AreWeights U.Fn rules.now.weigh.now up.new.crew.jobs weights.new }
    ensures accounts { result ≡ None → up.new.store.running.spent ≡ false → HaveAll up.new.store up.new.crew }
{
    match dump_step(alloc, up, out) {
        None => {
            if up.store.spent() {
                None
            } else {
                take_turn(alloc, up, weights, rules, out)
            }
        }
        Some(failure) => Some(failure),
    }
}
