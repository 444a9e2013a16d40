//! A job's turn.
ghost use Rattle.std.specs.Prelude.{◌≡◌, ℕ, None, Some, false, length};
ghost use Rattle.g_rules.specs.Tariff.{IsTariff};
ghost use Rattle.g_day.specs.Parts.{IsReady, seen};
ghost use Rattle.g_day.specs.System as system;
ghost use Rattle.g_job_table.specs.Choice.{Chooses, able_in};
ghost use Rattle.g_job_table.specs.Numbers.{AreJobs, AreOpen, job_in};
ghost use Rattle.g_job_table.specs.Weights.{AreOthers, AreWeights};
ghost use Rattle.g_job.specs.State.{JobState};
ghost use Rattle.g_rules.specs.Rule.{IsWeighRule};
ghost use Rattle.g_store_model.specs.State as state;
ghost use Rattle.g_store_model.specs.State.{State};
ghost use Rattle.g_tape.specs.Rack.{is_mounted, reel};
ghost use Rattle.g_ticks.specs.Tick.{DidTurn};
ghost use Rattle.g_ticks.specs.Turning.{Takes, left_of};
ghost use Rattle.g_ticks.specs.Watch.{HaveAll};

use crate::day_up::DayUp;
use crate::ending::end_turn;
use crate::rules::Rules;
use crate::watched::Watched;
use g_base::NoMemory;
use g_day::Failure;
use g_disc::Disc;
use g_io::Sink;
use g_job_table::{Crew, Weights};
use g_rules::{Charge, Standing, Tariff, Usage, WeighRule};
use g_tape::Tapes;
use std::alloc::Global;

/// A turn of the job chosen among those that can step, if there is one.
pub(crate) fn take_turn<
    K: Sink,
    D: Disc,
    T: Tapes,
    F: Fn(&Usage) -> Charge,
    U: Fn(&Standing) -> u64,
>(
    alloc: Global,
    up: &mut DayUp<D, T>,
    weights: &mut Weights,
    rules: &Rules<'_, F, U>,
    out: &mut K,
) -> Option<Failure>
    requires ready { IsReady (system.Up up.old.store.running) up.old.crew }
    requires open { AreOpen up.old.crew.jobs }
    requires weighed { AreWeights U.Fn rules.now.weigh.now up.old.crew.jobs weights.old }
    requires accounts { HaveAll up.old.store up.old.crew }
    requires tariff { IsTariff F.Fn rules.now.tariff.now }
    requires rule { IsWeighRule U.Fn rules.now.weigh.now }
    ensures did { DidTurn F.Fn rules.now.tariff.now U.Fn rules.now.weigh.now (seen (system.Up up.old.store.running) up.old.crew up.old.count) result
        (seen (left_of up.new.store.running) up.new.crew up.old.count)
        (K.written out.old) (K.written out.new) (K.faults out.old) (K.faults out.new) }
    ensures count { up.new.count ≡ up.old.count }
    ensures weighed { result ≡ None → AreWeights U.Fn rules.now.weigh.now up.new.crew.jobs weights.new }
    ensures accounts { result ≡ None → up.new.store.running.spent ≡ false → HaveAll up.new.store up.new.crew }
{
    rises(&up.crew);
    match next_job(&up.store, &up.crew, rules.weigh, weights) {
        None => None,
        Some(number) => {
            let failure = turn_of(alloc, up, number, rules.tariff, out);
            weigh_behind(&up.crew, failure, number, rules.weigh, weights);
            failure
        }
    }
}

/// The weights of the jobs after the turn of the job of this number, unless the turn failed.
fn weigh_behind<U: Fn(&Standing) -> u64>(
    crew: &Crew,
    failure: Option<Failure>,
    number: u64,
    weigh: &WeighRule<U>,
    weights: &mut Weights,
)
    requires rule { IsWeighRule U.Fn weigh.now }
    requires others { failure ≡ None → length crew.now.jobs ≡ length weights.old → AreOthers U.Fn weigh.now number crew.now.jobs weights.old }
    ensures { failure ≡ None → AreWeights U.Fn weigh.now crew.now.jobs weights.new }
{
    match failure {
        None => crew.weigh_behind(weigh, number, weights),
        Some(_) => {}
    }
}

/// The solver learns here that the numbers of the jobs rise.
fn rises(crew: &Crew)
    ensures { AreJobs crew.now.jobs crew.now.next_job }
{
    let _jobs = crew.jobs();
}

/// The number of the job that goes next.
fn next_job<D: Disc, T: Tapes, U: Fn(&Standing) -> u64>(
    store: &Watched<D, T>,
    crew: &Crew,
    weigh: &WeighRule<U>,
    weights: &Weights,
) -> Option<u64>
    requires { AreWeights U.Fn weigh.now crew.now.jobs weights.now }
    ensures { (s : State) → ((serial : ℕ) → state.is_mounted s serial ≡ is_mounted (reel serial store.now.running.rack.reels))
        → Chooses U.Fn weigh.now crew.now.jobs (able_in s crew.now.jobs) result }
{
    crew.choose(weigh, weights, &|serial: u32| store.mounted(serial))
}

/// A turn of the job of this number.
fn turn_of<K: Sink, D: Disc, T: Tapes, F: Fn(&Usage) -> Charge>(
    alloc: Global,
    up: &mut DayUp<D, T>,
    number: u64,
    tariff: &Tariff<F>,
    out: &mut K,
) -> Option<Failure>
    requires running { up.old.store.running.spent ≡ false }
    requires open { AreOpen up.old.crew.jobs }
    requires there { (job : JobState) × (job_in number up.old.crew.jobs ≡ Some job) }
    requires accounts { HaveAll up.old.store up.old.crew }
    requires tariff { IsTariff F.Fn tariff.now }
    ensures turn { Takes F.Fn tariff.now up.old.store.running up.old.crew up.old.count number result (left_of up.new.store.running) up.new.crew
        (K.written out.old) (K.written out.new) (K.faults out.old) (K.faults out.new) }
    ensures count { up.new.count ≡ up.old.count }
    ensures accounts { result ≡ None → up.new.store.running.spent ≡ false → HaveAll up.new.store up.new.crew }
{
    match up.crew.turn(alloc, number, &mut up.store, tariff) {
        Ok(taken) => end_turn(alloc, up, number, taken, out),
        Err(NoMemory) => Some(Failure::Memory),
    }
}
