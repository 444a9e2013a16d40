//! Ticks, as long as something can step and no line is due.
ghost use Rattle.std.specs.Prelude.{◌≡◌, ◌⊎◌, ◌+◌, ◌<◌, ℕ, None, is_some, true, false};
ghost use Rattle.g_rules.specs.Tariff.{IsTariff};
ghost use Rattle.g_day.specs.Parts.{IsReady, seen};
ghost use Rattle.g_day.specs.System as system;
ghost use Rattle.g_job_table.specs.Numbers.{AreOpen};
ghost use Rattle.g_rules.specs.Rule.{IsWeighRule};
ghost use Rattle.g_ticks.specs.Tick.{some_job_steps};
ghost use Rattle.g_ticks.specs.Parts.{DidTicks, HasRoom, IsAtRest, is_past, steps_in};
ghost use Rattle.g_ticks.specs.Turning.{left_of};

use crate::day_up::DayUp;
use crate::rules::Rules;
use crate::ticking::tick;
use crate::watched::Watched;
use g_day::{Day, Ended, Failure, System};
use g_disc::Disc;
use g_io::Sink;
use g_job_table::{Crew, Weights};
use g_rules::{Charge, Standing, Usage};
use g_tape::Tapes;
use std::alloc::Global;

/// Ticks until nothing can step, or, if the turn of the next line is given, until the count has reached it.
pub fn tick_until_due<K: Sink, D: Disc, T: Tapes, F: Fn(&Usage) -> Charge, U: Fn(&Standing) -> u64>(
    alloc: Global,
    day: Day<D, T>,
    limit: Option<u64>,
    rules: &Rules<'_, F, U>,
    out: &mut K,
) -> Ended<D, T>
    requires ready { IsReady day.system day.crew }
    requires open { AreOpen day.crew.jobs }
    requires room { HasRoom limit day }
    requires tariff { IsTariff F.Fn rules.now.tariff.now }
    requires rule { IsWeighRule U.Fn rules.now.weigh.now }
    ensures { DidTicks F.Fn rules.now.tariff.now U.Fn rules.now.weigh.now IsAtRest limit day result.failure result.day
        (K.written out.old) (K.written out.new) (K.faults out.old) (K.faults out.new) }
{
    let Day {
        system,
        crew,
        count,
    } = day;
    match system {
        System::Up(store) => {
            let store = Watched {
                running: store,
                asked: true,
            };
            until_up(alloc, DayUp { store, crew, count }, limit, rules, out)
        }
        System::Down(disc, tapes) => Ended {
            day: Day {
                system: System::Down(disc, tapes),
                crew,
                count,
            },
            failure: None,
        },
    }
}

/// Does so for a system that is up. No job is weighed if there is no tick.
fn until_up<K: Sink, D: Disc, T: Tapes, F: Fn(&Usage) -> Charge, U: Fn(&Standing) -> u64>(
    alloc: Global,
    up: DayUp<D, T>,
    limit: Option<u64>,
    rules: &Rules<'_, F, U>,
    out: &mut K,
) -> Ended<D, T>
    requires ready { IsReady (system.Up up.store.running) up.crew }
    requires open { AreOpen up.crew.jobs }
    requires room { HasRoom limit (seen (system.Up up.store.running) up.crew up.count) }
    requires asked { up.store.asked ≡ true }
    requires tariff { IsTariff F.Fn rules.now.tariff.now }
    requires rule { IsWeighRule U.Fn rules.now.weigh.now }
    ensures { DidTicks F.Fn rules.now.tariff.now U.Fn rules.now.weigh.now IsAtRest limit (seen (system.Up up.store.running) up.crew up.count) result.failure result.day
        (K.written out.old) (K.written out.new) (K.faults out.old) (K.faults out.new) }
{
    if goes_on(&up, None, limit) {
        tick_on(alloc, up, limit, rules, out)
    } else {
        up.ended(None)
    }
}

/// Ticks as long as there is something to do. The weights of the jobs are cached from one tick to the next.
fn tick_on<K: Sink, D: Disc, T: Tapes, F: Fn(&Usage) -> Charge, U: Fn(&Standing) -> u64>(
    alloc: Global,
    up: DayUp<D, T>,
    limit: Option<u64>,
    rules: &Rules<'_, F, U>,
    out: &mut K,
) -> Ended<D, T>
    requires ready { IsReady (system.Up up.store.running) up.crew }
    requires open { AreOpen up.crew.jobs }
    requires room { HasRoom limit (seen (system.Up up.store.running) up.crew up.count) }
    requires asked { up.store.asked ≡ true }
    requires tariff { IsTariff F.Fn rules.now.tariff.now }
    requires rule { IsWeighRule U.Fn rules.now.weigh.now }
    ensures { DidTicks F.Fn rules.now.tariff.now U.Fn rules.now.weigh.now IsAtRest limit (seen (system.Up up.store.running) up.crew up.count) result.failure result.day
        (K.written out.old) (K.written out.new) (K.faults out.old) (K.faults out.new) }
{
    let mut up = up;
    let mut weights = Weights::new();
    up.crew.weigh(rules.weigh, &mut weights);
    let mut failure: Option<Failure> = None;
    'ticks: while goes_on(&up, failure, limit) {
        failure = tick(alloc, &mut up, &mut weights, rules, out);
        up.count = counted(up.count, failure);
    }
    up.ended(failure)
}

/// Whether there is a tick to do.
fn goes_on<D: Disc, T: Tapes>(
    up: &DayUp<D, T>,
    failure: Option<Failure>,
    limit: Option<u64>,
) -> bool
    requires ready { failure ≡ None → IsReady (left_of up.now.store.running) up.now.crew }
    ensures yes { result ≡ true → (failure ≡ None) × (is_past limit up.now.count ≡ false) × (up.now.store.running.spent ≡ false)
        × (steps_in (seen (system.Up up.now.store.running) up.now.crew up.now.count) ≡ true) }
    ensures no { result ≡ false → failure ≡ None → (is_past limit up.now.count ≡ true)
        ⊎ (steps_in (seen (left_of up.now.store.running) up.now.crew up.now.count) ≡ false) }
{
    match failure {
        Some(_) => false,
        None => {
            if is_past(limit, up.count) {
                false
            } else {
                something_steps(up)
            }
        }
    }
}

/// Whether the count has reached the turn.
fn is_past(limit: Option<u64>, count: u64) -> bool
    ensures { result ≡ is_past limit count }
{
    match limit {
        Some(turn) => turn <= count,
        None => false,
    }
}

/// Whether the store wasn't stopped, and its open dump or a job can step.
fn something_steps<D: Disc, T: Tapes>(up: &DayUp<D, T>) -> bool
    requires ready { IsReady (left_of up.now.store.running) up.now.crew }
    ensures yes { result ≡ true → (up.now.store.running.spent ≡ false) × (steps_in (seen (system.Up up.now.store.running) up.now.crew up.now.count) ≡ true) }
    ensures no { result ≡ false → steps_in (seen (left_of up.now.store.running) up.now.crew up.now.count) ≡ false }
{
    if up.store.spent() {
        false
    } else if up.store.dump_number().is_some() {
        true
    } else {
        job_steps(&up.store, &up.crew)
    }
}

/// Whether a job can step.
fn job_steps<D: Disc, T: Tapes>(store: &Watched<D, T>, crew: &Crew) -> bool
    ensures { (count : ℕ) → result ≡ some_job_steps (seen (system.Up store.now.running) crew.now count) }
{
    crew.can_step(&|serial: u32| store.mounted(serial))
}

/// The count after a tick: one more, or unchanged if the tick failed.
fn counted(count: u64, failure: Option<Failure>) -> u64
    requires room { count < 18446744073709551615 }
    ensures done { failure ≡ None → result ≡ count + 1 }
    ensures failed { is_some failure ≡ true → result ≡ count }
{
    if failure.is_none() {
        count + 1
    } else {
        uncounted(count)
    }
}

/// The count after a tick that failed.
// This happens at most once in a run: a call in its place leaves one addition to each other tick.
#[inline(never)]
fn uncounted(count: u64) -> u64
    ensures { result ≡ count }
{
    count
}
