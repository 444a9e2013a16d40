//! A script that was read, done to its end.
ghost use Rattle.std.specs.Prelude.{◌≡◌, ◌+◌, ◌≤◌, ◌<◌, ◌++◌, All, IfErr, IfOk, length};
ghost use Rattle.g_rules.specs.Tariff.{IsTariff};
ghost use Rattle.g_day.specs.Parts.{IsReady};
ghost use Rattle.g_job_table.specs.Numbers.{AreOpen};
ghost use Rattle.g_rules.specs.Rule.{IsWeighRule};
ghost use Rattle.g_run_model.specs.Texts as texts;
ghost use Rattle.g_run.specs.ScriptEnd.{ClosesBy, DidScript, TakenDown, both};
ghost use Rattle.g_ticks.specs.Parts.{DidAll, IsTimedWithin};

use crate::boxed_disc::BoxedDisc;
use crate::boxed_tapes::BoxedTapes;
use crate::remaining_ticks::remaining_ticks_fit;
use crate::script::do_lines;
use g_base::NoMemory;
use g_day::{Day, Ended, Failure, System, put_made, take_down};
use g_disc::Disc;
use g_io::Sink;
use g_job_table::{Crew, closing_text};
use g_known::KnownReels;
use g_name::Text;
use g_rules::{Charge, Standing, Usage};
use g_script::{Script, Timeds};
use g_tape::Tapes;
use g_ticks::{Rules, tick_until_due};
use std::alloc::{AllocFailed, Global};

/// Both devices after a script, and the failure that cut it short, if one did.
#[derive(Drop)]
pub struct ScriptEnd<D: Disc, T: Tapes> {
    pub disc: D,
    pub tapes: T,
    pub failure: Option<Failure>,
}

/// Does a script over devices under no store, and takes the system down again.
pub(crate) fn run_script<
    K: Sink,
    D: Disc,
    T: Tapes,
    F: Fn(&Usage) -> Charge,
    U: Fn(&Standing) -> u64,
>(
    alloc: Global,
    script: Script,
    devices: (D, T),
    rules: &Rules<'_, F, U>,
    out: &mut K,
) -> ScriptEnd<D, T>
    requires size { (2177 < (D.state devices.0).size) × ((D.state devices.0).size ≤ 1048576) }
    requires within { All IsTimedWithin script.lines }
    requires few { length script.lines + 1 < 18446744073709551616 }
    requires tariff { IsTariff F.Fn rules.now.tariff.now }
    requires rule { IsWeighRule U.Fn rules.now.weigh.now }
    ensures { DidScript F.Fn rules.now.tariff.now U.Fn rules.now.weigh.now script.lines script.bad (both (D.state devices.0) (T.rack devices.1)) result.failure
        (both (D.state result.disc) (T.rack result.tapes))
        (K.written out.old) (K.written out.new) (K.faults out.old) (K.faults out.new) }
{
    let Script { lines, bad } = script;
    let (disc, tapes) = devices;
    let tapes = KnownReels::new(alloc, tapes);
    let crew = Crew::new(alloc);
    let day = Day {
        system: System::Down(disc, tapes),
        crew,
        count: 0,
    };
    let Ended { day, failure } = run_lines(alloc, lines, day, rules, out);
    let failure = close(alloc, &day.crew, bad, failure, out);
    let (disc, tapes) = taken_down(day);
    ScriptEnd {
        disc,
        tapes,
        failure,
    }
}

/// The same on devices that it moves into boxes: a run passes its system on at every line, so that for a system that is down only
/// two pointers and the list of known reels move. If memory for the boxes runs out, nothing is done.
pub(crate) fn run_boxed<
    K: Sink,
    D: Disc,
    T: Tapes,
    F: Fn(&Usage) -> Charge,
    U: Fn(&Standing) -> u64,
>(
    alloc: Global,
    script: Script,
    devices: (D, T),
    rules: &Rules<'_, F, U>,
    out: &mut K,
) -> ScriptEnd<D, T>
    requires size { (2177 < (D.state devices.0).size) × ((D.state devices.0).size ≤ 1048576) }
    requires within { All IsTimedWithin script.lines }
    requires few { length script.lines + 1 < 18446744073709551616 }
    requires tariff { IsTariff F.Fn rules.now.tariff.now }
    requires rule { IsWeighRule U.Fn rules.now.weigh.now }
    ensures { DidScript F.Fn rules.now.tariff.now U.Fn rules.now.weigh.now script.lines script.bad (both (D.state devices.0) (T.rack devices.1)) result.failure
        (both (D.state result.disc) (T.rack result.tapes))
        (K.written out.old) (K.written out.new) (K.faults out.old) (K.faults out.new) }
{
    match in_boxes(alloc, devices) {
        Ok(devices) => unboxed(run_script(alloc, script, devices, rules, out)),
        Err((disc, tapes)) => ScriptEnd {
            disc,
            tapes,
            failure: Some(Failure::Memory),
        },
    }
}

/// Moves both devices into boxes. If memory for these runs out, it returns the devices unchanged.
pub fn in_boxes<D: Disc, T: Tapes>(
    alloc: Global,
    devices: (D, T),
) -> Result<(BoxedDisc<D>, BoxedTapes<T>), (D, T)>
    ensures ok { IfOk result (λ boxes. (D.state boxes.0.disc.value ≡ D.state devices.0) × (T.rack boxes.1.tapes.value ≡ T.rack devices.1)) }
    ensures err { IfErr result (λ back. (D.state back.0 ≡ D.state devices.0) × (T.rack back.1 ≡ T.rack devices.1)) }
{
    let (disc, tapes) = devices;
    let disc = match Box::new(alloc, disc) {
        Ok(disc) => BoxedDisc { disc },
        Err(AllocFailed { value }) => return Err((value, tapes)),
    };
    match Box::new(alloc, tapes) {
        Ok(tapes) => Ok((disc, BoxedTapes { tapes })),
        Err(AllocFailed { value }) => Err((Box::into_inner(disc.disc), value)),
    }
}

/// The end of a script, with the devices moved out of their boxes.
pub fn unboxed<D: Disc, T: Tapes>(over: ScriptEnd<BoxedDisc<D>, BoxedTapes<T>>) -> ScriptEnd<D, T>
    ensures disc { D.state result.disc ≡ D.state over.disc.disc.value }
    ensures tapes { T.rack result.tapes ≡ T.rack over.tapes.tapes.value }
    ensures failure { result.failure ≡ over.failure }
{
    let ScriptEnd {
        disc,
        tapes,
        failure,
    } = over;
    ScriptEnd {
        disc: Box::into_inner(disc.disc),
        tapes: Box::into_inner(tapes.tapes),
        failure,
    }
}

/// Does all lines, and ticks until nothing can step. The count has not begun.
fn run_lines<K: Sink, D: Disc, T: Tapes, F: Fn(&Usage) -> Charge, U: Fn(&Standing) -> u64>(
    alloc: Global,
    lines: Timeds,
    day: Day<D, T>,
    rules: &Rules<'_, F, U>,
    out: &mut K,
) -> Ended<D, T>
    requires ready { IsReady day.system day.crew }
    requires open { AreOpen day.crew.jobs }
    requires begins { day.count ≡ 0 }
    requires within { All IsTimedWithin lines }
    requires numbers { day.crew.next_job + length lines < 18446744073709551616 }
    requires tariff { IsTariff F.Fn rules.now.tariff.now }
    requires rule { IsWeighRule U.Fn rules.now.weigh.now }
    ensures { DidAll F.Fn rules.now.tariff.now U.Fn rules.now.weigh.now lines day result.failure result.day
        (K.written out.old) (K.written out.new) (K.faults out.old) (K.faults out.new) }
{
    let Ended { day, failure } = do_lines(alloc, lines, day, rules, out);
    match failure {
        None => {
            remaining_ticks_fit(&day);
            tick_until_due(alloc, day, None, rules, out)
        }
        Some(failure) => Ended {
            day,
            failure: Some(failure),
        },
    }
}

/// Prints the end of a run: the files of unfinished jobs, and the bad line of the script, if there is one. After a failure it prints
/// nothing and returns that failure.
pub fn close<K: Sink>(
    alloc: Global,
    crew: &Crew,
    bad: Option<u64>,
    failure: Option<Failure>,
    out: &mut K,
) -> Option<Failure>
    ensures { ClosesBy failure (texts.waiting_files crew.now.jobs ++ texts.closing bad) result
        (K.written out.old) (K.written out.new) (K.faults out.old) (K.faults out.new) }
{
    match failure {
        None => {
            let made = end_text(alloc, crew, bad);
            put_made(out, made)
        }
        Some(failure) => Some(failure),
    }
}

/// The text of it.
fn end_text(alloc: Global, crew: &Crew, bad: Option<u64>) -> Result<Text, NoMemory>
    ensures { IfOk result (λ text. text ≡ texts.waiting_files crew.now.jobs ++ texts.closing bad) }
{
    let mut text = Text::new(alloc);
    crew.push_waiting_files(alloc, &mut text)?;
    let closing = closing_text(alloc, bad)?;
    text.extend(closing.as_slice())?;
    Ok(text)
}

/// Takes the system down, and returns both devices.
pub fn taken_down<D: Disc, T: Tapes>(day: Day<D, T>) -> (D, T)
    ensures { TakenDown day.system (both (D.state result.0) (T.rack result.1)) }
{
    let Day { system, .. } = day;
    match system {
        System::Up(store) => {
            let (disc, tapes) = take_down(store);
            (disc, tapes.into_tapes())
        }
        System::Down(disc, tapes) => (disc, tapes.into_tapes()),
    }
}
