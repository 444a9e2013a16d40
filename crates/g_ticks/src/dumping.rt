//! A step of the open dump.
ghost use Rattle.std.specs.Prelude.{◌≡◌, ◌++◌, IfOk, codes, false, option_map, true, Some};
ghost use Rattle.g_day.specs.Parts.{IsReady, seen};
ghost use Rattle.g_day.specs.System as system;
ghost use Rattle.g_job_table.specs.Numbers.{AreOpen};
ghost use Rattle.g_monitor.specs.Refusals.{fault_line};
ghost use Rattle.g_run_model.specs.Texts.{dump_text};
ghost use Rattle.g_ticks.specs.Tick.{DidDump};
ghost use Rattle.g_ticks.specs.Turning.{left_of};
ghost use Rattle.g_ticks.specs.Watch.{HaveAll};

use crate::day_up::DayUp;
use g_base::NoMemory;
use g_day::{Failure, push_told, say_made, tell_fault};
use g_disc::Disc;
use g_dumper::DumpStep;
use g_io::Sink;
use g_job_table::dump_text;
use g_name::Text;
use g_plain::StoreFault;
use g_tape::Tapes;
use std::alloc::Global;

/// A step of the open dump, if there is one, and its report; nothing is printed while the dump continues.
pub(crate) fn dump_step<K: Sink, D: Disc, T: Tapes>(
    alloc: Global,
    up: &mut DayUp<D, T>,
    out: &mut K,
) -> Option<Failure>
    requires ready { IsReady (system.Up up.old.store.running) up.old.crew }
    requires open { AreOpen up.old.crew.jobs }
    ensures did { DidDump (seen (system.Up up.old.store.running) up.old.crew up.old.count) result
        (seen (left_of up.new.store.running) up.new.crew up.old.count)
        (K.written out.old) (K.written out.new) (K.faults out.old) (K.faults out.new) }
    ensures count { up.new.count ≡ up.old.count }
    ensures crew { up.new.store.running.spent ≡ false → up.new.crew ≡ up.old.crew }
    ensures accounts { HaveAll up.old.store up.old.crew → HaveAll up.new.store up.new.crew }
{
    match up.store.dump_number() {
        None => None,
        Some(number) => step(alloc, up, number, out),
    }
}

/// The step of the dump of this number.
// This is rare: a function of its own keeps its stack space out of every tick.
#[inline(never)]
fn step<K: Sink, D: Disc, T: Tapes>(
    alloc: Global,
    up: &mut DayUp<D, T>,
    number: u64,
    out: &mut K,
) -> Option<Failure>
    requires ready { IsReady (system.Up up.old.store.running) up.old.crew }
    requires open { AreOpen up.old.crew.jobs }
    requires number { option_map (λ d. d.plan.number) up.old.store.running.dump ≡ Some number }
    ensures did { DidDump (seen (system.Up up.old.store.running) up.old.crew up.old.count) result
        (seen (left_of up.new.store.running) up.new.crew up.old.count)
        (K.written out.old) (K.written out.new) (K.faults out.old) (K.faults out.new) }
    ensures count { up.new.count ≡ up.old.count }
    ensures crew { up.new.store.running.spent ≡ false → up.new.crew ≡ up.old.crew }
    ensures asked { up.new.store.asked ≡ true }
{
    match up.store.dump_step() {
        Ok(DumpStep::Going) => None,
        Ok(DumpStep::Completed(done)) => {
            let made = dump_text(alloc, done, b"COMPLETED");
            say_made(alloc, up.count, made, out)
        }
        Err(fault) => {
            if up.store.spent() {
                tell_fault(alloc, &mut up.crew, up.count, &fault, out)
            } else {
                let made = lost(alloc, number, &fault);
                say_made(alloc, up.count, made, out)
            }
        }
    }
}

/// The text about a dump that is given up.
fn lost(alloc: Global, number: u64, fault: &StoreFault) -> Result<Text, NoMemory>
    ensures { IfOk result (λ text. text ≡ dump_text number (codes "LOST " ++ fault_line fault.now)) }
{
    let mut how = Text::from_slice(alloc, b"LOST ")?;
    push_told(&mut how, fault)?;
    dump_text(alloc, number, how.as_slice())
}
