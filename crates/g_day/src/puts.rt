//! What the operator reads is written, one text for each event.
ghost use Rattle.std.specs.Prelude.{◌≡◌, ◌++◌, ℕ, List, codes, IfOk, OnOk};
ghost use Rattle.g_day.specs.Puts.{Puts};
ghost use Rattle.g_day.specs.Telling.{refusal_text};
ghost use Rattle.g_monitor.specs.Refusals.{fault_line};
ghost use Rattle.g_run_model.specs.Texts.{operator_line};

use crate::day::Day;
use crate::progress::{Ended, Failure};
use g_base::NoMemory;
use g_disc::Disc;
use g_io::Sink;
use g_job_table::push_operator_line;
use g_monitor::push_fault;
use g_name::Text;
use g_plain::StoreFault;
use g_tape::Tapes;
use std::alloc::Global;

/// Writes a text.
pub fn put<K: Sink>(out: &mut K, text: &[u8]) -> Option<Failure>
    ensures { Puts result text.now (K.written out.old) (K.written out.new) (K.faults out.old) (K.faults out.new) }
{
    match out.put(text) {
        Ok(()) => None,
        Err(_) => Some(Failure::Output),
    }
}

/// Writes a text that was built for it, unless memory ran out.
pub fn put_made<K: Sink>(out: &mut K, made: Result<Text, NoMemory>) -> Option<Failure>
    ensures { (text : List ℕ) → IfOk made (λ t. t ≡ text)
        → Puts result text (K.written out.old) (K.written out.new) (K.faults out.old) (K.faults out.new) }
{
    match made {
        Ok(text) => put(out, text.as_slice()),
        Err(NoMemory) => Some(Failure::Memory),
    }
}

/// Writes a line for the operator: the count of ticks, and what was done.
pub fn say<K: Sink>(alloc: Global, count: u64, what: &[u8], out: &mut K) -> Option<Failure>
    ensures { Puts result (operator_line count what.now) (K.written out.old) (K.written out.new) (K.faults out.old) (K.faults out.new) }
{
    let made = line(alloc, count, what);
    put_made(out, made)
}

/// Does so for a text that was built for it, unless memory ran out.
pub fn say_made<K: Sink>(
    alloc: Global,
    count: u64,
    made: Result<Text, NoMemory>,
    out: &mut K,
) -> Option<Failure>
    ensures { (what : List ℕ) → IfOk made (λ t. t ≡ what)
        → Puts result (operator_line count what) (K.written out.old) (K.written out.new) (K.faults out.old) (K.faults out.new) }
{
    match made {
        Ok(what) => say(alloc, count, what.as_slice(), out),
        Err(NoMemory) => Some(Failure::Memory),
    }
}

/// Writes the line that reports what was done; nothing else changes.
pub fn told<K: Sink, D: Disc, T: Tapes>(
    alloc: Global,
    day: Day<D, T>,
    made: Result<Text, NoMemory>,
    out: &mut K,
) -> Ended<D, T>
    ensures same { result.day ≡ day }
    ensures put { (what : List ℕ) → IfOk made (λ t. t ≡ what)
        → Puts result.failure (operator_line day.count what) (K.written out.old) (K.written out.new) (K.faults out.old) (K.faults out.new) }
{
    let failure = say_made(alloc, day.count, made, out);
    Ended { day, failure }
}

/// Writes the line that reports why a line was refused.
pub fn refuse<K: Sink>(
    alloc: Global,
    count: u64,
    fault: &StoreFault,
    out: &mut K,
) -> Option<Failure>
    ensures { Puts result (refusal_text count fault.now) (K.written out.old) (K.written out.new) (K.faults out.old) (K.faults out.new) }
{
    let made = refusal(alloc, fault);
    say_made(alloc, count, made, out)
}

/// The space that is allocated at once for a line to the operator; most lines are shorter.
pub const ROOM: usize = 64;

/// A line of the operator's.
pub(crate) fn line(alloc: Global, count: u64, what: &[u8]) -> Result<Text, NoMemory>
    ensures { IfOk result (λ text. text ≡ operator_line count what.now) }
{
    let mut text = Text::from(Vec::with_capacity(alloc, ROOM)?);
    push_operator_line(&mut text, count, what)?;
    Ok(text)
}

/// The text of a refusal.
fn refusal(alloc: Global, fault: &StoreFault) -> Result<Text, NoMemory>
    ensures { IfOk result (λ text. text ≡ codes "REFUSED " ++ fault_line fault.now) }
{
    let mut text = Text::from_slice(alloc, b"REFUSED ")?;
    push_told(&mut text, fault)?;
    Ok(text)
}

/// Appends number and text of a fault to the text. A wait, a stop and running out of memory have no text.
pub fn push_told(text: &mut Text, fault: &StoreFault) -> Result<(), NoMemory>
    ensures { OnOk result (text.new ≡ text.old ++ fault_line fault.now) }
{
    match fault {
        StoreFault::WaitTape(_) => Ok(()),
        StoreFault::Stopped => Ok(()),
        StoreFault::NoMemory => Ok(()),
        _ => push_fault(text, fault),
    }
}
