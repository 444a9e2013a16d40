//! A demonstration, run over devices in memory.
ghost use Rattle.std.specs.Prelude.{◌≡◌, ◌+◌, ◌<◌, [], ◌∷◌, IfOk, length};
ghost use Rattle.g_rules.specs.Tariff.{IsTariff};
ghost use Rattle.g_day.specs.Puts.{FaultCause, Puts};
ghost use Rattle.g_demo.specs.Script.{script_text};
ghost use Rattle.g_demo.specs.Summary as spec;
ghost use Rattle.g_disc.specs.Memory.{blank};
ghost use Rattle.g_lines.specs.Lines.{lines_of};
ghost use Rattle.g_rules.specs.Rule.{IsWeighRule};
ghost use Rattle.g_script.specs.Script.{IsParsed};
ghost use Rattle.g_tape.specs.Memory.{IsEmptyRack, memory_of};
ghost use Rattle.g_run.specs.Demo.{IsDemoText, PutsDemo};

use crate::boxed_disc::BoxedDisc;
use crate::boxed_tapes::BoxedTapes;
use crate::over::{ScriptEnd, run_script};
use g_base::NoMemory;
use g_day::{Failure, put_made};
use g_demo::{Demonstration, SummarySink, script_of, summary_text};
use g_disc::MemoryDisc;
use g_io::Sink;
use g_rules::{Charge, Standing, Usage};
use g_script::{Script, parse_script};
use g_tape::MemoryTapes;
use g_ticks::Rules;
use std::alloc::Global;

/// Runs a demonstration, and puts the summary of its text. Neither source nor devices have a part in it.
pub(crate) fn run_demo<K: Sink, F: Fn(&Usage) -> Charge, U: Fn(&Standing) -> u64>(
    alloc: Global,
    demo: &Demonstration,
    rules: &Rules<'_, F, U>,
    out: &mut K,
) -> Option<Failure>
    requires tariff { IsTariff F.Fn rules.now.tariff.now }
    requires rule { IsWeighRule U.Fn rules.now.weigh.now }
    ensures put { PutsDemo F.Fn rules.now.tariff.now U.Fn rules.now.weigh.now result demo.now (K.written out.old) (K.written out.new) }
    ensures cause { FaultCause result (K.faults out.old) (K.faults out.new) }
{
    match demo_run(alloc, demo, rules) {
        Ok(sink) => put_summary(alloc, demo, &sink, out),
        Err(NoMemory) => Some(Failure::Memory),
    }
}

/// Prints the summary of the text that a sink received.
fn put_summary<K: Sink>(
    alloc: Global,
    demo: &Demonstration,
    sink: &SummarySink,
    out: &mut K,
) -> Option<Failure>
    ensures { Puts result (spec.summary_text demo.now (spec.summary_of sink.now.text)) (K.written out.old) (K.written out.new) (K.faults out.old) (K.faults out.new) }
{
    let summary = sink.summary();
    let made = summary_text(alloc, demo, &summary);
    put_made(out, made)
}

/// The sink that its run has put its text to.
fn demo_run<F: Fn(&Usage) -> Charge, U: Fn(&Standing) -> u64>(
    alloc: Global,
    demo: &Demonstration,
    rules: &Rules<'_, F, U>,
) -> Result<SummarySink, NoMemory>
    requires tariff { IsTariff F.Fn rules.now.tariff.now }
    requires rule { IsWeighRule U.Fn rules.now.weigh.now }
    ensures { IfOk result (λ sink. IsDemoText F.Fn rules.now.tariff.now U.Fn rules.now.weigh.now demo.now sink.text) }
{
    let script = demo_script(alloc, demo)?;
    let disc = zero_disc(alloc)?;
    let tapes = one_reel(alloc)?;
    let mut sink = SummarySink::new();
    let ScriptEnd { failure, .. } = run_script(alloc, script, (disc, tapes), rules, &mut sink);
    match failure {
        None => Ok(sink),
        Some(_) => Err(NoMemory),
    }
}

/// Its script. The text that it is read from is gone before the run begins.
fn demo_script(alloc: Global, demo: &Demonstration) -> Result<Script, NoMemory>
    ensures parsed { IfOk result (λ script. IsParsed (lines_of (script_text demo.now.number demo.now.rounds)) script.lines script.bad) }
    ensures few { IfOk result (λ script. length script.lines + 1 < 18446744073709551616) }
{
    let text = script_of(alloc, demo)?;
    parse_script(alloc, text.as_slice())
}

/// A disc of zeros, in a box.
fn zero_disc(alloc: Global) -> Result<BoxedDisc<MemoryDisc>, NoMemory>
    ensures { IfOk result (λ b. b.disc.value ≡ blank 4096) }
{
    let disc = MemoryDisc::new(alloc, 4_096)?;
    match Box::new(alloc, disc) {
        Ok(disc) => Ok(BoxedDisc { disc }),
        Err(_) => Err(NoMemory),
    }
}

/// A rack of one empty reel, in a box.
fn one_reel(alloc: Global) -> Result<BoxedTapes<MemoryTapes>, NoMemory>
    ensures { IfOk result (λ b. IsEmptyRack ((1, 8192) ∷ []) (memory_of b.tapes.value)) }
{
    let tapes = bare_reel(alloc)?;
    match Box::new(alloc, tapes) {
        Ok(tapes) => Ok(BoxedTapes { tapes }),
        Err(_) => Err(NoMemory),
    }
}

/// The same without its box.
fn bare_reel(alloc: Global) -> Result<MemoryTapes, NoMemory>
    ensures { IfOk result (λ tapes. IsEmptyRack ((1, 8192) ∷ []) (memory_of tapes)) }
{
    let mut labels = Vec::with_capacity(alloc, 1)?;
    labels.push((1, 8_192))?;
    MemoryTapes::new(alloc, labels)
}
