//! What is printed for a refusal and for a stop, and how the system goes down.
ghost use Rattle.std.specs.Prelude.{◌≡◌, IfOk};
ghost use Rattle.g_day.specs.Parts.{seen};
ghost use Rattle.g_day.specs.Puts.{Puts};
ghost use Rattle.g_day.specs.System.{facts_of};
ghost use Rattle.g_plain.specs.declared.faults.StoreFault.TheVariants.{Stopped};
ghost use Rattle.g_day.specs.Telling.{TellsFault, down_text, system_behind, without_jobs};

use crate::day::Day;
use crate::progress::{Ended, Failure};
use crate::puts::{line, put_made, refuse};
use crate::system::{System, take_down};
use g_base::NoMemory;
use g_disc::Disc;
use g_io::Sink;
use g_job_table::Crew;
use g_name::Text;
use g_plain::StoreFault;
use g_tape::Tapes;
use std::alloc::Global;

/// Reports that the system is down, and writes the file of each job with `BREAK`; jobs and accounts are gone.
pub fn goes_down<K: Sink>(
    alloc: Global,
    crew: &mut Crew,
    count: u64,
    what: &[u8],
    out: &mut K,
) -> Option<Failure>
    ensures put { Puts result (down_text count what.now crew.old) (K.written out.old) (K.written out.new) (K.faults out.old) (K.faults out.new) }
    ensures gone { crew.new ≡ without_jobs crew.old }
{
    let made = down(alloc, crew, count, what);
    crew.go_down();
    put_made(out, made)
}

/// The line, and the files of the jobs.
fn down(alloc: Global, crew: &Crew, count: u64, what: &[u8]) -> Result<Text, NoMemory>
    ensures { IfOk result (λ text. text ≡ down_text count what.now crew.now) }
{
    let mut text = line(alloc, count, what)?;
    crew.push_broken_files(&mut text)?;
    Ok(text)
}

/// Reports a fault. If memory ran out nothing is printed. For a stop the system is reported down, with the file of each
/// job, and jobs and accounts are gone. Any other fault is printed as a refusal.
pub fn tell_fault<K: Sink>(
    alloc: Global,
    crew: &mut Crew,
    count: u64,
    fault: &StoreFault,
    out: &mut K,
) -> Option<Failure>
    ensures { TellsFault fault.now count crew.old result crew.new (K.written out.old) (K.written out.new) (K.faults out.old) (K.faults out.new) }
{
    match fault {
        StoreFault::NoMemory => Some(Failure::Memory),
        StoreFault::Stopped => goes_down(alloc, crew, count, b"SYSTEM STOPPED", out),
        _ => refuse(alloc, count, fault, out),
    }
}

/// Reports the fault with which the system has answered. The system is unchanged, or taken down if its store was stopped.
pub fn refuse_or_go_down<K: Sink, D: Disc, T: Tapes>(
    alloc: Global,
    day: Day<D, T>,
    fault: StoreFault,
    out: &mut K,
) -> Ended<D, T>
    ensures day { result.day ≡ seen (system_behind fault day.system) result.day.crew day.count }
    ensures told { TellsFault fault day.count day.crew result.failure result.day.crew (K.written out.old) (K.written out.new) (K.faults out.old) (K.faults out.new) }
{
    let Day {
        system,
        mut crew,
        count,
    } = day;
    let failure = tell_fault(alloc, &mut crew, count, &fault, out);
    let day = Day {
        system: system_after_fault(system, &fault),
        crew,
        count,
    };
    Ended { day, failure }
}

/// The system after a fault.
fn system_after_fault<D: Disc, T: Tapes>(system: System<D, T>, fault: &StoreFault) -> System<D, T>
    ensures { facts_of D.state T.rack result ≡ system_behind fault.now (facts_of D.state T.rack system) }
{
    match fault {
        StoreFault::Stopped => stopped(system),
        _ => system,
    }
}

/// The system after its store was stopped.
fn stopped<D: Disc, T: Tapes>(system: System<D, T>) -> System<D, T>
    ensures { facts_of D.state T.rack result ≡ system_behind Stopped (facts_of D.state T.rack system) }
{
    match system {
        System::Up(store) => {
            let (disc, tapes) = take_down(store);
            System::Down(disc, tapes)
        }
        System::Down(disc, tapes) => System::Down(disc, tapes),
    }
}
