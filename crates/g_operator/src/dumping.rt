//! What the operator requests from a store: a dump is opened, all versions are consolidated on one reel, a file is taken
//! off the disc. A system that is down refuses it.
ghost use Rattle.std.specs.Prelude.{◌≡◌, ◌++◌, IfOk, codes};
ghost use Rattle.g_operator.specs.Asking.{AsksOf, Opened, Processed};
ghost use Rattle.g_day.specs.Parts.{DidLine, IsReady};
ghost use Rattle.g_day.specs.System.{IsRunning, facts_of};
ghost use Rattle.g_monitor.specs.Parts.{full_text};
ghost use Rattle.g_script.specs.declared.operator.Operator.TheVariants as line;
ghost use Rattle.g_store.specs.Events.{Migrates};
ghost use Rattle.g_run_model.specs.Texts.{processed_text};

use g_base::NoMemory;
use g_day::{Day, Ended, System, refuse_or_go_down, told};
use g_disc::Disc;
use g_io::Sink;
use g_job_table::dump_text;
use g_monitor::{push_full, push_number};
use g_name::{Full, Path, Text};
use g_plain::StoreFault;
use g_tape::Tapes;
use std::alloc::Global;

/// DUMP: a dump is opened on the reel. `NotStarted`: the system is down; otherwise the refusals of an opening
/// (docs/MANUAL.md).
pub(crate) fn dump_line<K: Sink, D: Disc, T: Tapes>(
    alloc: Global,
    day: Day<D, T>,
    serial: u32,
    out: &mut K,
) -> Ended<D, T>
    requires ready { IsReady day.system day.crew }
    ensures { DidLine (line.Dump serial) day result.failure result.day (K.written out.old) (K.written out.new) (K.faults out.old) (K.faults out.new) }
{
    let mut day = day;
    match opens(alloc, &mut day.system, serial) {
        Ok(number) => {
            let made = dump_text(alloc, number, b"OPENED");
            told(alloc, day, made, out)
        }
        Err(fault) => refuse_or_go_down(alloc, day, fault, out),
    }
}

/// A dump is opened on a store that is up.
fn opens<D: Disc, T: Tapes>(
    alloc: Global,
    system: &mut System<D, T>,
    serial: u32,
) -> Result<u64, StoreFault>
    requires running { IsRunning (facts_of D.state T.rack system.old) }
    ensures { AsksOf (λ s answer t. Opened serial s answer t) (facts_of D.state T.rack system.old) result (facts_of D.state T.rack system.new) }
{
    match system {
        System::Up(store) => store.open_dump(alloc, serial),
        System::Down(_, _) => Err(StoreFault::NotStarted),
    }
}

/// PROCESS: every version is written to the reel as one dump, and the other reels are released. `NotStarted`; otherwise the
/// refusals of a store (docs/MANUAL.md).
pub(crate) fn process_line<K: Sink, D: Disc, T: Tapes>(
    alloc: Global,
    day: Day<D, T>,
    serial: u32,
    out: &mut K,
) -> Ended<D, T>
    requires ready { IsReady day.system day.crew }
    ensures { DidLine (line.Process serial) day result.failure result.day (K.written out.old) (K.written out.new) (K.faults out.old) (K.faults out.new) }
{
    let mut day = day;
    match processes(alloc, &mut day.system, serial) {
        Ok(number) => {
            let made = processed(alloc, serial, number);
            told(alloc, day, made, out)
        }
        Err(fault) => refuse_or_go_down(alloc, day, fault, out),
    }
}

/// All versions of a store that is up are consolidated on the reel.
fn processes<D: Disc, T: Tapes>(
    alloc: Global,
    system: &mut System<D, T>,
    serial: u32,
) -> Result<u64, StoreFault>
    requires running { IsRunning (facts_of D.state T.rack system.old) }
    ensures { AsksOf (λ s answer t. Processed serial s answer t) (facts_of D.state T.rack system.old) result (facts_of D.state T.rack system.new) }
{
    match system {
        System::Up(store) => store.process(alloc, serial),
        System::Down(_, _) => Err(StoreFault::NotStarted),
    }
}

/// The text that reports it.
fn processed(alloc: Global, serial: u32, number: u64) -> Result<Text, NoMemory>
    ensures { IfOk result (λ text. text ≡ processed_text serial number) }
{
    let mut text = Text::new(alloc);
    push_number(&mut text, b"PROCESSED DUMP ", number)?;
    push_number(&mut text, b" ON ", u64::from(serial))?;
    Ok(text)
}

/// MIGRATE: the file that the path names is taken off the disc. `NotStarted`; otherwise the refusals of a migration.
pub(crate) fn migrate_line<K: Sink, D: Disc, T: Tapes>(
    alloc: Global,
    day: Day<D, T>,
    path: &Path,
    out: &mut K,
) -> Ended<D, T>
    requires ready { IsReady day.system day.crew }
    ensures { DidLine (line.Migrate path.now) day result.failure result.day (K.written out.old) (K.written out.new) (K.faults out.old) (K.faults out.new) }
{
    let mut day = day;
    match migrates(alloc, &mut day.system, path) {
        Ok(full) => {
            let made = migrated(alloc, &full);
            told(alloc, day, made, out)
        }
        Err(fault) => refuse_or_go_down(alloc, day, fault, out),
    }
}

/// The file is taken off the disc of a store that is up.
fn migrates<D: Disc, T: Tapes>(
    alloc: Global,
    system: &mut System<D, T>,
    path: &Path,
) -> Result<Full, StoreFault>
    requires running { IsRunning (facts_of D.state T.rack system.old) }
    ensures { AsksOf (λ s answer t. Migrates path.now s answer t) (facts_of D.state T.rack system.old) result (facts_of D.state T.rack system.new) }
{
    match system {
        System::Up(store) => store.migrate(alloc, path),
        System::Down(_, _) => Err(StoreFault::NotStarted),
    }
}

/// The text that reports a migration.
fn migrated(alloc: Global, full: &Full) -> Result<Text, NoMemory>
    ensures { IfOk result (λ text. text ≡ codes "MIGRATED " ++ full_text full.now) }
{
    let mut text = Text::from_slice(alloc, b"MIGRATED ")?;
    push_full(&mut text, full)?;
    Ok(text)
}
