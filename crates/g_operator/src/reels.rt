//! Reels are mounted and unmounted, whether the system is up or down.
ghost use Rattle.std.specs.Prelude.{◌≡◌};
ghost use Rattle.g_day.specs.BeginningAnew.{IsBlank, WentAside, beside_new};
ghost use Rattle.g_day.specs.Parts.{DidLine, IsReady};
ghost use Rattle.g_operator.specs.Reels.{MountsOn, UnmountsOn};
ghost use Rattle.g_day.specs.System.{IsRunning, facts_of};
ghost use Rattle.g_script.specs.declared.operator.Operator.TheVariants as line;

use g_day::{Day, Ended, System, refuse, say_made};
use g_disc::Disc;
use g_io::Sink;
use g_job_table::tape_text;
use g_plain::StoreFault;
use g_store::rack_answer;
use g_tape::Tapes;
use std::alloc::Global;

/// MOUNT: the reel is mounted. `NoTape`: it isn't in the rack.
pub(crate) fn mount_line<K: Sink, D: Disc, T: Tapes>(
    alloc: Global,
    day: Day<D, T>,
    serial: u32,
    out: &mut K,
) -> Ended<D, T>
    requires ready { IsReady day.system day.crew }
    ensures line { DidLine (line.Mount serial) day result.failure result.day (K.written out.old) (K.written out.new) (K.faults out.old) (K.faults out.new) }
    ensures anew { WentAside (line.Mount serial) day result.failure result.day (K.written out.old) (K.written out.new) (K.faults out.old) (K.faults out.new) }
{
    let mut day = day;
    match mount(&mut day.system, serial) {
        Ok(()) => {
            let made = tape_text(alloc, serial, b"MOUNTED");
            let failure = say_made(alloc, day.count, made, out);
            Ended { day, failure }
        }
        Err(fault) => {
            let failure = refuse(alloc, day.count, &fault, out);
            Ended { day, failure }
        }
    }
}

/// UNMOUNT: the reel is unmounted. `NoTape`, `NotMounted`, `TapeBusy`: the open dump is on it.
pub(crate) fn unmount_line<K: Sink, D: Disc, T: Tapes>(
    alloc: Global,
    day: Day<D, T>,
    serial: u32,
    out: &mut K,
) -> Ended<D, T>
    requires ready { IsReady day.system day.crew }
    ensures line { DidLine (line.Unmount serial) day result.failure result.day (K.written out.old) (K.written out.new) (K.faults out.old) (K.faults out.new) }
    ensures anew { WentAside (line.Unmount serial) day result.failure result.day (K.written out.old) (K.written out.new) (K.faults out.old) (K.faults out.new) }
{
    let mut day = day;
    match unmount(&mut day.system, serial) {
        Ok(()) => {
            let made = tape_text(alloc, serial, b"UNMOUNTED");
            let failure = say_made(alloc, day.count, made, out);
            Ended { day, failure }
        }
        Err(fault) => {
            let failure = refuse(alloc, day.count, &fault, out);
            Ended { day, failure }
        }
    }
}

/// Mounts the reel of the system's rack.
fn mount<D: Disc, T: Tapes>(system: &mut System<D, T>, serial: u32) -> Result<(), StoreFault>
    requires running { IsRunning (facts_of D.state T.rack system.old) }
    ensures steps { MountsOn serial (facts_of D.state T.rack system.old) result (facts_of D.state T.rack system.new) }
    ensures aside { MountsOn serial (beside_new (facts_of D.state T.rack system.old)) result (beside_new (facts_of D.state T.rack system.new)) }
    ensures blank { IsBlank (facts_of D.state T.rack system.old) → IsBlank (facts_of D.state T.rack system.new) }
{
    match system {
        System::Up(store) => store.mount(serial),
        System::Down(_, tapes) => rack_answer(tapes.mount(serial)),
    }
}

/// Unmounts it.
fn unmount<D: Disc, T: Tapes>(system: &mut System<D, T>, serial: u32) -> Result<(), StoreFault>
    requires running { IsRunning (facts_of D.state T.rack system.old) }
    ensures steps { UnmountsOn serial (facts_of D.state T.rack system.old) result (facts_of D.state T.rack system.new) }
    ensures aside { UnmountsOn serial (beside_new (facts_of D.state T.rack system.old)) result (beside_new (facts_of D.state T.rack system.new)) }
    ensures blank { IsBlank (facts_of D.state T.rack system.old) → IsBlank (facts_of D.state T.rack system.new) }
{
    match system {
        System::Up(store) => store.unmount(serial),
        System::Down(_, tapes) => rack_answer(tapes.unmount(serial)),
    }
}
