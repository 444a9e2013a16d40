//! The operator arms a device, so that a write of it fails.
ghost use Rattle.std.specs.Prelude.{◌≡◌, ◌≤◌};
ghost use Rattle.g_day.specs.BeginningAnew.{IsBlank, WentAside, beside_new};
ghost use Rattle.g_operator.specs.Arming.{HasArmed, disc_armed, tape_armed};
ghost use Rattle.g_day.specs.Parts.{DidLine, IsReady};
ghost use Rattle.g_day.specs.System.{IsRunning, devices_in, facts_of};
ghost use Rattle.g_script.specs.declared.operator.Operator.TheVariants as line;

use g_day::{Day, Ended, System, say};
use g_disc::Disc;
use g_io::Sink;
use g_tape::Tapes;
use std::alloc::Global;

/// STOP DISC: the `k`-th next write of the disc will fail.
pub(crate) fn stop_disc_line<K: Sink, D: Disc, T: Tapes>(
    alloc: Global,
    day: Day<D, T>,
    k: u32,
    out: &mut K,
) -> Ended<D, T>
    requires ready { IsReady day.system day.crew }
    requires from_one { 1 ≤ k }
    ensures armed { devices_in result.day.system ≡ disc_armed k (devices_in day.system) }
    ensures line { DidLine (line.StopDisc k) day result.failure result.day (K.written out.old) (K.written out.new) (K.faults out.old) (K.faults out.new) }
    ensures anew { WentAside (line.StopDisc k) day result.failure result.day (K.written out.old) (K.written out.new) (K.faults out.old) (K.faults out.new) }
{
    let mut day = day;
    arm_disc(&mut day.system, k);
    let failure = say(alloc, day.count, b"STOP SET", out);
    Ended { day, failure }
}

/// STOP TAPE: the `k`-th next write of a reel that isn't refused will fail.
pub(crate) fn stop_tape_line<K: Sink, D: Disc, T: Tapes>(
    alloc: Global,
    day: Day<D, T>,
    k: u32,
    out: &mut K,
) -> Ended<D, T>
    requires ready { IsReady day.system day.crew }
    requires from_one { 1 ≤ k }
    ensures armed { devices_in result.day.system ≡ tape_armed k (devices_in day.system) }
    ensures line { DidLine (line.StopTape k) day result.failure result.day (K.written out.old) (K.written out.new) (K.faults out.old) (K.faults out.new) }
    ensures anew { WentAside (line.StopTape k) day result.failure result.day (K.written out.old) (K.written out.new) (K.faults out.old) (K.faults out.new) }
{
    let mut day = day;
    arm_tape(&mut day.system, k);
    let failure = say(alloc, day.count, b"STOP SET", out);
    Ended { day, failure }
}

/// Sets the fuse of the disc.
fn arm_disc<D: Disc, T: Tapes>(system: &mut System<D, T>, k: u32)
    requires running { IsRunning (facts_of D.state T.rack system.old) }
    requires from_one { 1 ≤ k }
    ensures armed { HasArmed (disc_armed k) (facts_of D.state T.rack system.old) (facts_of D.state T.rack system.new) }
    ensures aside { HasArmed (disc_armed k) (beside_new (facts_of D.state T.rack system.old)) (beside_new (facts_of D.state T.rack system.new)) }
    ensures blank { IsBlank (facts_of D.state T.rack system.old) → IsBlank (facts_of D.state T.rack system.new) }
{
    match system {
        System::Up(store) => store.arm_disc(k),
        System::Down(disc, _) => disc.arm(k),
    }
}

/// Sets the fuse of the tapes.
fn arm_tape<D: Disc, T: Tapes>(system: &mut System<D, T>, k: u32)
    requires running { IsRunning (facts_of D.state T.rack system.old) }
    requires from_one { 1 ≤ k }
    ensures armed { HasArmed (tape_armed k) (facts_of D.state T.rack system.old) (facts_of D.state T.rack system.new) }
    ensures aside { HasArmed (tape_armed k) (beside_new (facts_of D.state T.rack system.old)) (beside_new (facts_of D.state T.rack system.new)) }
    ensures blank { IsBlank (facts_of D.state T.rack system.old) → IsBlank (facts_of D.state T.rack system.new) }
{
    match system {
        System::Up(store) => store.arm_tape(k),
        System::Down(_, tapes) => tapes.arm(k),
    }
}
