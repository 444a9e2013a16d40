//! What an operator does to a store that is up.
ghost use Rattle.std.specs.Prelude.{◌≡◌, false};

use crate::events::{Answer, Device, Event, Facts};
use crate::rows::Outcome;
use g_disc::MemoryDisc;
use g_dumper::DumpStep;
use g_name::{User, parse_path};
use g_plain::StoreFault;
use g_store::Store;
use g_tape::MemoryTapes;
use std::alloc::Global;

/// The outcome of an event that is no call. `Running`: it isn't an event of a system that is up.
pub(crate) fn operated(
    alloc: Global,
    store: &mut Store<MemoryDisc, MemoryTapes>,
    event: &Event,
) -> Outcome
    requires running { store.old.spent ≡ false }
{
    match event {
        Event::Device(device, number) => match device {
            Device::Mount => done(store.mount(*number)),
            Device::Unmount => done(store.unmount(*number)),
            Device::Open => numbered(store.open_dump(alloc, *number)),
            Device::Process => numbered(store.process(alloc, *number)),
            Device::StopDisc => stop_disc(store, *number),
            Device::StopTape => stop_tape(store, *number),
            _ => Err(StoreFault::Running),
        },
        Event::Step => stepped(store),
        Event::Finish => finished(store),
        Event::Migrate(path) => migrated(alloc, store, path),
        Event::Told => Ok(Answer::Facts(told(store))),
        _ => Err(StoreFault::Running),
    }
}

/// What the store reports about itself.
fn told(store: &Store<MemoryDisc, MemoryTapes>) -> Facts
    requires running { store.now.spent ≡ false }
{
    Facts {
        users: store.users().len(),
        time: store.user_time(&User::master()),
        money: store.user_money(&User::macros()),
        dump: store.dump_number(),
        mounted: store.mounted(2),
    }
}

fn stop_disc(store: &mut Store<MemoryDisc, MemoryTapes>, k: u32) -> Outcome {
    if k < 1 {
        return Err(StoreFault::Running);
    }
    store.arm_disc(k);
    Ok(Answer::Done)
}

fn stop_tape(store: &mut Store<MemoryDisc, MemoryTapes>, k: u32) -> Outcome {
    if k < 1 {
        return Err(StoreFault::Running);
    }
    store.arm_tape(k);
    Ok(Answer::Done)
}

fn done(answer: Result<(), StoreFault>) -> Outcome {
    match answer {
        Ok(()) => Ok(Answer::Done),
        Err(fault) => Err(fault),
    }
}

/// The number of a dump.
fn numbered(answer: Result<u64, StoreFault>) -> Outcome {
    match answer {
        Ok(number) => Ok(Answer::Dump(number)),
        Err(fault) => Err(fault),
    }
}

fn migrated(alloc: Global, store: &mut Store<MemoryDisc, MemoryTapes>, path: &str) -> Outcome
    requires running { store.old.spent ≡ false }
{
    let Ok(path) = parse_path(path.as_bytes()) else {
        return Err(StoreFault::NoFile);
    };
    match store.migrate(alloc, &path) {
        Ok(_full) => Ok(Answer::Done),
        Err(fault) => Err(fault),
    }
}

/// A step of the open dump, `NoDump` if none is open.
fn stepped(store: &mut Store<MemoryDisc, MemoryTapes>) -> Outcome {
    if store.spent() {
        return Err(StoreFault::NotStarted);
    }
    if store.dump_number().is_none() {
        return Err(StoreFault::NoDump);
    }
    match store.dump_step() {
        Ok(DumpStep::Going) => Ok(Answer::Done),
        Ok(DumpStep::Completed(number)) => Ok(Answer::Dump(number)),
        Err(fault) => Err(fault),
    }
}

/// Steps of the open dump until it is completed, which takes fewer than a thousand.
fn finished(store: &mut Store<MemoryDisc, MemoryTapes>) -> Outcome {
    for count in 1..1000u32 {
        match stepped(store) {
            Ok(Answer::Dump(number)) => return Ok(Answer::Completed(number, count)),
            Ok(_) => {}
            Err(fault) => return Err(fault),
        }
    }
    Err(StoreFault::Running)
}
