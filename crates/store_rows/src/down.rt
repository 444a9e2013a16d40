//! Events of a system that is down and has only devices.
ghost use Rattle.std.specs.Prelude.{◌<◌, ◌≤◌};

use crate::blocks::{holds, put_on_reel, write};
use crate::events::{Answer, Device, Event};
use crate::rows::Outcome;
use crate::system::Devices;
use g_disc::{Disc, MemoryDisc};
use g_incr::read_dump;
use g_known::KnownReels;
use g_plain::StoreFault;
use g_store::{Refused, Store, format, restore, start};
use g_tape::{MemoryTapes, Tapes};
use std::alloc::Global;

/// A store that came up, with the answer, or the devices.
type Opened = Result<(Store<MemoryDisc, MemoryTapes>, Answer), Refused<MemoryDisc, MemoryTapes>>;

/// The filestore is created, started or restored.
pub(crate) fn comes_up(alloc: Global, devices: Devices, event: &Event) -> Opened {
    let Devices { disc, tapes } = devices;
    if disc.size() <= 2177 || disc.size() > 1_048_576 {
        let fault = StoreFault::NoFilestore;
        return Err(Refused { fault, disc, tapes });
    }
    match event {
        Event::Format => formatted(alloc, disc, tapes),
        Event::Start => started(alloc, disc, tapes),
        _ => restored(alloc, disc, tapes),
    }
}

fn formatted(alloc: Global, disc: MemoryDisc, tapes: KnownReels<MemoryTapes>) -> Opened
    requires low { 2177 < disc.disc.size }
    requires high { disc.disc.size ≤ 1_048_576 }
{
    match format(alloc, disc, tapes) {
        Ok(store) => Ok((store, Answer::Done)),
        Err(refused) => Err(refused),
    }
}

/// The answer that reports the dump adopted by a start, if there is one.
fn taken_over(number: Option<u64>) -> Answer {
    match number {
        Some(number) => Answer::Dump(number),
        None => Answer::Done,
    }
}

fn started(alloc: Global, disc: MemoryDisc, tapes: KnownReels<MemoryTapes>) -> Opened
    requires low { 2177 < disc.disc.size }
    requires high { disc.disc.size ≤ 1_048_576 }
{
    match start(alloc, disc, tapes) {
        Ok((store, taken)) => Ok((store, taken_over(taken))),
        Err(refused) => Err(refused),
    }
}

fn restored(alloc: Global, disc: MemoryDisc, tapes: KnownReels<MemoryTapes>) -> Opened
    requires low { 2177 < disc.disc.size }
    requires high { disc.disc.size ≤ 1_048_576 }
{
    match restore(alloc, disc, tapes) {
        Ok((store, number)) => Ok((store, Answer::Dump(number))),
        Err(refused) => Err(refused),
    }
}

/// Arms or reads a device without a store.
pub(crate) fn turned(alloc: Global, devices: &mut Devices, event: &Event) -> Outcome {
    match event {
        Event::Device(device, number) => match device {
            Device::StopDisc => stop_disc(&mut devices.disc, *number),
            Device::Unread => unread(alloc, &mut devices.disc, *number),
            Device::Mount => mounted(&mut devices.tapes, *number),
            Device::Unmount => unmounted(&mut devices.tapes, *number),
            Device::Length => length(&devices.tapes, *number),
            _ => Err(StoreFault::NotStarted),
        },
        Event::Noted(place, i) => noted(alloc, &mut devices.tapes, *place, *i),
        Event::Write(k, fields) => write(&mut devices.disc, *k, fields),
        Event::Holds(k, fields) => holds(&mut devices.disc, *k, fields),
        Event::Reel(serial, fields) => put_on_reel(&mut devices.tapes, *serial, fields),
        _ => Err(StoreFault::NotStarted),
    }
}

fn stop_disc(disc: &mut MemoryDisc, k: u32) -> Outcome {
    if k < 1 {
        return Err(StoreFault::Running);
    }
    disc.arm(k);
    Ok(Answer::Done)
}

fn unread(alloc: Global, disc: &mut MemoryDisc, call: u32) -> Outcome {
    disc.fail_reads([u64::from(call)].to_vec(alloc)?);
    Ok(Answer::Done)
}

fn mounted(tapes: &mut KnownReels<MemoryTapes>, serial: u32) -> Outcome {
    match tapes.mount(serial) {
        Ok(()) => Ok(Answer::Done),
        Err(_) => Err(StoreFault::NoTape),
    }
}

fn unmounted(tapes: &mut KnownReels<MemoryTapes>, serial: u32) -> Outcome {
    match tapes.unmount(serial) {
        Ok(()) => Ok(Answer::Done),
        Err(_) => Err(StoreFault::NotMounted),
    }
}

fn length(tapes: &KnownReels<MemoryTapes>, serial: u32) -> Outcome {
    match tapes.length(serial) {
        Ok(len) => Ok(Answer::Blocks(len)),
        Err(_) => Err(StoreFault::NoTape),
    }
}

/// The first block of a file's copy, as a dump of reel 1 notes it.
fn noted(alloc: Global, tapes: &mut KnownReels<MemoryTapes>, place: u32, i: usize) -> Outcome {
    let dir = match read_dump(alloc, tapes, 1, place) {
        Ok(Some(dir)) => dir,
        Ok(None) => return Err(StoreFault::NoDump),
        Err(_) => return Err(StoreFault::TapeReadFault),
    };
    let Some(file) = dir.files.get(i) else {
        return Err(StoreFault::NoFile);
    };
    match file.tape {
        Some(copy) => Ok(Answer::Blocks(copy.first)),
        None => Err(StoreFault::NotDumped),
    }
}
