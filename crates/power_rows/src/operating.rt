//! What an operator does to a store.
use crate::lines::{Outcome, Said, Words};
use crate::system::Devices;
use g_disc::Disc;
use g_dumper::DumpStep;
use g_name::parse_path;
use g_plain::StoreFault;
use g_power::{CutDisc, CutTapes};
use g_store::{Refused, Store, format, restore, start};
use std::alloc::Global;

/// A store that came up, or the devices.
type Opened = Result<(Store<CutDisc, CutTapes>, Said), Refused<CutDisc, CutTapes>>;

/// The filestore is created, started or restored.
pub(crate) fn bring_up(alloc: Global, devices: Devices, verb: &str) -> Opened {
    let Devices { disc, tapes } = devices;
    if disc.size() <= 2177 || disc.size() > 1_048_576 {
        let fault = StoreFault::NoFilestore;
        return Err(Refused { fault, disc, tapes });
    }
    if verb == "format" {
        let store = format(alloc, disc, tapes)?;
        Ok((store, Said::Done))
    } else if verb == "start" {
        let (store, adopted) = start(alloc, disc, tapes)?;
        Ok((store, said_of(adopted)))
    } else {
        let (store, number) = restore(alloc, disc, tapes)?;
        Ok((store, Said::Completed(number)))
    }
}

/// What is said of a dump that was completed.
fn said_of(number: Option<u64>) -> Said {
    match number {
        Some(number) => Said::Completed(number),
        None => Said::Done,
    }
}

/// The outcome of an event that is no call.
pub(crate) fn operate(
    alloc: Global,
    store: &mut Store<CutDisc, CutTapes>,
    words: &Words,
) -> Outcome {
    if words.verb == "step" {
        step(store)
    } else if words.verb == "finish" {
        finish(store)
    } else if words.verb == "migrate" {
        migrate(alloc, store, words.first)
    } else {
        match words.first.parse() {
            Ok(serial) => operate_reel(alloc, store, words.verb, serial),
            Err(_) => Err(StoreFault::NoTape),
        }
    }
}

/// An event of a reel.
fn operate_reel(
    alloc: Global,
    store: &mut Store<CutDisc, CutTapes>,
    verb: &str,
    serial: u32,
) -> Outcome {
    if store.spent() {
        return Err(StoreFault::NotStarted);
    }
    if verb == "mount" {
        store.mount(serial)?;
        Ok(Said::Done)
    } else if verb == "unmount" {
        store.unmount(serial)?;
        Ok(Said::Done)
    } else if verb == "open" {
        Ok(Said::Opened(store.open_dump(alloc, serial)?))
    } else if verb == "process" {
        Ok(Said::Completed(store.process(alloc, serial)?))
    } else {
        Err(StoreFault::Running)
    }
}

/// A file is taken off the disc.
pub(crate) fn migrate(alloc: Global, store: &mut Store<CutDisc, CutTapes>, path: &str) -> Outcome {
    if store.spent() {
        return Err(StoreFault::NotStarted);
    }
    let Ok(path) = parse_path(path.as_bytes()) else {
        return Err(StoreFault::NoFile);
    };
    let _full = store.migrate(alloc, &path)?;
    Ok(Said::Done)
}

/// A step of the open dump, `NoDump` if none is open.
fn step(store: &mut Store<CutDisc, CutTapes>) -> Outcome {
    if store.spent() {
        return Err(StoreFault::NotStarted);
    }
    if store.dump_number().is_none() {
        return Err(StoreFault::NoDump);
    }
    match store.dump_step()? {
        DumpStep::Going => Ok(Said::Done),
        DumpStep::Completed(number) => Ok(Said::Completed(number)),
    }
}

/// Steps of the open dump until it is completed, which takes fewer than a thousand.
fn finish(store: &mut Store<CutDisc, CutTapes>) -> Outcome {
    for _ in 0..1000 {
        if let Said::Completed(number) = step(store)? {
            return Ok(Said::Completed(number));
        }
    }
    Err(StoreFault::Running)
}
