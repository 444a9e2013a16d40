//! A put that takes two files off the disc, stopped at each of its writes.
use crate::events::{Answer, Ask, Device, Event, OnFile};
use crate::rows::{Wrong, play};
use crate::setting::Setting;
use crate::system::System;
use g_plain::StoreFault;

/// What failed writes leave. Of a torn gate an even byte names the new slot, an odd one the old.
const LEAVES: [&str; 5] = ["old", "half", "whole", "4", "7"];

/// The put has two commits, and between them the bytes of E.
pub(crate) fn run(rt: &HostRuntime, before: &str) -> Result<(), Wrong> {
    for leave in LEAVES {
        let stops = stops_of(rt, before, leave)?;
        if 6 <= stops && stops < 39 {
            println!(rt; "put_that_makes_room leaving {leave} as it should be")?;
        } else {
            println!(rt; "put_that_makes_room leaving {leave} differs: {stops} writes")?;
        }
    }
    Ok(())
}

/// The number of writes at which the put can be stopped, or 39 if there are more.
fn stops_of(rt: &HostRuntime, before: &str, leave: &str) -> Result<u32, Wrong> {
    let mut stops = 0;
    for k in 1..40 {
        if !is_stopped(rt, before, leave, k)? {
            break;
        }
        stops = k;
    }
    Ok(stops)
}

/// A disc with four blocks for files: A and B, which are dumped, must be taken off for E. The put of E is stopped at this
/// write, if it has that many. Then D is there as before. Either E is complete, so A can't be brought back, or E doesn't
/// exist, and A can.
fn is_stopped(rt: &HostRuntime, before: &str, leave: &str, k: u32) -> Result<bool, Wrong> {
    let head = format!(in rt.alloc(); "E disc=2181 capacity=20 leave={leave}")?;
    let mut system = Setting::parse(head.as_str())?.system(rt.alloc())?;
    is_stopped_on(rt, &mut system, before, k)
}

fn is_stopped_on(
    rt: &HostRuntime,
    system: &mut System,
    before: &str,
    k: u32,
) -> Result<bool, Wrong> {
    play(rt, system, before)?;
    let stop = Event::Device(Device::StopDisc, k);
    let put = Event::Ask("MASTER", Ask::OnFile("E", OnFile::Put(b'E', 600)));
    if !stops(rt, system, &stop, &put)? {
        return Ok(false);
    }
    is_whole(rt, system)?;
    Ok(true)
}

/// Whether an event is stopped if a write of a device fails.
pub(crate) fn stops(
    rt: &HostRuntime,
    system: &mut System,
    stop: &Event,
    event: &Event,
) -> Result<bool, Wrong> {
    if !matches!(system.happens(rt.alloc(), stop), Ok(Answer::Done)) {
        return Err(Wrong("the device takes no stop"));
    }
    match system.happens(rt.alloc(), event) {
        Ok(_) => Ok(false),
        Err(StoreFault::Stopped) => Ok(true),
        Err(_) => Err(Wrong("an event that isn't stopped")),
    }
}

/// D is there, and E or A.
fn is_whole(rt: &HostRuntime, system: &mut System) -> Result<(), Wrong> {
    play(
        rt,
        system,
        "start\nask MASTER fetch D = Ok(Bytes(513, 'D'))",
    )?;
    let first = match system.happens(
        rt.alloc(),
        &Event::Ask("MASTER", Ask::OnFile("E", OnFile::Fetch)),
    ) {
        Ok(Answer::Bytes(600, 'E')) => "ask MASTER fetch A = Err(DiscFull { need: 1, room: 0 })",
        Err(StoreFault::NoFile) => "ask MASTER fetch A = Ok(Bytes(1, 'A'))",
        _ => return Err(Wrong("another E")),
    };
    play(rt, system, first)
}
