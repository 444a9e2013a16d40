//! A PROCESS that releases two reels, stopped at each of its writes.
use crate::events::{Answer, Device, Event};
use crate::rows::{Wrong, play};
use crate::setting::Setting;
use crate::stops::stops;
use crate::system::System;
use g_plain::StoreFault;

/// What a failed write of the disc leaves. Of a torn gate an even byte names the new slot, an odd one the old.
const DISC: [&str; 5] = [
    "leave=old",
    "leave=half",
    "leave=whole",
    "leave=4",
    "leave=7",
];

/// The same for the tapes.
const TAPES: [&str; 4] = [
    "tape_leave=old",
    "tape_leave=cut",
    "tape_leave=half",
    "tape_leave=whole",
];

/// All files but E, which no earlier dump has.
static DUMPED: &str = "ask MASTER fetch A = Ok(Bytes(1, 'A'))
ask MASTER fetch B = Ok(Bytes(513, 'B'))
ask MASTER fetch C = Ok(Bytes(600, 'C'))
ask MASTER fetch D = Ok(Bytes(0, '\\0'))";

static WITH_E: &str =
    "ask MASTER fetch E = Ok(Bytes(512, 'E'))\nask MASTER list MASTER = Ok(Files(5))";

static WITHOUT_E: &str = "ask MASTER fetch E = Err(NoFile)\nask MASTER list MASTER = Ok(Files(4))";

/// The tapes are written 15 times for the blocks of the reel's new dump, and once for each of the two released reels; the
/// disc in two commits.
pub(crate) fn run(rt: &HostRuntime, before: &str) -> Result<(), Wrong> {
    for leave in DISC {
        let stops = stops_of(rt, before, Device::StopDisc, leave)?;
        tell(rt, leave, stops, 6 <= stops && stops < 39)?;
    }
    for leave in TAPES {
        let stops = stops_of(rt, before, Device::StopTape, leave)?;
        tell(rt, leave, stops, stops == 17)?;
    }
    Ok(())
}

fn tell(rt: &HostRuntime, leave: &str, stops: u32, fits: bool) -> Result<(), Wrong> {
    if fits {
        println!(rt; "process {leave} as it should be")?;
    } else {
        println!(rt; "process {leave} differs: {stops} writes")?;
    }
    Ok(())
}

/// The number of writes of this device at which the PROCESS can be stopped, or 39 if there are more.
fn stops_of(rt: &HostRuntime, before: &str, device: Device, leave: &str) -> Result<u32, Wrong> {
    let mut count = 0;
    for k in 1..40 {
        if !is_stopped(rt, before, device, leave, k)? {
            break;
        }
        count = k;
    }
    Ok(count)
}

/// Whether the PROCESS is stopped at this write of the device, which fails if it has fewer. One such stop is followed by a
/// start, another by a restore.
fn is_stopped(
    rt: &HostRuntime,
    before: &str,
    device: Device,
    leave: &str,
    k: u32,
) -> Result<bool, Wrong> {
    let head = format!(in rt.alloc(); "P reels=3 {leave}")?;
    let setting = Setting::parse(head.as_str())?;
    if !is_stopped_once(rt, &setting, before, &Event::Device(device, k), false)? {
        return Ok(false);
    }
    is_stopped_once(rt, &setting, before, &Event::Device(device, k), true)
}

/// The same with one of the two.
fn is_stopped_once(
    rt: &HostRuntime,
    setting: &Setting,
    before: &str,
    stop: &Event,
    is_restored: bool,
) -> Result<bool, Wrong> {
    let mut system = setting.system(rt.alloc())?;
    is_stopped_on(rt, &mut system, before, stop, is_restored)
}

fn is_stopped_on(
    rt: &HostRuntime,
    system: &mut System,
    before: &str,
    stop: &Event,
    is_restored: bool,
) -> Result<bool, Wrong> {
    play(rt, system, before)?;
    if !stops(rt, system, stop, &Event::Device(Device::Process, 3))? {
        return Ok(false);
    }
    if is_restored {
        restores(rt, system)?;
    } else {
        goes_on(rt, system)?;
    }
    Ok(true)
}

/// A start has all files, and adopts the dump if it is complete and wasn't adopted. If it isn't complete, the PROCESS is
/// repeated and reads from the old reels. Afterwards the old reels are no longer needed.
fn goes_on(rt: &HostRuntime, system: &mut System) -> Result<(), Wrong> {
    match system.happens(rt.alloc(), &Event::Start) {
        Ok(Answer::Done | Answer::Dump(3)) => {}
        _ => return Err(Wrong("no start")),
    }
    play(rt, system, WITH_E)?;
    match system.happens(rt.alloc(), &Event::Device(Device::Process, 3)) {
        Ok(Answer::Dump(3)) | Err(StoreFault::ReelNotFree(3)) => {}
        _ => return Err(Wrong("no process behind a start")),
    }
    play(rt, system, "unmount 1\nunmount 2")?;
    play(rt, system, DUMPED)?;
    play(rt, system, WITH_E)
}

/// A restore has the tree of the previous dump, or of the new one.
fn restores(rt: &HostRuntime, system: &mut System) -> Result<(), Wrong> {
    let last = match system.happens(rt.alloc(), &Event::Restore) {
        Ok(Answer::Dump(2)) => WITHOUT_E,
        Ok(Answer::Dump(3)) => WITH_E,
        _ => return Err(Wrong("no restore")),
    };
    play(rt, system, DUMPED)?;
    play(rt, system, last)
}
