//! Two racks opened as one, unless their histories differ.

use crate::answer::{RACK, SECOND_RACK};
use crate::unusable::Unusable;
use g_base::NoMemory;
use g_devices::{HostTapes, look_at_rack, open_duplex};
use g_duplex::{Duplex, Twin};
use g_forks::{Fork, Held, dumps_in, find_fork, mount_all};

/// Opens the two racks as one, as `open_duplex` does. They are refused, before anything is rebuilt, if they have given one number to two
/// completed dumps: then each holds a history of its own, and rebuilding would lose one of them (docs/MANUAL.md, "A second rack").
pub(crate) fn open_racks(
    rt: &HostRuntime,
) -> Result<(Duplex<HostTapes>, Vec<(u32, Twin)>), Unusable> {
    match fork_of(rt)? {
        Some(fork) => Err(Unusable::Forked(fork)),
        None => Ok(open_duplex(rt, RACK, SECOND_RACK)?),
    }
}

/// A number that the two racks have given to two completed dumps. There is none if a rack can't be looked at; then it can't be opened either.
fn fork_of(rt: &HostRuntime) -> Result<Option<Fork>, NoMemory> {
    let Some(first) = dumps_of(rt, RACK)? else {
        return Ok(None);
    };
    let Some(second) = dumps_of(rt, SECOND_RACK)? else {
        return Ok(None);
    };
    find_fork(rt.alloc(), &first, &second)
}

/// The completed dumps of the rack in a folder, without those of reels that can't be read, if it can be looked at.
fn dumps_of(rt: &HostRuntime, folder: &str) -> Result<Option<Vec<Held>>, NoMemory> {
    let Ok(mut tapes) = look_at_rack(rt, folder) else {
        return Ok(None);
    };
    if !mount_all(&mut tapes) {
        return Ok(None);
    }
    Ok(Some(dumps_in(rt.alloc(), &mut tapes)?))
}
