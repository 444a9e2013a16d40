//! Two racks in two folders as one: a reel that is missing or differs in one of them is rebuilt from the other's.
ghost use Rattle.std.specs.Prelude.{◌≡◌, IfOk, map};
ghost use Rattle.g_files.specs.FileReel.{reel_of};
ghost use Rattle.g_tape.specs.Rack.{AreReels};
ghost use Rattle.g_devices.specs.Decisions.{lost_of};

use crate::alike::are_alike;
use crate::claim::{Access, claim, claim_folder};
use crate::host::HostFile;
use crate::names::{is_link, is_there, open_folder, open_unready, sync_folder_of, target_of};
use crate::pair_fault::PairFault;
use crate::rack::{CAPACITY, HostReel, HostTapes, Serial, open_or_make, open_reel, serials_in};
use g_base::MAX_REELS;
use g_duplex::{Duplex, DuplexFault, Standing, Twin};
use g_files::{FileReel, FileTapes, ReadAhead, push_reel};
use g_tape::Tapes;
use std::fs::{self, File};
use std::io::{self, Error, ErrorKind};

/// The bytes of a block.
const BLOCK_BYTES: u64 = 512;

/// The reels of two folders, in rising serial, and those that have to be rebuilt.
#[derive(Drop)]
struct Reels {
    first: Vec<HostReel>,
    second: Vec<HostReel>,
    lost: Vec<(u32, Twin)>,
}

/// The folders of two racks.
#[derive(Clone, Copy)]
struct Folders<'a> {
    first: &'a str,
    second: &'a str,
}

impl<'a> Folders<'a> {
    /// The folder of a twin.
    fn of(self, twin: Twin) -> &'a str {
        match twin {
            Twin::First => self.first,
            Twin::Second => self.second,
        }
    }
}

/// Opens the racks of two folders as one, for this run only. The first is made if it isn't there; the second must be. A reel that
/// one folder lacks is rebuilt from the other's; if both have it and they differ, the first's is rebuilt if only that has no block,
/// and otherwise the second's. The list says which were rebuilt. The names in both folders are durable then.
///
/// The error is one of `open_rack`; or `InvalidData` if there are more than 16 reels in both. If it lies in one reel, the fault
/// names that. A reel that is rebuilt gets its name when it is whole, so if this is interrupted the next start begins again, and
/// nothing is lost of what either one holds. A reel that is a link stays one: the file that it leads to is rebuilt.
pub fn open_duplex(
    rt: &HostRuntime,
    first: &str,
    second: &str,
) -> Result<(Duplex<HostTapes>, Vec<(u32, Twin)>), PairFault> {
    let one = open_or_make(rt, first)?;
    claim_folder(&one, Access::Run)?;
    let other = open_folder(rt, second)?;
    claim_folder(&other, Access::Run)?;
    let Reels {
        first: reels,
        second: beside,
        lost,
    } = open_reels(rt, first, second)?;
    if !are_alike(&reels, &beside, &lost) {
        return Err(PairFault::from(Error::from(ErrorKind::InvalidData)));
    }
    let mut pair = Duplex::new(
        FileTapes::new(one, reels, ReadAhead::new(rt.alloc())?),
        FileTapes::new(other, beside, ReadAhead::new(rt.alloc())?),
        &lost,
    );
    for entry in &lost {
        rebuild(rt, Folders { first, second }, &mut pair, entry.0)?;
    }
    Ok((pair, lost))
}

/// Opens the reels of both folders, two of each serial.
fn open_reels(rt: &HostRuntime, first: &str, second: &str) -> Result<Reels, PairFault>
    ensures first { IfOk result (λ reels. AreReels (map reel_of reels.first.items)) }
    ensures second { IfOk result (λ reels. AreReels (map reel_of reels.second.items)) }
{
    let mut reels = Vec::new(rt.alloc());
    let mut beside = Vec::new(rt.alloc());
    let mut lost = Vec::new(rt.alloc());
    for serial in serials_of_both(rt, first, second)? {
        let (reel, other, twin) = open_twins(rt, first, second, serial)?;
        push_reel(&mut reels, reel)?;
        push_reel(&mut beside, other)?;
        if let Some(twin) = twin {
            note(&mut lost, serial, twin)?;
        }
    }
    Ok(Reels {
        first: reels,
        second: beside,
        lost,
    })
}

/// Adds a reel to those that have to be rebuilt.
fn note(lost: &mut Vec<(u32, Twin)>, serial: Serial, twin: Twin) -> io::Result<()> {
    lost.push((serial.number, twin))?;
    Ok(())
}

/// The serials of the reels that lie in either folder, rising, or `InvalidData` where there are more than a rack can have.
fn serials_of_both(rt: &HostRuntime, first: &str, second: &str) -> io::Result<Vec<Serial>> {
    let mut serials = serials_in(rt, first)?;
    for serial in serials_in(rt, second)? {
        if !serials.iter().any(|other| other.number == serial.number) {
            serials.push(serial)?;
        }
    }
    if serials.len() > MAX_REELS {
        return Err(Error::from(ErrorKind::InvalidData));
    }
    serials.sort_by_key(|serial| serial.number)?;
    Ok(serials)
}

/// Opens the two reels of a serial, and says which of them has to be rebuilt. If a folder has none, or one that has to be rebuilt, a
/// file that waits for its name is opened in its place.
fn open_twins(
    rt: &HostRuntime,
    first: &str,
    second: &str,
    serial: Serial,
) -> Result<(HostReel, HostReel, Option<Twin>), PairFault> {
    if !has_reel(rt, first, serial)? {
        let other = open_twin(rt, second, serial, Twin::Second, false)?;
        let reel = open_again(rt, first, serial, Twin::First)?;
        return Ok((reel, other, Some(Twin::First)));
    }
    let has_other = holds_blocks(rt, second, serial.number)?;
    let mut reel = open_twin(rt, first, serial, Twin::First, has_other)?;
    if !has_reel(rt, second, serial)? {
        let other = open_again(rt, second, serial, Twin::Second)?;
        return Ok((reel, other, Some(Twin::Second)));
    }
    let has_other = reel.state().len() > 0;
    let mut other = open_twin(rt, second, serial, Twin::Second, has_other)?;
    let same = hold_same(rt, &mut reel, &mut other)?;
    let lost = lost_of(reel.state().len(), other.state().len(), same);
    match lost {
        None => Ok((reel, other, lost)),
        Some(Twin::First) => Ok((open_again(rt, first, serial, Twin::First)?, other, lost)),
        Some(Twin::Second) => Ok((reel, open_again(rt, second, serial, Twin::Second)?, lost)),
    }
}

/// Which of two reels with these numbers of blocks has to be rebuilt from the other one: none if they hold the same; the first if only that
/// has no block; otherwise the second. So a reel with blocks is never rebuilt from one without.
fn lost_of(first: u32, second: u32, same: bool) -> Option<Twin>
    ensures { result ≡ lost_of first second same }
{
    if same {
        None
    } else if first == 0 && second > 0 {
        Some(Twin::First)
    } else {
        Some(Twin::Second)
    }
}

/// Opens the reel of a serial in one of the folders, or names it in the fault, which says whether the other one has blocks. If it is a
/// link, the name of the file that it leads to is durable then.
fn open_twin(
    rt: &HostRuntime,
    folder: &str,
    serial: Serial,
    twin: Twin,
    has_other: bool,
) -> Result<HostReel, PairFault> {
    match open_linked(rt, folder, serial) {
        Ok(reel) => Ok(reel),
        Err(error) => Err(PairFault::in_reel(serial.number, twin, has_other, error)),
    }
}

/// Opens the reel of a serial. If that is a link, makes the name of the file durable that it leads to: an earlier run may have been
/// killed after it rebuilt that.
fn open_linked(rt: &HostRuntime, folder: &str, serial: Serial) -> io::Result<HostReel> {
    let reel = open_reel(rt, folder, serial, Access::Run)?;
    let number = serial.number;
    let path = format!(in rt.alloc(); "{folder}/{number}.tape")?;
    if is_link(rt, path.as_str())? {
        sync_folder_of(rt, target_of(rt, path.as_str())?.as_str())?;
    }
    Ok(reel)
}

/// Whether there is a reel of this serial in the folder, or what a link of its name leads to, and it has a block.
fn holds_blocks(rt: &HostRuntime, folder: &str, serial: u32) -> io::Result<bool> {
    let path = format!(in rt.alloc(); "{folder}/{serial}.tape")?;
    match fs::metadata(rt, path.as_str()) {
        Ok(about) => Ok(about.len() >= BLOCK_BYTES),
        Err(_) => Ok(false),
    }
}

/// Whether there is a reel of this serial in the folder.
fn has_reel(rt: &HostRuntime, folder: &str, serial: Serial) -> io::Result<bool> {
    let number = serial.number;
    let path = format!(in rt.alloc(); "{folder}/{number}.tape")?;
    is_there(rt, path.as_str())
}

/// Opens the file in which a reel is rebuilt, or names that in the fault.
fn open_again(
    rt: &HostRuntime,
    folder: &str,
    serial: Serial,
    twin: Twin,
) -> Result<HostReel, PairFault> {
    match open_waiting(rt, folder, serial) {
        Ok(reel) => Ok(reel),
        Err(error) => Err(PairFault::not_rebuilt(serial.number, twin, error)),
    }
}

/// Opens an empty file that gets the name of the reel when it is whole. If that name is a link, the new file lies beside the one that
/// it leads to.
fn open_waiting(rt: &HostRuntime, folder: &str, serial: Serial) -> io::Result<HostReel> {
    let number = serial.number;
    let path = format!(in rt.alloc(); "{folder}/{number}.tape")?;
    let target = target_of(rt, path.as_str())?;
    let unready = format!(in rt.alloc(); "{target}.new")?;
    let file = open_unready(rt, unready.as_str())?;
    claim(&file, Access::Run)?;
    file.set_len(0)?;
    FileReel::open(HostFile::new(file), number, CAPACITY)
}

/// Whether two reels hold the same blocks. A fault names the one that can't be read.
fn hold_same(
    rt: &HostRuntime,
    reel: &mut HostReel,
    other: &mut HostReel,
) -> Result<bool, PairFault> {
    if reel.state().len() != other.state().len() {
        return Ok(false);
    }
    let serial = reel.state().serial();
    let mut ahead = ReadAhead::new(rt.alloc())?;
    let mut ahead_beside = ReadAhead::new(rt.alloc())?;
    for k in 0..reel.state().len() {
        let mut block = [0; 512];
        let mut beside = [0; 512];
        if let Err(error) = reel.read(&mut ahead, 0, k, &mut block) {
            return Err(PairFault::in_reel(serial, Twin::First, true, error));
        }
        if let Err(error) = other.read(&mut ahead_beside, 0, k, &mut beside) {
            return Err(PairFault::in_reel(serial, Twin::Second, true, error));
        }
        if block != beside {
            return Ok(false);
        }
    }
    Ok(true)
}

/// Rebuilds the lost reel of a serial from the other one, makes it durable, and gives it its name.
fn rebuild(
    rt: &HostRuntime,
    folders: Folders,
    pair: &mut Duplex<HostTapes>,
    serial: u32,
) -> Result<(), PairFault> {
    let _mounted = pair.mount(serial);
    let Some(Standing::Lost(twin)) = pair.standing(serial) else {
        return Ok(());
    };
    let folder = folders.of(twin);
    if let Err(fault) = pair.rebuild_twin(serial, twin) {
        let is_there = holds_blocks(rt, folder, serial)?;
        return Err(fault_of(serial, twin, is_there, fault));
    }
    if let Err(error) = name_rebuilt(rt, folder, serial) {
        return Err(PairFault::not_rebuilt(serial, twin, error));
    }
    let _unmounted = pair.unmount(serial);
    Ok(())
}

/// Why this reel of a serial can't be rebuilt from the other one: that can't be read, or this one can't be written. What this one
/// held, if anything, is still under its name.
fn fault_of(serial: u32, twin: Twin, is_there: bool, fault: DuplexFault) -> PairFault {
    let error = Error::from(ErrorKind::Other);
    match (fault, twin) {
        (DuplexFault::ReadFailed, Twin::First) => {
            PairFault::in_reel(serial, Twin::Second, is_there, error)
        }
        (DuplexFault::ReadFailed, Twin::Second) => {
            PairFault::in_reel(serial, Twin::First, is_there, error)
        }
        _ => PairFault::NotRebuilt(serial, twin, error),
    }
}

/// Makes a rebuilt reel durable, and gives it its name, or that of the file that this leads to.
fn name_rebuilt(rt: &HostRuntime, folder: &str, serial: u32) -> io::Result<()> {
    let path = format!(in rt.alloc(); "{folder}/{serial}.tape")?;
    let target = target_of(rt, path.as_str())?;
    let unready = format!(in rt.alloc(); "{target}.new")?;
    File::open(rt, unready.as_str())?.sync_all()?;
    fs::rename(rt, unready.as_str(), target.as_str())?;
    sync_folder_of(rt, target.as_str())
}
