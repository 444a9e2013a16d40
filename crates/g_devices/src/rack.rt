//! A rack in a folder: a file `SERIAL.tape` for each reel.
ghost use Rattle.std.specs.Prelude.{◌≡◌, ◌≤◌};

use crate::claim::{Access, claim, claim_folder};
use crate::host::HostFile;
use crate::names::{open_folder, open_plain};
use crate::new_rack::make_folder;
use g_base::MAX_SERIAL;
use g_files::{FileReel, FileTapes, ReadAhead, push_reel};
use std::fs::{self, File};
use std::io::{self, ErrorKind};

/// How many blocks each reel can hold.
pub(crate) const CAPACITY: u32 = 8_192;

/// A reel in a file of the system.
pub(crate) type HostReel = FileReel<HostFile>;

/// A rack in a folder of the system, which is locked as long as the rack lives.
pub type HostTapes = FileTapes<HostFile, File>;

/// The number of a reel.
#[derive(Clone, Copy)]
pub(crate) struct Serial {
    pub number: u32,
    ghost limits: { (1 ≤ number) × (number ≤ 999999) },
}

/// Opens the rack of a folder for this run only. Each file `SERIAL.tape` in it, with a serial from 1 to 999,999 without a leading zero,
/// is a reel with room for 8,192 blocks; none is mounted. Other names are ignored, and so is a piece of a block at a reel's end. If
/// there is no such folder it is made, with the empty reels 1 and 2.
///
/// The error is `WouldBlock` if another run has the rack or a file that is one of its reels, or if two reels are one file, or one is
/// the image of this run; `NotADirectory` if the name isn't a folder's, and `InvalidInput` if a reel is no plain file; `InvalidData`
/// if there are more than 16 reels, or one has more than 8,192 blocks; `AlreadyExists` if the name is a link to nowhere, or if the
/// name under which a rack is made is taken by something else; otherwise it is the system's. What was there is unchanged.
pub fn open_rack(rt: &HostRuntime, folder: &str) -> io::Result<HostTapes> {
    let opened = open_or_make(rt, folder)?;
    reels_in(rt, folder, opened, Access::Run)
}

/// Opens an existing rack for a look: its reels can't be written, and are locked so that no run takes them.
///
/// The error is `NotFound` if there is none, `WouldBlock` if a run has it; otherwise it is one of `open_rack`.
pub fn look_at_rack(rt: &HostRuntime, folder: &str) -> io::Result<HostTapes> {
    let opened = open_folder(rt, folder)?;
    reels_in(rt, folder, opened, Access::Look)
}

/// The rack of the reels in an open folder.
fn reels_in(rt: &HostRuntime, folder: &str, opened: File, access: Access) -> io::Result<HostTapes> {
    claim_folder(&opened, access)?;
    let mut serials = serials_in(rt, folder)?;
    serials.sort_by_key(|serial| serial.number)?;
    let mut reels = Vec::new(rt.alloc());
    for serial in serials {
        let reel = open_reel(rt, folder, serial, access)?;
        push_reel(&mut reels, reel)?;
    }
    Ok(FileTapes::new(opened, reels, ReadAhead::new(rt.alloc())?))
}

/// Opens the folder of a rack, or makes it.
pub(crate) fn open_or_make(rt: &HostRuntime, folder: &str) -> io::Result<File> {
    match open_folder(rt, folder) {
        Err(fault) if fault.kind() == ErrorKind::NotFound => {
            make_folder(rt, folder)?;
            open_folder(rt, folder)
        }
        opened => opened,
    }
}

/// The serials of the files in the folder that are reels, in any order.
pub(crate) fn serials_in(rt: &HostRuntime, folder: &str) -> io::Result<Vec<Serial>> {
    let mut serials = Vec::new(rt.alloc());
    for entry in fs::read_dir(rt, folder)? {
        match entry {
            Ok(entry) => {
                if let Some(serial) = serial_in(entry.file_name()) {
                    serials.push(serial)?;
                }
            }
            // A name that isn't UTF-8 is no reel's.
            Err(fault) if fault.kind() == ErrorKind::InvalidFilename => {}
            Err(fault) => return Err(fault),
        }
    }
    Ok(serials)
}

/// The serial in the name of a reel's file, if it is one.
fn serial_in(name: &str) -> Option<Serial> {
    let digits = name.strip_suffix(".tape")?;
    if digits.starts_with('0') || !digits.bytes().all(|b| b.is_ascii_digit()) {
        return None;
    }
    let number = digits.parse::<u32>().ok()?;
    if number < 1 || MAX_SERIAL < number {
        return None;
    }
    Some(Serial { number })
}

/// Opens the file of a reel, of a run for it and this serial alone.
pub(crate) fn open_reel(
    rt: &HostRuntime,
    folder: &str,
    serial: Serial,
    access: Access,
) -> io::Result<HostReel> {
    let number = serial.number;
    let path = format!(in rt.alloc(); "{folder}/{number}.tape")?;
    let file = open_plain(rt, path.as_str(), access)?;
    claim(&file, access)?;
    FileReel::open(HostFile::new(file), number, CAPACITY)
}
