//! Image and rack opened to be looked at: nothing is made, and nothing can be written.
ghost use Rattle.std.specs.Prelude.{◌<◌, ◌≤◌, IfOk};
ghost use Rattle.g_files.specs.FileDisc.{disc_size};

use crate::host::HostFile;
use crate::image::look_at_image;
use crate::names::FileId;
use crate::rack::{HostTapes, look_at_rack};
use g_files::FileDisc;
use std::alloc::Global;
use std::io::{self, Error, ErrorKind};

/// Opens image and rack to be read, and locks them shared: other looks may go at once, and no run. No reel is mounted.
///
/// The error is `NotFound` where either isn't there, `WouldBlock` where a run has one of their files, or where two of them
/// are one file; else it is as `open_image`'s and `open_rack`'s.
pub fn look_at(
    rt: &HostRuntime,
    path: &str,
    folder: &str,
) -> io::Result<(FileDisc<HostFile>, HostTapes)>
    ensures { IfOk result (λ devices. (2177 < disc_size devices.0) × (disc_size devices.0 ≤ 1048576)) }
{
    let (disc, id) = look_at_image(rt, path)?;
    let tapes = look_at_rack(rt, folder)?;
    let reels = ids_of(rt.alloc(), &tapes)?;
    if reels.contains(&id) || !are_apart(&reels) {
        return Err(Error::from(ErrorKind::WouldBlock));
    }
    Ok((disc, tapes))
}

/// Which files the reels of the rack are in.
fn ids_of(alloc: Global, tapes: &HostTapes) -> io::Result<Vec<FileId>> {
    let mut ids = Vec::new(alloc);
    for reel in tapes.each() {
        ids.push(reel.file().id()?)?;
    }
    Ok(ids)
}

/// Whether no two of them are one file.
fn are_apart(ids: &[FileId]) -> bool {
    for (i, id) in ids.iter().enumerate() {
        if ids[..i].contains(id) {
            return false;
        }
    }
    true
}
