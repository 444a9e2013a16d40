//! The image of a disc: how its file is opened, locked and made. What is read and written there is in `g_files`.
ghost use Rattle.std.specs.Prelude.{◌<◌, ◌≤◌, IfOk};
ghost use Rattle.g_files.specs.FileDisc.{disc_size};

use crate::claim::{Access, claim, sync_folder};
use crate::host::HostFile;
use crate::names::{FileId, id_of, is_there, open_plain, open_unready};
use g_files::{FileDisc, Origin, make_blank};
use std::fs::{self, File};
use std::io::{self, Error, ErrorKind};

/// The blocks of an image that is made where there is none.
const NEW_BLOCKS: u32 = 4_096;

/// Opens the image, which must be in the working folder, for this run only, and makes one of 4,096 blocks of zeros if there is
/// none. It stays locked as long as the disc lives. The names of the working folder are durable then: those of the image and of
/// racks that an earlier run made, too.
///
/// The error is `WouldBlock` if another run has it, `InvalidInput` if it is no plain file, and `InvalidData` unless it has
/// 2,178 to 1,048,576 whole blocks. It is `AlreadyExists` if the name is a link to nowhere, or if the name that an image has
/// while it is made belongs to something else. Otherwise it is the system's. The file is unchanged after an error.
pub fn open_image(rt: &HostRuntime, path: &str) -> io::Result<FileDisc<HostFile>>
    ensures { IfOk result (λ disc. (2177 < disc_size disc) × (disc_size disc ≤ 1048576)) }
{
    let (file, origin) = match open_file(rt, path, Access::Run) {
        Ok(file) => {
            sync_folder(rt, ".")?;
            (HostFile::new(file), Origin::Found)
        }
        Err(fault) if fault.kind() == ErrorKind::NotFound => (make_file(rt, path)?, Origin::New),
        Err(fault) => return Err(fault),
    };
    FileDisc::open(rt.alloc(), file, origin)
}

/// Opens an existing image read-only, with a shared lock that keeps off runs. Also returns which file it is. A call that secures the
/// disc or writes to it fails.
///
/// The error is `NotFound` if there is none, `WouldBlock` if a run has it; otherwise it is as `open_image`'s.
pub(crate) fn look_at_image(
    rt: &HostRuntime,
    path: &str,
) -> io::Result<(FileDisc<HostFile>, FileId)>
    ensures { IfOk result (λ image. (2177 < disc_size image.0) × (disc_size image.0 ≤ 1048576)) }
{
    let file = open_file(rt, path, Access::Look)?;
    let id = id_of(&file)?;
    let disc = FileDisc::open(rt.alloc(), HostFile::new(file), Origin::Found)?;
    Ok((disc, id))
}

/// Opens the file of an existing image and locks it. `NotFound` if there is none.
fn open_file(rt: &HostRuntime, path: &str, access: Access) -> io::Result<File> {
    let file = open_plain(rt, path, access)?;
    claim(&file, access)?;
    Ok(file)
}

/// Makes the file of an image under another name, and renames it when it is whole. A file that an interrupted run left under
/// the other name is used.
fn make_file(rt: &HostRuntime, path: &str) -> io::Result<HostFile> {
    // A link that leads nowhere stays, and nothing is left beside it.
    if is_there(rt, path)? {
        return Err(Error::from(ErrorKind::AlreadyExists));
    }
    let unready = format!(in rt.alloc(); "{path}.new")?;
    let file = open_unready(rt, unready.as_str())?;
    claim(&file, Access::Run)?;
    // Only a run that has claimed the file renames it, so an image that another run made meanwhile stays.
    if is_there(rt, path)? {
        return Err(Error::from(ErrorKind::AlreadyExists));
    }
    let mut file = HostFile::new(file);
    make_blank(&mut file, NEW_BLOCKS)?;
    file.sync_all()?;
    fs::rename(rt, unready.as_str(), path)?;
    sync_folder(rt, ".")?;
    Ok(file)
}
