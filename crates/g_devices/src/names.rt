//! What lies under a name. It is looked at before it is opened, since the opening of a pipe may wait for ever, and that
//! of a device may do anything.

use crate::claim::{Access, sync_folder};
use std::fs::{self, File, Metadata, OpenOptions, Permissions};
use std::io::{self, Error, ErrorKind};
use std::os::unix::fs::{MetadataExt, PermissionsExt};
use std::path::PathBuf;

/// The rights of a file's owner to read and write it.
const OWN_FILE: u32 = 0o600;

/// The rights of a folder's owner to list it, to make files in it and to open these.
const OWN_FOLDER: u32 = 0o700;

/// The bits of a mode that say who may do what.
const RIGHTS: u32 = 0o7777;

/// Whether there is anything of this name, a link counted.
pub fn is_there(rt: &HostRuntime, path: &str) -> io::Result<bool> {
    match fs::symlink_metadata(rt, path) {
        Ok(_) => Ok(true),
        Err(fault) if fault.kind() == ErrorKind::NotFound => Ok(false),
        Err(fault) => Err(fault),
    }
}

/// Opens a plain file, or the one that a link leads to, to be read, and of a run to be written too. `InvalidInput` where it
/// is anything else, as a pipe, a socket, a device or a folder, which isn't opened.
pub(crate) fn open_plain(rt: &HostRuntime, path: &str, access: Access) -> io::Result<File> {
    if !fs::metadata(rt, path)?.is_file() {
        return Err(Error::from(ErrorKind::InvalidInput));
    }
    let mut how = OpenOptions::new();
    how.read(true).write(access == Access::Run);
    how.open(rt, path)
}

/// Opens a folder, or the one that a link leads to. `NotADirectory` where it is anything else, which isn't opened.
pub(crate) fn open_folder(rt: &HostRuntime, path: &str) -> io::Result<File> {
    if !fs::metadata(rt, path)?.is_dir() {
        return Err(Error::from(ErrorKind::NotADirectory));
    }
    File::open(rt, path)
}

/// The path of the file that a name denotes: the name itself, or if it is a link, the path that this leads to.
pub(crate) fn target_of(rt: &HostRuntime, path: &str) -> io::Result<String> {
    if is_link(rt, path)? {
        return Ok(fs::canonicalize(rt, path)?.into_string());
    }
    Ok(String::from_str(rt.alloc(), path)?)
}

/// Whether there is a link of this name.
pub(crate) fn is_link(rt: &HostRuntime, path: &str) -> io::Result<bool> {
    match fs::symlink_metadata(rt, path) {
        Ok(about) => Ok(about.is_symlink()),
        Err(fault) if fault.kind() == ErrorKind::NotFound => Ok(false),
        Err(fault) => Err(fault),
    }
}

/// Makes the names durable in the folder that holds the file of this path.
pub(crate) fn sync_folder_of(rt: &HostRuntime, path: &str) -> io::Result<()> {
    let mut folder = PathBuf::from_str(rt.alloc(), path)?;
    let _has_folder = folder.pop();
    sync_folder(rt, folder.into_string().as_str())
}

/// Makes a file that gets another name when it is whole, or opens the one that an interrupted run left here: a plain file with
/// only this name. Its owner can read and write it, whatever the process's mask says, so that no later run finds a file that it
/// may not open. `AlreadyExists` if anything else is here, which stays unchanged.
pub(crate) fn open_unready(rt: &HostRuntime, path: &str) -> io::Result<File> {
    let mut how = OpenOptions::new();
    how.read(true).write(true);
    match fs::symlink_metadata(rt, path) {
        Ok(left) => open_left(rt, path, &how, &left),
        Err(fault) if fault.kind() == ErrorKind::NotFound => {
            let file = how.create_new(true).open(rt, path)?;
            let made = file.metadata()?;
            if lacks(&made, OWN_FILE) {
                file.set_permissions(with_rights(&made, OWN_FILE))?;
                file.sync_all()?;
            }
            Ok(file)
        }
        Err(fault) => Err(fault),
    }
}

/// Opens what was left under a name, as it was looked at. A run that was killed right after it made the file may have left it
/// empty and without the owner's rights.
fn open_left(rt: &HostRuntime, path: &str, how: &OpenOptions, left: &Metadata) -> io::Result<File> {
    if !has_one_name(left) {
        return Err(Error::from(ErrorKind::AlreadyExists));
    }
    if left.len() == 0 && lacks(left, OWN_FILE) {
        fs::set_permissions(rt, path, with_rights(left, OWN_FILE))?;
    }
    let file = how.open(rt, path)?;
    // Between the look and the opening the name may have been given to another file.
    let opened = file.metadata()?;
    if !has_one_name(&opened) || opened.dev() != left.dev() || opened.ino() != left.ino() {
        return Err(Error::from(ErrorKind::AlreadyExists));
    }
    Ok(file)
}

/// Gives the owner of a folder the rights that the process's mask may have taken when it was made. `AlreadyExists` if this is no
/// folder, or a link to one.
pub(crate) fn own_folder(rt: &HostRuntime, path: &str) -> io::Result<()> {
    let about = fs::symlink_metadata(rt, path)?;
    if !about.is_dir() {
        return Err(Error::from(ErrorKind::AlreadyExists));
    }
    if lacks(&about, OWN_FOLDER) {
        fs::set_permissions(rt, path, with_rights(&about, OWN_FOLDER))?;
    }
    Ok(())
}

/// Whether one of these rights is missing.
fn lacks(about: &Metadata, rights: u32) -> bool {
    about.mode() & rights != rights
}

/// What a file permits, with these rights added.
fn with_rights(about: &Metadata, rights: u32) -> Permissions {
    Permissions::from_mode(about.mode() & RIGHTS | rights)
}

/// Which file it is, under whatever name.
#[derive(Clone, Copy, PartialEq, Eq)]
pub(crate) struct FileId {
    device: u64,
    number: u64,
}

/// Tells which file this is.
pub(crate) fn id_of(file: &File) -> io::Result<FileId> {
    let about = file.metadata()?;
    Ok(FileId {
        device: about.dev(),
        number: about.ino(),
    })
}

/// Whether it is a plain file with one name, and no link.
pub(crate) fn has_one_name(about: &Metadata) -> bool {
    about.is_file() && about.nlink() == 1
}
