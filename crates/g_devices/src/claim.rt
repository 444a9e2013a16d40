//! Files that only this run works on or that are looked at, and names that a power loss doesn't take back.

use std::fs::File;
use std::io::{self, Error, ErrorKind};
use std::os::fd::AsRawFd;

/// The greatest descriptor of a standard stream.
const LAST_STREAM: i32 = 2;

/// What files are opened for.
#[derive(Clone, Copy, PartialEq, Eq)]
pub(crate) enum Access {
    /// A run: to be read and written, by it alone.
    Run,
    /// A look: to be read, beside other looks.
    Look,
}

/// Takes the file, or the folder, until it is closed: for a run alone, or for looks. `WouldBlock` where another run has it,
/// and of a run also where a look has it.
///
/// A file that was opened in the place of a closed standard stream is refused: the text of the run
/// would go into it.
pub(crate) fn claim(file: &File, access: Access) -> io::Result<()> {
    if file.as_raw_fd() <= LAST_STREAM {
        return Err(Error::new(ErrorKind::Unsupported, "a standard stream is closed"));
    }
    match access {
        Access::Run => file.try_lock()?,
        Access::Look => file.try_lock_shared()?,
    }
    Ok(())
}

/// Takes a folder as `claim` takes a file. A run also makes its names durable, since an earlier one may have been killed after it
/// renamed a file there.
pub(crate) fn claim_folder(folder: &File, access: Access) -> io::Result<()> {
    claim(folder, access)?;
    if access == Access::Run {
        return sync_names(folder);
    }
    Ok(())
}

/// Makes the names of this folder durable, after a file of it was made or renamed.
pub(crate) fn sync_folder(rt: &HostRuntime, folder: &str) -> io::Result<()> {
    sync_names(&File::open(rt, folder)?)
}

/// Makes the names of an open folder durable. A file system that can't do that says that the call is invalid; `Other` then, since
/// `InvalidInput` is for what is no plain file.
fn sync_names(folder: &File) -> io::Result<()> {
    match folder.sync_all() {
        Err(fault) if fault.kind() == ErrorKind::InvalidInput => Err(Error::from(ErrorKind::Other)),
        synced => synced,
    }
}
