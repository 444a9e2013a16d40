//! How a rack is made: a folder with two empty reels, which gets its name when it is whole.

use crate::claim::sync_folder;
use crate::names::{has_one_name, is_there, open_unready, own_folder};
use std::fs::{self, DirEntry};
use std::io::{self, Error, ErrorKind};

/// The files of the reels of a new rack.
const NEW_REELS: [&str; 2] = ["1.tape", "2.tape"];

/// Makes the folder of a rack under another name, and gives it the right one when its reels are there. What an earlier
/// run left under the other name, that was cut off in here, is used. The folder of a rack that another run made meanwhile
/// stays, since a folder with files isn't replaced.
pub(crate) fn make_folder(rt: &HostRuntime, folder: &str) -> io::Result<()> {
    // A link that leads nowhere stays, and nothing is left beside it.
    if is_there(rt, folder)? {
        return Err(Error::from(ErrorKind::AlreadyExists));
    }
    let unready = format!(in rt.alloc(); "{folder}.new")?;
    make_or_check(rt, unready.as_str())?;
    for name in NEW_REELS {
        let path = format!(in rt.alloc(); "{unready}/{name}")?;
        let _reel = open_unready(rt, path.as_str())?;
    }
    sync_folder(rt, unready.as_str())?;
    fs::rename(rt, unready.as_str(), folder)?;
    sync_folder(rt, ".")
}

/// Makes the folder, or checks that an interrupted run left it: a folder, and no link to one, that holds nothing but empty reels
/// of a new rack. `AlreadyExists` if anything else is there.
fn make_or_check(rt: &HostRuntime, unready: &str) -> io::Result<()> {
    match fs::create_dir(rt, unready) {
        Err(fault) if fault.kind() == ErrorKind::AlreadyExists => {}
        made => made?,
    }
    own_folder(rt, unready)?;
    for entry in fs::read_dir(rt, unready)? {
        if !is_new_reel(&entry?)? {
            return Err(Error::from(ErrorKind::AlreadyExists));
        }
    }
    Ok(())
}

/// Whether this is the file of a new rack's reel: of its name, plain, under no other name, and empty.
fn is_new_reel(entry: &DirEntry) -> io::Result<bool> {
    let about = entry.metadata()?;
    let named = NEW_REELS.contains(&entry.file_name());
    Ok(named && has_one_name(&about) && about.len() == 0)
}
