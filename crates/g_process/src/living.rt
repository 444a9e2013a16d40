//! The versions that are written, and the copies that they get.
ghost use Rattle.std.specs.Prelude.{◌≡◌, ◌+◌, ◌<◌, ◌^◌, IfOk, filter, map, true};
ghost use Rattle.g_incr.specs.Plan.{blocks_of};
ghost use Rattle.g_laws_store.specs.ForgottenCopies.{bare_rec};
ghost use Rattle.g_process.specs.ProcessPlan.{copies_from, is_filled, living, versions};

use g_base::{NoMemory, blocks_for};
use g_disc::Disc;
use g_dumper::held_files;
use g_entry::{FileRec, TapeCopy, UserRec};
use g_online::Online;
use std::alloc::Global;

/// The numbers of all users.
pub(crate) fn every_user(alloc: Global, users: &[UserRec]) -> Result<Vec<u8>, NoMemory>
    ensures { IfOk result (λ all. all.items ≡ map (λ u. u.number) users.now) }
{
    let mut all = Vec::new(alloc);
    for user in users {
        match all.push(user.number) {
            Ok(()) => {}
            Err(_) => return Err(NoMemory),
        }
    }
    Ok(all)
}

/// The files of all users, by owner, then by number.
pub(crate) fn living<D: Disc>(alloc: Global, online: &Online<D>) -> Result<Vec<FileRec>, NoMemory>
    requires live { online.now.live ≡ true }
    ensures { IfOk result (λ all. all.items ≡ living online.now.contents) }
{
    let tree = online.tree();
    let users = match every_user(alloc, tree.users()) {
        Ok(users) => users,
        Err(_) => return Err(NoMemory),
    };
    held_files(alloc, tree.files(), users.as_slice())
}

/// The same files as if none had a copy on tape.
pub(crate) fn bare(alloc: Global, files: &[FileRec]) -> Result<Vec<FileRec>, NoMemory>
    ensures { IfOk result (λ all. all.items ≡ map bare_rec files.now) }
{
    let mut all = Vec::new(alloc);
    for file in files {
        let file = FileRec {
            tape: None,
            ..file.copy()
        };
        match all.push(file) {
            Ok(()) => {}
            Err(_) => return Err(NoMemory),
        }
    }
    Ok(all)
}

/// Those that aren't empty.
pub(crate) fn filled(alloc: Global, files: &[FileRec]) -> Result<Vec<FileRec>, NoMemory>
    ensures { IfOk result (λ all. all.items ≡ filter is_filled files.now) }
{
    let mut all = Vec::new(alloc);
    for file in files {
        if file.len > 0 {
            match all.push(file.copy()) {
                Ok(()) => {}
                Err(_) => return Err(NoMemory),
            }
        }
    }
    Ok(all)
}

/// The copies of these versions, by stamp, end to end from this block of the reel on.
pub(crate) fn copies_from(
    alloc: Global,
    serial: u32,
    first: u32,
    versions: &[FileRec],
) -> Result<Vec<(u64, TapeCopy)>, NoMemory>
    requires { first + blocks_of versions.now < 2 ^ 32 }
    ensures { IfOk result (λ copies. copies.items ≡ copies_from serial first versions.now) }
{
    let mut copies = Vec::new(alloc);
    let mut at = first;
    for version in versions {
        let copy = TapeCopy { serial, first: at };
        match copies.push((version.stamp, copy)) {
            Ok(()) => {}
            Err(_) => return Err(NoMemory),
        }
        at += blocks_for(version.len);
    }
    Ok(copies)
}
