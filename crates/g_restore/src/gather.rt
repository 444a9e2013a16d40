//! Gathers the directories of users, each from the newest dump that holds it.
ghost use Rattle.std.specs.Prelude.{◌≡◌, ◌⊎◌, ◌↔◌, ◌+◌, ◌≤◌, ℕ, All, IfErr, IfOk, IfSome, IsTrue, List, OnOk, false, length};
ghost use Rattle.g_incr.specs.Layout.{Dump};
ghost use Rattle.g_restore.specs.KnownDumps.{AreKnown};
ghost use Rattle.g_restore.specs.Gathering.{AreGathered, ArePut, GoWith, HasFew, IsAdded, IsBadWith, IsBestOf, IsFirstBad, IsHeldNowhere, IsTaken, added, behind, newer_holder, newer_of, holds_directory};
ghost use Rattle.g_restore.specs.Losses.{AreApart};

use crate::dumps::Found;
use g_base::NoMemory;
use g_entry::{FileRec, UserRec, files_keep, stamps_are_below};
use g_plain::StoreFault;
use std::alloc::Global;

/// The position and the number of the dump of greatest number among those that hold the directory of this user, or,
/// without a user, among all; of equal numbers, the first.
pub(crate) fn greatest(found: &[Found], user: Option<u8>) -> Option<(usize, u64)>
    ensures { IsBestOf user found.now (length found.now) result }
{
    let mut best = None;
    for (i, one) in found.iter().enumerate() {
        best = newer_holder(best, i, one, user);
    }
    best
}

fn newer_holder(
    best: Option<(usize, u64)>,
    i: usize,
    one: &Found,
    user: Option<u8>,
) -> Option<(usize, u64)>
    ensures { result ≡ newer_holder user best i one.now }
{
    if holds_directory(one, user) {
        newer_of(best, i, one.dir.note.number)
    } else {
        best
    }
}

/// The better of the best dump so far and one after it: the one of greater number, or the first if they are equal.
fn newer_of(best: Option<(usize, u64)>, i: usize, number: u64) -> Option<(usize, u64)>
    ensures { result ≡ newer_of best i number }
{
    match best {
        None => Some((i, number)),
        Some((at, most)) => {
            if most < number {
                Some((i, number))
            } else {
                Some((at, most))
            }
        }
    }
}

/// Whether the dump holds the directory of this user.
fn holds_directory(one: &Found, user: Option<u8>) -> bool
    ensures { result ≡ holds_directory user one.now }
{
    match user {
        Some(user) => one.dir.held.as_slice().contains(&user),
        None => true,
    }
}

/// The files of all these users, by owner, numbered from 0. `LostDirectory` names the first user whose directory no dump
/// holds, or whose directory breaks the rules of files together with those of the users before; `NoMemory`.
pub(crate) fn gather(
    alloc: Global,
    found: &[Found],
    users: &[UserRec],
    next: u64,
) -> Result<Vec<FileRec>, StoreFault>
    requires few { All HasFew found.now }
    ensures ok { IfOk result (λ files. (dumps : List Dump) → AreKnown found.now dumps
        → AreGathered dumps (length users.now) next users.now files.items) }
    ensures go { IfOk result (λ files. GoWith (length users.now) next files.items) }
    ensures bad { (name : List ℕ) → result ≡ Err (StoreFault.LostDirectory name) → (dumps : List Dump) → AreKnown found.now dumps
        → AreApart dumps → IsFirstBad dumps users.now next name }
    ensures only { IfErr result (λ e. (e ≡ StoreFault.NoMemory) ⊎ ((name : List ℕ) × (e ≡ StoreFault.LostDirectory name))) }
{
    match gather_at_once(alloc, found, users, next) {
        Ok(Some(files)) => Ok(files),
        Ok(None) => gather_by_user(alloc, found, users, next),
        Err(_) => Err(StoreFault::NoMemory),
    }
}

/// `gather` with the rules checked once, after the last directory. `None` if a directory is missing, or the rules aren't
/// satisfied.
fn gather_at_once(
    alloc: Global,
    found: &[Found],
    users: &[UserRec],
    next: u64,
) -> Result<Option<Vec<FileRec>>, NoMemory>
    requires few { All HasFew found.now }
    ensures put { IfOk result (λ all. IfSome all (λ files. ArePut found.now users.now files.items)) }
    ensures go { IfOk result (λ all. IfSome all (λ files. GoWith (length users.now) next files.items)) }
{
    let mut files = Vec::new(alloc);
    for user in users {
        if files.len() > 1024 {
            return Ok(None);
        }
        match add_directory(found, user.number, &mut files) {
            Ok(true) => {}
            Ok(false) => return Ok(None),
            Err(fault) => return Err(fault),
        }
    }
    if keep_file_rules(alloc, users.len(), next, files.as_slice())? {
        Ok(Some(files))
    } else {
        Ok(None)
    }
}

/// `gather` with the rules checked after each directory, which finds the first user for whom they aren't satisfied.
fn gather_by_user(
    alloc: Global,
    found: &[Found],
    users: &[UserRec],
    next: u64,
) -> Result<Vec<FileRec>, StoreFault>
    requires few { All HasFew found.now }
    ensures ok { IfOk result (λ files. (dumps : List Dump) → AreKnown found.now dumps
        → AreGathered dumps (length users.now) next users.now files.items) }
    ensures go { IfOk result (λ files. GoWith (length users.now) next files.items) }
    ensures bad { (name : List ℕ) → result ≡ Err (StoreFault.LostDirectory name) → (dumps : List Dump) → AreKnown found.now dumps
        → AreApart dumps → IsFirstBad dumps users.now next name }
    ensures only { IfErr result (λ e. (e ≡ StoreFault.NoMemory) ⊎ ((name : List ℕ) × (e ≡ StoreFault.LostDirectory name))) }
{
    let mut files = Vec::new(alloc);
    for user in users {
        match take_user(alloc, found, user.number, users.len(), next, &mut files) {
            Ok(true) => {}
            Ok(false) => return Err(StoreFault::LostDirectory(user.user.copy())),
            Err(_) => return Err(StoreFault::NoMemory),
        }
    }
    Ok(files)
}

/// Appends the directory of this user. Returns whether there is one and it satisfies the rules together with the
/// others.
fn take_user(
    alloc: Global,
    found: &[Found],
    user: u8,
    users: usize,
    next: u64,
    files: &mut Vec<FileRec>,
) -> Result<bool, NoMemory>
    requires few { All HasFew found.now }
    requires low { length files.old.items ≤ 1024 }
    ensures taken { IfOk result (λ is. IsTrue is → IsTaken found.now users next user files.old.items files.new.items) }
    ensures bad { IfOk result (λ is. is ≡ false → IsBadWith found.now users next user files.old.items) }
{
    if add_directory(found, user, files)? {
        keep_file_rules(alloc, users, next, files.as_slice())
    } else {
        Ok(false)
    }
}

/// Whether the files satisfy the rules, in a directory with that many users and this next stamp.
fn keep_file_rules(
    alloc: Global,
    users: usize,
    next: u64,
    files: &[FileRec],
) -> Result<bool, NoMemory>
    ensures { IfOk result (λ is. IsTrue is ↔ GoWith users next files.now) }
{
    if stamps_are_below(next, files) {
        files_keep(alloc, users, files)
    } else {
        Ok(false)
    }
}

/// Appends the directory of this user, from the newest dump that holds it. Returns whether one does.
fn add_directory(found: &[Found], user: u8, files: &mut Vec<FileRec>) -> Result<bool, NoMemory>
    requires few { All HasFew found.now }
    requires low { length files.old.items ≤ 1024 }
    ensures some { IfOk result (λ is. IsTrue is → IsAdded found.now user files.old.items files.new.items) }
    ensures none { IfOk result (λ is. is ≡ false → IsHeldNowhere found.now user) }
{
    match greatest(found, Some(user)) {
        Some((at, _)) => {
            add_files(found[at].dir.files.as_slice(), user, files)?;
            Ok(true)
        }
        None => Ok(false),
    }
}

/// Appends the files of this user, numbered consecutively after the others.
fn add_files(from: &[FileRec], user: u8, files: &mut Vec<FileRec>) -> Result<(), NoMemory>
    requires low { length files.old.items + length from.now ≤ 65535 }
    ensures { OnOk result (files.new.items ≡ behind files.old.items user from.now) }
{
    for r in from {
        match add_file(r, user, files) {
            Ok(()) => {}
            Err(fault) => return Err(fault),
        }
    }
    Ok(())
}

/// Appends the file, with its position as its number, if it is this user's.
fn add_file(r: &FileRec, user: u8, files: &mut Vec<FileRec>) -> Result<(), NoMemory>
    requires low { length files.old.items ≤ 65535 }
    ensures { OnOk result (files.new.items ≡ added files.old.items user r.now) }
{
    if r.owner == user {
        let mut file = r.copy();
        file.number = files.len() as u16;
        files.push(file)?;
    }
    Ok(())
}
