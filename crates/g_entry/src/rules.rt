//! The rules that the users and files of a directory satisfy together.
ghost use Rattle.std.specs.Prelude.{◌≡◌, ◌≢◌, ◌↔◌, All, AllPairs, IfOk, IsTrue};
ghost use Rattle.g_entry.specs.FileNames.{name_of};
ghost use Rattle.g_entry.specs.Rules.{AreFiles, AreUsers, SameName, StampsBelow};
ghost use Rattle.g_entry.specs.SingleRules.{KeepPlaces, KeepsAlone, KeepsPlace, StandsRightly};

use crate::{FileRec, UserRec};
use g_base::{NoMemory, are_distinct};
use g_name::{Lang, Local};
use std::alloc::Global;

/// Whether the users satisfy the rules together (docs/FORMATS.md): each has its position as its number, MASTER and
/// MACROS come first, a superior precedes its subjects, and names are distinct.
pub fn users_keep(alloc: Global, users: &[UserRec]) -> Result<bool, NoMemory>
    ensures { IfOk result (λ keep. IsTrue keep ↔ AreUsers users.now) }
{
    if users.len() < 2 || users.len() > 63 || !places_are_kept(users) {
        return Ok(false);
    }
    names_differ(alloc, users)
}

/// Whether each user has its position as its number, the first two are those of every filestore, and the superior of
/// each other user precedes it.
fn places_are_kept(users: &[UserRec]) -> bool
    ensures { IsTrue result ↔ KeepPlaces users.now }
{
    for (i, user) in users.iter().enumerate() {
        if !place_is_kept(i, user) {
            return false;
        }
    }
    true
}

fn place_is_kept(i: usize, user: &UserRec) -> bool
    ensures { IsTrue result ↔ KeepsPlace i user.now }
{
    user.number as usize == i && is_valid_user_place(i, user)
}

fn is_valid_user_place(i: usize, user: &UserRec) -> bool
    ensures { IsTrue result ↔ StandsRightly i user.now }
{
    match i {
        0 => user.superior == 0 && user.user.as_slice() == b"MASTER".as_slice(),
        1 => user.superior == 0 && user.user.as_slice() == b"MACROS".as_slice(),
        _ => (user.superior as usize) < i,
    }
}

/// Whether the users' names are distinct.
fn names_differ(alloc: Global, users: &[UserRec]) -> Result<bool, NoMemory>
    ensures { IfOk result (λ differ. IsTrue differ ↔ AllPairs (λ u v. u.user ≢ v.user) users.now) }
{
    are_distinct(alloc, users, |user| user.user.copy())
}

/// Whether the files satisfy the rules together (docs/FORMATS.md) in a directory of `users` users: owners and trapped
/// users are users, full names and stamps are distinct, an empty file has no copy on tape, and there are at most 1,024
/// files.
pub fn files_keep(alloc: Global, users: usize, files: &[FileRec]) -> Result<bool, NoMemory>
    ensures { IfOk result (λ keep. IsTrue keep ↔ AreFiles users files.now) }
{
    if files.len() > 1024 || !all_keep(users, files) {
        return Ok(false);
    }
    files_differ(alloc, files)
}

/// Whether each file satisfies the rules that concern no other file.
fn all_keep(users: usize, files: &[FileRec]) -> bool
    ensures { IsTrue result ↔ All (KeepsAlone users) files.now }
{
    files.iter().all(|r| file_keeps(users, r))
}

fn file_keeps(users: usize, r: &FileRec) -> bool
    ensures { IsTrue result ↔ KeepsAlone users r.now }
{
    (r.owner as usize) < users
        && r.traps
            .others()
            .iter()
            .all(|pair| (pair.0 as usize) < users)
        && 1 <= r.stamp
        && (r.len != 0 || r.tape.is_none())
}

/// The full name of a file, with the number of its owner.
#[derive(PartialEq, Eq, Hash, Drop)]
struct FileName {
    owner: u8,
    local: Local,
    generation: u16,
    lang: Lang,
}

/// Whether full names and stamps are distinct.
fn files_differ(alloc: Global, files: &[FileRec]) -> Result<bool, NoMemory>
    ensures { IfOk result (λ differ. IsTrue differ ↔
        (AllPairs (λ r s. SameName r s → ⊥) files.now × AllPairs (λ r s. r.stamp ≢ s.stamp) files.now)) }
{
    Ok(full_names_differ(alloc, files)? && stamps_differ(alloc, files)?)
}

/// Whether full names are distinct.
fn full_names_differ(alloc: Global, files: &[FileRec]) -> Result<bool, NoMemory>
    ensures { IfOk result (λ differ. IsTrue differ ↔ AllPairs (λ r s. SameName r s → ⊥) files.now) }
{
    are_distinct(alloc, files, |r| file_name(r))
}

fn file_name(r: &FileRec) -> FileName
    ensures { result ≡ name_of r.now }
{
    FileName {
        owner: r.owner,
        local: r.local.copy(),
        generation: r.generation,
        lang: r.lang.copy(),
    }
}

/// Whether stamps are distinct.
fn stamps_differ(alloc: Global, files: &[FileRec]) -> Result<bool, NoMemory>
    ensures { IfOk result (λ differ. IsTrue differ ↔ AllPairs (λ r s. r.stamp ≢ s.stamp) files.now) }
{
    are_distinct(alloc, files, |r| r.stamp)
}

/// Whether each file's stamp is less than that of the next version.
pub fn stamps_are_below(next: u64, files: &[FileRec]) -> bool
    ensures { IsTrue result ↔ StampsBelow next files.now }
{
    files.iter().all(|r| r.stamp < next)
}
