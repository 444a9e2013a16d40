//! The rules for the records of a directory.
ghost use Rattle.std.specs.Prelude.{◌≡◌, ◌≢◌, ◌↔◌, All, AllPairs, IfNone, IfOk, IfSome, IsTrue, ◌∷◌, option_copied};
ghost use Rattle.g_blocks.specs.Pool.{IsInArea};
ghost use Rattle.g_entry.specs.Rules.{AreNumbered};
ghost use Rattle.g_dirs.specs.Directory.{AreCopies, IsDirectory, LiesSomewhere, directory_of, entries_of};
ghost use Rattle.g_dirs.specs.Rules.{AreApart, AreRead, HasNoCopy, KeepAll, numbers_of};

use crate::{Dirs, FileCopy};
use g_base::{FIRST_COPY_BLOCK, NoMemory, are_distinct, blocks_for};
use g_copy::DiscCopy;
use g_entry::{FileRec, UserRec, files_keep, stamps_are_below, users_keep};
use std::alloc::Global;

/// Whether a directory satisfies the rules on a disc of `size` blocks.
pub(crate) fn keeps_rules(alloc: Global, size: u32, dirs: &Dirs) -> Result<bool, NoMemory>
    requires { AreRead dirs.now }
    ensures { IfOk result (λ keeps. IsTrue keeps ↔
        IsDirectory size (directory_of dirs.now.head dirs.now.users.items dirs.now.files.items dirs.now.online.items)) }
{
    keep_all(
        alloc,
        size,
        dirs.head.next_stamp,
        dirs.users.as_slice(),
        dirs.files.as_slice(),
        dirs.online.as_slice(),
    )
}

/// The rules one by one.
fn keep_all(
    alloc: Global,
    size: u32,
    next_stamp: u64,
    users: &[UserRec],
    files: &[FileRec],
    online: &[FileCopy],
) -> Result<bool, NoMemory>
    requires numbered { AreNumbered files.now }
    requires copies { AreCopies files.now online.now }
    ensures { IfOk result (λ keep. IsTrue keep ↔ KeepAll size next_stamp users.now files.now online.now) }
{
    if !users_keep(alloc, users)? {
        return Ok(false);
    }
    if !files_keep(alloc, users.len(), files)? {
        return Ok(false);
    }
    if !stamps_are_below(next_stamp, files) || !files_lie(files, online) {
        return Ok(false);
    }
    places_keep(alloc, size, online)
}

/// Whether each file is on disc, in as many blocks as it needs, or has a copy on tape, and each empty file is on disc.
fn files_lie(files: &[FileRec], online: &[FileCopy]) -> bool
    requires numbered { AreNumbered files.now }
    requires copies { AreCopies files.now online.now }
    ensures { IsTrue result ↔ All LiesSomewhere (entries_of files.now online.now) }
{
    let mut rest = online;
    for r in files {
        let (copy, others) = next_copy(rest, r.number);
        if !has_storage(r, copy) {
            return false;
        }
        rest = others;
    }
    true
}

/// The copy of a file, if it is the next one, and the copies after it.
fn next_copy(online: &[FileCopy], number: u16) -> (Option<&DiscCopy>, &[FileCopy])
    ensures found { IfSome result.0 (λ copy. online.now ≡ (number, copy.now) ∷ result.1.now) }
    ensures none { IfNone result.0 (HasNoCopy number online.now × (result.1.now ≡ online.now)) }
{
    match online.split_first() {
        Some((first, others)) if first.number() == number => (Some(first.get()), others),
        _ => (None, online),
    }
}

fn has_storage(r: &FileRec, copy: Option<&DiscCopy>) -> bool
    ensures { IsTrue result ↔ LiesSomewhere (r.now, option_copied copy.entry) }
{
    match copy {
        Some(copy) => copy.len == r.len
            && copy.blocks.as_slice().len() == blocks_for(r.len) as usize,
        None => r.len != 0 && r.tape.is_some(),
    }
}

/// Whether all block numbers are distinct numbers of copy blocks.
fn places_keep(alloc: Global, size: u32, online: &[FileCopy]) -> Result<bool, NoMemory>
    ensures { IfOk result (λ keep. IsTrue keep ↔ AreApart size (numbers_of online.now)) }
{
    let places = collected(alloc, online)?;
    if !are_in_area(size, places.as_slice()) {
        return Ok(false);
    }
    numbers_differ(alloc, places.as_slice())
}

fn are_in_area(size: u32, places: &[u32]) -> bool
    ensures { IsTrue result ↔ All (IsInArea size) places.now }
{
    places.iter().all(|k| FIRST_COPY_BLOCK <= *k && *k < size)
}

fn numbers_differ(alloc: Global, numbers: &[u32]) -> Result<bool, NoMemory>
    ensures { IfOk result (λ differ. IsTrue differ ↔ AllPairs (λ j k. j ≢ k) numbers.now) }
{
    are_distinct(alloc, numbers, |k| *k)
}

/// The block numbers of all copies.
fn collected(alloc: Global, online: &[FileCopy]) -> Result<Vec<u32>, NoMemory>
    ensures { IfOk result (λ places. places.items ≡ numbers_of online.now) }
{
    let mut places = Vec::new(alloc);
    for copy in online {
        places.extend_from_slice(copy.get().blocks.as_slice())?;
    }
    Ok(places)
}
