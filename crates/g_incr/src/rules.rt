//! The rules that the records of a dump satisfy together.
ghost use Rattle.std.specs.Prelude.{◌≡◌, ◌≢◌, ◌↔◌, ◌+◌, ◌≤◌, true, false, ℕ, All, AllPairs, IfOk, IsTrue, MatchOption, is_some, length};
ghost use Rattle.g_entry.specs.FileFields.{IsFile};
ghost use Rattle.g_incr.specs.Layout.{FollowOn, holds, is_at, is_between};
ghost use Rattle.g_incr.specs.Records.{KeepRules, content_from, content_to, own_in};

use crate::held::is_held;
use crate::note::{DumpDir, DumpNote};
use g_base::{NoMemory, blocks_for};
use g_entry::{FileRec, TapeCopy, files_keep, stamps_are_below, users_keep};
use std::alloc::Global;

/// Whether the records are those of a dump on this reel (docs/FORMATS.md).
pub(crate) fn keeps_rules(alloc: Global, serial: u32, dir: &DumpDir) -> Result<bool, NoMemory>
    requires { All IsFile dir.now.files.items }
    ensures { IfOk result (λ keeps. IsTrue keeps ↔ KeepRules serial dir.now.note dir.now.users.items dir.now.held.items dir.now.files.items) }
{
    let users = dir.users.as_slice();
    let files = dir.files.as_slice();
    if !users_keep(alloc, users)? {
        return Ok(false);
    }
    if !files_keep(alloc, users.len(), files)? {
        return Ok(false);
    }
    if !stamps_are_below(dir.note.next_stamp, files)
        || !owners_are_held(dir.held.as_slice(), files)
    {
        return Ok(false);
    }
    if !owners_rise(files) || !have_copies(files) {
        return Ok(false);
    }
    Ok(follow_on(serial, &dir.note, files))
}

fn owners_are_held(held: &[u8], files: &[FileRec]) -> bool
    ensures { IsTrue result ↔ All (λ r. holds held.now r.owner ≡ true) files.now }
{
    files.iter().all(|r| is_held(held, r.owner))
}

/// Whether the files are sorted by owner.
fn owners_rise(files: &[FileRec]) -> bool
    ensures { IsTrue result ↔ AllPairs (λ r s. r.owner ≤ s.owner) files.now }
{
    let mut last = 0;
    for r in files {
        if r.owner < last {
            return false;
        }
        last = r.owner;
    }
    true
}

/// Whether each file that isn't empty has a copy on tape.
fn have_copies(files: &[FileRec]) -> bool
    ensures { IsTrue result ↔ All (λ r. r.len ≢ 0 → is_some r.tape ≡ true) files.now }
{
    files.iter().all(|r| r.len == 0 || r.tape.is_some())
}

/// Whether the copies that lie in the dump follow one another, from its first block of content to its last.
fn follow_on(serial: u32, n: &DumpNote, files: &[FileRec]) -> bool
    requires few { length files.now ≤ 1024 }
    requires each { All IsFile files.now }
    ensures { IsTrue result ↔ FollowOn (content_from n.now) (content_to n.now) (own_in serial n.now files.now) }
{
    let from = u64::from(n.place) + 1 + u64::from(n.users) + u64::from(n.files);
    let to = u64::from(n.place) + 1 + u64::from(n.count);
    let mut at = from;
    for r in files {
        let first = match own_place(serial, from, to, r.tape) {
            Some(first) => first,
            None => continue,
        };
        if first != at {
            return false;
        }
        at += u64::from(blocks_for(r.len));
    }
    at == to
}

/// The first block of a copy that begins on this reel from block `from` on and before block `to`.
fn own_place(serial: u32, from: u64, to: u64, tape: Option<TapeCopy>) -> Option<u64>
    ensures { MatchOption result (is_between serial from to tape ≡ false)
        (λ first. (is_between serial from to tape ≡ true) × ((at : ℕ) → is_at at tape ↔ (first ≡ at))) }
{
    match tape {
        Some(copy) => {
            let first = u64::from(copy.first);
            if copy.serial == serial && from <= first && first < to {
                Some(first)
            } else {
                None
            }
        }
        None => None,
    }
}
