//! Rule 13: the missing dump; and the one that is lacking by what the disc knows.
ghost use Rattle.std.specs.Prelude.{◌≡◌, ◌⊎◌, ◌↔◌, ◌+◌, ◌-◌, ◌<◌, ◌≤◌, IfOk, IsTrue, List, false};
ghost use Rattle.std.specs.List.Sorted.{IsNonDecreasingBy};
ghost use Rattle.g_incr.specs.Layout.{Dump, holds};
ghost use Rattle.g_restore.specs.KnownDumps.{AreKnown};
ghost use Rattle.g_look.specs.Gaps.{HoldsAll, IsNewestGap, IsNewestWhole, NamesMissing};
ghost use Rattle.g_look.specs.Outlooks.{IsBeyond, IsReached, NamesLacking};

use crate::DumpAt;
use crate::pairs::by_number;
use g_base::NoMemory;
use g_restore::Found;
use std::alloc::Global;

/// The greatest number of a dump that is missing although a later one exists, and which no later one replaces by holding the directories of all its
/// users. `NoMemory`.
pub(crate) fn missing(alloc: Global, found: &[Found]) -> Result<Option<u64>, NoMemory>
    ensures { IfOk result (λ number. (dumps : List Dump) → AreKnown found.now dumps → NamesMissing dumps number) }
{
    let dumps = by_number(alloc, found)?;
    Ok(newest_gap(dumps.as_slice(), newest_whole(found)))
}

/// The greatest number of a dump that is lacking, given the last dump that the disc knows of. `NoMemory`.
pub(crate) fn lacking(alloc: Global, found: &[Found], last: u64) -> Result<Option<u64>, NoMemory>
    ensures { IfOk result (λ number. (dumps : List Dump) → AreKnown found.now dumps → NamesLacking dumps last number) }
{
    if !is_reached(found, last) {
        return Ok(Some(last));
    }
    let number = missing(alloc, found)?;
    Ok(number)
}

/// Whether a dump has this number or a greater one, or the number is 0.
fn is_reached(found: &[Found], last: u64) -> bool
    ensures reached { IsTrue result → IsReached found.now last }
    ensures beyond { result ≡ false → IsBeyond found.now last }
{
    if last == 0 {
        return true;
    }
    for one in found {
        if one.dir.note.number >= last {
            return true;
        }
    }
    false
}

/// The greatest number of a dump that holds the directories of all its users, 0 if none does.
fn newest_whole(found: &[Found]) -> u64
    ensures { IsNewestWhole found.now result }
{
    let mut newest = 0;
    for one in found {
        newest = newer_whole(newest, one);
    }
    newest
}

/// The dump's number, if it is above `newest` and the dump holds the directories of all its users; otherwise `newest`.
fn newer_whole(newest: u64, one: &Found) -> u64
    ensures least { newest ≤ result }
    ensures whole { HoldsAll one.now.dir.users.items one.now.dir.held.items → one.now.dir.note.number ≤ result }
    ensures there { (result ≡ newest)
        ⊎ (HoldsAll one.now.dir.users.items one.now.dir.held.items × (one.now.dir.note.number ≡ result)) }
{
    if newest < one.dir.note.number && holds_all(one) {
        one.dir.note.number
    } else {
        newest
    }
}

/// Whether the dump holds the directories of all its users.
fn holds_all(one: &Found) -> bool
    ensures { IsTrue result ↔ HoldsAll one.now.dir.users.items one.now.dir.held.items }
{
    for user in one.dir.users.as_slice() {
        if !holds(one, user.number) {
            return false;
        }
    }
    true
}

/// Whether the dump holds the directory of this user.
fn holds(one: &Found, user: u8) -> bool
    ensures { result ≡ holds one.now.dir.held.items user }
{
    one.dir.held.as_slice().contains(&user)
}

/// The greatest number above this one that no dump has, below that of some dump.
fn newest_gap(dumps: &[DumpAt], from: u64) -> Option<u64>
    requires { IsNonDecreasingBy (λ d. d.number) dumps.now }
    ensures { IsNewestGap dumps.now from result }
{
    let mut reached = from;
    let mut gap = None;
    for dump in dumps {
        gap = gap_with(gap, reached, dump.number);
        reached = reached.max(dump.number);
    }
    gap
}

/// The number before this one, if it is above those reached so far; otherwise the gap so far.
fn gap_with(gap: Option<u64>, reached: u64, number: u64) -> Option<u64>
    ensures skipped { reached + 1 < number → result ≡ Some (number - 1) }
    ensures near { number ≤ reached + 1 → result ≡ gap }
{
    if number.saturating_sub(reached) > 1 {
        Some(number - 1)
    } else {
        gap
    }
}
