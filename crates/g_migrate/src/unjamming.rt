//! Which files are taken off the disc to make room.
ghost use Rattle.std.specs.Prelude.{◌≡◌, ◌≤◌, true, [], All, AllPairs, IfOk, length};
ghost use Rattle.std.specs.List.Sorted.{IsNonDecreasingBy, IsPermutation};
ghost use Rattle.g_disc_contents.specs.Facts.{IsTied, room_of};
ghost use Rattle.g_migrate.specs.Candidates.{TakesFirst};
ghost use Rattle.g_laws_store.specs.UnjamPlan.{IsUnjamPlan};
ghost use Rattle.g_migrate.specs.UnjamPlan.{IsOlder, IsRoomWithout};

use crate::candidates::{Candidate, candidates};
use g_base::NoMemory;
use g_disc::Disc;
use g_online::{Online, Unjam};
use g_tree::NumberList;
use std::alloc::Global;

/// The plan for a need of this many blocks (docs/DEFINITIONS.md): of the files that are on the disc and also on tape it
/// takes those with the oldest versions, exactly as many as leave `need` blocks free, or all of them if that isn't enough.
/// Nothing changes, and no device is used.
pub fn plan_unjam<D: Disc>(alloc: Global, online: &Online<D>, need: u32) -> Result<Unjam, NoMemory>
    requires live { online.now.live ≡ true }
    requires tied { IsTied online.now }
    ensures plan { IfOk result (λ u. IsUnjamPlan need online.now u.take u.room) }
    ensures order { IfOk result (λ u. AllPairs (IsOlder online.now.contents.files) u.take) }
    ensures room { IfOk result (λ u. IsRoomWithout online.now u.take u.room) }
    ensures none { IfOk result (λ u. need ≤ room_of online.now → (u.take ≡ []) × (u.room ≡ room_of online.now)) }
{
    let room = online.room();
    if need <= room {
        return Ok(nothing_taken(alloc, room));
    }
    plan_by_age(alloc, online, need)
}

/// The plan that takes nothing.
fn nothing_taken(alloc: Global, room: u32) -> Unjam
    ensures take { result.take ≡ [] }
    ensures room { result.room ≡ room }
{
    Unjam {
        take: NumberList::new(alloc),
        room,
    }
}

/// Does so without checking whether there is room enough already.
fn plan_by_age<D: Disc>(alloc: Global, online: &Online<D>, need: u32) -> Result<Unjam, NoMemory>
    requires live { online.now.live ≡ true }
    requires tied { IsTied online.now }
    ensures plan { IfOk result (λ u. IsUnjamPlan need online.now u.take u.room) }
    ensures order { IfOk result (λ u. AllPairs (IsOlder online.now.contents.files) u.take) }
    ensures room { IfOk result (λ u. IsRoomWithout online.now u.take u.room) }
    ensures none { IfOk result (λ u. need ≤ room_of online.now → (u.take ≡ []) × (u.room ≡ room_of online.now)) }
{
    let mut candidates = candidates(alloc, online)?;
    sort_by_age(&mut candidates);
    take_first(alloc, &candidates, online.room(), need)
}

/// Sorts the candidates, oldest versions first.
fn sort_by_age(candidates: &mut Vec<Candidate>)
    ensures moved { IsPermutation candidates.old.items candidates.new.items }
    ensures order { IsNonDecreasingBy (λ c. c.stamp) candidates.new.items }
{
    candidates.sort_unstable_by_key(|candidate| candidate.stamp);
}

/// Takes candidates in their order, until the room reaches the need or none is left.
fn take_first(
    alloc: Global,
    candidates: &[Candidate],
    room: u32,
    need: u32,
) -> Result<Unjam, NoMemory>
    requires few { length candidates.now ≤ 1024 }
    requires small { All (λ c. c.blocks ≤ 128) candidates.now }
    requires room { room ≤ 1_048_576 }
    ensures { IfOk result (λ u. TakesFirst candidates.now room need u.take u.room) }
{
    let mut taken = NumberList::new(alloc);
    let mut reached = room;
    for candidate in candidates {
        if need <= reached {
            return Ok(Unjam {
                take: taken,
                room: reached,
            });
        }
        taken.push(candidate.number)?;
        reached += candidate.blocks;
    }
    Ok(Unjam {
        take: taken,
        room: reached,
    })
}
