//! The search for free blocks: one pass over the flags, from a lower bound of the free ones.
ghost use Rattle.g_blocks.specs.Flags.{AreFull, AreSetBefore, AreSetBetween};
ghost use Rattle.g_blocks.specs.Pool.{AreLeastFree, free_count};
ghost use Rattle.std.specs.Prelude.{◌≡◌, ◌⊎◌, ℕ, ◌+◌, ◌<◌, ◌≤◌, ◌^◌, true, false, Some, [], length, IfOk, slice_get, slice_index_or};

use g_base::{BlockList, FIRST_COPY_BLOCK};
use std::alloc::{AllocError, Global};
use std::cmp::Ordering;

/// The n least blocks whose flag isn't set, in increasing order. None of them is before the place `low`.
pub(crate) fn least_free(
    alloc: Global,
    taken: &[bool],
    low: usize,
    n: usize,
) -> Result<Vec<u32>, AllocError>
    requires room { n ≤ free_count taken.now }
    requires fits { 2177 + length taken.now < 2 ^ 32 }
    requires low { AreSetBefore low taken.now }
    ensures { IfOk result (λ blocks. AreLeastFree taken.now n blocks.items) }
{
    let mut blocks = Vec::with_capacity(alloc, n)?;
    for (place, is_taken) in taken[low..].iter().enumerate() {
        if blocks.len() == n {
            return Ok(blocks);
        }
        if !*is_taken {
            blocks.push(FIRST_COPY_BLOCK + (low + place) as u32)?;
        }
    }
    Ok(blocks)
}

/// Appends the n least blocks whose flag isn't set, in increasing order, to an empty list. None of them is before the place
/// `low`.
pub(crate) fn put_least_free(taken: &[bool], low: usize, n: usize, blocks: &mut BlockList)
    requires empty { blocks.old ≡ [] }
    requires few { n ≤ 128 }
    requires room { n ≤ free_count taken.now }
    requires fits { 2177 + length taken.now < 2 ^ 32 }
    requires low { AreSetBefore low taken.now }
    ensures { AreLeastFree taken.now n blocks.new }
{
    for (place, is_taken) in taken[low..].iter().enumerate() {
        if blocks.as_slice().len() == n {
            return;
        }
        if !*is_taken {
            blocks.push(FIRST_COPY_BLOCK + (low + place) as u32);
        }
    }
}

/// Where the search for the least free block begins: all flags before this place are set. So are those before `low`,
/// and those after it and before `next`.
pub(crate) fn search_start(taken: &[bool], low: usize, next: usize) -> usize
    requires before { AreSetBefore low taken.now }
    requires between { AreSetBetween low next taken.now }
    ensures before { AreSetBefore result taken.now }
    ensures later { low ≤ result }
{
    if low == taken.len() {
        return low;
    }
    if taken[low] { next.max(low + 1) } else { low }
}

/// The number of flags in a group.
pub(crate) const GROUP: usize = 128;

/// The first place from `from` on whose flag isn't set, or the number of flags. All flags before `from` are set. Groups
/// that are noted as full are skipped as a whole.
pub(crate) fn first_free(taken: &[bool], full: &[bool], from: usize) -> usize
    requires before { AreSetBefore from taken.now }
    requires full { AreFull full.now taken.now }
    ensures before { AreSetBefore result taken.now }
    ensures later { from ≤ result }
{
    let mut place = from;
    while place < taken.len() {
        if !taken[place] {
            return place;
        }
        place = behind(taken, full, place);
    }
    place
}

/// The place after this one, whose flag is set; or after its group, if it is the first of a group that is noted as
/// full.
fn behind(taken: &[bool], full: &[bool], place: usize) -> usize
    requires within { place < length taken.now }
    requires is_set { slice_index_or taken.now place false ≡ true }
    requires before { AreSetBefore place taken.now }
    requires full { AreFull full.now taken.now }
    ensures before { AreSetBefore result taken.now }
    ensures later { place < result }
{
    if place % GROUP == 0 && full[place / GROUP] {
        (place + GROUP).min(taken.len())
    } else {
        place + 1
    }
}

/// The place before which all flags after the lower one of `low` and `place` are set, as soon as the flag at `place` isn't.
/// So far that was `next` for the flags after `low`, and all flags before `start` are set.
pub(crate) fn next_without(place: usize, low: usize, next: usize, start: usize) -> usize
    ensures before { place < low → result ≡ start }
    ensures same { place ≡ low → result ≡ next }
    ensures after { low < place → (result ≤ next) × (result ≤ place) }
{
    match place.cmp(&low) {
        Ordering::Less => start,
        Ordering::Equal => next,
        Ordering::Greater => next.min(place),
    }
}

/// Notes the groups from `first` up to `end`, exclusive, as full.
pub(crate) fn note_full(full: &mut Vec<bool>, first: usize, end: usize)
    requires { end ≤ length full.old.items }
    ensures size { length full.new.items ≡ length full.old.items }
    ensures noted { (group : ℕ) → slice_get full.new.items group ≡ Some true
        → (slice_get full.old.items group ≡ Some true) ⊎ (group < end) }
{
    for group in first..end {
        full[group] = true;
    }
}
