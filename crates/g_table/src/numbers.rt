//! Operations on places and on the counts of their groups.
ghost use Rattle.std.specs.Prelude.{◌≡◌, ◌≤◌, ◌<◌, ◌+◌, ◌-◌, ◌/◌, ℕ, None, [], IfOk, drop, length, replicate, slice_index_or, slice_set};
ghost use Rattle.g_table.specs.Table.{AreTaken, present, standing_at};

use g_base::NoMemory;
use std::alloc::Global;

/// The number of places.
pub(crate) const NUMBERS: usize = 1024;

/// The number of places in a group.
pub(crate) const GROUP: usize = 32;

/// A place for each number, all empty.
pub(crate) fn no_items<T: Drop>(alloc: Global) -> Result<Vec<Option<T>>, NoMemory>
    ensures { IfOk result (λ places. places.items ≡ replicate 1024 None) }
{
    let mut places = Vec::with_capacity(alloc, NUMBERS)?;
    for _ in 0..NUMBERS {
        places.push_reserved(None);
    }
    Ok(places)
}

/// Counts one more item in the group of this place.
pub(crate) fn count_up(used: &mut Vec<u8>, place: usize)
    requires there { place / 32 < length used.old.items }
    requires room { slice_index_or used.old.items (place / 32) 0 < 32 }
    ensures { used.new.items
        ≡ slice_set used.old.items (place / 32) (slice_index_or used.old.items (place / 32) 0 + 1) }
{
    used[place / GROUP] += 1;
}

/// Counts one item fewer in the group of this place.
pub(crate) fn count_down(used: &mut Vec<u8>, place: usize)
    requires there { place / 32 < length used.old.items }
    requires some { 0 < slice_index_or used.old.items (place / 32) 0 }
    ensures { used.new.items
        ≡ slice_set used.old.items (place / 32) (slice_index_or used.old.items (place / 32) 0 - 1) }
{
    used[place / GROUP] -= 1;
}

/// The index of the first group that isn't full, or the number of groups.
pub(crate) fn open_group(used: &[u8]) -> usize
    ensures full { (group : ℕ) → group < result → 32 ≤ slice_index_or used.now group 0 }
    ensures open { result < length used.now → slice_index_or used.now result 0 < 32 }
    ensures within { result ≤ length used.now }
{
    let mut group = 0;
    while group < used.len() && used[group] as usize >= GROUP {
        group += 1;
    }
    group
}

/// The first empty place from `from` on, or the number of places.
pub(crate) fn first_gap<T: Drop>(places: &[Option<T>], from: usize) -> usize
    requires { from ≤ length places.now }
    ensures taken { AreTaken from result places.now }
    ensures gap { result < length places.now → standing_at places.now result ≡ None }
    ensures behind { from ≤ result }
    ensures within { result ≤ length places.now }
{
    let mut place = from;
    while place < places.len() && places[place].is_some() {
        place += 1;
    }
    place
}

/// An end of the places: every place from it on is empty. It is at most the known end.
pub(crate) fn end_of<T: Drop>(places: &[Option<T>], known: usize) -> usize
    requires within { known ≤ length places.now }
    requires known { present (drop known places.now) ≡ [] }
    ensures within { result ≤ known }
    ensures behind { present (drop result places.now) ≡ [] }
{
    let mut end = known;
    while end > 0 && places[end - 1].is_none() {
        end -= 1;
    }
    end
}
