//! The lists of remembered dumps, one for each reel that was queried.
ghost use Rattle.std.specs.Prelude.{◌≡◌, ◌+◌, MatchOption};
ghost use Rattle.g_known.specs.ReelNotes.{HasForgotten, HasNone, HasWritten, IsPlaceIn, end_in, noted};

use g_incr::DumpNote;

/// The notes of the first dumps of a reel, in their order.
#[derive(Drop)]
pub(crate) struct NotedReel {
    pub(crate) serial: u32,
    pub(crate) notes: Vec<DumpNote>,
}

/// The block after the dumps of these notes.
pub(crate) fn end(notes: &[DumpNote]) -> u64
    ensures { result ≡ end_in 0 notes.now }
{
    match notes.last() {
        Some(note) => behind(note),
        None => 0,
    }
}

/// The block after the dump. The sum has 64 bits, since a note may name any block.
fn behind(note: &DumpNote) -> u64
    ensures { result ≡ note.now.place + (note.now.count + 2) }
{
    u64::from(note.place) + (u64::from(note.count) + 2)
}

/// The position of the reel's list.
pub(crate) fn place_of(lists: &[NotedReel], serial: u32) -> Option<usize>
    ensures { MatchOption result (HasNone serial lists.now) (IsPlaceIn serial lists.now) }
{
    for (i, list) in lists.iter().enumerate() {
        if list.serial == serial {
            return Some(i);
        }
    }
    None
}

/// What is remembered of the reel: nothing, if it has no list.
pub(crate) fn notes_of(lists: &[NotedReel], serial: u32) -> &[DumpNote]
    ensures { result.now ≡ noted serial lists.now }
{
    match place_of(lists, serial) {
        Some(place) => lists[place].notes.as_slice(),
        None => &[],
    }
}

/// Forgets the reel.
pub(crate) fn forget(lists: &mut Vec<NotedReel>, serial: u32)
    ensures { HasForgotten serial lists.old.items lists.new.items }
{
    match place_of(lists.as_slice(), serial) {
        Some(place) => lists[place].notes.clear(),
        None => {}
    }
}

/// Forgets the reel, if one of its remembered dumps ends after block `k`.
pub(crate) fn forget_from(lists: &mut Vec<NotedReel>, serial: u32, k: u32)
    ensures { HasWritten serial k lists.old.items lists.new.items }
{
    if u64::from(k) < end(notes_of(lists.as_slice(), serial)) {
        forget(lists, serial);
    }
}
