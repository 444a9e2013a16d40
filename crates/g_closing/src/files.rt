//! What is buffered reaches the files.
ghost use Rattle.g_closing.specs.Files.{Closes, ClosesPair};

use g_files::{FileDisc, FileTapes, RawFile};

/// Writes to the files what a run buffered, cuts off what failed calls left after the reels, syncs what the run wrote, and returns whether all
/// of that succeeded. If it fails for one file, the others are closed all the same.
pub fn close<F: RawFile + Drop, L: Drop>(
    disc: &mut FileDisc<F>,
    tapes: &mut FileTapes<F, L>,
) -> bool
    ensures closes { Closes result disc.old disc.new tapes.old tapes.new }
{
    let saved = disc.finish().is_ok();
    let finished = tapes.finish().is_ok();
    saved && finished
}

/// The same for two racks.
pub fn close_pair<F: RawFile + Drop, L: Drop>(
    disc: &mut FileDisc<F>,
    first: &mut FileTapes<F, L>,
    second: &mut FileTapes<F, L>,
) -> bool
    ensures closes { ClosesPair result disc.old disc.new first.old first.new second.old second.new }
{
    let saved = close(disc, first);
    let finished = second.finish().is_ok();
    saved && finished
}
