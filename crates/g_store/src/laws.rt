//! Theorems about the clauses of a store's making, and of PROCESS. No code is involved.
ghost use Rattle.g_store.specs.Completeness.{MakingIsComplete, ProcessIsComplete};

/// If no fault counter rose, FORMAT on empty reels, START from a disc that holds a filestore, without an intent or with its
/// reel mounted, and RESTORE with all reels mounted and a completed dump, if disc and rack belong together, are done,
/// unless memory ran out.
pub fn making_is_complete()
    ensures { MakingIsComplete }
{}

/// If no fault counter rose, and disc and rack expose their contents and belong together, then PROCESS onto a free reel
/// with room, of a store that is up, is done, unless memory ran out.
pub fn process_is_complete()
    ensures { ProcessIsComplete }
{}
