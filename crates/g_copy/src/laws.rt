//! A law about copies on disc. It has no code; its clause holds for every disc.
ghost use Rattle.g_copy.specs.Laws.{CopiesStay};

/// If the copy area is unchanged, so are the bytes of every copy.
pub fn copies_stay()
    ensures { CopiesStay }
{}
