//! Laws about the directory that a disc holds. They have no code; their clauses hold for every disc.
ghost use Rattle.g_dirs.specs.Durable.{DirectorySurvives, LiveIsSafe, QuietWritesStayDurable, SafeStays};
ghost use Rattle.g_dirs.specs.QuietWrites.{QuietBytes, QuietCopy, QuietSlot, StandsForOne};

/// Which single writes don't change the directory that a disc holds, even if they fail.
pub fn quiet_writes()
    ensures slot { QuietSlot }
    ensures copy { QuietCopy }
    ensures bytes { QuietBytes }
{}

/// A disc holds at most one directory, in either format.
pub fn one_directory()
    ensures { StandsForOne }
{}

/// A directory whose live blocks are durable survives a power loss, with its files. Writes of other blocks leave the live ones durable.
/// A disc whose live blocks are durable is safe; and if the gate of a safe disc is durable, so are its live blocks. A safe disc
/// stays safe while its blocks don't change and durable ones stay durable.
pub fn power_losses()
    ensures survives { DirectorySurvives }
    ensures quiet { QuietWritesStayDurable }
    ensures safe { LiveIsSafe }
    ensures stays { SafeStays }
{}
