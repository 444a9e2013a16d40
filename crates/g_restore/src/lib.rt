//! General restore: builds the filestore that the completed dumps of a rack give together, on an arbitrary disc.
#![tactic(auto)]

mod directory;
mod dumps;
mod gather;
mod places;
mod restore;

ghost use Rattle.g_restore.specs.Reels.{AreAllDumps};

pub use directory::{Dumped, fold};
pub use dumps::{Found, read_rack};
pub use places::any_has;
pub use restore::rebuild;

/// If the reels expose their blocks, the dumps that are read from them are all completed dumps.
pub fn dumps_of_reels()
    ensures all { AreAllDumps }
{}
