//! The completed dumps of a reel and of a rack, the last of them, and which writes of tape change them.
#![tactic(auto)]

mod copy;
mod last;
mod notes;
mod rack;
mod walk;

ghost use Rattle.g_shelf.specs.CompletedDumps.{CompletedAreOne};
ghost use Rattle.g_shelf.specs.HeldBlocks.{HeldInOne};
ghost use Rattle.g_shelf.specs.QuietWrites.{MarkCompletes, QuietBlocks};
ghost use Rattle.g_shelf.specs.Surviving.{BegunCompletesNothing, MarkCompletesOne};

pub use copy::{find_copy, holds, is_held};
pub use last::{first_unmounted, last_dump};
pub use notes::{completed, end_of};
pub use rack::{Listed, Notes};
pub use walk::{OfDump, next_dump, read_reel};

/// If a dump begins after the completed ones, then a write of its next block before the mark, failed or not, leaves the
/// completed dumps unchanged; and a write of its mark leaves them unchanged, or adds that dump.
#[tactic(auto, using(crate::proofs::QuietLemmas::quiet_blocks, crate::proofs::MarkLemmas::mark_completes))]
pub fn writes_of_dumps()
    ensures quiet { QuietBlocks }
    ensures mark { MarkCompletes }
{}

/// The blocks of a reel determine its completed dumps.
#[tactic(auto, using(crate::proofs::OneLemmas::completed_are_one))]
pub fn one_list_of_dumps()
    ensures one { CompletedAreOne }
{}

/// Consecutive held blocks lie in the content of one completed dump.
#[tactic(auto, using(crate::proofs::HeldLemmas::held_in_one))]
pub fn held_blocks_lie_in_one_dump()
    ensures one { HeldInOne }
{}

/// What a power loss leaves of a dump that is being written completes no dump but this one, and this one only if all of it but the mark is
/// durable.
pub fn power_losses()
    ensures begun { BegunCompletesNothing }
    ensures mark { MarkCompletesOne }
{}
