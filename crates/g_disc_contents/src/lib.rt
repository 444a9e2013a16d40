//! What a disc holds, with bytes instead of block numbers, and which writes leave it unchanged.
#![tactic(auto)]

ghost use Rattle.g_disc_contents.specs.Durable.{CommitSurvives, ContentsSurvive};
ghost use Rattle.g_disc_contents.specs.Parts.{BlocksAreParts, JoinedAreParts, PartsJoin};
ghost use Rattle.g_disc_contents.specs.QuietWrites.{CommitHolds, HoldsOne, QuietHoldsCopy, QuietHoldsSlot};

/// The single writes that leave what a disc holds unchanged, whatever a failed write leaves; and the result of a commit
/// that was interrupted at any of its writes.
#[tactic(auto, using(crate::proofs::HoldLemmas::quiet_copy_holds, crate::proofs::HoldLemmas::quiet_slot_holds))]
pub fn writes_hold()
    ensures copy { QuietHoldsCopy }
    ensures slot { QuietHoldsSlot }
    ensures commit { CommitHolds }
{}

/// A disc holds at most one contents.
pub fn one_contents()
    ensures { HoldsOne }
{}

/// A block of a copy is the corresponding part of its text. Blocks hold a text if and only if each of them is the
/// corresponding part of it.
#[tactic(auto, using(crate::proofs::PartLemmas::blocks_are_parts, crate::proofs::PartLemmas::joined_are_parts, crate::proofs::PartLemmas::parts_join))]
pub fn parts_hold()
    ensures copy { BlocksAreParts }
    ensures joined { JoinedAreParts }
    ensures join { PartsJoin }
{}

/// A disc whose live blocks are durable holds the same after a power loss. After a failed commit, a power loss leaves what the disc held,
/// or the new contents.
pub fn contents_survive()
    ensures contents { ContentsSurvive }
    ensures commit { CommitSurvives }
{}
