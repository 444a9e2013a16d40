//! Laws of paired reels. The functions do nothing; their clauses state what holds for every two racks.
ghost use Rattle.g_duplex.specs.Laws.{AnswerAlike, FailsWithAll, LosesWithCause, LossIsNotSeen, LossesAreNotSeen};

/// The pair shows the same for either lost twin, whatever the lost one then holds.
pub fn a_lost_twin_is_not_seen()
    ensures one { LossIsNotSeen }
    ensures all { LossesAreNotSeen }
{}

/// A read fails only if it failed on each twin that may be read, and a write only if it failed on the leading one; a write
/// loses the second twin only if it failed in that rack, or if that reel was too short for it.
pub fn who_fails_was_asked()
    ensures fails { FailsWithAll }
    ensures loses { LosesWithCause }
{}

/// Racks that show the same give the same answers, and show the same afterwards, as long as no call fails.
pub fn racks_answer_alike()
    ensures { AnswerAlike }
{}
