//! A law of transcripts. Its function does nothing.
ghost use Rattle.g_console.specs.Transcript.{OnlyPrinted};

/// If the list of a console's transcript is longer by some bytes, these were printed, and no line was requested meanwhile.
#[tactic(auto, using(crate::proofs::TranscriptLemmas::only_printed))]
pub fn only_printing_lengthens_a_transcript()
    ensures { OnlyPrinted }
{}
