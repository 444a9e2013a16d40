//! The seal of a disc and a rack, a text with the SHA-256 of each completed dump and of the bytes of each file; and the check of a disc and a rack
//! against a seal. Nothing is written.
#![tactic(auto)]

mod adding;
mod disc_sum;
mod dumps;
mod entries;
mod files;
mod header;
mod line_reader;
mod lines;
mod parse;
mod reel_state;
mod reel_sum;
mod reporting;
mod room;
mod rotten_dumps;
mod rotten_files;
mod rotten_line;
mod sealing;
mod twins;
mod versions;

ghost use Rattle.g_seal.specs.Entries.{TextIsOne};
ghost use Rattle.g_seal.specs.Rotten.{OwnIsQuiet};

pub use entries::{SealedDump, SealedFile};
pub use parse::{Seal, SealFault, parse_seal};
pub use reporting::rotten;
pub use rotten_dumps::RottenDump;
pub use sealing::{Sealed, seal};
pub use twins::{Twins, twins_of};

/// The text of a seal determines its dumps and files.
#[tactic(auto, using(crate::proofs::EntryLemmas::text_is_one))]
pub fn one_seal()
    ensures one { TextIsOne }
{}

/// A store that hasn't changed has nothing to report against the text of its own seal.
pub fn own_seal()
    ensures quiet { OwnIsQuiet }
{}
