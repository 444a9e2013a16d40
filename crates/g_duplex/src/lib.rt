//! Paired reels: two racks with the same reels, shown as one. If one reel of a pair is lost or can't be read, the other one is
//! used.
#![tactic(auto)]

mod asking;
mod calls;
mod comparing;
mod copying;
mod duplex;
mod fault;
mod laws;
mod places;
mod rebuild;
mod standings;
mod twin;

pub use comparing::first_difference;
pub use duplex::{Duplex, Parts};
pub use fault::DuplexFault;
pub use laws::{a_lost_twin_is_not_seen, racks_answer_alike, who_fails_was_asked};
pub use places::standing_by;
pub use standings::LostTwins;
pub use twin::{Standing, Twin};
