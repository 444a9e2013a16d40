//! A look at a disc and a rack: whether they belong together, what is on them, and what a restore of the rack would give. Nothing is written.
#![tactic(auto)]

mod broken;
mod broken_text;
mod bytes;
mod check_text;
mod checking;
mod disc;
mod disc_text;
mod fault;
mod file_text;
mod gaps;
mod head;
mod holding;
mod listing;
mod ordered;
mod outlook;
mod pairs;
mod parts;
mod rack;
mod rack_text;
mod records;
mod restoring;
mod room;
mod showing;
mod tape;

ghost use Rattle.g_look.specs.Outlooks.{KnownIsOne};
ghost use Rattle.g_look.specs.Rules.{BrokenIsNot, FitsBelong, RackHasNone, VerdictIsRight};

pub use broken::{Broken, DumpAt, Lie, Verdict};
pub use bytes::copy_at;
pub use checking::{Checked, check};
pub use disc::{Standing, see_disc};
pub use fault::LookFault;
pub use holding::dumps;
pub use listing::list;
pub use outlook::{Outlook, foresee_restore};
pub use parts::{push_copy, push_lie, push_told};
pub use rack::see_rack;
pub use restoring::{Given, restorable};
pub use showing::show;

/// If a rule is found broken, disc and rack don't belong together.
pub fn broken_is_not()
    ensures broken { BrokenIsNot }
{}

/// If no rule is broken, disc and rack belong together.
#[tactic(auto, using(crate::proofs::FitLemmas::fits_belong))]
pub fn fits_belong()
    ensures fits { FitsBelong }
{}

/// If no rule of the rack is broken, it has no breach; and a verdict says exactly whether disc and rack belong together.
pub fn verdicts()
    ensures rack { RackHasNone }
    ensures right { VerdictIsRight }
{}

/// A disc knows of exactly one dump as the last one; if it represents a directory, this is the one in the directory's head.
pub fn known_is_one()
    ensures one { KnownIsOne }
{}
