//! A dump and the blocks of tape that it occupies: what a dump will hold, the writer of its blocks, and the reader of a
//! dump on a reel.
#![tactic(auto)]

ghost use Rattle.g_incr.specs.Plan.{PlanGivesDump};

mod fault;
mod header;
mod held;
mod note;
mod read;
mod records;
mod rules;
mod tape;
mod waiting;
mod writer;

pub use fault::ShelfFault;
pub use note::{DumpDir, DumpNote};
pub use read::read_dump;
pub use tape::{read_block, read_blocks};
pub use writer::{Piece, Writer, copied_users};

/// A plan gives a dump that satisfies the rules, for any content.
pub fn plan_gives_dump()
    ensures dump { PlanGivesDump }
{}
