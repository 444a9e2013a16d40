//! A script, run on two racks in memory used as one, by the program's own rules.
ghost use Rattle.std.specs.Prelude.{◌≡◌, ◌∷◌, []};
ghost use Rattle.g_tape.specs.Memory.{rack_of};
ghost use Rattle.g_tape.specs.Reel.{empty_reel};

use g_disc::MemoryDisc;
use g_duplex::Duplex;
use g_duplex_tests::racks::pair;
use g_io::{MemorySink, MemorySource};
use g_program::run_by_rules;
use g_run::Finish;
use g_tape::{MemoryTapes, Tapes};
use std::alloc::Global;

/// The blocks of the disc.
const BLOCKS: u32 = 4_096;

/// The maximum length of a text in bytes.
const ROOM: usize = 65_536;

/// The pair of two racks, none of whose reels is mounted.
pub fn over_pair(first: MemoryTapes, second: MemoryTapes) -> Duplex<MemoryTapes>
    requires first { (rack_of first).reels ≡ empty_reel 1 8 ∷ [] }
    requires second { (rack_of second).reels ≡ empty_reel 1 8 ∷ [] }
{
    let mut both = pair(first, second, &[]);
    let _unmounted = both.unmount(1);
    both
}

/// Runs the script on these reels and an empty disc, and returns its text, with the reels.
pub fn text_of(
    alloc: Global,
    script: &str,
    pair: Duplex<MemoryTapes>,
) -> anyhow::Result<(String, Duplex<MemoryTapes>)> {
    let mut source = MemorySource::new(Vec::from_slice(alloc, script.as_bytes())?, Vec::new(alloc));
    let mut sink = MemorySink::new(alloc, ROOM, Vec::new(alloc))?;
    let Finish { tapes, .. } = run_by_rules(
        alloc,
        &["run"],
        &mut source,
        &mut sink,
        MemoryDisc::new(alloc, BLOCKS)?,
        pair,
    );
    Ok((String::from_utf8_lossy(alloc, sink.text())?, tapes))
}
