//! A row's script, run on devices in memory by the program's own rules.
ghost use Rattle.std.specs.Prelude.{◌<◌, ◌≤◌};

use g_disc::MemoryDisc;
use g_io::{MemorySink, MemorySource};
use g_program::run_by_rules;
use g_row::{Row, Seen, disc_of, seen_of, tapes_of};
use g_run::Finish;
use g_tape::MemoryTapes;
use std::alloc::Global;

/// The maximum length of a text in bytes.
const ROOM: usize = 4_194_304;

/// More puts than any run has whose puts fail one by one.
const MOST_PUTS: u64 = 1_000;

/// Runs the row's script.
pub fn run_row(alloc: Global, row: &Row, script: &str) -> anyhow::Result<Seen> {
    let disc = disc_of(alloc, row)?;
    let tapes = tapes_of(alloc, row)?;
    let mut source = MemorySource::new(
        Vec::from_slice(alloc, script.as_bytes())?,
        [row.take].to_vec(alloc)?,
    );
    let mut sink = MemorySink::new(alloc, ROOM, [row.put].to_vec(alloc)?)?;
    let Finish {
        status,
        disc,
        tapes,
    } = run_over(alloc, &row.words, &mut source, &mut sink, disc, tapes);
    seen_of(alloc, row, status.code(), sink.text(), disc, &tapes)
}

/// Only the run: in a function of its own, the code after it is proved without all promises of the run.
fn run_over(
    alloc: Global,
    words: &[&str],
    source: &mut MemorySource,
    sink: &mut MemorySink,
    disc: MemoryDisc,
    tapes: MemoryTapes,
) -> Finish<MemoryDisc, MemoryTapes>
    requires size { (2177 < disc.disc.size) × (disc.disc.size ≤ 1048576) }
{
    run_by_rules(alloc, words, source, sink, disc, tapes)
}

/// If the row requires it: the first single put that fails and doesn't end the run with status 4 and a prefix of the text.
pub fn wrong_put(
    alloc: Global,
    row: &mut Row,
    script: &str,
    text: &str,
) -> anyhow::Result<Option<u64>> {
    if !row.each_put {
        return Ok(None);
    }
    for put in 1..MOST_PUTS {
        row.put = put;
        let seen = run_row(alloc, row, script)?;
        if seen.status == 0 {
            return Ok(None);
        }
        if seen.status != 4 || !text.starts_with(seen.text.as_str()) {
            return Ok(Some(put));
        }
    }
    Ok(Some(MOST_PUTS))
}
