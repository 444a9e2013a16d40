//! A row's session, on devices in memory by the program's own rules.
ghost use Rattle.std.specs.Prelude.{◌<◌, ◌≤◌};

use crate::talk::Talk;
use g_disc::MemoryDisc;
use g_io::MemorySink;
use g_memory_console::MemoryConsole;
use g_program::session_by_rules;
use g_row::{Row, Seen, disc_of, seen_of, tapes_of};
use g_run::Finish;
use g_tape::MemoryTapes;
use std::alloc::Global;

/// The maximum length of a log in bytes.
const ROOM: usize = 65_536;

/// The results of a session, and its log.
#[derive(Drop)]
pub struct Left {
    pub seen: Seen,
    pub log: String,
}

/// Types what the row's session has.
pub fn run_row(alloc: Global, row: &Row, talk: &Talk) -> anyhow::Result<Left> {
    let disc = disc_of(alloc, row)?;
    let tapes = tapes_of(alloc, row)?;
    let typed = Vec::from_slice(alloc, talk.typed().as_bytes())?;
    let mut console = MemoryConsole::new(alloc, typed);
    let mut log = MemorySink::new(alloc, ROOM, Vec::new(alloc))?;
    let Finish {
        status,
        disc,
        tapes,
    } = session_over(alloc, &mut console, &mut log, disc, tapes);
    Ok(Left {
        seen: seen_of(alloc, row, status.code(), console.text(), disc, &tapes)?,
        log: String::from_utf8_lossy(alloc, log.text())?,
    })
}

/// Only the session: in a function of its own, the code after it is proved without all promises of the session.
fn session_over(
    alloc: Global,
    console: &mut MemoryConsole,
    log: &mut MemorySink,
    disc: MemoryDisc,
    tapes: MemoryTapes,
) -> Finish<MemoryDisc, MemoryTapes>
    requires size { (2177 < disc.disc.size) × (disc.disc.size ≤ 1048576) }
{
    session_by_rules(alloc, console, log, disc, tapes)
}
