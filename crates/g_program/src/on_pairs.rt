//! Runs and sessions from files to files with two racks: they are one rack meanwhile, and both are closed at the end.
ghost use Rattle.std.specs.Prelude.{◌<◌, ◌≤◌};
ghost use Rattle.g_duplex.specs.Meaning.{pair_of};
ghost use Rattle.g_duplex.specs.Pair.{shown};
ghost use Rattle.g_files.specs.FileDisc.{disc_size, disc_state};
ghost use Rattle.g_program.specs.RunsOn.{RunsOnPair};
ghost use Rattle.g_program.specs.SessionOn.{SessionOnPair};
ghost use Rattle.g_run.specs.ScriptEnd.{both};

use crate::rules::{run_by_rules, session_by_rules};
use g_closing::close_pair;
use g_console::Console;
use g_duplex::{Duplex, LostTwins};
use g_files::{FileDisc, FileTapes, RawFile};
use g_io::{Sink, Source};
use g_run::Status;
use std::alloc::Global;

/// The end of a run or a session on files with two racks: its status, and all devices on their files.
#[derive(Drop)]
pub struct EndedPair<F: RawFile + Drop, L: Drop> {
    pub status: Status,
    /// Whether everything was written to the files and synced. If not, they may lack what no commit and no completed dump has.
    pub closed: bool,
    pub disc: FileDisc<F>,
    pub first: FileTapes<F, L>,
    pub second: FileTapes<F, L>,
    /// The reels that one of the racks lost, by increasing serial.
    pub lost: LostTwins,
}

/// Runs the script that the source has left on a disc and two racks on open files, as `run_on` does on one.
pub fn run_on_pair<S: Source, K: Sink, F: RawFile + Drop, L: Drop>(
    alloc: Global,
    script: &mut S,
    out: &mut K,
    disc: FileDisc<F>,
    pair: Duplex<FileTapes<F, L>>,
) -> EndedPair<F, L>
    requires size { (2177 < disc_size disc) × (disc_size disc ≤ 1048576) }
    ensures runs { RunsOnPair result.status result.closed result.disc result.first result.second result.lost
        (record {
          script = record { bytes = S.left script.old; faults = S.faults script.old };
          out = record { bytes = K.written out.old; faults = K.faults out.old };
          devices = both (disc_state disc) (shown (pair_of pair));
        })
        (record { bytes = S.left script.new; faults = S.faults script.new })
        (record { bytes = K.written out.new; faults = K.faults out.new }) }
{
    let finish = run_by_rules(alloc, &["run"], script, out, disc, pair);
    let mut disc = finish.disc;
    let parts = finish.tapes.into_parts();
    let mut first = parts.first;
    let mut second = parts.second;
    let closed = close_pair(&mut disc, &mut first, &mut second);
    EndedPair {
        status: finish.status,
        closed,
        disc,
        first,
        second,
        lost: parts.lost,
    }
}

/// A session on a disc and two racks on open files, as `session_on` holds it on one.
pub fn session_on_pair<C: Console, K: Sink, F: RawFile + Drop, L: Drop>(
    alloc: Global,
    console: &mut C,
    log: &mut K,
    disc: FileDisc<F>,
    pair: Duplex<FileTapes<F, L>>,
) -> EndedPair<F, L>
    requires size { (2177 < disc_size disc) × (disc_size disc ≤ 1048576) }
    ensures session { SessionOnPair result.status result.closed result.disc result.first result.second result.lost
        (record {
          transcript = C.transcript console.old;
          faults = C.faults console.old;
          log = record { bytes = K.written log.old; faults = K.faults log.old };
          devices = both (disc_state disc) (shown (pair_of pair));
        })
        (C.transcript console.new)
        (C.faults console.new)
        (record { bytes = K.written log.new; faults = K.faults log.new }) }
{
    let finish = session_by_rules(alloc, console, log, disc, pair);
    let mut disc = finish.disc;
    let parts = finish.tapes.into_parts();
    let mut first = parts.first;
    let mut second = parts.second;
    let closed = close_pair(&mut disc, &mut first, &mut second);
    EndedPair {
        status: finish.status,
        closed,
        disc,
        first,
        second,
        lost: parts.lost,
    }
}
