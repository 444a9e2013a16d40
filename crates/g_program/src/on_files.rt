//! Runs and sessions from files to files: on a disc and a rack on open files, which are closed at their end.
ghost use Rattle.std.specs.Prelude.{◌<◌, ◌≤◌};
ghost use Rattle.g_files.specs.FileDisc.{disc_size, disc_state};
ghost use Rattle.g_files.specs.FileTapes.{rack_of};
ghost use Rattle.g_program.specs.RunsOn.{RunsOn};
ghost use Rattle.g_program.specs.SessionOn.{SessionOn};
ghost use Rattle.g_run.specs.ScriptEnd.{both};

use crate::rules::{run_by_rules, session_by_rules};
use g_closing::close;
use g_console::Console;
use g_files::{FileDisc, FileTapes, RawFile};
use g_io::{Sink, Source};
use g_run::Status;
use std::alloc::Global;

/// The end of a run or a session on files: its status, and both devices on their files.
#[derive(Drop)]
pub struct Ended<F: RawFile + Drop, L: Drop> {
    pub status: Status,
    /// Whether everything was written to the files and synced. If not, they may lack what no commit and no completed dump has.
    pub closed: bool,
    pub disc: FileDisc<F>,
    pub tapes: FileTapes<F, L>,
}

/// Runs the script that the source has left on a disc and a rack on open files, by the rules of this program, prints its text to the
/// sink, and closes the files. Both devices are returned with every status (docs/MANUAL.md, "Exit status").
///
/// A disc and a rack that were just opened are what their files hold (`FileDisc::open`, `FileReel::open`).
pub fn run_on<S: Source, K: Sink, F: RawFile + Drop, L: Drop>(
    alloc: Global,
    script: &mut S,
    out: &mut K,
    disc: FileDisc<F>,
    tapes: FileTapes<F, L>,
) -> Ended<F, L>
    requires size { (2177 < disc_size disc) × (disc_size disc ≤ 1048576) }
    ensures runs { RunsOn result.status result.closed result.disc result.tapes
        (record {
          script = record { bytes = S.left script.old; faults = S.faults script.old };
          out = record { bytes = K.written out.old; faults = K.faults out.old };
          devices = both (disc_state disc) (rack_of tapes);
        })
        (record {
          script = record { bytes = S.left script.new; faults = S.faults script.new };
          out = record { bytes = K.written out.new; faults = K.faults out.new };
          devices = both (disc_state result.disc) (rack_of result.tapes);
        }) }
{
    let finish = run_by_rules(alloc, &["run"], script, out, disc, tapes);
    let mut disc = finish.disc;
    let mut tapes = finish.tapes;
    let closed = close(&mut disc, &mut tapes);
    Ended {
        status: finish.status,
        closed,
        disc,
        tapes,
    }
}

/// A session on a disc and a rack on open files, by the rules of this program, which closes the files. Both devices are returned with
/// every status (docs/MANUAL.md, "The console").
pub fn session_on<C: Console, K: Sink, F: RawFile + Drop, L: Drop>(
    alloc: Global,
    console: &mut C,
    log: &mut K,
    disc: FileDisc<F>,
    tapes: FileTapes<F, L>,
) -> Ended<F, L>
    requires size { (2177 < disc_size disc) × (disc_size disc ≤ 1048576) }
    ensures session { SessionOn result.status result.closed result.disc result.tapes
        (record {
          transcript = C.transcript console.old;
          faults = C.faults console.old;
          log = record { bytes = K.written log.old; faults = K.faults log.old };
          devices = both (disc_state disc) (rack_of tapes);
        })
        (record {
          transcript = C.transcript console.new;
          faults = C.faults console.new;
          log = record { bytes = K.written log.new; faults = K.faults log.new };
          devices = both (disc_state result.disc) (rack_of result.tapes);
        }) }
{
    let finish = session_by_rules(alloc, console, log, disc, tapes);
    let mut disc = finish.disc;
    let mut tapes = finish.tapes;
    let closed = close(&mut disc, &mut tapes);
    Ended {
        status: finish.status,
        closed,
        disc,
        tapes,
    }
}
