//! A session on image and rack: what is typed on standard input is answered on standard output, line by line.
ghost use Rattle.std.specs.Prelude.{◌≡◌, ◌<◌, ◌≤◌, ◌⊎◌, None, IfErr, IfOk, MatchOption};
ghost use Rattle.g_files.specs.FileDisc.{disc_size};
ghost use Rattle.g_session.specs.Session.{IsOfSession};
ghost use Rattle.g_program.specs.Exit.{IsConsole, IsExit};

use crate::answer::{IMAGE, RACK, SECOND_RACK, exit_of_pair, exit_without, unusable};
use crate::explained::Explained;
use crate::on_files::session_on;
use crate::on_pairs::session_on_pair;
use crate::outlook::warn_of_restore;
use crate::racks::open_racks;
use crate::telling::{tell_missing, tell_no_log, tell_rebuilt};
use crate::unusable::Unusable;
use g_base::WriteFailed;
use g_devices::{
    HostFile, HostOutput, HostTapes, StdConsole, are_terminals, is_there, open_image, open_rack,
};
use g_duplex::Duplex;
use g_files::{FileDisc, StdSink};
use g_io::Sink;
use std::fs::File;
use std::io::{self, ErrorKind};

/// The log's name, if there is one, when the words are those of a session.
pub(crate) fn console_words<'a>(words: &[&'a str]) -> Option<Option<&'a str>>
    ensures { MatchOption result (IsConsole words.now → ⊥) (λ log. IsConsole words.now) }
{
    match words {
        [word] => if *word == "console" { Some(None) } else { None },
        [word, log] => if *word == "console" {
            Some(Some(*log))
        } else {
            None
        },
        _ => None,
    }
}

/// The log of a session that has none: it drops what is written to it.
#[derive(Drop)]
struct NoLog {}

impl Sink for NoLog {
    ghost written = { λ s. None };

    ghost faults = { λ s. 0 };

    fn put(&mut self, _piece: &[u8]) -> Result<(), WriteFailed> {
        Ok(())
    }
}

/// A session, and its exit status: 7 if image, rack or log can't be used, which standard error explains, and 5 if memory runs out before it begins.
pub(crate) fn console(rt: &HostRuntime, log: Option<&str>) -> u8
    ensures { (result ≡ 7) ⊎ IsExit IsOfSession result }
{
    match on_files(rt, log) {
        Ok(code) => code,
        Err(fault) => unusable(rt, &fault),
    }
}

/// Opens image and rack as a run does, and then makes the log.
fn on_files(rt: &HostRuntime, log: Option<&str>) -> Result<u8, Unusable>
    ensures { IfOk result (λ code. (code ≡ 7) ⊎ IsExit IsOfSession code) }
{
    tell_missing(rt);
    let mut disc = open_image(rt, IMAGE)?;
    if is_there(rt, SECOND_RACK)? {
        let (mut pair, rebuilt) = open_racks(rt)?;
        tell_rebuilt(rt, &rebuilt);
        warn_of_restore(rt, &mut disc, &mut pair);
        return Ok(match log_file(rt, log) {
            Ok(log) => session_on_racks(rt, log, disc, pair),
            Err(code) => code,
        });
    }
    let mut tapes = open_rack(rt, RACK)?;
    warn_of_restore(rt, &mut disc, &mut tapes);
    Ok(match log_file(rt, log) {
        Ok(log) => session_on_rack(rt, log, disc, tapes),
        Err(code) => code,
    })
}

/// Makes the log's file, which must not be there, or returns the exit status of a session without it.
fn log_file(rt: &HostRuntime, log: Option<&str>) -> Result<Option<File>, u8>
    ensures { IfErr result (λ code. (code ≡ 7) ⊎ IsExit IsOfSession code) }
{
    let Some(name) = log else {
        return Ok(None);
    };
    match File::create_new(rt, name) {
        Ok(file) => Ok(Some(file)),
        Err(fault) => Err(without_log(rt, fault.kind() == ErrorKind::OutOfMemory)),
    }
}

/// The exit status if the log can't be made. If memory didn't run out, standard error says so.
fn without_log(rt: &HostRuntime, memory_ran_out: bool) -> u8
    ensures { (result ≡ 7) ⊎ IsExit IsOfSession result }
{
    if !memory_ran_out {
        tell_no_log(rt);
    }
    exit_without(memory_ran_out)
}

/// A session on image and rack, which closes them, and its exit status.
fn session_on_rack(
    rt: &HostRuntime,
    log: Option<File>,
    disc: FileDisc<HostFile>,
    tapes: HostTapes,
) -> u8
    requires size { (2177 < disc_size disc) × (disc_size disc ≤ 1048576) }
    ensures { IsExit IsOfSession result }
{
    let mut console = Explained::new(
        rt,
        StdConsole::new(rt.reader(), io::writer(rt), are_terminals(rt)),
    );
    match log {
        None => {
            let mut log = NoLog {};
            let ended = session_on(rt.alloc(), &mut console, &mut log, disc, tapes);
            ended.status.code()
        }
        Some(file) => {
            let mut log = StdSink::new(HostOutput::new(file));
            let ended = session_on(rt.alloc(), &mut console, &mut log, disc, tapes);
            ended.status.code()
        }
    }
}

/// The same on image and two racks; it also reports which reels were lost.
fn session_on_racks(
    rt: &HostRuntime,
    log: Option<File>,
    disc: FileDisc<HostFile>,
    pair: Duplex<HostTapes>,
) -> u8
    requires size { (2177 < disc_size disc) × (disc_size disc ≤ 1048576) }
    ensures { IsExit IsOfSession result }
{
    let mut console = Explained::new(
        rt,
        StdConsole::new(rt.reader(), io::writer(rt), are_terminals(rt)),
    );
    match log {
        None => {
            let mut log = NoLog {};
            let ended = session_on_pair(rt.alloc(), &mut console, &mut log, disc, pair);
            exit_of_pair(rt, &ended)
        }
        Some(file) => {
            let mut log = StdSink::new(HostOutput::new(file));
            let ended = session_on_pair(rt.alloc(), &mut console, &mut log, disc, pair);
            exit_of_pair(rt, &ended)
        }
    }
}
