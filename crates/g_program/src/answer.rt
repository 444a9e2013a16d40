//! What the program does by its words: a run on image and rack, or on image and two racks, or what needs none of them.
ghost use Rattle.std.specs.Prelude.{◌≡◌, ◌<◌, ◌≤◌, ◌⊎◌, IfOk};
ghost use Rattle.g_demo.specs.Words.{AskNothing, IsDemonstration, demo_words, texts_of};
ghost use Rattle.g_demo.specs.declared.demonstration.Demonstration.{Demonstration};
ghost use Rattle.g_files.specs.FileDisc.{disc_size};
ghost use Rattle.g_run.specs.Input.{IsRun};
ghost use Rattle.g_run.specs.Top.{IsOfRun, IsOfWords, code_of};
ghost use Rattle.g_session.specs.Session.{IsOfSession};
ghost use Rattle.g_program.specs.Exit.{IsCheck, IsConsole, IsExit, IsOfCheck, IsOfDemo, exit_without};

use crate::advised::Advised;
use crate::checking::{check, check_words};
use crate::console::{console, console_words};
use crate::explain::tell_bad;
use crate::noted::Noted;
use crate::on_files::run_on;
use crate::on_pairs::{EndedPair, run_on_pair};
use crate::outlook::warn_of_restore;
use crate::racks::open_racks;
use crate::rules::run_by_rules;
use crate::telling::{tell_lost, tell_missing, tell_rebuilt, tell_unusable, tell_usage};
use crate::unusable::Unusable;
use g_base::NoMemory;
use g_demo::{Asked, asked_by};
use g_devices::{HostFile, HostInput, HostOutput, HostTapes, is_there, open_image, open_rack};
use g_disc::{Disc, MemoryDisc};
use g_duplex::Duplex;
use g_files::{FileDisc, StdSink, StdSource};
use g_run::{Finish, Status};
use g_tape::{MemoryTapes, Tapes};
use std::alloc::Global;
use std::io::{self, ErrorKind};

/// The exit status if the image or the rack can't be used.
const NO_IMAGE: u8 = 7;

/// The disc's image, in the present folder.
pub(crate) const IMAGE: &str = "george.disc";

/// The folder of the reels' images, there too.
pub(crate) const RACK: &str = "george.tapes";

/// The folder of each reel's second image, where that is kept.
pub(crate) const SECOND_RACK: &str = "george.tapes2";

/// The blocks of a disc that is never read; no disc may have fewer.
const LEAST_BLOCKS: u32 = 2_178;

/// Does what the words request, and returns the exit status. It reads the words before it opens or creates anything.
pub(crate) fn answer(rt: &HostRuntime, words: &[&str]) -> u8
    ensures unknown { (IsConsole words.now → ⊥) → (IsCheck words.now → ⊥) → AskNothing (texts_of words.now) → IsExit IsOfWords result }
    ensures known { IsRun words.now → (result ≡ 7) ⊎ IsExit IsOfRun result }
    ensures console { IsConsole words.now → (result ≡ 7) ⊎ IsExit IsOfSession result }
    ensures check { IsCheck words.now → IsExit IsOfCheck result }
    ensures demo { (demo : Demonstration) → IsDemonstration demo → texts_of words.now ≡ demo_words demo → IsExit IsOfDemo result }
{
    match console_words(words) {
        Some(log) => console(rt, log),
        None => check_or_run(rt, words),
    }
}

/// Does what the words request, if that is no session.
fn check_or_run(rt: &HostRuntime, words: &[&str]) -> u8
    ensures unknown { (IsCheck words.now → ⊥) → AskNothing (texts_of words.now) → IsExit IsOfWords result }
    ensures known { IsRun words.now → (result ≡ 7) ⊎ IsExit IsOfRun result }
    ensures check { IsCheck words.now → IsExit IsOfCheck result }
    ensures demo { (demo : Demonstration) → IsDemonstration demo → texts_of words.now ≡ demo_words demo → IsExit IsOfDemo result }
{
    match check_words(words) {
        Some(()) => check(rt),
        None => run_or_demo(rt, words),
    }
}

/// Does what the words request, if that is neither a session nor a check.
fn run_or_demo(rt: &HostRuntime, words: &[&str]) -> u8
    ensures unknown { AskNothing (texts_of words.now) → IsExit IsOfWords result }
    ensures known { IsRun words.now → (result ≡ 7) ⊎ IsExit IsOfRun result }
    ensures demo { (demo : Demonstration) → IsDemonstration demo → texts_of words.now ≡ demo_words demo → IsExit IsOfDemo result }
{
    match asked_by(words) {
        Some(Asked::Run) => on_files(rt),
        Some(Asked::Demo(_demo)) => without_files(rt, words),
        None => unknown(rt, words),
    }
}

/// Explains how the program is used, if its words request nothing.
fn unknown(rt: &HostRuntime, words: &[&str]) -> u8
    ensures unknown { AskNothing (texts_of words.now) → IsExit IsOfWords result }
{
    tell_usage(rt);
    without_files(rt, words)
}

/// Runs on image and rack. The exit status is 7 if they can't be used, which standard error explains, and 5 if memory runs out before the run.
fn on_files(rt: &HostRuntime) -> u8
    ensures known { (result ≡ 7) ⊎ IsExit IsOfRun result }
{
    match run_on_files(rt) {
        Ok(code) => code,
        Err(fault) => unusable(rt, &fault),
    }
}

/// The exit status if image, racks or log can't be used. If memory didn't run out, standard error says why.
pub(crate) fn unusable(rt: &HostRuntime, fault: &Unusable) -> u8
    ensures run { (result ≡ 7) ⊎ IsExit IsOfRun result }
    ensures session { (result ≡ 7) ⊎ IsExit IsOfSession result }
{
    let memory_ran_out = fault.kind() == ErrorKind::OutOfMemory;
    if !memory_ran_out {
        tell_unusable(rt, fault);
    }
    exit_without(memory_ran_out)
}

/// The exit status if image, racks or log can't be used, by whether memory ran out.
pub(crate) fn exit_without(memory_ran_out: bool) -> u8
    ensures exact { result ≡ exit_without memory_ran_out }
    ensures run { (result ≡ 7) ⊎ IsExit IsOfRun result }
    ensures session { (result ≡ 7) ⊎ IsExit IsOfSession result }
{
    if memory_ran_out {
        Status::NoMemory.code()
    } else {
        NO_IMAGE
    }
}

/// Opens the image, and then the rack, exclusively for this run, and runs on them; it creates each if it is missing. If anything
/// has the second rack's name, it opens that too, and both are one rack.
fn run_on_files(rt: &HostRuntime) -> Result<u8, Unusable>
    ensures known { IfOk result (IsExit IsOfRun) }
{
    tell_missing(rt);
    let mut disc = open_image(rt, IMAGE)?;
    if is_there(rt, SECOND_RACK)? {
        let (mut pair, rebuilt) = open_racks(rt)?;
        tell_rebuilt(rt, &rebuilt);
        warn_of_restore(rt, &mut disc, &mut pair);
        return Ok(run_on_racks(rt, disc, pair));
    }
    let mut tapes = open_rack(rt, RACK)?;
    warn_of_restore(rt, &mut disc, &mut tapes);
    Ok(run_on_rack(rt, disc, tapes))
}

/// Runs the script of standard input on image and rack, with the text to standard output, closes them, and returns the exit status.
fn run_on_rack(rt: &HostRuntime, disc: FileDisc<HostFile>, tapes: HostTapes) -> u8
    requires size { (2177 < disc_size disc) × (disc_size disc ≤ 1048576) }
    ensures known { IsExit IsOfRun result }
{
    let mut script = Noted::new(rt.alloc(), StdSource::new(HostInput::new(rt.reader())));
    let mut out = Advised::new(rt, StdSink::new(HostOutput::new(io::writer(rt))));
    let ended = run_on(rt.alloc(), &mut script, &mut out, disc, tapes);
    tell_bad(rt, ended.status, script.text());
    ended.status.code()
}

/// Does the same on image and two racks, and reports which reels were lost in the run.
fn run_on_racks(rt: &HostRuntime, disc: FileDisc<HostFile>, pair: Duplex<HostTapes>) -> u8
    requires size { (2177 < disc_size disc) × (disc_size disc ≤ 1048576) }
    ensures known { IsExit IsOfRun result }
{
    let mut script = Noted::new(rt.alloc(), StdSource::new(HostInput::new(rt.reader())));
    let mut out = Advised::new(rt, StdSink::new(HostOutput::new(io::writer(rt))));
    let ended = run_on_pair(rt.alloc(), &mut script, &mut out, disc, pair);
    tell_bad(rt, ended.status, script.text());
    exit_of_pair(rt, &ended)
}

/// Reports which reels were lost in a run or a session on two racks, and returns its exit status.
pub(crate) fn exit_of_pair<L: Drop>(rt: &HostRuntime, ended: &EndedPair<HostFile, L>) -> u8
    ensures { result ≡ code_of ended.now.status }
{
    let code = ended.status.code();
    tell_lost(rt, ended.lost.as_slice());
    code
}

/// Does what needs neither image nor rack, on devices in memory instead.
fn without_files(rt: &HostRuntime, words: &[&str]) -> u8
    ensures unknown { AskNothing (texts_of words.now) → IsExit IsOfWords result }
    ensures demo { (demo : Demonstration) → IsDemonstration demo → texts_of words.now ≡ demo_words demo → IsExit IsOfDemo result }
{
    match spare_devices(rt.alloc()) {
        Ok((disc, tapes)) => {
            let Finish { status, .. } = run(rt, words, disc, tapes);
            status.code()
        }
        Err(NoMemory) => Status::NoMemory.code(),
    }
}

/// A disc without content, and a rack without reels.
fn spare_devices(alloc: Global) -> Result<(MemoryDisc, MemoryTapes), NoMemory>
    ensures { IfOk result (λ devices. devices.0.disc.size ≡ 2178) }
{
    let disc = MemoryDisc::new(alloc, LEAST_BLOCKS)?;
    let tapes = MemoryTapes::new(alloc, Vec::new(alloc))?;
    Ok((disc, tapes))
}

/// Runs the script of standard input on these devices, by the rules of this program, with the text to standard output.
fn run<D: Disc, T: Tapes>(rt: &HostRuntime, words: &[&str], disc: D, tapes: T) -> Finish<D, T>
    requires size { (2177 < (D.state disc).size) × ((D.state disc).size ≤ 1048576) }
    ensures unknown { AskNothing (texts_of words.now) → IsOfWords result.status }
    ensures known { IsRun words.now → IsOfRun result.status }
    ensures demo { (demo : Demonstration) → IsDemonstration demo → texts_of words.now ≡ demo_words demo → IsOfDemo result.status }
{
    let mut script = Noted::new(rt.alloc(), StdSource::new(HostInput::new(rt.reader())));
    let mut out = Advised::new(rt, StdSink::new(HostOutput::new(io::writer(rt))));
    let finish = run_by_rules(rt.alloc(), words, &mut script, &mut out, disc, tapes);
    tell_bad(rt, finish.status, script.text());
    finish
}
