//! The word `check`: the script of standard input is read, and standard error says what is wrong with it. Nothing is run, and no file is opened.
ghost use Rattle.std.specs.Prelude.{◌≡◌, ℕ, IfErr, IfOk, List, MatchOption, Some};
ghost use Rattle.g_program.specs.Exit.{Finds, IsCheck, IsExit, IsFaultOf, IsOfCheck};

use crate::explain::tell_bad;
use g_base::NoMemory;
use g_devices::HostInput;
use g_files::StdSource;
use g_io::Source;
use g_run::Status;
use g_script::parse_script;
use std::alloc::Global;

/// The most bytes that a script may have.
const LIMIT: usize = 16_777_216;

/// How many bytes are taken at a time.
const PIECE: usize = 4_096;

/// The request for a check, if the words are one.
pub(crate) fn check_words(words: &[&str]) -> Option<()>
    ensures { MatchOption result (IsCheck words.now → ⊥) (λ it. IsCheck words.now) }
{
    match words {
        [word] => if *word == "check" { Some(()) } else { None },
        _ => None,
    }
}

/// Checks the script of standard input, and returns the exit status that its run would have if nothing failed.
pub(crate) fn check(rt: &HostRuntime) -> u8
    ensures { IsExit IsOfCheck result }
{
    let mut script = StdSource::new(HostInput::new(rt.reader()));
    check_script(rt, &mut script).code()
}

/// Reads and parses a script.
fn check_script<S: Source>(rt: &HostRuntime, script: &mut S) -> Status
    ensures of { IsOfCheck result }
    ensures finds { (left : List ℕ) → S.left script.old ≡ Some left → Finds result left }
    ensures cause { IsFaultOf result (S.faults script.old) (S.faults script.new) }
{
    let text = match read_all(rt.alloc(), script) {
        Ok(text) => text,
        Err(status) => return status,
    };
    let status = found_in(rt.alloc(), text.as_slice());
    tell_bad(rt, status, Some(text.as_slice()));
    status
}

/// What a check finds in a text.
fn found_in(alloc: Global, text: &[u8]) -> Status
    ensures of { IsOfCheck result }
    ensures finds { Finds result text.now }
    ensures cause { (faults : ℕ) → IsFaultOf result faults faults }
{
    match parse_script(alloc, text) {
        Ok(script) => match script.bad {
            Some(line) => Status::BadScript(line),
            None => Status::Done,
        },
        Err(NoMemory) => Status::NoMemory,
    }
}

/// Reads all that a source has, or returns the status with which that ends.
fn read_all<S: Source>(alloc: Global, script: &mut S) -> Result<Vec<u8>, Status>
    ensures all { IfOk result (λ text. (left : List ℕ) → S.left script.old ≡ Some left → text.items ≡ left) }
    ensures quiet { IfOk result (λ text. S.faults script.new ≡ S.faults script.old) }
    ensures of { IfErr result IsOfCheck }
    ensures finds { IfErr result (λ status. (left : List ℕ) → S.left script.old ≡ Some left → Finds status left) }
    ensures cause { IfErr result (λ status. IsFaultOf status (S.faults script.old) (S.faults script.new)) }
{
    let mut text = Vec::new(alloc);
    let mut buffer = [0u8; PIECE];
    'pieces: while text.len() <= LIMIT {
        let Ok(count) = script.take(&mut buffer) else {
            return Err(Status::ScriptFault);
        };
        if count == 0 {
            return Ok(text);
        }
        match text.extend_from_slice(&buffer[..count]) {
            Ok(()) => {}
            Err(_) => return Err(Status::NoMemory),
        }
    }
    Err(Status::TooLong)
}
