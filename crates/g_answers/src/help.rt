//! The answers to HELP: what may be typed, and what a refusal means. Each line of them is one of the console's own.
ghost use Rattle.std.specs.Prelude.{◌≡◌, ◌++◌, IfOk, OnOk};
ghost use Rattle.std.specs.List.{flat_map};
ghost use Rattle.g_laws_sessions.specs.Asked.{AreOwnLines, own_line};
ghost use Rattle.g_lines.specs.Lines.{lines_of};

use crate::meanings::meaning;
use g_base::NoMemory;
use g_lines::Lines;
use g_name::Text;
use std::alloc::Global;

/// What may be typed.
const HELP: &str = "FORMAT                         make a new filestore; the reels have to be empty
START, SHUT                    bring the system up; take it down
RESTORE                        make the filestore of the last dump; all reels have to be mounted
MOUNT S, UNMOUNT S             mount reel S, the file george.tapes/S.tape; unmount it
DUMP S                         dump all changes on reel S
PROCESS S                      write all versions on reel S, and release the other reels
MIGRATE :USER.NAME             take a dumped file off the disc
STOP DISC K, STOP TAPE K       make the K-th next write fail
JOB NAME,:USER,TIME N          submit a job; its document follows, up to a line ****
LOGIN T,:USER,TIME N           begin terminal T, from 1 to 8
T1 TEXT                        type a line at terminal 1, as TYPE 1,TEXT does
LOGOUT T                       end terminal T
an empty line                  let the system run until nothing can step
0 LINE                         do LINE, and let nothing run after it
?                              where things stand
HELP N                         what REFUSED N or ERROR N means
Ctrl-D                         end the session";

/// What may be typed, as lines of the console's own.
pub fn help_text(alloc: Global) -> Result<Text, NoMemory>
    ensures { IfOk result AreOwnLines }
{
    own_lines(alloc, HELP.as_bytes())
}

/// What the refusal of this number means, as lines of the console's own.
pub fn refusal_text(alloc: Global, number: u64) -> Result<Text, NoMemory>
    ensures { IfOk result AreOwnLines }
{
    own_lines(alloc, meaning(number).as_bytes())
}

/// The lines of a text as lines of the console's own.
#[tactic(auto, using(crate::proofs::OwnLemmas::own_ones))]
fn own_lines(alloc: Global, what: &[u8]) -> Result<Text, NoMemory>
    ensures { IfOk result AreOwnLines }
{
    let mut text = Text::new(alloc);
    push_own_lines(&mut text, what)?;
    Ok(text)
}

/// Appends the lines of a text as lines of the console's own.
fn push_own_lines(text: &mut Text, what: &[u8]) -> Result<(), NoMemory>
    ensures { OnOk result (text.new ≡ text.old ++ flat_map own_line (lines_of what.now)) }
{
    let mut lines = Lines::new(what);
    while let Some(line) = lines.next() {
        push_own(text, line)?;
    }
    Ok(())
}

/// Appends a line of the console's own.
fn push_own(text: &mut Text, what: &[u8]) -> Result<(), NoMemory>
    ensures { OnOk result (text.new ≡ text.old ++ own_line what.now) }
{
    text.extend(b"? ")?;
    text.extend(what)?;
    text.push(b'\n')
}
