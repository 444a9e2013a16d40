//! The program on the devices of a real machine, with the words and the exit status; and the rules by which its jobs pay
//! and take turns.
#![tactic(auto)]

mod advised;
mod answer;
mod checking;
mod console;
mod explain;
mod explained;
mod noted;
mod on_files;
mod on_pairs;
mod outlook;
mod racks;
mod rules;
mod telling;
mod unusable;

use crate::answer::answer;
use g_devices::{placeholders, texts_of, words_of};
use g_run::Status;
pub use on_files::{Ended, run_on, session_on};
pub use on_pairs::{EndedPair, run_on_pair, session_on_pair};
pub use rules::{run_by_rules, session_by_rules};
use std::process::ExitCode;

/// Does what the words of the command line ask for. The word `run` runs the script of standard input on the image
/// `george.disc` and the rack `george.tapes` of the present folder, with the text to standard output; `console` answers
/// standard input line by line, and `console LOG` also writes the lines that were executed to the new file LOG, as a script. With all other words
/// no file is opened or made. Where `george.tapes2` is there too, each reel is kept in both folders (docs/MANUAL.md, "A second
/// rack"), and standard error has one line for each reel that was rebuilt before the run, and for each that was lost in it.
///
/// The exit status is the run's; 7 if the image or the rack can't be opened, is in use by another run or isn't within the limits
/// of a disc or rack (docs/MANUAL.md, "Exit status"); 5 if memory runs out before the run. With the last two nothing is printed.
pub fn run_program(rt: &HostRuntime) -> ExitCode {
    let Ok(words) = words_of(rt) else {
        return ExitCode::from(Status::NoMemory.code());
    };
    let Ok(words) = texts_of(rt.alloc(), &words) else {
        return ExitCode::from(Status::NoMemory.code());
    };
    let _placeholders = placeholders(rt);
    ExitCode::from(answer(rt, &words))
}
