//! The program `look` on the devices of a real machine, with its words and exit status.
#![tactic(auto)]

mod against;
mod answer;
mod both_racks;
mod mount;
mod status;
mod tell;
mod twins;
mod words;

use crate::answer::answer;
pub use against::{Against, look_against};
pub use answer::look;
pub use both_racks::{Racks, look_against_both};
use g_devices::{placeholders, texts_of, words_of};
pub use status::Status;
use std::process::ExitCode;
pub use twins::{tell_rotten_twins, tell_twins};
pub use words::{Asked, asked_by};

/// Prints what the words of the command line request of the image `george.disc` and the rack `george.tapes` in the working folder, on standard
/// output. Nothing is created or written; both are locked shared, so other looks may run concurrently, but no run. With other words no file is
/// opened.
///
/// The exit status is the look's (`Status`); it is 7, and nothing is printed, if image or rack doesn't exist, can't be opened, is used by a run or
/// isn't within the limits of a disc or rack (docs/MANUAL.md, "When something looks wrong").
pub fn run_program(rt: &HostRuntime) -> ExitCode {
    let Ok(words) = words_of(rt) else {
        return ExitCode::from(Status::NoMemory.code());
    };
    let Ok(words) = texts_of(rt.alloc(), &words) else {
        return ExitCode::from(Status::NoMemory.code());
    };
    let _placeholders = placeholders(rt);
    ExitCode::from(answer(rt, &words))
}
