//! The program `look`: whether the disc image `george.disc` and the reels in `george.tapes` of the present folder belong
//! together, and what is on them, to standard output. Nothing is written to them.
#![tactic(auto)]

use std::process::ExitCode;

fn main(rt: HostRuntime) -> ExitCode {
    g_look_program::run_program(&rt)
}
