//! The program `george`: a script from standard input, run on the disc image `george.disc` of the present folder, its
//! text to standard output.
#![tactic(auto)]

use std::process::ExitCode;

fn main(rt: HostRuntime) -> ExitCode {
    g_program::run_program(&rt)
}
