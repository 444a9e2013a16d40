//! The rows of the whole store: sequences of events and calls, on a disc and reels in memory. The data files contain them.
//! A line is printed for each row, with the difference if there is one.
#![tactic(auto)]

mod asking;
mod blocks;
mod conversing;
mod down;
mod events;
mod jobs;
mod operating;
mod processing;
mod reading;
mod rows;
mod setting;
mod stops;
mod system;

use std::fs;
use std::test::Fail;

fn main(rt: HostRuntime) -> Result<(), Fail> {
    files_of_rows(&rt)?;
    stopped_puts(&rt)?;
    stopped_processes(&rt)?;
    conversing::run(&rt)?;
    job_over_both(&rt)
}

fn files_of_rows(rt: &HostRuntime) -> Result<(), Fail> {
    let beginnings = fs::read_to_string(rt, "beginnings.txt")?;
    for name in [
        "ample.rows",
        "by_hand.rows",
        "calls.rows",
        "dumps.rows",
        "offline.rows",
        "processed.rows",
        "replaced.rows",
        "stops.rows",
    ] {
        rows_of(rt, beginnings.as_str(), name)?;
    }
    Ok(())
}

fn rows_of(rt: &HostRuntime, beginnings: &str, name: &str) -> Result<(), Fail> {
    let text = fs::read_to_string(rt, name)?;
    rows::run(rt, beginnings, text.as_str())
}

fn stopped_puts(rt: &HostRuntime) -> Result<(), Fail> {
    let before = fs::read_to_string(rt, "makes_room.rows")?;
    stops::run(rt, before.as_str())?;
    Ok(())
}

fn stopped_processes(rt: &HostRuntime) -> Result<(), Fail> {
    let before = fs::read_to_string(rt, "processes.rows")?;
    processing::run(rt, before.as_str())?;
    Ok(())
}

fn job_over_both(rt: &HostRuntime) -> Result<(), Fail> {
    let document = fs::read_to_string(rt, "deep.job")?;
    let text = fs::read_to_string(rt, "deep.text")?;
    jobs::run(rt, document.as_str(), text.as_str())?;
    Ok(())
}
