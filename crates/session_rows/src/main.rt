//! The rows of sessions: what is typed and what is answered, each on a console, a log, a disc and a rack in memory. `rows.txt` names them. For each row
//! a line is printed, with the differences, if there are any.
#![tactic(auto)]

mod running;
mod talk;

use g_row::Row;
use running::{Left, run_row};
use std::fs;
use talk::Talk;

fn main(rt: HostRuntime) -> anyhow::Result<()> {
    let rows = fs::read_to_string(&rt, "rows.txt")?;
    for line in rows.lines() {
        one_row(&rt, line)?;
    }
    Ok(())
}

/// Runs the row of a line, and prints its result.
fn one_row(rt: &HostRuntime, line: &str) -> anyhow::Result<()> {
    let row = Row::parse(rt.alloc(), line)?;
    let talk = Talk::parse(rt.alloc(), file_of(rt, row.name, "talk")?.as_str())?;
    let log = file_of(rt, row.name, "log")?;
    let left = run_row(rt.alloc(), &row, &talk)?;
    if let Some(why) = row.differs(&left.seen, talk.answered()) {
        return tell(rt, row.name, why, &left);
    }
    if left.log.as_str() != log.as_str() {
        return tell(rt, row.name, "the log", &left);
    }
    println!(rt; "{} as it should be", row.name)?;
    Ok(())
}

/// Reads a file of the row.
fn file_of(rt: &HostRuntime, name: &str, kind: &str) -> anyhow::Result<String> {
    let path = format!(in rt.alloc(); "{name}.{kind}")?;
    Ok(fs::read_to_string(rt, path.as_str())?)
}

/// Prints that a row differs, and the results of its session.
fn tell(rt: &HostRuntime, name: &str, why: &str, left: &Left) -> anyhow::Result<()> {
    println!(rt; "{name} differs: {why}")?;
    let (status, text, log) = (left.seen.status, left.seen.text.as_str(), left.log.as_str());
    println!(rt; "status {status}, log:\n{log}text:\n{text}")?;
    Ok(())
}
