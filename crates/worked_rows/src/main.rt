//! The worked rows: scripts with the texts that they print, each run on devices in memory. `rows.txt` names them. For each row a line is printed,
//! with the differences, if there are any.
#![tactic(auto)]

mod running;

use g_row::{Row, Seen};
use running::{run_row, wrong_put};
use std::fs;

fn main(rt: HostRuntime) -> anyhow::Result<()> {
    let rows = fs::read_to_string(&rt, "rows.txt")?;
    for line in rows.lines() {
        one_row(&rt, line)?;
    }
    Ok(())
}

/// Runs the row of a line, and prints its result.
fn one_row(rt: &HostRuntime, line: &str) -> anyhow::Result<()> {
    let mut row = Row::parse(rt.alloc(), line)?;
    let script = file_of(rt, &row, "script")?;
    let wanted = file_of(rt, &row, row.kind())?;
    let seen = run_row(rt.alloc(), &row, script.as_str())?;
    if let Some(why) = row.differs(&seen, wanted.as_str()) {
        return tell(rt, row.name, why, &seen);
    }
    match wrong_put(rt.alloc(), &mut row, script.as_str(), wanted.as_str())? {
        None => println!(rt; "{} as it should be", row.name)?,
        Some(put) => println!(rt; "{} differs where put {put} fails", row.name)?,
    }
    Ok(())
}

/// Reads a file of the row.
fn file_of(rt: &HostRuntime, row: &Row, kind: &str) -> anyhow::Result<String> {
    let path = format!(in rt.alloc(); "{}.{kind}", row.name)?;
    let text = fs::read_to_string(rt, path.as_str())?;
    row.unpack(rt.alloc(), text)
}

/// Prints that a row differs, and the results of its run.
fn tell(rt: &HostRuntime, name: &str, why: &str, seen: &Seen) -> anyhow::Result<()> {
    println!(rt; "{name} differs: {why}")?;
    let Seen {
        status,
        text,
        lengths,
        files,
    } = seen;
    println!(rt; "status {status}, lengths {lengths:?}, files:\n{files}text:\n{text}")?;
    Ok(())
}
