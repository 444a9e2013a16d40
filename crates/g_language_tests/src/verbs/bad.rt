//! Lines whose verb has a bad parameter, with its number.
use super::{bad_files, bad_jobs, bad_users};
use g_lang::{Command, Line, parse_line};
use g_verbs::{VerbFault, read_verb};
use std::alloc::Global;
use std::process::Abort;
use std::test::Fail;

/// Which parameter of a line's verb is bad.
fn bad_in(alloc: Global, line: &str) -> Result<Option<usize>, Fail> {
    let Line { label: _, command } = parse_line(alloc, line.as_bytes())?;
    let Command::Verb { name, rest } = command else {
        return Err("no verb".into());
    };
    match read_verb(&name, rest) {
        Err(VerbFault::BadParameter(index)) => Ok(Some(index)),
        Ok(_) => Ok(None),
    }
}

/// Compares a row: which parameter is bad, and the line.
fn compare(rt: &(impl Abort + AllocGlobal), row: &str) -> Result<(), Fail> {
    let (index, line) = row.split_once(' ').ok_or("no row")?;
    let index: usize = index.parse().unwrap_or(0);
    let told = bad_in(rt.alloc(), line)?;
    assert!(rt; told == Some(index), "in {line}");
    Ok(())
}

/// Compares the rows of a table, except for the lines that begin with `#`.
fn check(rt: &(impl Abort + AllocGlobal), rows: &str) -> Result<(), Fail> {
    for row in rows.lines() {
        if !row.starts_with('#') {
            compare(rt, row)?;
        }
    }
    Ok(())
}

#[test]
fn files(rt: HostRuntime) -> Result<(), Fail> {
    check(&rt, bad_files::VERBS)?;
    check(&rt, bad_files::FILES)?;
    check(&rt, bad_files::NAMES)
}

#[test]
fn users(rt: HostRuntime) -> Result<(), Fail> {
    check(&rt, bad_users::VERBS)?;
    check(&rt, bad_users::USERS)?;
    check(&rt, bad_users::MODES)?;
    check(&rt, bad_users::AMOUNTS)
}

#[test]
fn jobs(rt: HostRuntime) -> Result<(), Fail> {
    check(&rt, bad_jobs::VERBS)?;
    check(&rt, bad_jobs::UNITS)?;
    check(&rt, bad_jobs::LETTERS)?;
    check(&rt, bad_jobs::DIGITS)
}
