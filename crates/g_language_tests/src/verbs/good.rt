//! Lines whose verb is good, and their actions.
use super::good_lines;
use super::said::said;
use g_lang::{Command, Line, parse_line};
use g_verbs::{Action, read_verb};
use std::alloc::Global;
use std::process::Abort;
use std::test::Fail;

/// The action of a line's verb.
fn asked(alloc: Global, line: &str) -> Result<Action, Fail> {
    let Line { label: _, command } = parse_line(alloc, line.as_bytes())?;
    let Command::Verb { name, rest } = command else {
        return Err("no verb".into());
    };
    let action = read_verb(&name, rest)?;
    Ok(action)
}

/// Compares a row: the action of a line, and the line.
fn compare(rt: &(impl Abort + AllocGlobal), row: &str) -> Result<(), Fail> {
    let (wanted, line) = row.split_once(" <= ").ok_or("no row")?;
    let action = asked(rt.alloc(), line)?;
    let told = said(rt.alloc(), &action)?;
    assert!(rt; told.as_slice() == wanted.as_bytes(), "in {line}");
    Ok(())
}

/// Compares the rows of a table, except for the lines that begin with `#`.
fn check(rt: &(impl Abort + AllocGlobal), rows: &str) -> Result<(), Fail> {
    for row in rows.lines() {
        if !row.starts_with('#') {
            compare(rt, row)?;
        }
    }
    Ok(())
}

#[test]
fn each_verb(rt: HostRuntime) -> Result<(), Fail> {
    check(&rt, good_lines::FILES)?;
    check(&rt, good_lines::USERS)?;
    check(&rt, good_lines::JOBS)
}
