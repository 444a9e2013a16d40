//! Rows, separated by blank lines.
use crate::events::Answer;
use crate::reading::event_of;
use crate::setting::Setting;
use crate::system::System;
use g_base::NoMemory;
use g_plain::StoreFault;
use std::alloc::{AllocError, Global};
use std::io;
use std::num::ParseIntError;
use std::test::Fail;

/// The outcome of an event.
pub(crate) type Outcome = Result<Answer, StoreFault>;

/// What is wrong with a row, or with its outcome.
#[derive(Clone, Copy, Debug)]
pub(crate) struct Wrong(pub(crate) &'static str);

impl From<ParseIntError> for Wrong {
    fn from(_wrong: ParseIntError) -> Wrong {
        Wrong("no number")
    }
}

impl From<AllocError> for Wrong {
    fn from(_none: AllocError) -> Wrong {
        Wrong("no memory")
    }
}

impl From<NoMemory> for Wrong {
    fn from(_none: NoMemory) -> Wrong {
        Wrong("no memory")
    }
}

impl From<io::Error> for Wrong {
    fn from(_failed: io::Error) -> Wrong {
        Wrong("no output")
    }
}

/// Runs each row of a file, and prints its result. The other text has the sequences with which rows begin.
pub(crate) fn run(rt: &HostRuntime, beginnings: &str, text: &str) -> Result<(), Fail> {
    for part in text.split("\n\n") {
        let Some((head, lines)) = part.split_once('\n') else {
            return Err("a row without events".into());
        };
        let setting = Setting::parse(head)?;
        match played(rt, &setting, beginnings, lines) {
            Ok(()) => println!(rt; "{} as it should be", setting.name)?,
            Err(why) => println!(rt; "{} differs: {}", setting.name, why.0)?,
        }
    }
    Ok(())
}

/// Runs a row.
fn played(rt: &HostRuntime, setting: &Setting, beginnings: &str, lines: &str) -> Result<(), Wrong> {
    let mut system = setting.system(rt.alloc())?;
    played_on(rt, &mut system, setting.on, beginnings, lines)
}

fn played_on(
    rt: &HostRuntime,
    system: &mut System,
    on: &str,
    beginnings: &str,
    lines: &str,
) -> Result<(), Wrong> {
    for name in on.split(',') {
        play(rt, system, beginning(beginnings, name))?;
    }
    play(rt, system, lines)
}

/// The events with which a row begins, or none if the text has no such name.
fn beginning<'a>(text: &'a str, name: &str) -> &'a str {
    for part in text.split("\n\n") {
        if let Some((head, lines)) = part.split_once('\n') {
            if head == name {
                return lines;
            }
        }
    }
    ""
}

/// Runs these events, one after another. A line is an event, optionally followed by ` = ` and its expected outcome, which
/// is `Ok(Done)` if omitted. A line that begins with `#` is a comment. An error: an event had another outcome, and its line
/// is printed.
pub(crate) fn play(rt: &HostRuntime, system: &mut System, lines: &str) -> Result<(), Wrong> {
    for line in lines.lines() {
        if !line.is_empty() && !line.starts_with('#') {
            one(rt, system, line)?;
        }
    }
    Ok(())
}

/// The event of a line.
fn one(rt: &HostRuntime, system: &mut System, line: &str) -> Result<(), Wrong> {
    let (event, wanted) = match line.split_once(" = ") {
        Some((event, wanted)) => (event, wanted),
        None => (line, "Ok(Done)"),
    };
    let outcome = system.happens(rt.alloc(), &event_of(event)?);
    as_wanted(rt, line, wanted, &outcome)
}

/// Whether a line's event had exactly the expected outcome, or one that begins with it if `..` follows; otherwise the line
/// is printed.
fn as_wanted(rt: &HostRuntime, line: &str, wanted: &str, outcome: &Outcome) -> Result<(), Wrong> {
    let told = told(rt.alloc(), outcome)?;
    let is_so = match wanted.strip_suffix("..") {
        Some(front) => told.as_str().starts_with(front),
        None => told.as_str() == wanted,
    };
    if is_so {
        return Ok(());
    }
    println!(rt; "{line}, but {}", told.as_str())?;
    Err(Wrong("another answer"))
}

/// The outcome of an event, as rows write it.
pub(crate) fn told(alloc: Global, outcome: &Outcome) -> Result<String, AllocError> {
    format!(in alloc; "{outcome:?}")
}
