//! The texts of faults for programmers who use a store; jobs and operators read other texts.

use crate::StoreFault;
use std::error::Error;
use std::fmt;

/// The words of each fault's text, by its number: those before the first number of the text, and those between it and
/// the second.
static WORDS: [(&str, &str); 36] = [
    ("no user", ""),
    ("no file", ""),
    ("exists", ""),
    ("trapped", ""),
    ("no generation", ""),
    ("over space: need ", ", left "),
    ("too long: ", " bytes"),
    ("directory full", ""),
    ("users full", ""),
    ("traps full", ""),
    ("wait for tape ", ""),
    ("no copy on tape ", ""),
    ("disc full: need ", ", room "),
    ("disc read fault", ""),
    ("tape read fault", ""),
    ("stopped", ""),
    ("out of memory", ""),
    ("not owner", ""),
    ("counters spent", ""),
    ("not started", ""),
    ("not mounted", ""),
    ("tape full: need ", ", room "),
    ("dump ", " is open"),
    ("no tape", ""),
    ("no filestore", ""),
    ("no dump", ""),
    ("tape ", " of the rack is not mounted"),
    ("mount tape ", " first"),
    ("tape busy", ""),
    ("lost copy on tape ", ""),
    ("not dumped", ""),
    ("offline", ""),
    ("running", ""),
    ("tape ", " of the rack is not empty"),
    ("lost directory", ""),
    ("reel ", " is not free"),
];

impl Error for StoreFault {}

// Written manually: a derived implementation for so large an enum takes a fifth of the crate's check.
impl fmt::Display for StoreFault {
    fn fmt<W: fmt::Write>(&self, f: &mut fmt::Formatter<W>) -> fmt::Result {
        let (front, behind) = words_of(self);
        let (first, second) = numbers_of(self);
        f.write_str(front)?;
        write_number(f, first)?;
        f.write_str(behind)?;
        write_number(f, second)
    }
}

fn write_number<W: fmt::Write>(f: &mut fmt::Formatter<W>, number: Option<u64>) -> fmt::Result {
    match number {
        Some(number) => write!(f, "{number}"),
        None => Ok(()),
    }
}

/// The words of a fault.
fn words_of(fault: &StoreFault) -> (&'static str, &'static str) {
    let index = usize::from(fault.number() - 1);
    match WORDS.get(index) {
        Some(words) => *words,
        None => ("", ""),
    }
}

/// The numbers in the text of a fault.
fn numbers_of(fault: &StoreFault) -> (Option<u64>, Option<u64>) {
    match fault {
        StoreFault::OverSpace { need, left } => (Some(u64::from(*need)), Some(u64::from(*left))),
        StoreFault::TooLong(number) => (Some(*number), None),
        StoreFault::WaitTape(number) => (Some(u64::from(*number)), None),
        StoreFault::NoCopy(_, number) => (Some(u64::from(*number)), None),
        StoreFault::DiscFull { need, room } => (Some(u64::from(*need)), Some(u64::from(*room))),
        StoreFault::TapeFull { need, room } => (Some(u64::from(*need)), Some(u64::from(*room))),
        StoreFault::DumpOpen(number) => (Some(*number), None),
        StoreFault::RackNotMounted(number) => (Some(u64::from(*number)), None),
        StoreFault::MountFirst(number) => (Some(u64::from(*number)), None),
        StoreFault::LostCopy(_, number) => (Some(u64::from(*number)), None),
        StoreFault::RackNotEmpty(number) => (Some(u64::from(*number)), None),
        StoreFault::ReelNotFree(number) => (Some(u64::from(*number)), None),
        _ => (None, None),
    }
}
