//! The event of a line.
use crate::events::{Ask, Device, Event, OnFile, Trapping};
use crate::rows::Wrong;

/// The events that are one word.
static BARE: [(&str, Event<'static>); 7] = [
    ("format", Event::Format),
    ("start", Event::Start),
    ("restore", Event::Restore),
    ("shut", Event::Shut),
    ("step", Event::Step),
    ("finish", Event::Finish),
    ("told", Event::Told),
];

/// The events with a number.
static DEVICES: [(&str, Device); 10] = [
    ("mount", Device::Mount),
    ("unmount", Device::Unmount),
    ("open", Device::Open),
    ("process", Device::Process),
    ("length", Device::Length),
    ("stop_disc", Device::StopDisc),
    ("stop_tape", Device::StopTape),
    ("unread", Device::Unread),
    ("unread_tape", Device::UnreadTape),
    ("insecure", Device::Insecure),
];

/// The event that these words are.
pub(crate) fn event_of<'a>(line: &'a str) -> Result<Event<'a>, Wrong> {
    let Some((name, rest)) = line.split_once(' ') else {
        return bare(line);
    };
    if name == "ask" {
        let (who, call) = halves(rest)?;
        Ok(Event::Ask(who, call_of(call)?))
    } else if name == "migrate" {
        Ok(Event::Migrate(rest))
    } else if name == "noted" {
        let (place, file) = halves(rest)?;
        Ok(Event::Noted(place.parse()?, file.parse()?))
    } else {
        of_blocks(name, rest)
    }
}

/// An event with a block, or with just a number.
fn of_blocks<'a>(name: &str, rest: &'a str) -> Result<Event<'a>, Wrong> {
    let (number, fields) = rest.split_once(' ').unwrap_or((rest, ""));
    let number = number.parse()?;
    if name == "write" {
        Ok(Event::Write(number, fields))
    } else if name == "holds" {
        Ok(Event::Holds(number, fields))
    } else if name == "reel" {
        Ok(Event::Reel(number, fields))
    } else {
        numbered(name, number)
    }
}

/// The text before and after the first space.
fn halves<'a>(text: &'a str) -> Result<(&'a str, &'a str), Wrong> {
    text.split_once(' ').ok_or(Wrong("no second word"))
}

fn bare(name: &str) -> Result<Event<'static>, Wrong> {
    for (known, event) in &BARE {
        if *known == name {
            return Ok(*event);
        }
    }
    Err(Wrong("no event"))
}

fn numbered(name: &str, number: u32) -> Result<Event<'static>, Wrong> {
    for (known, device) in &DEVICES {
        if *known == name {
            return Ok(Event::Device(*device, number));
        }
    }
    Err(Wrong("no event with a number"))
}

/// A call by its name and its argument.
fn call_of<'a>(text: &'a str) -> Result<Ask<'a>, Wrong> {
    let (call, rest) = halves(text)?;
    if call == "list" {
        Ok(Ask::List(rest))
    } else if call == "new_user" {
        let (name, space) = halves(rest)?;
        Ok(Ask::NewUser(name, space.parse()?))
    } else if call == "budget" {
        let (name, amount) = halves(rest)?;
        Ok(Ask::Budget(name, amount.parse()?))
    } else {
        let (path, rest) = rest.split_once(' ').unwrap_or((rest, ""));
        Ok(Ask::OnFile(path, on_file(call, rest)?))
    }
}

/// The calls on a file that have no other argument.
static ON_FILE: [(&str, OnFile<'static>); 3] = [
    ("fetch", OnFile::Fetch),
    ("retrieve", OnFile::Retrieve),
    ("erase", OnFile::Erase),
];

/// The calls about a user, with the bits of modes.
static TRAPS: [(&str, Trapping); 3] = [
    ("let_in", Trapping::Go),
    ("keep_out", Trapping::Stop),
    ("traps", Trapping::Check),
];

fn on_file<'a>(call: &str, rest: &'a str) -> Result<OnFile<'a>, Wrong> {
    for (known, what) in &ON_FILE {
        if *known == call {
            return Ok(*what);
        }
    }
    for (known, how) in &TRAPS {
        if *known == call {
            return about_user(*how, rest);
        }
    }
    if call == "rename" {
        Ok(OnFile::Rename(rest))
    } else {
        with_bytes(call, rest)
    }
}

fn about_user<'a>(how: Trapping, rest: &'a str) -> Result<OnFile<'a>, Wrong> {
    let (user, bits) = halves(rest)?;
    Ok(OnFile::Trap(how, user, bits.parse()?))
}

/// A call with a file's bytes: their letter and their number.
fn with_bytes(call: &str, rest: &str) -> Result<OnFile<'static>, Wrong> {
    let (letter, len) = halves(rest)?;
    let Some(letter) = letter.as_bytes().first() else {
        return Err(Wrong("no letter"));
    };
    let len = len.parse()?;
    if call == "put" {
        Ok(OnFile::Put(*letter, len))
    } else if call == "append" {
        Ok(OnFile::Append(*letter, len))
    } else {
        Err(Wrong("no call"))
    }
}
