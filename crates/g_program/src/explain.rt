//! Why a script is bad, or a line of a session is refused, on standard error.
use g_base::NoMemory;
use g_lines::Lines;
use g_name::Text;
use g_reasons::{Reason, reason_of};
use g_run::Status;
use g_script::parse_script;
use std::alloc::Global;

/// A job's line without the line that ends its document.
const UNCLOSED: &str = "the document of this job isn't closed by a line ****";

/// Prints why a script is bad, if the status says so and its text was noted. Prints nothing if memory runs out.
pub(crate) fn tell_bad(rt: &HostRuntime, status: Status, script: Option<&[u8]>) {
    let (Status::BadScript(number), Some(script)) = (status, script) else {
        return;
    };
    let Some(line) = line_of(script, number) else {
        return;
    };
    match is_unclosed(rt.alloc(), line) {
        Ok(true) => tell_unclosed(rt, number),
        Ok(false) => tell(rt, number, reason_of(line).text()),
        Err(NoMemory) => {}
    }
}

/// Prints why this line of a session is refused: in a document, or where an item begins. There it needs no time.
pub(crate) fn tell_refused(rt: &HostRuntime, number: u64, line: &[u8], in_document: bool) {
    let reason = reason_of(line);
    match reason {
        Reason::Return | Reason::Tab | Reason::Byte | Reason::Long => tell(
            rt,
            number,
            reason.text(),
        ),
        _ if in_document => tell(
            rt,
            number,
            "the document is too long: with its JOB line it may have 16777216 bytes",
        ),
        Reason::NoTime => tell_untimed(rt, number, line),
        _ => tell(rt, number, reason.text()),
    }
}

/// Prints why a line without a time is refused: as a script's line with one. Prints nothing if memory runs out.
fn tell_untimed(rt: &HostRuntime, number: u64, line: &[u8]) {
    let Ok(mut text) = Text::from_slice(rt.alloc(), b"0 ") else {
        return;
    };
    if text.extend(line).is_ok() {
        tell(rt, number, reason_of(text.as_slice()).text());
    }
}

/// Prints that the document of a job isn't closed.
pub(crate) fn tell_unclosed(rt: &HostRuntime, number: u64) {
    tell(rt, number, UNCLOSED);
}

/// The answer to a command that begins as none does.
const NO_COMMAND: &[u8] = b"ERROR 50 BAD LINE 0";

/// Prints that commands are written in capitals.
pub(crate) fn tell_small(rt: &HostRuntime) {
    let _told = eprintln!(rt;
        "george: a command begins with a small letter; commands are written in capitals"
    );
}

/// Whether a printed text is of a job's file, and has a command that begins with a small letter, with its refusal in the next line.
pub(crate) fn has_small_command(piece: &[u8]) -> bool {
    match piece {
        [b'J' | b'T', ..] => follows_small(piece),
        _ => false,
    }
}

/// Whether a text has a command that begins with a small letter, and its refusal in the next line.
fn follows_small(piece: &[u8]) -> bool {
    let mut lines = Lines::new(piece);
    let mut small = false;
    for _line in 0..piece.len() {
        let Some(line) = lines.next() else {
            return false;
        };
        let told = unmarked(line);
        if small && told == NO_COMMAND {
            return true;
        }
        small = is_small_command(told);
    }
    false
}

/// A printed line without the mark of a terminal.
fn unmarked(line: &[u8]) -> &[u8] {
    match line {
        [b'T', _terminal, b' ', told @ ..] => told,
        _ => line,
    }
}

/// Whether a line of a monitoring file is a command that begins with a small letter.
fn is_small_command(line: &[u8]) -> bool {
    match line {
        [b'-', b' ', first, ..] => first.is_ascii_lowercase(),
        _ => false,
    }
}

/// Prints the reason for a line.
fn tell(rt: &HostRuntime, number: u64, reason: &str) {
    let _told = eprintln!(rt; "george: line {number}: {reason}");
}

/// The line with this number, counted from 1.
fn line_of(script: &[u8], number: u64) -> Option<&[u8]> {
    let mut lines = Lines::new(script);
    for _before in 1..number {
        lines.next()?;
    }
    lines.next()
}

/// Whether a bad line is that of a job whose document isn't closed: with `****` after it, it is an item.
fn is_unclosed(alloc: Global, line: &[u8]) -> Result<bool, NoMemory> {
    let mut text = Text::from_slice(alloc, line)?;
    text.extend(b"\n****\n")?;
    Ok(parse_script(alloc, text.as_slice())?.bad.is_none())
}
