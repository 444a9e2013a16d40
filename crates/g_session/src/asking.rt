//! A request for a line of a console, and the reply of the reader of items to that line.
ghost use Rattle.std.specs.Prelude.{◌≡◌, ◌≤◌, ℕ, List, Option, length};
ghost use Rattle.g_session.specs.Asking.{HearingCause, Hears, IsRequested, RequestCause};

use arrayvec::ArrayVec;
use g_base::NoMemory;
use g_console::Console;
use g_typing::{ItemReader, Place, Reply};
use itoa::Buffer;
use std::alloc::Global;

/// The most bytes that a prompt may have: a count, or the line that ends a document, and two more.
const MOST_PROMPT: usize = 24;

/// One byte more than a line may have: a longer line is refused by its length.
const BUFFER: usize = 161;

/// The result of a request for a line.
pub(crate) enum Requested {
    /// A line of that many bytes.
    Line(usize),
    /// No more lines come.
    End,
    /// The request failed.
    Failed,
}

/// What the next line was.
pub(crate) enum Heard {
    /// A line, and the reply to it.
    Reply(Reply),
    /// No more lines come.
    End,
    /// The request failed.
    Failed,
    NoMemory,
}

/// Requests a line, which has this number, at this count of ticks, and has it read.
pub(crate) fn hear<C: Console>(
    alloc: Global,
    reader: &mut ItemReader,
    number: u64,
    count: u64,
    console: &mut C,
) -> Heard
    ensures heard { Hears (C.transcript console.old) reader.old number count result (C.transcript console.new) reader.new }
    ensures cause { HearingCause result (C.faults console.old) (C.faults console.new) }
{
    let mut buffer = [0u8; BUFFER];
    match request(reader.place != Place::Start, count, console, &mut buffer) {
        Requested::Line(length) => match reader.reply(alloc, number, count, &buffer[..length]) {
            Ok(reply) => Heard::Reply(reply),
            Err(NoMemory) => Heard::NoMemory,
        },
        Requested::End => Heard::End,
        Requested::Failed => Heard::Failed,
    }
}

/// Requests a line. The prompt has the count of ticks, or, in a document, the line that ends it.
pub(crate) fn request<C: Console>(
    in_document: bool,
    count: u64,
    console: &mut C,
    into: &mut [u8],
) -> Requested
    ensures line { IsRequested (C.transcript console.old) result into.new (C.transcript console.new) }
    ensures cause { RequestCause result (C.faults console.old) (C.faults console.new) }
{
    let prompt = prompt(in_document, count);
    match console.take_line(prompt.as_slice(), into) {
        Ok(Some(count)) => Requested::Line(count),
        Ok(None) => Requested::End,
        Err(_) => Requested::Failed,
    }
}

/// The prompt.
fn prompt(in_document: bool, count: u64) -> ArrayVec<u8, MOST_PROMPT> {
    let mut digits = Buffer::new();
    let front = if in_document {
        b"****".as_slice()
    } else {
        digits.format(count).as_bytes()
    };
    let mut text = ArrayVec::new();
    let _fits = text.try_extend_from_slice(front);
    let _fits_too = text.try_extend_from_slice(b"> ");
    text
}
