//! The item that is being typed: its lines as those of a script, with the turn at which it is taken.
ghost use Rattle.std.specs.Prelude.{◌≡◌, ◌+◌, ◌<◌, ◌≤◌, ◌↔◌, [], ◌∷◌, ◌++◌, ℕ, List, IfOk, IsTrue, MatchOption, OnOk, codes, if◌then◌else◌, length};
ghost use Rattle.std.specs.Fmt.{decimal};
ghost use Rattle.g_lines.specs.Documents.{IsOneLine};
ghost use Rattle.g_lines.specs.Lines.{ended, lines_of};
ghost use Rattle.g_script.specs.Script.{IsPrinted};
ghost use Rattle.g_typing.specs.Reader.{HasNoTime, Holds, IsBegun, IsClosed, IsHead, IsInDocument, IsOneOrNot, IsTime, JobText, Replies, asked_by};
ghost use Rattle.g_typing.specs.Typed.{IsShort, IsUnasked};

use crate::query::{Query, query_of};
use g_base::NoMemory;
use g_lines::{number, push_decimal, split_at_byte};
use g_name::Text;
use g_script::{Timed, parse_item};
use std::alloc::Global;

/// The most bytes that a line may have.
const MOST_LINE: usize = 160;

/// The most bytes that an item may have before the line that ends its document: those of a script, less five.
const MOST_OPEN: usize = 16_777_211;

/// The initial capacity of an item's text in bytes: that of most lines.
const ROOM: usize = 64;

/// The most that a turn may be.
const MOST_TURN: u64 = 1_000_000_000;

/// The line that ends a document.
const END_OF_DOCUMENT: &[u8] = b"****";

/// What the next line is.
#[derive(Clone, Copy, PartialEq, Eq)]
pub enum Place {
    /// The first line of an item.
    Start,
    /// A line of the document of a JOB, whose first line had this number.
    Document(u64),
    /// A line of the document of a JOB that was refused.
    Skipped,
}

/// The reply to a line.
#[derive(Drop)]
pub enum Reply {
    /// An item is complete; whether it has a time of its own.
    Item(Timed, bool),
    /// An empty line where an item may begin.
    Rest,
    /// A question to the console where an item may begin.
    Asked(Query),
    /// The line is none of the operator's, or none of a document.
    Refused,
    /// A document continues, also one that is skipped.
    More,
    /// A document that was skipped ends.
    SkippedAll,
}

/// The lines of the item so far, as a script has them, each with its byte 10.
#[derive(Drop)]
pub struct ItemReader {
    pub text: Text,
    pub place: Place,
    pub timed: bool,
}

impl ItemReader {
    pub fn new(alloc: Global) -> ItemReader
        ensures { (count : ℕ) → Holds count [] result }
    {
        ItemReader {
            text: Text::new(alloc),
            place: Place::Start,
            timed: false,
        }
    }

    /// Replies to a line, which has this number, at this count of ticks.
    pub fn reply(
        &mut self,
        alloc: Global,
        number: u64,
        count: u64,
        line: &[u8],
    ) -> Result<Reply, NoMemory>
        ensures { (lines : List (List ℕ)) → IsOneLine line.now → Holds count lines self.old → Replies self.old.place number count lines line.now result self.new }
    {
        match self.place {
            Place::Start => self.ask_or_begin(alloc, number, count, line),
            Place::Document(_) => self.add(alloc, line),
            Place::Skipped => Ok(self.skip(line)),
        }
    }

    /// Skips a line of a document.
    fn skip(&mut self, line: &[u8]) -> Reply
        requires { self.old.place ≡ Place.Skipped }
        ensures { (number count : ℕ) (lines : List (List ℕ)) → Holds count lines self.old → Replies self.old.place number count lines line.now (Ok result) self.new }
    {
        if line == END_OF_DOCUMENT {
            self.place = Place::Start;
            Reply::SkippedAll
        } else {
            Reply::More
        }
    }

    /// Replies to a line where an item may begin.
    fn ask_or_begin(
        &mut self,
        alloc: Global,
        number: u64,
        count: u64,
        line: &[u8],
    ) -> Result<Reply, NoMemory>
        requires { self.old.place ≡ Place.Start }
        ensures { IsOneLine line.now → Replies Place.Start number count [] line.now result self.new }
    {
        match query_of(line) {
            Some(query) => Ok(Reply::Asked(query)),
            None => self.begin(alloc, number, count, line),
        }
    }

    /// Replies to the first line of an item.
    fn begin(
        &mut self,
        alloc: Global,
        number: u64,
        count: u64,
        line: &[u8],
    ) -> Result<Reply, NoMemory>
        requires { self.old.place ≡ Place.Start }
        ensures { IsOneLine line.now → IsUnasked line.now → Replies Place.Start number count [] line.now result self.new }
    {
        if line.is_empty() {
            return Ok(Reply::Rest);
        }
        let head = head_of(count, line);
        self.timed = head.timed;
        self.text = script_line(alloc, &head)?;
        let is_job = begins_job(&head);
        if line.len() > MOST_LINE {
            return Ok(self.refuse(is_job));
        }
        if is_job {
            return self.begin_document(alloc, number);
        }
        match parse_item(alloc, self.text.as_slice())? {
            Some(next) => Ok(Reply::Item(next, head.timed)),
            None => Ok(Reply::Refused),
        }
    }

    /// Replies to a JOB line, which is read with no document after it.
    fn begin_document(&mut self, alloc: Global, number: u64) -> Result<Reply, NoMemory>
        ensures { IfOk result (λ reply. IsBegun number self.old reply self.new) }
    {
        if is_job_line(alloc, self.text.as_slice())? {
            self.place = Place::Document(number);
            Ok(Reply::More)
        } else {
            Ok(self.refuse(true))
        }
    }

    /// Replies to a line of a document.
    fn add(&mut self, alloc: Global, line: &[u8]) -> Result<Reply, NoMemory>
        ensures { (number count k : ℕ) (lines : List (List ℕ)) → self.old.place ≡ Place.Document k → IsInDocument count lines self.old.timed self.old.text
            → Replies self.old.place number count lines line.now result self.new }
    {
        if line == END_OF_DOCUMENT {
            return self.close(alloc);
        }
        if !is_printed(line) {
            return Ok(self.refuse(true));
        }
        if self.is_full(line.len()) {
            return Ok(self.refuse(true));
        }
        self.text.extend(line)?;
        self.text.push(b'\n')?;
        Ok(Reply::More)
    }

    /// Replies to the line that ends a document.
    fn close(&mut self, alloc: Global) -> Result<Reply, NoMemory>
        ensures { (count : ℕ) (lines : List (List ℕ)) → IsInDocument count lines self.old.timed self.old.text → IfOk result (λ reply. IsClosed count lines reply self.new) }
    {
        self.text.extend(b"****\n")?;
        self.place = Place::Start;
        match parse_item(alloc, self.text.as_slice())? {
            Some(next) => Ok(Reply::Item(next, self.timed)),
            None => Ok(Reply::Refused),
        }
    }

    /// Whether a line of `more` bytes is too much for a script.
    fn is_full(&self, more: usize) -> bool
        ensures { IsTrue result ↔ (16777216 < length self.now.text + (more + 1) + 5) }
    {
        MOST_OPEN.saturating_sub(more) <= self.text.as_slice().len()
    }

    /// A line is refused; the document of a JOB is skipped.
    fn refuse(&mut self, is_job: bool) -> Reply
        ensures reply { result ≡ Reply.Refused }
        ensures place { self.new.place ≡ (if is_job then Place.Skipped else Place.Start) }
    {
        self.place = if is_job { Place::Skipped } else { Place::Start };
        Reply::Refused
    }
}

/// What a first line asks for, and when.
#[derive(Clone, Copy)]
struct Head<'a> {
    /// It has a time of its own.
    timed: bool,
    turn: u64,
    /// The digit of a terminal, if the line is short for a TYPE line.
    digit: Option<u8>,
    /// The operator line, or the text that the TYPE line has after its comma.
    text: &'a [u8],
}

/// Whether what a line asks for begins as a JOB does.
fn begins_job(head: &Head<'_>) -> bool
    ensures { IsTrue result ↔ JobText (asked_by head.now.digit head.now.text.now) }
{
    match head.digit {
        Some(_digit) => false,
        None => head.text.starts_with(b"JOB "),
    }
}

/// When a first line is due, at this count, and what it asks for. A time in the past means now.
fn head_of(count: u64, line: &[u8]) -> Head<'_>
    ensures { IsHead count line.now result.timed result.turn (asked_by result.digit result.text.now) }
{
    match time_of(line) {
        Some((time, text)) => Head {
            timed: true,
            turn: time.max(count),
            digit: None,
            text,
        },
        None => match short_of(line) {
            Some((digit, text)) => Head {
                timed: false,
                turn: count,
                digit: Some(digit),
                text,
            },
            None => Head {
                timed: false,
                turn: count,
                digit: None,
                text: line,
            },
        },
    }
}

/// The digit of a terminal and the text typed there, if a line is short for a TYPE line.
fn short_of(line: &[u8]) -> Option<(u8, &[u8])>
    ensures { MatchOption result ((digit : ℕ) (text : List ℕ) → IsShort digit text line.now → ⊥) (λ parts. IsShort parts.0 parts.1.now line.now) }
{
    match line {
        [mark, digit] => if *mark == b'T' && b'1' <= *digit && *digit <= b'8' {
            Some((*digit, &[]))
        } else {
            None
        },
        [mark, digit, space, text @ ..] => if *mark == b'T'
            && b'1' <= *digit
            && *digit <= b'8'
            && *space == b' '
        {
            Some((*digit, text))
        } else {
            None
        },
        _ => None,
    }
}

/// The time before what a line asks for, if there is one.
#[tactic(auto, using(crate::proofs::HeadLemmas::no_space, crate::proofs::HeadLemmas::no_number, crate::proofs::HeadLemmas::time_is))]
pub fn time_of(line: &[u8]) -> Option<(u64, &[u8])>
    ensures { MatchOption result (HasNoTime line.now) (λ parts. IsTime parts.0 parts.1.now line.now) }
{
    match split_at_byte(line, b' ') {
        Some((digits, asked)) => match number(digits, MOST_TURN) {
            Some(time) => Some((time, asked)),
            None => None,
        },
        None => None,
    }
}

/// The line of a script with its byte 10.
fn script_line(alloc: Global, head: &Head<'_>) -> Result<Text, NoMemory>
    ensures { IfOk result (λ text. text ≡ ended (decimal head.now.turn ++ (32 ∷ asked_by head.now.digit head.now.text.now))) }
{
    let mut text = Text::from(Vec::with_capacity(alloc, ROOM)?);
    push_decimal(&mut text, head.turn)?;
    text.push(b' ')?;
    push_asked(&mut text, head)?;
    text.push(b'\n')?;
    Ok(text)
}

/// Appends what a line asks for.
fn push_asked(text: &mut Text, head: &Head<'_>) -> Result<(), NoMemory>
    ensures { OnOk result (text.new ≡ text.old ++ asked_by head.now.digit head.now.text.now) }
{
    if let Some(digit) = head.digit {
        text.extend(b"TYPE ")?;
        text.push(digit)?;
        text.push(b',')?;
        return text.extend(head.text);
    }
    text.extend(head.text)
}

/// Whether a line, with its byte 10, and a line that ends a document are a JOB.
fn is_job_line(alloc: Global, line: &[u8]) -> Result<bool, NoMemory>
    ensures { IfOk result (λ is. IsOneOrNot (lines_of (line.now ++ codes "****\n")) is) }
{
    let mut text = Text::from_slice(alloc, line)?;
    text.extend(b"****\n")?;
    match parse_item(alloc, text.as_slice())? {
        Some(_next) => Ok(true),
        None => Ok(false),
    }
}

/// Whether a line has at most 160 bytes, each from space to tilde.
fn is_printed(line: &[u8]) -> bool
    ensures { IsTrue result ↔ IsPrinted line.now }
{
    line.len() <= MOST_LINE && line.iter().all(|byte| b' ' <= *byte && *byte <= b'~')
}
