//! One level: the lines of a document or a macro, its parameters, and the commands that wait in it.
ghost use Rattle.std.specs.List.{list_any};
ghost use Rattle.std.specs.Prelude.{◌≡◌, ◌++◌, ◌+◌, ◌-◌, ◌<◌, ◌≤◌, true, false, None, Some, drop, length, IfOk, IfSome, MatchOption, OnErr, OnOk, slice_index_or, take};
ghost use Rattle.g_lang.specs.Conditions.{IsLetter};
ghost use Rattle.g_lang.specs.Lines.{IsCommandText};
ghost use Rattle.g_macro.specs.Questions as asked;
ghost use Rattle.g_macro.specs.Expansion.{substituted};
ghost use Rattle.g_macro.specs.Fronts.{IsFilled};
ghost use Rattle.g_macro.specs.Holding as holding;
ghost use Rattle.g_macro.specs.Levels as levels;
ghost use Rattle.g_macro.specs.LevelReplies.{KeepsIn};
ghost use Rattle.g_lines.specs.Documents.{IsOneLine, IsWhole};
ghost use Rattle.g_lines.specs.Lines.{lines_of, text_of};
ghost use Rattle.g_macro.specs.Spans.{IsLinePlace, IsSpan};

use crate::entry::Entry;
use crate::expansion::{Filled, fill_in, is_input};
use crate::params::Params;
use crate::{MacroFault, Outcome};
use g_base::NoMemory;
use g_lang::{Cond, Label, Test, has_label};
use g_lines::{Cursor, Document, Lines, Texts};
use g_name::Text;
use std::alloc::Global;
use std::marker::Model;

/// How many commands may wait in a level.
const ENTRIES: usize = 16;

/// A level. Contracts see its lines, its 24 parameters, how many lines were taken, and the commands that wait.
#[derive(Drop)]
pub(crate) struct Level {
    cursor: Cursor,
    params: Params,
    entries: Vec<Entry>,
}

impl Model for Level {
    ghost use Rattle.g_macro.specs.Levels as levels;

    ghost Value = { levels.Level };

    ghost view = { λ l. record {
      lines = l.cursor.lines;
      params = l.params;
      taken = l.cursor.taken;
      entries = l.entries.items;
    } };

    ghost invariant = { λ l. levels.IsLevel (record {
      lines = l.cursor.lines;
      params = l.params;
      taken = l.cursor.taken;
      entries = l.entries.items;
    }) };
}

impl Level {
    /// A level with these parameters, the others empty; none of its lines was taken.
    pub fn new(alloc: Global, lines: Document, params: Texts) -> Result<Level, NoMemory>
        requires { length params ≤ 24 }
        ensures { IfOk result (λ level. level ≡ levels.level_of lines params) }
    {
        let params = Params::new(alloc, params)?;
        Ok(Level {
            cursor: Cursor::new(lines),
            params,
            entries: Vec::new(alloc),
        })
    }

    /// Whether a line is left.
    pub fn has_line(&self) -> bool
        ensures { result ≡ levels.has_line self.now }
    {
        self.cursor.has_line()
    }

    /// The next line, before substitution.
    pub fn line(&self) -> &[u8]
        requires { levels.has_line self.now ≡ true }
        ensures { result.now ≡ levels.line_at self.now }
    {
        self.cursor.line()
    }

    /// A line after substitution, in the memory of this text.
    pub fn filled(&self, room: Text, line: &[u8]) -> Result<Filled, NoMemory>
        ensures { IfOk result (IsFilled (substituted self.now.params line.now)) }
    {
        fill_in(room, &self.params, line)
    }

    /// Takes the next line, which has this many bytes with its byte 10.
    pub fn pass_line(&mut self, bytes: usize)
        requires line { levels.has_line self.old ≡ true }
        requires bytes { bytes ≡ length (levels.line_at self.old) + 1 }
        ensures { self.new ≡ levels.line_taken self.old }
    {
        self.cursor.pass(1, bytes);
    }

    /// Takes the lines up to and including `////`, or to the end, and returns those before it, each with its byte 10. Without memory nothing changes.
    pub fn take_document(&mut self, alloc: Global) -> Result<Text, NoMemory>
        ensures text { IfOk result (λ text. text ≡ text_of (levels.before_closing (levels.lines_left self.old))) }
        ensures ok { OnOk result (self.new ≡ levels.past_document self.old) }
        ensures err { OnErr result (self.new ≡ self.old) }
    {
        let left = self.cursor.left();
        let span = span_of(left);
        let text = Text::from_slice(alloc, &left[..span.document])?;
        self.cursor.pass(span.lines, span.bytes);
        Ok(text)
    }

    /// The place of the first line that has this label.
    pub fn line_of(&self, label: &Label) -> Option<LinePlace>
        ensures { MatchOption result (levels.line_of_label label.now self.now.lines ≡ None)
            (λ place. IsLinePlace label.now self.now.lines place) }
    {
        place_of_label(self.cursor.all(), label)
    }

    /// Continues at this line.
    pub fn go_to(&mut self, place: LinePlace)
        requires within { place.lines < length self.old.lines }
        requires bytes { place.bytes ≡ length (text_of (take place.lines self.old.lines)) }
        ensures { self.new ≡ levels.at_line place.lines self.old }
    {
        self.cursor.go_to(place.lines, place.bytes);
    }

    /// Appends a line; without memory nothing changes.
    pub fn add_line(&mut self, line: Text) -> Result<(), NoMemory>
        requires { IsOneLine line }
        ensures ok { OnOk result (self.new ≡ holding.line_added line self.old) }
        ensures err { OnErr result (self.new ≡ self.old) }
    {
        self.cursor.add_line(line)
    }

    /// Whether the next line may be taken while more lines may be typed: one is left, and it is no INPUT, or its document ends with `////`. Allocates
    /// nothing.
    pub fn is_ready(&self) -> bool
        ensures { result ≡ holding.line_ready self.now }
    {
        if !self.cursor.has_line() {
            return false;
        }
        !is_input(&self.params, self.cursor.line()) || is_closed(self.cursor.left())
    }

    /// Whether a level that isn't ready becomes ready if this line is appended: it has no line left, and this one is no INPUT; or its INPUT has no
    /// `////` yet, and this line is one. Checks no other line.
    pub fn is_ready_with(&self, line: &[u8]) -> bool
        requires { holding.line_ready self.now ≡ false }
        ensures { result ≡ holding.line_ready (holding.line_added line.now self.now) }
    {
        if self.cursor.has_line() {
            return line == b"////".as_slice();
        }
        !is_input(&self.params, line)
    }

    /// Stores a command that waits for a condition.
    pub fn keep(&mut self, cond: Cond, command: Text) -> Result<(), MacroFault>
        requires { IsCommandText command }
        ensures { KeepsIn cond command self.old self.new result }
    {
        if let Some(place) = place_of(self.entries.as_slice(), &cond) {
            self.entries[place].command = command;
            return Ok(());
        }
        if self.entries.len() >= ENTRIES {
            return Err(MacroFault::WheneversFull);
        }
        self.entries.push(Entry { cond, command })?;
        Ok(())
    }

    /// Sets a parameter.
    pub fn set_param(&mut self, letter: u8, value: Text)
        requires { IsLetter letter }
        ensures { self.new ≡ levels.param_set letter value self.old }
    {
        self.params.set(letter, value);
    }

    /// Whether a condition holds by the parameters of this level.
    pub fn holds(&self, cond: &Cond, outcome: &Outcome) -> bool
        ensures { result ≡ asked.cond_holds self.now.params outcome.now cond.now }
    {
        let holds = test_holds(&self.params, outcome, &cond.test);
        if cond.negated { !holds } else { holds }
    }

    /// Whether a command waits.
    pub fn has_entry(&self) -> bool
        ensures { result ≡ levels.has_entry self.now }
    {
        !self.entries.is_empty()
    }

    /// The first entry whose condition holds.
    pub fn entry_that_holds(&self, outcome: &Outcome) -> Option<&Entry>
        ensures first { MatchOption result (levels.entry_that_holds self.now outcome.now ≡ None)
            (λ entry. levels.entry_that_holds self.now outcome.now ≡ Some entry.now) }
        ensures command { IfSome result (λ entry. IsCommandText entry.now.command) }
    {
        for entry in self.entries.as_slice() {
            if self.holds(&entry.cond, outcome) {
                return Some(entry);
            }
        }
        None
    }
}

/// The extent of a document.
#[derive(Clone, Copy)]
pub(crate) struct Span {
    /// The length of its lines in bytes, with their bytes 10.
    pub(crate) document: usize,
    /// The number of lines taken for it, including `////`.
    pub(crate) lines: usize,
    /// The length of these lines in bytes.
    pub(crate) bytes: usize,
}

/// The place of a line: how many lines precede it, and how many bytes these have, with their bytes 10.
#[derive(Clone, Copy)]
pub(crate) struct LinePlace {
    pub lines: usize,
    pub bytes: usize,
}

/// Whether a line after the first of these is `////`.
fn is_closed(left: &[u8]) -> bool
    ensures { result ≡ list_any levels.is_closing (drop 1 (lines_of left.now)) }
{
    let mut lines = Lines::new(left);
    let _first = lines.next();
    while let Some(line) = lines.next() {
        if line == b"////".as_slice() {
            return true;
        }
    }
    false
}

/// The extent of the document that begins with these lines: to the first `////`, or to their end.
fn span_of(left: &[u8]) -> Span
    requires { IsWhole left.now }
    ensures { IsSpan (lines_of left.now) result }
{
    let mut lines = Lines::new(left);
    let mut document = 0;
    let mut count = 0;
    while let Some(line) = lines.next() {
        count += 1;
        if line == b"////".as_slice() {
            return Span {
                document,
                lines: count,
                bytes: document + line.len() + 1,
            };
        }
        document += line.len() + 1;
    }
    Span {
        document,
        lines: count,
        bytes: document,
    }
}

/// The place of the first of these lines that has this label.
fn place_of_label(text: &[u8], label: &Label) -> Option<LinePlace>
    requires { IsWhole text.now }
    ensures { MatchOption result (levels.line_of_label label.now (lines_of text.now) ≡ None)
        (λ place. IsLinePlace label.now (lines_of text.now) place) }
{
    let mut lines = Lines::new(text);
    let mut count = 0;
    let mut bytes = 0;
    while let Some(line) = lines.next() {
        if has_label(line, label) {
            return Some(LinePlace {
                lines: count,
                bytes,
            });
        }
        count += 1;
        bytes += line.len() + 1;
    }
    None
}

/// The place of the entry with this condition.
fn place_of(entries: &[Entry], cond: &Cond) -> Option<usize>
    ensures { result ≡ levels.place_of_cond cond.now entries.now }
{
    for (place, entry) in entries.iter().enumerate() {
        if entry.cond.is_same(cond) {
            return Some(place);
        }
    }
    None
}

/// Whether a test holds.
fn test_holds(params: &Params, outcome: &Outcome, test: &Test) -> bool
    ensures { result ≡ asked.test_holds params.now outcome.now test.now }
{
    match test {
        Test::CommandError => outcome.error,
        Test::Failed => outcome.event.has_failed(),
        Test::Halted(text) => outcome.event.has_halted(text.as_slice()),
        Test::Deleted(text) => outcome.event.has_deleted(text.as_slice()),
        Test::Present(letter) => !params.get(*letter).is_empty(),
        Test::Absent(letter) => params.get(*letter).is_empty(),
        Test::Equals { letter, text } => params.get(*letter) == text.as_slice(),
    }
}
