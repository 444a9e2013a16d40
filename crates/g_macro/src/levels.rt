//! The levels of a job.
ghost use Rattle.std.specs.List.{list_any};
ghost use Rattle.std.specs.Prelude.{◌≡◌, ◌<◌, ◌≤◌, false, None, Some, length, reverse, take, IfOk, IfSome, IsSome, MatchOption};
ghost use Rattle.g_lang.specs.Conditions.{IsLetter};
ghost use Rattle.g_lang.specs.Lines.{IsCommandText};
ghost use Rattle.g_lines.specs.Documents.{IsOneLine};
ghost use Rattle.g_macro.specs.Holding as holding;
ghost use Rattle.g_macro.specs.Levels as levels;
ghost use Rattle.g_macro.specs.Replies as replies;
ghost use Rattle.g_macro.specs.declared.outcome.Outcome.{Outcome};

use crate::entry::Entry;
use crate::level::Level;
use crate::{MacroFault, Outcome};
use g_lang::{Cond, Label};
use g_lines::{Document, Texts};
use g_name::Text;
use std::alloc::Global;
use std::marker::Model;

/// How many levels there may be.
const MOST: usize = 8;

/// The levels of a job: its document, and the macros that it has called. Contracts see the current one first, and whether the document is held open
/// for more lines.
#[derive(Drop)]
pub struct Levels {
    /// The current level last.
    levels: Vec<Level>,
    held: bool,
}

impl Model for Levels {
    ghost use Rattle.std.specs.Prelude.{reverse, length, ◌≤◌};
    ghost use Rattle.g_macro.specs.Levels.{Stack};

    ghost Value = { Stack };

    ghost view = { λ l. record { levels = reverse l.levels.items; held = l.held } };

    ghost invariant = { λ l. length l.levels.items ≤ 8 };
}

impl Levels {
    /// The levels of a job at its beginning: only its document.
    pub fn new(alloc: Global, lines: Document) -> Result<Levels, MacroFault>
        ensures { replies.IsNew lines result }
    {
        let level = Level::new(alloc, lines, Texts::new(alloc))?;
        let mut levels = Vec::new(alloc);
        levels.push(level)?;
        Ok(Levels {
            levels,
            held: false,
        })
    }

    /// Takes the next line, with the parameters of its level substituted. Levels on top that have no line are dropped first. The result reuses the
    /// memory of a text whose own bytes are dropped, usually that of the last line.
    ///
    /// `None` if no level has a line. A line above 240 bytes is refused, and counts as taken.
    pub fn next_line(&mut self, room: Text) -> Result<Option<Text>, MacroFault>
        ensures line { replies.TakesLine self.old self.new result }
        ensures current { IfOk result (λ line. IsSome line → 0 < length self.new.levels) }
    {
        let live = live_levels(self.levels.as_slice(), self.held);
        if live == 0 || !self.levels[live - 1].has_line() {
            self.levels.truncate(live);
            return Ok(None);
        }
        let level = &self.levels[live - 1];
        let line = level.line();
        let bytes = line.len() + 1;
        let filled = level.filled(room, line)?;
        self.levels.truncate(live);
        self.levels[live - 1].pass_line(bytes);
        if filled.is_cut {
            Err(MacroFault::TooLong(filled.text))
        } else {
            Ok(Some(filled.text))
        }
    }

    /// The document of an INPUT: the lines of the current level up to `////` or to its end, each with its byte 10. They are taken, including `////`.
    pub fn document(&mut self, alloc: Global) -> Result<Text, MacroFault>
        requires { 0 < length self.old.levels }
        ensures { replies.TakesDocument self.old self.new result }
    {
        let top = self.levels.len() - 1;
        let text = self.levels[top].take_document(alloc)?;
        Ok(text)
    }

    /// Pushes a macro's level. There are at most 8 levels.
    pub fn call(&mut self, alloc: Global, lines: Document, params: Texts) -> Result<(), MacroFault>
        requires { length params ≤ 24 }
        ensures { replies.Calls lines params self.old self.new result }
    {
        if self.levels.len() >= MOST {
            return Err(MacroFault::TooDeep);
        }
        let level = Level::new(alloc, lines, params)?;
        self.levels.push(level)?;
        Ok(())
    }

    /// Continues at the first line of the current level that has this label; lines of documents count too.
    pub fn goto(&mut self, label: &Label) -> Result<(), MacroFault>
        requires { 0 < length self.old.levels }
        ensures { replies.Goes label.now self.old self.new result }
    {
        let top = self.levels.len() - 1;
        match self.levels[top].line_of(label) {
            Some(place) => {
                self.levels[top].go_to(place);
                Ok(())
            }
            None => Err(MacroFault::NoLabel),
        }
    }

    /// Stores a waiting command in the current level: it replaces the one with an equal condition, or is appended to the others, of which there are
    /// at most 16.
    pub fn whenever(&mut self, cond: Cond, command: Text) -> Result<(), MacroFault>
        requires some { 0 < length self.old.levels }
        requires command { IsCommandText command }
        ensures { replies.Keeps cond command self.old self.new result }
    {
        let top = self.levels.len() - 1;
        self.levels[top].keep(cond, command)
    }

    /// Sets a parameter of the current level; the letter is `A` to `X`.
    pub fn set_param(&mut self, letter: u8, value: Text)
        requires some { 0 < length self.old.levels }
        requires letter { IsLetter letter }
        ensures { self.new ≡ levels.with_param letter value self.old }
    {
        let top = self.levels.len() - 1;
        self.levels[top].set_param(letter, value);
    }

    /// Holds the document open for more lines.
    pub fn hold(&mut self)
        ensures { self.new ≡ holding.held_open self.old }
    {
        self.held = true;
    }

    /// No more lines will be typed: the document isn't held open any longer.
    pub fn finish(&mut self)
        ensures { self.new ≡ holding.finished self.old }
    {
        self.held = false;
    }

    /// Whether the document is held open.
    pub fn is_held(&self) -> bool
        ensures { result ≡ self.now.held }
    {
        self.held
    }

    /// Appends a line to the document; without memory nothing changes. If no level is left, the line is dropped.
    pub fn add_line(&mut self, line: Text) -> Result<(), MacroFault>
        requires { IsOneLine line }
        ensures { replies.Adds line self.old self.new result }
    {
        if self.levels.is_empty() {
            return Ok(());
        }
        self.levels[0].add_line(line)?;
        Ok(())
    }

    /// Whether the levels can continue: no more lines are expected, a level above the document has a line left, or the document has one that may be
    /// taken already. Allocates nothing.
    pub fn ready(&self) -> bool
        ensures { result ≡ holding.are_ready self.now }
    {
        !self.held || is_some_ready(self.levels.as_slice())
    }

    /// Whether levels that can't continue can if this line is appended to the document. Allocates nothing, and checks no other line.
    pub fn ready_with(&self, line: &[u8]) -> bool
        requires { holding.are_ready self.now ≡ false }
        ensures { result ≡ holding.are_ready (holding.with_typed line.now self.now) }
    {
        match self.levels.first() {
            Some(document) => document.is_ready_with(line),
            None => false,
        }
    }

    /// Whether a condition holds, by the parameters of the current level.
    pub fn holds(&self, cond: &Cond, outcome: &Outcome) -> bool
        requires { 0 < length self.now.levels }
        ensures { result ≡ levels.holds self.now cond.now outcome.now }
    {
        self.levels[self.levels.len() - 1].holds(cond, outcome)
    }

    /// Whether a command waits in one of the levels; otherwise none can fire.
    pub fn have_entries(&self) -> bool
        ensures { result ≡ false → (outcome : Outcome) → levels.fired outcome self.now.levels ≡ None }
    {
        some_wait(self.levels.as_slice())
    }

    /// The command of the first entry that holds, of the current level and then of those below it. The levels above its own are dropped. It is the
    /// text of a command, so parsing it again succeeds.
    pub fn fire(&mut self, alloc: Global, outcome: &Outcome) -> Result<Option<Text>, MacroFault>
        ensures fires { replies.Fires outcome.now self.old self.new result }
        ensures command { IfOk result (λ command. IfSome command IsCommandText) }
    {
        match firing(self.levels.as_slice(), outcome) {
            Some((entry, depth)) => {
                let command = Text::from_slice(alloc, entry.command.as_slice())?;
                self.levels.truncate(depth);
                Ok(Some(command))
            }
            None => Ok(None),
        }
    }
}

/// The number of levels left once those on top without a line are dropped; a document that is held open remains.
fn live_levels(all: &[Level], held: bool) -> usize
    ensures same { levels.live held (reverse all.now) ≡ reverse (take result all.now) }
    ensures within { result ≤ length all.now }
{
    let mut live = all.len();
    while live > 0 {
        if all[live - 1].has_line() || held && live == 1 {
            return live;
        }
        live -= 1;
    }
    0
}

/// Whether a level above the document has a line left, or the document has one that may be taken.
// Called only for a terminal: as a function of its own it adds no stack space to other turns.
#[inline(never)]
fn is_some_ready(all: &[Level]) -> bool
    ensures { result ≡ holding.some_ready (reverse all.now) }
{
    match all.split_first() {
        Some((document, above)) => have_line(above) || document.is_ready(),
        None => false,
    }
}

/// Whether one of these levels has a line left.
fn have_line(all: &[Level]) -> bool
    ensures { result ≡ list_any levels.has_line all.now }
{
    all.iter().any(|level| level.has_line())
}

/// Whether a command waits in one of these levels.
fn some_wait(all: &[Level]) -> bool
    ensures { result ≡ list_any levels.has_entry all.now }
{
    all.iter().any(|level| level.has_entry())
}

/// The first entry that holds, from the topmost level down, and the number of levels that remain.
fn firing<'a>(all: &'a [Level], outcome: &Outcome) -> Option<(&'a Entry, usize)>
    ensures first { MatchOption result (levels.fired outcome.now (reverse all.now) ≡ None)
        (λ found. (found.1 ≤ length all.now)
        × (levels.fired outcome.now (reverse all.now) ≡ Some (found.0.now.command, reverse (take found.1 all.now)))) }
    ensures command { IfSome result (λ found. IsCommandText found.0.now.command) }
{
    let mut depth = all.len();
    while depth > 0 {
        if let Some(entry) = all[depth - 1].entry_that_holds(outcome) {
            return Some((entry, depth));
        }
        depth -= 1;
    }
    None
}
