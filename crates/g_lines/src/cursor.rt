//! The lines of a document, taken in order.
ghost use Rattle.std.specs.Prelude.{◌≡◌, ◌<◌, ◌≤◌, ◌+◌, [], length, nat_lt, slice_index_or, take, OnErr, OnOk};
ghost use Rattle.g_lines.specs.Documents.{IsOneLine, lines_left, untaken, with_line, with_taken};
ghost use Rattle.g_lines.specs.Lines.{lines_of, text_of};

use crate::document::Document;
use crate::lines::split_line;
use g_base::NoMemory;
use g_name::Text;
use std::marker::Model;

/// A document whose lines are taken in order. Contracts see the lines, and how many of them were taken.
#[derive(Drop)]
pub struct Cursor {
    document: Document,
    taken: usize,
    /// The bytes of the lines that were taken.
    at: usize,
}

impl Model for Cursor {
    ghost use Rattle.g_lines.specs.Documents.{IsPlace, Taking};

    ghost Value = { Taking };

    ghost view = { λ c. record {
      lines = c.document;
      taken = c.taken;
    } };

    ghost invariant = { λ c. IsPlace c.document c.taken c.at };
}

impl Cursor {
    /// A cursor at the first line of a document.
    pub fn new(document: Document) -> Cursor
        ensures { result ≡ untaken document }
    {
        Cursor {
            document,
            taken: 0,
            at: 0,
        }
    }

    /// Whether a line is left.
    pub fn has_line(&self) -> bool
        ensures { result ≡ nat_lt self.now.taken (length self.now.lines) }
    {
        self.at < self.document.as_text().len()
    }

    /// The text of all lines, each with its byte 10.
    pub fn all(&self) -> &[u8]
        ensures text { result.now ≡ text_of self.now.lines }
        ensures lines { lines_of result.now ≡ self.now.lines }
    {
        self.document.as_text()
    }

    /// The text of the lines that are left, each with its byte 10.
    pub fn left(&self) -> &[u8]
        ensures text { result.now ≡ text_of (lines_left self.now) }
        ensures lines { lines_of result.now ≡ lines_left self.now }
    {
        &self.document.as_text()[self.at..]
    }

    /// The next line.
    pub fn line(&self) -> &[u8]
        requires { self.now.taken < length self.now.lines }
        ensures { result.now ≡ slice_index_or self.now.lines self.now.taken [] }
    {
        let (line, _rest) = split_line(self.left());
        line
    }

    /// Counts the next line as taken.
    pub fn take_line(&mut self)
        requires { self.old.taken < length self.old.lines }
        ensures { self.new ≡ with_taken (self.old.taken + 1) self.old }
    {
        let text = self.document.as_text();
        let (line, _rest) = split_line(&text[self.at..]);
        self.at += line.len() + 1;
        self.taken += 1;
    }

    /// Takes this many more lines, which have this many bytes with their bytes 10.
    pub fn pass(&mut self, lines: usize, bytes: usize)
        requires within { lines ≤ length (lines_left self.old) }
        requires bytes { bytes ≡ length (text_of (take lines (lines_left self.old))) }
        ensures { self.new ≡ with_taken (self.old.taken + lines) self.old }
    {
        let _text = self.document.as_text();
        self.at += bytes;
        self.taken += lines;
    }

    /// Takes this many lines from the first on; they have this many bytes with their bytes 10.
    pub fn go_to(&mut self, lines: usize, bytes: usize)
        requires within { lines ≤ length self.old.lines }
        requires bytes { bytes ≡ length (text_of (take lines self.old.lines)) }
        ensures { self.new ≡ with_taken lines self.old }
    {
        self.taken = lines;
        self.at = bytes;
    }

    /// Appends a line; without memory nothing changes.
    pub fn add_line(&mut self, line: Text) -> Result<(), NoMemory>
        requires { IsOneLine line }
        ensures ok { OnOk result (self.new ≡ with_line line self.old) }
        ensures err { OnErr result (self.new ≡ self.old) }
    {
        self.document.push(line)
    }
}
