//! A console that explains on standard error why a line was refused, or a command in small letters. What is typed and printed is that of the console in it.
ghost use Rattle.std.specs.Prelude.{◌≡◌, ◌≤◌, IfSome, length};

use crate::explain::{has_small_command, tell_refused, tell_small, tell_unclosed};
use g_base::{ReadFailed, WriteFailed};
use g_console::Console;
use g_io::Sink;
use g_lines::{number, split_at_byte};
use g_name::Text;

/// What precedes the number of a refused line.
const REFUSED: &[u8] = b"? LINE ";

/// The prompt in a document.
const IN_DOCUMENT: &[u8] = b"****> ";

/// A console, its last line, how many lines it had, and whether small letters were explained.
#[derive(Drop)]
pub(crate) struct Explained<'a, C: Console + Drop> {
    rt: &'a HostRuntime,
    console: C,
    line: Option<Text>,
    in_document: bool,
    count: u64,
    told_small: bool,
}

impl<'a, C: Console + Drop> Explained<'a, C> {
    pub(crate) fn new(rt: &'a HostRuntime, console: C) -> Explained<'a, C> {
        Explained {
            rt,
            console,
            line: None,
            in_document: false,
            count: 0,
            told_small: false,
        }
    }

    /// Notes a line, if one was taken. If memory runs out, it isn't explained.
    fn note(&mut self, in_document: bool, taken: Option<usize>, into: &[u8])
        requires { IfSome taken (λ count. count ≤ length into.now) }
        ensures { self.new.console ≡ self.old.console }
    {
        let Some(count) = taken else {
            return;
        };
        self.line = Text::from_slice(self.rt.alloc(), &into[..count]).ok();
        self.in_document = in_document;
        self.count = self.count.saturating_add(1);
    }

    /// Explains a refusal, if this is the text of one. A line other than the last one is that of a job whose document isn't closed.
    fn explain(&self, piece: &[u8]) {
        let Some(refused) = refused_in(piece) else {
            return;
        };
        if refused != self.count {
            tell_unclosed(self.rt, refused);
        } else if let Some(line) = &self.line {
            tell_refused(self.rt, refused, line.as_slice(), self.in_document);
        }
    }
}

/// The number of the line that a text refuses, if it does.
fn refused_in(piece: &[u8]) -> Option<u64> {
    let digits = piece.strip_prefix(REFUSED)?;
    let (digits, _end) = split_at_byte(digits, b'\n')?;
    number(digits, u64::MAX)
}

impl<C: Console + Drop> Sink for Explained<'_, C> {
    ghost written = { λ s. C.written s.console };

    ghost faults = { λ s. C.faults s.console };

    fn put(&mut self, piece: &[u8]) -> Result<(), WriteFailed> {
        self.console.put(piece)?;
        self.explain(piece);
        if !self.told_small && has_small_command(piece) {
            tell_small(self.rt);
            self.told_small = true;
        }
        Ok(())
    }
}

impl<C: Console + Drop> Console for Explained<'_, C> {
    ghost transcript = { λ s. C.transcript s.console };

    fn take_line(&mut self, prompt: &[u8], into: &mut [u8]) -> Result<Option<usize>, ReadFailed> {
        let taken = self.console.take_line(prompt, into)?;
        self.note(prompt == IN_DOCUMENT, taken, into);
        Ok(taken)
    }

    ghost exposed = { λ s. C.exposed s.console };
}
