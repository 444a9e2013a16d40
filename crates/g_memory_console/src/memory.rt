//! A console in memory, for rows of sessions.
ghost use Rattle.std.specs.Prelude.{◌≡◌, ◌≢◌, ◌≤◌, ◌<◌, ◌∷◌, ◌++◌, All, Bool, List, None, OnErr, OnOk, Some, drop, length, option_map, refl, true, false, ℕ};
ghost use Rattle.g_base.specs.Counts.{Rose};
ghost use Rattle.g_io.specs.Streams.{CountsFault};
ghost use Rattle.g_console.specs.Transcript.{Transcript, requesting, written_of};
ghost use Rattle.g_lines.specs.Lines.{lines_of};
ghost use Rattle.g_memory_console.specs.Memory.{AreFirst, Leaves, new_console, typed_of};

use g_base::{ReadFailed, WriteFailed, raised};
use g_console::Console;
use g_io::Sink;
use g_lines::split_at_byte;
use g_name::Text;
use std::alloc::Global;
use std::marker::Model;

/// A request for a line: how many bytes had been printed before it, and the line that came, if one did.
#[derive(Drop)]
pub(crate) struct Noted {
    printed: usize,
    line: Option<Text>,
}

/// A console in memory. If memory for its transcript runs out, a request fails, and from then on it exposes nothing.
#[derive(Drop)]
pub struct MemoryConsole {
    alloc: Global,
    input: Vec<u8>,
    /// How many bytes of the input were typed.
    at: usize,
    requests: Vec<Noted>,
    text: Text,
    exposed: bool,
    faults: u64,
}

impl Model for MemoryConsole {
    ghost use Rattle.g_memory_console.specs.Memory.{AreFirstWhile, ConsoleView, shown};
    ghost use Rattle.std.specs.Prelude.{◌≤◌, drop, length};

    ghost Value = { ConsoleView };

    ghost view = { λ c. record {
      transcript = shown c.exposed c.requests.items c.text;
      faults = c.faults;
      input = c.input.items;
      left = drop c.at c.input.items;
    } };

    ghost invariant = { λ c. (c.at ≤ length c.input.items) × AreFirstWhile c.exposed c.input.items (drop c.at c.input.items) c.requests.items };
}

impl MemoryConsole {
    /// A console at which these bytes will be typed.
    pub fn new(alloc: Global, input: Vec<u8>) -> MemoryConsole
        ensures { result ≡ new_console input.items }
    {
        MemoryConsole {
            alloc,
            input,
            at: 0,
            requests: Vec::new(alloc),
            text: Text::new(alloc),
            exposed: true,
            faults: 0,
        }
    }

    /// The printed text. The lines that came are then those of the input, the last one also if its byte 10 is missing.
    pub fn text(&self) -> &[u8]
        ensures text { (t : Transcript) → self.now.transcript ≡ Some t → result.now ≡ t.text }
        ensures lines { (t : Transcript) → self.now.transcript ≡ Some t → AreFirst self.now.input self.now.left t.requests }
    {
        self.text.as_slice()
    }

    /// Counts a failure, and exposes nothing from now on.
    fn lose(&mut self) -> ReadFailed
        ensures lost { self.new.transcript ≡ None }
        ensures input { self.new.input ≡ self.old.input }
        ensures faults { Rose self.old.faults self.new.faults }
    {
        self.exposed = false;
        self.faults = raised(self.faults);
        ReadFailed
    }

    /// Notes a request for which this line came, or none; this many bytes of the input have been typed then.
    fn note(&mut self, line: Option<Text>, at: usize) -> Result<(), ReadFailed>
        requires within { at ≤ length self.old.input }
        requires leaves { Leaves (typed_of line) self.old.left (drop at self.old.input) }
        ensures noted { OnOk result (self.new.transcript ≡ option_map (requesting (typed_of line)) self.old.transcript) }
        ensures lost { OnErr result (self.new.transcript ≡ None) }
        ensures input { self.new.input ≡ self.old.input }
        ensures left { OnOk result (self.new.left ≡ drop at self.old.input) }
        ensures faults { CountsFault result self.old.faults self.new.faults }
    {
        let printed = self.text.as_slice().len();
        let Ok(()) = self.requests.push(Noted { printed, line }) else {
            return Err(self.lose());
        };
        self.at = at;
        Ok(())
    }
}

impl Sink for MemoryConsole {
    ghost written = { λ c. option_map written_of c.transcript };

    ghost faults = { λ c. c.faults };

    fn put(&mut self, piece: &[u8]) -> Result<(), WriteFailed> {
        match self.text.extend(piece) {
            Ok(()) => Ok(()),
            Err(_) => {
                self.faults = raised(self.faults);
                Err(WriteFailed)
            }
        }
    }
}

impl Console for MemoryConsole {
    ghost transcript = { λ c. c.transcript };

    fn take_line(&mut self, _prompt: &[u8], into: &mut [u8]) -> Result<Option<usize>, ReadFailed> {
        let rest = &self.input[self.at..];
        if rest.is_empty() {
            let at = self.at;
            self.note(None, at)?;
            return Ok(None);
        }
        let (line, after) = first_line(rest);
        let count = line.len().min(into.len());
        into[..count].copy_from_slice(&line[..count]);
        let at = self.input.len() - after.len();
        match Text::from_slice(self.alloc, line) {
            Ok(line) => {
                self.note(Some(line), at)?;
                Ok(Some(count))
            }
            Err(_) => Err(self.lose()),
        }
    }

    ghost exposed = { λ c. refl };
}

/// The first line of a text, and the bytes after its byte 10.
fn first_line(text: &[u8]) -> (&[u8], &[u8])
    requires { 0 < length text.now }
    ensures line { All (λ byte. byte ≢ 10) result.0.now }
    ensures lines { lines_of text.now ≡ result.0.now ∷ lines_of result.1.now }
    ensures after { (front : List ℕ) × (text.now ≡ front ++ result.1.now) }
{
    match split_at_byte(text, b'\n') {
        Some((line, after)) => (line, after),
        None => (text, &[]),
    }
}
