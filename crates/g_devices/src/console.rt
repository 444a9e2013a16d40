//! Standard input and output as a console. It exposes neither what was typed nor what was printed, and counts each failure.
ghost use Rattle.std.specs.Prelude.{◌≡◌, ◌≢◌, ◌≤◌, None, All, IfOk, IfSome, length, refl, take};

use crate::host::{HostInput, HostOutput};
use g_base::{ReadFailed, WriteFailed, raised};
use g_console::Console;
use g_files::{StdSink, StdSource};
use g_io::{Sink, Source};
use std::io::{IsTerminal, Read, Write};

/// The most bytes that are read at once.
const PIECE: usize = 4_096;

/// A console on a reader and a writer. A person at a terminal sees a prompt when the program waits for a line.
#[derive(Drop)]
pub struct StdConsole<R: Read + Drop, W: Write + Drop> {
    source: StdSource<HostInput<R>>,
    sink: StdSink<HostOutput<W>>,
    piece: [u8; PIECE],
    /// The bytes of the piece that no line has yet.
    from: usize,
    to: usize,
    /// The reader has no more bytes.
    over: bool,
    faults: u64,
    prompts: bool,
}

/// The line that is being moved: how many bytes fit so far, and whether it has any.
#[derive(Clone, Copy)]
struct Moved {
    count: usize,
    some: bool,
}

impl<R: Read + Drop, W: Write + Drop> StdConsole<R, W> {
    /// A console; it shows prompts if `prompts` is set, which is for terminals.
    pub fn new(reader: R, writer: W, prompts: bool) -> Self {
        StdConsole {
            source: StdSource::new(HostInput::new(reader)),
            sink: StdSink::new(HostOutput::new(writer)),
            piece: [0; PIECE],
            from: 0,
            to: 0,
            over: false,
            faults: 0,
            prompts,
        }
    }

    /// Moves bytes of the piece into a line, up to a byte 10, and returns whether there was one. What doesn't fit is dropped.
    fn move_bytes(&mut self, into: &mut [u8], moved: &mut Moved) -> bool
        requires { (moved.old.count ≤ length into.old) × All (λ byte. byte ≢ 10) (take moved.old.count into.old) }
        ensures line { (moved.new.count ≤ length into.new) × All (λ byte. byte ≢ 10) (take moved.new.count into.new) }
        ensures faults { self.new.faults ≡ self.old.faults }
    {
        'bytes: while self.from < self.to && self.from < PIECE {
            let byte = self.piece[self.from];
            self.from += 1;
            if byte == b'\n' {
                return true;
            }
            moved.some = true;
            if moved.count < into.len() {
                into[moved.count] = byte;
                moved.count += 1;
            }
        }
        false
    }

    /// Reads the next piece.
    fn fill(&mut self, prompt: &[u8]) -> Result<(), ReadFailed>
        ensures { self.new.faults ≡ self.old.faults }
    {
        self.show(prompt);
        self.from = 0;
        self.to = self.source.take(&mut self.piece)?;
        if self.to == 0 {
            self.over = true;
            self.show(b"\n");
        }
        Ok(())
    }

    /// Shows a prompt, if there is a person to see it. If that fails, the next print does too.
    fn show(&mut self, prompt: &[u8])
        ensures { self.new.faults ≡ self.old.faults }
    {
        if self.prompts && !prompt.is_empty() {
            let _shown = self.sink.put(prompt);
        }
    }

    /// The next line; `None` if there is none, an error if a read failed.
    fn next_line(&mut self, prompt: &[u8], into: &mut [u8]) -> Result<Option<usize>, ReadFailed>
        ensures line { IfOk result (λ n. IfSome n (λ count. (count ≤ length into.new) × All (λ byte. byte ≢ 10) (take count into.new))) }
        ensures faults { self.new.faults ≡ self.old.faults }
    {
        let mut moved = Moved {
            count: 0,
            some: false,
        };
        let mut shown = prompt;
        'pieces: for _piece in 0..u64::MAX {
            if self.move_bytes(into, &mut moved) {
                return Ok(Some(moved.count));
            }
            if self.over {
                return Ok(if moved.some { Some(moved.count) } else { None });
            }
            self.fill(shown)?;
            shown = b"";
        }
        Err(ReadFailed)
    }
}

/// Whether standard input and output are both a terminal.
pub fn are_terminals(rt: &HostRuntime) -> bool {
    rt.stdin().is_terminal() && rt.stdout().is_terminal()
}

impl<R: Read + Drop, W: Write + Drop> Sink for StdConsole<R, W> {
    ghost written = { λ s. None };

    ghost faults = { λ s. s.faults };

    fn put(&mut self, piece: &[u8]) -> Result<(), WriteFailed> {
        match self.sink.put(piece) {
            Ok(()) => Ok(()),
            Err(_) => {
                self.faults = raised(self.faults);
                Err(WriteFailed)
            }
        }
    }
}

impl<R: Read + Drop, W: Write + Drop> Console for StdConsole<R, W> {
    ghost transcript = { λ s. None };

    fn take_line(&mut self, prompt: &[u8], into: &mut [u8]) -> Result<Option<usize>, ReadFailed> {
        match self.next_line(prompt, into) {
            Ok(line) => Ok(line),
            Err(_) => {
                self.faults = raised(self.faults);
                Err(ReadFailed)
            }
        }
    }

    ghost exposed = { λ s. refl };
}
