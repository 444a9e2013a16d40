//! Printing, and the outcome of a command.
ghost use Rattle.std.specs.Prelude.{◌≡◌, ◌≤◌, ◌+◌, ◌∷◌, ◌++◌, [], false, length, take, drop, OnOk};
ghost use Rattle.g_base.specs.Block.{blocks_for};
ghost use Rattle.g_turn.specs.Outcomes as said;
ghost use Rattle.g_turn.specs.Values.{stop_of};
ghost use Rattle.g_monitor.specs.JobLines.{job_line, marked};
ghost use Rattle.g_monitor.specs.Refusals.{IsPrinted, fault_line};
ghost use Rattle.g_plain.specs.Programs.{is_memory};

use crate::stop::Stop;
use crate::work::Work;
use g_base::NoMemory;
use g_macro::{EventNote, Outcome};
use g_monitor::{CommandError, JobLine, Mark, push_error, push_fault, push_job_line, push_marked};
use g_name::Text;
use g_plain::StoreFault;
use std::alloc::Global;
use std::mem;

impl Work {
    /// Whether nothing more is executed in this turn.
    pub(crate) fn is_over(&self) -> bool
        ensures { result ≡ said.is_over self.now }
    {
        self.stop.is_some()
    }

    /// Ends the work for this reason.
    pub(crate) fn stop_at(&mut self, stop: Stop)
        ensures { self.new ≡ said.stopped (stop_of stop) self.old }
    {
        self.stop = Some(stop);
    }

    /// Ends the line that begins at byte `start` of the text: it remains, with its byte 10, if the file has room for both; otherwise it is removed,
    /// and the work is over.
    pub(crate) fn end_line(
        &mut self,
        alloc: Global,
        room: usize,
        start: usize,
    ) -> Result<(), NoMemory>
        requires { start ≤ length self.old.text }
        ensures ok { OnOk result (self.new ≡ said.say room (drop start self.old.text)
            (record self.old { text = take start self.old.text })) }
        ensures blocks { OnOk result (self.new.blocks ≡ self.old.blocks) }
    {
        self.text.push(b'\n')?;
        if room < self.text.as_slice().len() {
            truncate(alloc, &mut self.text, start);
            self.stop = Some(Stop::Full);
        }
        Ok(())
    }

    /// The command sets the outcome.
    pub(crate) fn set_outcome(&mut self, error: bool, event: EventNote)
        ensures { self.new ≡ said.set_outcome error event self.old }
    {
        self.sets = true;
        self.outcome = Outcome { error, event };
    }

    /// The command is done, and was no error.
    pub(crate) fn done(&mut self)
        ensures { self.new ≡ said.done self.old }
    {
        self.set_outcome(false, EventNote::None);
    }

    /// Prints a text after its mark.
    pub(crate) fn say_marked(
        &mut self,
        alloc: Global,
        room: usize,
        mark: Mark,
        text: &[u8],
    ) -> Result<(), NoMemory>
        ensures ok { OnOk result (self.new ≡ said.say room (marked mark text.now) self.old) }
        ensures blocks { OnOk result (self.new.blocks ≡ self.old.blocks) }
    {
        let start = self.text.as_slice().len();
        push_marked(&mut self.text, mark, text)?;
        self.end_line(alloc, room, start)?;
        Ok(())
    }

    /// Prints a line of words and numbers.
    pub(crate) fn say_job_line(
        &mut self,
        alloc: Global,
        room: usize,
        line: JobLine,
    ) -> Result<(), NoMemory>
        ensures ok { OnOk result (self.new ≡ said.say room (job_line line) self.old) }
        ensures blocks { OnOk result (self.new.blocks ≡ self.old.blocks) }
    {
        let start = self.text.as_slice().len();
        push_job_line(&mut self.text, line)?;
        self.end_line(alloc, room, start)?;
        Ok(())
    }

    /// Prints an error that isn't a store's fault.
    pub(crate) fn in_error(
        &mut self,
        alloc: Global,
        room: usize,
        error: CommandError,
    ) -> Result<(), NoMemory>
        ensures ok { OnOk result (self.new ≡ said.in_error room error self.old) }
        ensures blocks { OnOk result (self.new.blocks ≡ self.old.blocks) }
    {
        self.set_outcome(true, EventNote::None);
        let start = self.text.as_slice().len();
        self.text.extend(b"ERROR ")?;
        push_error(&mut self.text, error)?;
        self.end_line(alloc, room, start)?;
        Ok(())
    }

    /// Prints a store's refusal as an error of the command.
    fn say_fault(&mut self, alloc: Global, room: usize, fault: &StoreFault) -> Result<(), NoMemory>
        requires { IsPrinted fault.now }
        ensures ok { OnOk result
            (self.new ≡ said.error_said room (fault_line fault.now) self.old) }
        ensures blocks { OnOk result (self.new.blocks ≡ self.old.blocks) }
    {
        self.set_outcome(true, EventNote::None);
        let start = self.text.as_slice().len();
        self.text.extend(b"ERROR ")?;
        push_fault(&mut self.text, fault)?;
        self.end_line(alloc, room, start)?;
        Ok(())
    }

    /// A call was refused: a wait and a stop end the work, and any other refusal is printed as an error.
    pub(crate) fn refuse(
        &mut self,
        alloc: Global,
        room: usize,
        fault: &StoreFault,
    ) -> Result<(), NoMemory>
        requires memory { is_memory fault.now ≡ false }
        ensures ok { OnOk result (self.new ≡ said.refused room fault.now self.old) }
        ensures blocks { OnOk result (self.new.blocks ≡ self.old.blocks) }
    {
        match fault {
            StoreFault::WaitTape(serial) => {
                self.stop_at(Stop::Waits(*serial));
                Ok(())
            }
            StoreFault::Stopped => {
                self.stop_at(Stop::Broken);
                Ok(())
            }
            other => {
                self.say_fault(alloc, room, other)?;
                Ok(())
            }
        }
    }

    /// Counts the blocks of this many bytes, which a granted call transferred.
    pub(crate) fn count_bytes(&mut self, bytes: usize)
        requires short { bytes ≤ 65536 }
        requires few { self.old.blocks ≤ 4096 }
        ensures ok { self.new ≡ said.with_bytes bytes self.old }
        ensures blocks { self.new.blocks ≤ self.old.blocks + 128 }
    {
        self.blocks += bytes.div_ceil(512) as u32;
    }
}

/// Truncates a text to its first bytes.
fn truncate(alloc: Global, text: &mut Text, len: usize)
    ensures { text.new ≡ take len text.old }
{
    let mut bytes = Vec::from(mem::replace(text, Text::new(alloc)));
    bytes.truncate(len);
    *text = Text::from(bytes);
}
