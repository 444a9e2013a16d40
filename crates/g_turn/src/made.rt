//! The results of a turn, as a job reads them at the turn's end.
ghost use Rattle.std.specs.Prelude.{◌≡◌, ◌++◌, None, option_map, OnOk};
ghost use Rattle.g_turn.specs.Values.{pending_of, stop_of};
ghost use Rattle.g_lines.specs.Lines.{ended};
ghost use Rattle.g_monitor.specs.JobLines.{job_line};

use crate::stop::Stop;
use crate::suspended::Suspended;
use crate::work::Work;
use g_base::NoMemory;
use g_monitor::{JobLine, push_job_line};
use g_name::Text;
use std::alloc::Global;
use std::mem;

impl Work {
    /// What the turn adds to the job's monitoring file.
    pub fn text(&self) -> &Text
        ensures { result.now ≡ self.now.text }
    {
        &self.text
    }

    /// The orders that the turn has run.
    pub fn orders(&self) -> u32
        ensures { result ≡ self.now.orders }
    {
        self.orders
    }

    /// The blocks of 512 bytes that the turn has transferred.
    pub fn blocks(&self) -> u32
        ensures { result ≡ self.now.blocks }
    {
        self.blocks
    }

    /// Why the turn's work is over, if it is.
    pub fn stop(&self) -> Option<Stop>
        ensures { option_map stop_of result ≡ self.now.stop }
    {
        self.stop
    }

    /// Takes what the turn resumes with if it waits.
    pub fn take_again(&mut self, alloc: Global) -> Option<Suspended>
        ensures value { option_map pending_of result ≡ self.old.again }
        ensures none { self.new ≡ record self.old { again = None } }
    {
        let kept = self.kept.take();
        if !self.waits_with_line {
            return kept;
        }
        self.waits_with_line = false;
        let line = mem::replace(&mut self.line, Text::new(alloc));
        Some(Suspended::Line(line))
    }

    /// Appends a job's last line with its byte 10 to the turn's text, without regard to the room of the monitoring file. If memory runs out, the text
    /// is unspecified.
    // Called once in a job: as a function of its own it adds no stack space to other turns.
    #[inline(never)]
    pub fn push_last(&mut self, line: JobLine) -> Result<(), NoMemory>
        ensures ok { OnOk result (self.new ≡ record self.old { text = self.old.text ++ ended (job_line line) }) }
        ensures desk { self.new.desk ≡ self.old.desk }
    {
        push_job_line(&mut self.text, line)?;
        self.text.push(b'\n')?;
        Ok(())
    }
}
