//! A job at a terminal: its document is held open, and grows by the lines that are typed.
ghost use Rattle.std.specs.Prelude.{◌≡◌, OnErr, OnOk};
ghost use Rattle.g_job.specs.Terminal as terminals;
ghost use Rattle.g_lines.specs.Documents.{IsOneLine};

use crate::job::Job;
use g_base::NoMemory;
use g_name::Text;

impl Job {
    /// Holds the document open for more lines: the job doesn't end when its document has no line left, and takes a turn only if it is ready.
    pub fn hold(&mut self)
        ensures { self.new ≡ terminals.held self.old }
    {
        self.parts.work.hold();
        self.parts.ready = self.parts.again.is_some() || self.parts.work.ready();
    }

    /// The job is at this terminal.
    pub fn seat(&mut self, terminal: u8)
        ensures { self.new ≡ terminals.seated terminal self.old }
    {
        self.parts.terminal = Some(terminal);
    }

    /// Appends a line to the document; without memory nothing changes.
    pub fn add_line(&mut self, line: Text) -> Result<(), NoMemory>
        requires { IsOneLine line }
        ensures ok { OnOk result (self.new ≡ terminals.typed_to line self.old) }
        ensures err { OnErr result (self.new ≡ self.old) }
    {
        let ready = self.ready_with(line.as_slice());
        self.parts.work.add_line(line)?;
        self.parts.ready = ready;
        Ok(())
    }

    /// Whether the job is ready with this line at the end of its document; no other line is read.
    fn ready_with(&self, line: &[u8]) -> bool
        ensures { result ≡ terminals.is_ready (terminals.typed_to line.now self.now) }
    {
        self.parts.ready || self.parts.work.ready_with(line)
    }

    /// No more lines will be typed: the job ends as any other does.
    pub fn finish(&mut self)
        ensures { self.new ≡ terminals.logged_out self.old }
    {
        self.parts.work.finish();
        self.parts.ready = true;
    }

    /// Whether the job can take a turn before more lines are typed, whether or not it waits for a reel: a run of its program isn't over, something is
    /// pending, its document isn't held open, a macro has a line left, or the next line of the document is no INPUT, or one whose `////` is there.
    pub fn ready(&self) -> bool
        ensures { result ≡ terminals.is_ready self.now }
    {
        self.parts.ready
    }

    /// The terminal of the job, if it has one.
    pub fn terminal(&self) -> Option<u8>
        ensures { result ≡ self.now.terminal }
    {
        self.parts.terminal
    }

    /// Whether its document is held open.
    pub fn held(&self) -> bool
        ensures { result ≡ self.now.desk.levels.held }
    {
        self.parts.work.is_held()
    }
}
