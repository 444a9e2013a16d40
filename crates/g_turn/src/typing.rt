//! A document that is held open for typed lines, and whether the work can continue before they are typed.
ghost use Rattle.std.specs.Prelude.{◌≡◌, false, OnErr, OnOk};
ghost use Rattle.g_turn.specs.Typing.{can_go_on, with_stack};
ghost use Rattle.g_lines.specs.Documents.{IsOneLine};
ghost use Rattle.g_macro.specs.Holding.{finished, held_open, with_typed};

use crate::work::Work;
use g_base::NoMemory;
use g_macro::MacroFault;
use g_name::Text;

impl Work {
    /// Holds the document open for more lines.
    pub fn hold(&mut self)
        ensures { self.new ≡ with_stack held_open self.old }
    {
        self.levels.hold();
    }

    /// No more lines will be typed.
    pub fn finish(&mut self)
        ensures { self.new ≡ with_stack finished self.old }
    {
        self.levels.finish();
    }

    /// Whether the document is held open.
    pub fn is_held(&self) -> bool
        ensures { result ≡ self.now.desk.levels.held }
    {
        self.levels.is_held()
    }

    /// Appends a line to the document; without memory nothing changes.
    pub fn add_line(&mut self, line: Text) -> Result<(), NoMemory>
        requires { IsOneLine line }
        ensures ok { OnOk result (self.new ≡ with_stack (with_typed line) self.old) }
        ensures err { OnErr result (self.new ≡ self.old) }
    {
        match self.levels.add_line(line) {
            Ok(()) => Ok(()),
            Err(_) => Err(NoMemory),
        }
    }

    /// Whether a turn can continue with what is on the desk: a run of the program isn't over, or the levels are ready. Allocates nothing; if the
    /// document isn't held open, it reads no line.
    pub fn ready(&self) -> bool
        ensures { result ≡ can_go_on self.now.desk }
    {
        self.running.is_some() || self.levels.ready()
    }

    /// Whether a turn that can't continue can if this line is appended to the document. Allocates nothing, and reads no other line.
    pub fn ready_with(&self, line: &[u8]) -> bool
        requires { can_go_on self.now.desk ≡ false }
        ensures { result ≡ can_go_on (with_stack (with_typed line.now) self.now).desk }
    {
        self.levels.ready_with(line)
    }
}
