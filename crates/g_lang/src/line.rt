//! What a line says.
ghost use Rattle.std.specs.Prelude.{◌≡◌};
ghost use Rattle.g_lang.specs.Conditions.{same_cond};

use crate::{Label, Rest};
use g_name::{Local, Text};

/// A line: a label and a command, each of which may be absent.
#[derive(Drop)]
pub struct Line {
    pub label: Option<Label>,
    pub command: Command,
}

/// A command.
#[derive(Drop)]
pub enum Command {
    /// The line has no command.
    Blank,
    /// The inner command is executed if the condition holds.
    If { cond: Cond, inner: Box<Command> },
    /// The level continues at its first line with this label.
    Goto(Label),
    /// The level stores the command's text and executes it once the condition holds.
    Whenever { cond: Cond, command: Text },
    /// A verb or a macro; `rest` is the line from its first parameter on, unchanged except for the spaces at the line's end. `read_params` and
    /// `only_param` parse the parameters in it.
    Verb { name: Local, rest: Rest },
}

/// A test, negated or not.
#[derive(Drop, PartialEq, Eq)]
pub struct Cond {
    pub negated: bool,
    pub test: Test,
}

impl Cond {
    /// Whether two conditions are the same.
    pub fn is_same(&self, other: &Cond) -> bool
        ensures { result ≡ same_cond self.now other.now }
    {
        self == other
    }
}

/// The test of a condition; letters are `A` to `X`, which name the parameters of a level.
#[derive(Drop, PartialEq, Eq)]
pub enum Test {
    /// The last command was an error.
    CommandError,
    /// The program reached an illegal order.
    Failed,
    /// The program halted with this text.
    Halted(Text),
    /// The program was deleted with this text.
    Deleted(Text),
    /// The parameter isn't empty.
    Present(u8),
    /// The parameter is empty.
    Absent(u8),
    /// The parameter is this text.
    Equals { letter: u8, text: Text },
}
