//! One command of a line: GOTO, IF, WHENEVER, or a verb.
ghost use Rattle.std.specs.Prelude.{◌≡◌, ◌<◌, Some, length, IfSome, OnOk};
ghost use Rattle.g_turn.specs.Commands as commands;
ghost use Rattle.g_turn.specs.LineMeaning.{IsBare, IsSpoken, Met};
ghost use Rattle.g_turn.specs.LineWork.{TakesCommand};
ghost use Rattle.g_turn.specs.Outcomes as said;
ghost use Rattle.g_turn.specs.Steps.{HasRun};
ghost use Rattle.g_lang.specs.Lines.{IsCommandText};
ghost use Rattle.g_lang.specs.Meaning.{command_said};
ghost use Rattle.g_macro.specs.Levels.{current, line_of_label};
ghost use Rattle.g_monitor.specs.declared.errors.CommandError.TheVariants as errors;
ghost use Rattle.g_verbs.specs.Verbs.{verb_of};
ghost use Rattle.g_verbs.specs.declared.verb.Verb.TheVariants as verb;

use crate::asker::Asker;
use crate::uses::Use;
use crate::work::Work;
use g_base::NoMemory;
use g_lang::{Command, Cond, Label, Rest};
use g_macro::MacroFault;
use g_monitor::CommandError;
use g_name::{Local, Text};
use g_plain::{Filestore, StoreCall};
use g_trap::Mode;
use g_verbs::{Verb, VerbFault, only_file, read_known};
use std::alloc::Global;

/// A verb's line: its name, and the text of its parameters.
#[derive(Drop)]
struct VerbLine {
    name: Local,
    rest: Rest,
}

impl Work {
    /// Executes what a text says, for the asker's user; `by` says whether a WHENEVER executes it. A blank line, a label without a command, and an IF
    /// whose condition doesn't hold have no effect.
    #[tactic(auto, using(crate::proofs::RanLemmas::gives_alone))]
    pub(crate) fn do_command<S: Filestore>(
        &mut self,
        store: &mut S,
        asker: &Asker<'_>,
        by: bool,
        command: Command,
    ) -> Result<(), NoMemory>
        requires open { TakesCommand (S.is_spent store.old) self.old }
        requires spoken { IfSome (command_said command) IsSpoken }
        ensures { HasRun S.answers S.is_spent S.can_wait asker.now.who.now
            (commands.done_if asker.now.room asker.now.who.now by (command_said command) self.old) 2048 store.old self.old result self.new store.new }
    {
        // A command is large, so the parts of most are moved on their own.
        match command {
            Command::Verb { name, rest } => { self.verb(store, asker, by, VerbLine { name, rest }) }
            Command::Goto(label) => self.go_to(asker.alloc, asker.room, &label),
            other => self.do_behind_conditions(store, asker, by, other),
        }
    }

    /// Executes the command after the conditions of IF, if they all hold.
    fn do_behind_conditions<S: Filestore>(
        &mut self,
        store: &mut S,
        asker: &Asker<'_>,
        by: bool,
        command: Command,
    ) -> Result<(), NoMemory>
        requires open { TakesCommand (S.is_spent store.old) self.old }
        requires spoken { IfSome (command_said command) IsSpoken }
        ensures { HasRun S.answers S.is_spent S.can_wait asker.now.who.now
            (commands.done_if asker.now.room asker.now.who.now by (command_said command) self.old) 2048 store.old self.old result self.new store.new }
    {
        match self.behind_conditions(command) {
            Some(command) => self.command(store, asker, by, command),
            None => Ok(()),
        }
    }

    /// The command after the conditions of IF, if they all hold.
    fn behind_conditions(&self, command: Command) -> Option<Command>
        requires level { 0 < length self.now.desk.levels.levels }
        requires spoken { IfSome (command_said command) IsSpoken }
        ensures met { Met command self.now result }
        ensures spoken { IfSome result (λ c. IfSome (command_said c) IsSpoken) }
    {
        match command {
            Command::Blank => None,
            Command::If { cond, inner } => {
                if self.levels.holds(&cond, &self.outcome) {
                    self.behind_conditions(Box::into_inner(inner))
                } else {
                    None
                }
            }
            other => Some(other),
        }
    }

    /// Executes a command without a condition.
    #[tactic(auto, using(crate::proofs::RanLemmas::gives_alone))]
    fn command<S: Filestore>(
        &mut self,
        store: &mut S,
        asker: &Asker<'_>,
        by: bool,
        command: Command,
    ) -> Result<(), NoMemory>
        requires open { TakesCommand (S.is_spent store.old) self.old }
        requires spoken { IfSome (command_said command) IsSpoken }
        requires bare { IsBare command }
        ensures { HasRun S.answers S.is_spent S.can_wait asker.now.who.now
            (commands.done_if asker.now.room asker.now.who.now by (command_said command) self.old) 2048 store.old self.old result self.new store.new }
    {
        match command {
            Command::Goto(label) => self.go_to(asker.alloc, asker.room, &label),
            Command::Whenever { cond, command } => self.keep(
                asker.alloc,
                asker.room,
                cond,
                command,
            ),
            Command::Verb { name, rest } => { self.verb(store, asker, by, VerbLine { name, rest }) }
            Command::Blank | Command::If { .. } => Ok(()),
        }
    }

    /// GOTO: the level continues at its first line with the label.
    pub(crate) fn go_to(
        &mut self,
        alloc: Global,
        room: usize,
        label: &Label,
    ) -> Result<(), NoMemory>
        requires level { 0 < length self.old.desk.levels.levels }
        ensures ok { OnOk result (self.new ≡ commands.gone room
            (line_of_label label.now (current self.old.desk.levels).lines) self.old) }
        ensures blocks { OnOk result (self.new.blocks ≡ self.old.blocks) }
    {
        match self.levels.goto(label) {
            Ok(()) => Ok(()),
            Err(MacroFault::NoLabel) => self.in_error(alloc, room, CommandError::NoLabel),
            Err(_) => unreachable!(),
        }
    }

    /// WHENEVER: the level stores the command.
    fn keep(
        &mut self,
        alloc: Global,
        room: usize,
        cond: Cond,
        command: Text,
    ) -> Result<(), NoMemory>
        requires level { 0 < length self.old.desk.levels.levels }
        requires command { IsCommandText command }
        ensures ok { OnOk result (self.new ≡ commands.kept room cond command self.old) }
        ensures blocks { OnOk result (self.new.blocks ≡ self.old.blocks) }
    {
        match self.levels.whenever(cond, command) {
            Ok(()) => Ok(()),
            Err(MacroFault::WheneversFull) => {
                self.in_error(alloc, room, CommandError::WheneversFull)
            }
            Err(MacroFault::NoMemory) => Err(NoMemory),
            Err(_) => unreachable!(),
        }
    }

    /// A verb, or a macro. An action is large, so the most common verbs avoid one, each in a function of its own.
    fn verb<S: Filestore>(
        &mut self,
        store: &mut S,
        asker: &Asker<'_>,
        by: bool,
        line: VerbLine,
    ) -> Result<(), NoMemory>
        requires open { TakesCommand (S.is_spent store.old) self.old }
        ensures { HasRun S.answers S.is_spent S.can_wait asker.now.who.now
            (commands.verb_line asker.now.room asker.now.who.now by line.name line.rest self.old) 2048 store.old self.old result self.new store.new }
    {
        match Verb::of(line.name.as_slice()) {
            Some(Verb::Input) => self.input_line(store, asker, by, line),
            Some(Verb::Erase) => self.erase_line(store, asker, by, line),
            Some(Verb::ListFile) => self.list_line(store, asker, by, line),
            Some(Verb::Display) => self.display_line(store, asker, by, line),
            verb => self.any_verb(store, asker, by, verb, line),
        }
    }

    /// INPUT, mostly of a file.
    fn input_line<S: Filestore>(
        &mut self,
        store: &mut S,
        asker: &Asker<'_>,
        by: bool,
        line: VerbLine,
    ) -> Result<(), NoMemory>
        requires open { TakesCommand (S.is_spent store.old) self.old }
        requires verb { verb_of line.name ≡ Some verb.Input }
        ensures { HasRun S.answers S.is_spent S.can_wait asker.now.who.now
            (commands.verb_line asker.now.room asker.now.who.now by line.name line.rest self.old) 2048 store.old self.old result self.new store.new }
    {
        // Establishes that the name is a word.
        let _word = line.name.as_slice();
        match only_file(line.rest.as_slice()) {
            Some(file) => self.input(store, asker, file),
            None => self.any_verb(store, asker, by, Some(Verb::Input), line),
        }
    }

    /// ERASE, mostly of a file.
    fn erase_line<S: Filestore>(
        &mut self,
        store: &mut S,
        asker: &Asker<'_>,
        by: bool,
        line: VerbLine,
    ) -> Result<(), NoMemory>
        requires open { TakesCommand (S.is_spent store.old) self.old }
        requires verb { verb_of line.name ≡ Some verb.Erase }
        ensures { HasRun S.answers S.is_spent S.can_wait asker.now.who.now
            (commands.verb_line asker.now.room asker.now.who.now by line.name line.rest self.old) 2048 store.old self.old result self.new store.new }
    {
        // Establishes that the name is a word.
        let _word = line.name.as_slice();
        match only_file(line.rest.as_slice()) {
            Some(path) => {
                let call = StoreCall::Erase { path };
                self.one_call(store, asker, &call)
            }
            None => self.any_verb(store, asker, by, Some(Verb::Erase), line),
        }
    }

    /// LISTFILE, mostly of a file.
    fn list_line<S: Filestore>(
        &mut self,
        store: &mut S,
        asker: &Asker<'_>,
        by: bool,
        line: VerbLine,
    ) -> Result<(), NoMemory>
        requires open { TakesCommand (S.is_spent store.old) self.old }
        requires verb { verb_of line.name ≡ Some verb.ListFile }
        ensures { HasRun S.answers S.is_spent S.can_wait asker.now.who.now
            (commands.verb_line asker.now.room asker.now.who.now by line.name line.rest self.old) 2048 store.old self.old result self.new store.new }
    {
        // Establishes that the name is a word.
        let _word = line.name.as_slice();
        match only_file(line.rest.as_slice()) {
            Some(file) => self.fetch(store, asker, (file, Mode::Read), Use::List),
            None => self.any_verb(store, asker, by, Some(Verb::ListFile), line),
        }
    }

    /// DISPLAY, mostly of a text.
    fn display_line<S: Filestore>(
        &mut self,
        store: &mut S,
        asker: &Asker<'_>,
        by: bool,
        line: VerbLine,
    ) -> Result<(), NoMemory>
        requires open { TakesCommand (S.is_spent store.old) self.old }
        requires verb { verb_of line.name ≡ Some verb.Display }
        ensures { HasRun S.answers S.is_spent S.can_wait asker.now.who.now
            (commands.verb_line asker.now.room asker.now.who.now by line.name line.rest self.old) 2048 store.old self.old result self.new store.new }
    {
        // Establishes that the name is a word.
        let _word = line.name.as_slice();
        if line.rest.as_slice().is_empty() {
            return self.any_verb(store, asker, by, Some(Verb::Display), line);
        }
        self.display(asker.alloc, asker.room, line.rest.as_slice())
    }

    /// Any verb, possibly one of the common ones, or a macro.
    fn any_verb<S: Filestore>(
        &mut self,
        store: &mut S,
        asker: &Asker<'_>,
        by: bool,
        verb: Option<Verb>,
        line: VerbLine,
    ) -> Result<(), NoMemory>
        requires open { TakesCommand (S.is_spent store.old) self.old }
        requires verb { verb ≡ verb_of line.name }
        ensures { HasRun S.answers S.is_spent S.can_wait asker.now.who.now
            (commands.verb_line asker.now.room asker.now.who.now by line.name line.rest self.old) 2048 store.old self.old result self.new store.new }
    {
        let VerbLine { name, rest } = line;
        match read_known(verb, &name, rest) {
            Ok(action) => self.act(store, asker, by, action),
            Err(VerbFault::BadParameter(index)) => {
                self.bad_parameter(asker.alloc, asker.room, &name, index)
            }
        }
    }

    /// A bad parameter; the document of an INPUT is passed all the same.
    fn bad_parameter(
        &mut self,
        alloc: Global,
        room: usize,
        name: &Local,
        index: usize,
    ) -> Result<(), NoMemory>
        requires level { 0 < length self.old.desk.levels.levels }
        ensures ok { OnOk result (self.new ≡ said.in_error room (errors.BadParameter index)
            (commands.passes_document name.now self.old)) }
        ensures blocks { OnOk result (self.new.blocks ≡ self.old.blocks) }
    {
        self.pass_document(alloc, name)?;
        self.in_error(alloc, room, CommandError::BadParameter(index))
    }

    /// Passes the lines after an INPUT.
    fn pass_document(&mut self, alloc: Global, name: &Local) -> Result<(), NoMemory>
        requires level { 0 < length self.old.desk.levels.levels }
        ensures { OnOk result (self.new ≡ commands.passes_document name.now self.old) }
    {
        if name.as_slice() != b"INPUT".as_slice() {
            return Ok(());
        }
        match self.levels.document(alloc) {
            Ok(_document) => Ok(()),
            Err(_) => Err(NoMemory),
        }
    }
}
