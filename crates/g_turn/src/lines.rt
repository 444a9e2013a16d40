//! One line, and the WHENEVER after it.
ghost use Rattle.std.specs.Prelude.{◌≡◌, ◌≤◌, ◌+◌, ◌<◌, ℕ, false, length, true, IfOk, IfSome, OnErr, OnOk};
ghost use Rattle.g_turn.specs.LineWork.{FiredAs, IsReady};
ghost use Rattle.g_turn.specs.Lines as lines;
ghost use Rattle.g_turn.specs.Commands.{gone};
ghost use Rattle.g_turn.specs.LineMeaning.{IsReadWell, IsSpoken, SaysGoto, is_wanting, place_of, read_as};
ghost use Rattle.g_turn.specs.Outcomes as said;
ghost use Rattle.g_turn.specs.Steps.{RanWell};
ghost use Rattle.g_lang.specs.LineReader.{reading};
ghost use Rattle.g_lang.specs.Lines.{IsCommandText};
ghost use Rattle.g_macro.specs.Levels.{current, line_of_label};
ghost use Rattle.g_monitor.specs.JobLines.{marked};
ghost use Rattle.g_monitor.specs.declared.errors.CommandError.TheVariants as errors;
ghost use Rattle.g_monitor.specs.declared.job_lines.Mark.TheVariants as mark;
ghost use Rattle.g_plain.specs.Programs.{Gives, RanInPart, and_then};

use crate::asker::Asker;
use crate::suspended::Suspended;
use crate::work::Work;
use g_base::NoMemory;
use g_lang::{Command, Label, LangFault, Line, parse_line, trimmed};
use g_monitor::{CommandError, Mark};
use g_name::Text;
use g_plain::Filestore;
use std::alloc::Global;
use std::mem;

impl Work {
    /// Executes a line that was taken: its echo, its command, and the WHENEVER after it.
    pub(crate) fn run_document_line<S: Filestore>(
        &mut self,
        store: &mut S,
        asker: &Asker<'_>,
        text: Text,
    ) -> Result<(), NoMemory>
        requires running { S.is_spent store.old ≡ false }
        requires few { self.old.blocks ≡ 0 }
        requires level { 0 < length self.old.desk.levels.levels }
        ensures ok { OnOk result (RanWell S.answers S.is_spent S.can_wait asker.now.who.now store.old
            (lines.line asker.now.room asker.now.who.now text self.old) self.new store.new) }
        ensures err { OnErr result (RanInPart S.answers asker.now.who.now store.old
            (lines.line asker.now.room asker.now.who.now text self.old) store.new) }
        ensures same_waits { (s : ℕ) → S.can_wait store.new s ≡ S.can_wait store.old s }
        ensures ready { OnOk result (IsReady self.new) }
    {
        let read = read_line(asker.alloc, text.as_slice());
        if is_wanting(&read) {
            return Err(NoMemory);
        }
        self.say_line(asker.alloc, asker.room, text)?;
        if self.is_over() {
            return Ok(());
        }
        // A line is large, so the label of a GOTO is read without moving it.
        if let Some(label) = label_to(&read) {
            return self.goes(store, asker, label);
        }
        self.behind_echo(store, asker, read)
    }

    /// Goes to a label, and executes the WHENEVER after that.
    fn goes<S: Filestore>(
        &mut self,
        store: &mut S,
        asker: &Asker<'_>,
        label: &Label,
    ) -> Result<(), NoMemory>
        requires running { S.is_spent store.old ≡ false }
        requires few { self.old.blocks ≤ 2048 }
        requires level { 0 < length self.old.desk.levels.levels }
        requires ready { IsReady self.old }
        ensures ok { OnOk result (RanWell S.answers S.is_spent S.can_wait asker.now.who.now store.old
            (and_then said.is_over (Gives (gone asker.now.room (line_of_label label.now (current self.old.desk.levels).lines) self.old)) (lines.may_fire asker.now.room asker.now.who.now)) self.new store.new) }
        ensures err { OnErr result (RanInPart S.answers asker.now.who.now store.old
            (and_then said.is_over (Gives (gone asker.now.room (line_of_label label.now (current self.old.desk.levels).lines) self.old)) (lines.may_fire asker.now.room asker.now.who.now)) store.new) }
        ensures same_waits { (s : ℕ) → S.can_wait store.new s ≡ S.can_wait store.old s }
        ensures ready { OnOk result (IsReady self.new) }
    {
        self.go_to(asker.alloc, asker.room, label)?;
        if self.is_over() {
            return Ok(());
        }
        self.may_fire(store, asker)
    }

    /// Prints the echo of a line; if its command waits, the turn resumes with this line.
    // Inlined: every turn of a document calls it.
    #[inline(always)]
    fn say_line(&mut self, alloc: Global, room: usize, text: Text) -> Result<(), NoMemory>
        requires level { 0 < length self.old.desk.levels.levels }
        ensures ok { OnOk result (self.new ≡ lines.says_line room text self.old) }
        ensures blocks { OnOk result (self.new.blocks ≡ self.old.blocks) }
        ensures level { OnOk result (0 < length self.new.desk.levels.levels) }
        ensures ready { OnOk result (IsReady self.new) }
    {
        self.say_marked(alloc, room, Mark::Taken, trimmed(text.as_slice()))?;
        self.line_room = mem::replace(&mut self.line, Text::new(alloc));
        self.line = text;
        self.waits_with_line = true;
        Ok(())
    }

    /// The command of a line after its echo, and the WHENEVER after it.
    fn behind_echo<S: Filestore>(
        &mut self,
        store: &mut S,
        asker: &Asker<'_>,
        read: Result<Line, LangFault>,
    ) -> Result<(), NoMemory>
        requires running { S.is_spent store.old ≡ false }
        requires open { said.is_over self.old ≡ false }
        requires few { self.old.blocks ≡ 0 }
        requires level { 0 < length self.old.desk.levels.levels }
        requires read { IsReadWell read }
        requires ready { IsReady self.old }
        ensures ok { OnOk result (RanWell S.answers S.is_spent S.can_wait asker.now.who.now store.old
            (and_then said.is_over (lines.does_line asker.now.room asker.now.who.now (read_as read) self.old) (lines.may_fire asker.now.room asker.now.who.now)) self.new store.new) }
        ensures err { OnErr result (RanInPart S.answers asker.now.who.now store.old
            (and_then said.is_over (lines.does_line asker.now.room asker.now.who.now (read_as read) self.old) (lines.may_fire asker.now.room asker.now.who.now)) store.new) }
        ensures same_waits { (s : ℕ) → S.can_wait store.new s ≡ S.can_wait store.old s }
        ensures ready { OnOk result (IsReady self.new) }
    {
        self.run_parsed_line(store, asker, read)?;
        if self.is_over() {
            return Ok(());
        }
        self.may_fire(store, asker)
    }

    /// The command of a line, or the error of a bad one.
    fn run_parsed_line<S: Filestore>(
        &mut self,
        store: &mut S,
        asker: &Asker<'_>,
        read: Result<Line, LangFault>,
    ) -> Result<(), NoMemory>
        requires running { S.is_spent store.old ≡ false }
        requires open { said.is_over self.old ≡ false }
        requires few { self.old.blocks ≤ 2048 }
        requires level { 0 < length self.old.desk.levels.levels }
        requires read { IsReadWell read }
        requires ready { IsReady self.old }
        ensures ok { OnOk result (RanWell S.answers S.is_spent S.can_wait asker.now.who.now store.old
            (lines.does_line asker.now.room asker.now.who.now (read_as read) self.old) self.new store.new) }
        ensures err { OnErr result (RanInPart S.answers asker.now.who.now store.old
            (lines.does_line asker.now.room asker.now.who.now (read_as read) self.old) store.new) }
        ensures live { OnOk result (said.is_over self.new ≡ false → S.is_spent store.new ≡ false) }
        ensures same_waits { (s : ℕ) → S.can_wait store.new s ≡ S.can_wait store.old s }
        ensures blocks { OnOk result (self.new.blocks ≤ self.old.blocks + 2048) }
        ensures ready { OnOk result (IsReady self.new) }
    {
        match read {
            Ok(line) => self.do_command(store, asker, false, line.command),
            Err(fault) => self.bad_line(asker.alloc, asker.room, fault),
        }
    }

    /// The error of a line that isn't in the language.
    fn bad_line(&mut self, alloc: Global, room: usize, fault: LangFault) -> Result<(), NoMemory>
        ensures ok { OnOk result (self.new ≡ said.in_error room (errors.BadLine (place_of fault)) self.old) }
        ensures blocks { OnOk result (self.new.blocks ≡ self.old.blocks) }
    {
        match fault {
            LangFault::BadLine(place) => self.in_error(alloc, room, CommandError::BadLine(place)),
            LangFault::NoMemory => Err(NoMemory),
        }
    }

    /// Executes a line above 240 bytes, of which these are the first 240: it is bad.
    pub(crate) fn long_line<S: Filestore>(
        &mut self,
        store: &mut S,
        asker: &Asker<'_>,
        front: Text,
    ) -> Result<(), NoMemory>
        requires running { S.is_spent store.old ≡ false }
        requires few { self.old.blocks ≤ 2048 }
        requires ready { IsReady self.old }
        ensures ok { OnOk result (RanWell S.answers S.is_spent S.can_wait asker.now.who.now store.old
            (lines.long_line asker.now.room asker.now.who.now front self.old) self.new store.new) }
        ensures err { OnErr result (RanInPart S.answers asker.now.who.now store.old
            (lines.long_line asker.now.room asker.now.who.now front self.old) store.new) }
        ensures same_waits { (s : ℕ) → S.can_wait store.new s ≡ S.can_wait store.old s }
        ensures ready { OnOk result (IsReady self.new) }
    {
        self.say_marked(asker.alloc, asker.room, Mark::Taken, front.as_slice())?;
        if self.is_over() {
            return Ok(());
        }
        self.too_long(store, asker)
    }

    /// The error of a line above 240 bytes, and the WHENEVER after it.
    fn too_long<S: Filestore>(&mut self, store: &mut S, asker: &Asker<'_>) -> Result<(), NoMemory>
        requires running { S.is_spent store.old ≡ false }
        requires few { self.old.blocks ≤ 2048 }
        requires ready { IsReady self.old }
        ensures ok { OnOk result (RanWell S.answers S.is_spent S.can_wait asker.now.who.now store.old
            (lines.too_long asker.now.room asker.now.who.now self.old) self.new store.new) }
        ensures err { OnErr result (RanInPart S.answers asker.now.who.now store.old
            (lines.too_long asker.now.room asker.now.who.now self.old) store.new) }
        ensures same_waits { (s : ℕ) → S.can_wait store.new s ≡ S.can_wait store.old s }
        ensures ready { OnOk result (IsReady self.new) }
    {
        self.in_error(asker.alloc, asker.room, CommandError::BadLine(240))?;
        if self.is_over() {
            return Ok(());
        }
        self.may_fire(store, asker)
    }

    /// Executes the WHENEVER after a command that set the outcome, if one fires.
    pub(crate) fn may_fire<S: Filestore>(
        &mut self,
        store: &mut S,
        asker: &Asker<'_>,
    ) -> Result<(), NoMemory>
        requires running { S.is_spent store.old ≡ false }
        requires few { self.old.blocks ≤ 2048 }
        requires ready { IsReady self.old }
        ensures ok { OnOk result (RanWell S.answers S.is_spent S.can_wait asker.now.who.now store.old
            (lines.may_fire asker.now.room asker.now.who.now self.old) self.new store.new) }
        ensures err { OnErr result (RanInPart S.answers asker.now.who.now store.old
            (lines.may_fire asker.now.room asker.now.who.now self.old) store.new) }
        ensures same_waits { (s : ℕ) → S.can_wait store.new s ≡ S.can_wait store.old s }
        ensures ready { OnOk result (IsReady self.new) }
    {
        if !self.sets {
            return Ok(());
        }
        self.fire_first(store, asker)
    }

    /// Executes the WHENEVER that fires by the outcome, if one does.
    // A GOTO sets no outcome, and after most other lines none fires: as a function of its own it adds no stack space to those.
    #[inline(never)]
    fn fire_first<S: Filestore>(&mut self, store: &mut S, asker: &Asker<'_>) -> Result<(), NoMemory>
        requires running { S.is_spent store.old ≡ false }
        requires sets { self.old.sets ≡ true }
        requires few { self.old.blocks ≤ 2048 }
        requires ready { IsReady self.old }
        ensures ok { OnOk result (RanWell S.answers S.is_spent S.can_wait asker.now.who.now store.old
            (lines.may_fire asker.now.room asker.now.who.now self.old) self.new store.new) }
        ensures err { OnErr result (RanInPart S.answers asker.now.who.now store.old
            (lines.may_fire asker.now.room asker.now.who.now self.old) store.new) }
        ensures same_waits { (s : ℕ) → S.can_wait store.new s ≡ S.can_wait store.old s }
        ensures ready { OnOk result (IsReady self.new) }
    {
        if !self.levels.have_entries() {
            return Ok(());
        }
        match self.take_fired(asker.alloc)? {
            Some(text) => self.fires(store, asker, text),
            None => Ok(()),
        }
    }

    /// The command that fires; its level is then the current one.
    fn take_fired(&mut self, alloc: Global) -> Result<Option<Text>, NoMemory>
        ensures fired { IfOk result (λ text. FiredAs text self.old self.new) }
        ensures blocks { OnOk result (self.new.blocks ≡ self.old.blocks) }
    {
        match self.levels.fire(alloc, &self.outcome) {
            Ok(text) => Ok(text),
            Err(_) => Err(NoMemory),
        }
    }

    /// Prints a command that fires, in its own level, and executes it.
    fn fires<S: Filestore>(
        &mut self,
        store: &mut S,
        asker: &Asker<'_>,
        text: Text,
    ) -> Result<(), NoMemory>
        requires running { S.is_spent store.old ≡ false }
        requires few { self.old.blocks ≤ 2048 }
        requires level { 0 < length self.old.desk.levels.levels }
        requires command { IsCommandText text }
        requires ready { IsReady self.old }
        ensures ok { OnOk result (RanWell S.answers S.is_spent S.can_wait asker.now.who.now store.old
            (and_then said.is_over (Gives (said.say asker.now.room (marked mark.Fired text) self.old)) (lines.does_fired asker.now.room asker.now.who.now text)) self.new store.new) }
        ensures err { OnErr result (RanInPart S.answers asker.now.who.now store.old
            (and_then said.is_over (Gives (said.say asker.now.room (marked mark.Fired text) self.old)) (lines.does_fired asker.now.room asker.now.who.now text)) store.new) }
        ensures same_waits { (s : ℕ) → S.can_wait store.new s ≡ S.can_wait store.old s }
        ensures ready { OnOk result (IsReady self.new) }
    {
        self.say_marked(asker.alloc, asker.room, Mark::Fired, text.as_slice())?;
        if self.is_over() {
            return Ok(());
        }
        self.run_fired_command(store, asker, text)
    }

    /// Executes the command of a WHENEVER after its line; if it waits, the turn resumes with this command.
    pub(crate) fn run_fired_command<S: Filestore>(
        &mut self,
        store: &mut S,
        asker: &Asker<'_>,
        text: Text,
    ) -> Result<(), NoMemory>
        requires running { S.is_spent store.old ≡ false }
        requires open { said.is_over self.old ≡ false }
        requires few { self.old.blocks ≤ 2048 }
        requires level { 0 < length self.old.desk.levels.levels }
        requires command { IsCommandText text }
        ensures ok { OnOk result (RanWell S.answers S.is_spent S.can_wait asker.now.who.now store.old
            (lines.does_fired asker.now.room asker.now.who.now text self.old) self.new store.new) }
        ensures err { OnErr result (RanInPart S.answers asker.now.who.now store.old
            (lines.does_fired asker.now.room asker.now.who.now text self.old) store.new) }
        ensures same_waits { (s : ℕ) → S.can_wait store.new s ≡ S.can_wait store.old s }
        ensures ready { OnOk result (IsReady self.new) }
    {
        let read = read_line(asker.alloc, text.as_slice());
        if is_wanting(&read) {
            return Err(NoMemory);
        }
        self.keep_command(asker.alloc, text)?;
        self.run_kept_command(store, asker, read)
    }

    /// Stores the command of a WHENEVER, with the results of the line before it.
    fn keep_command(&mut self, alloc: Global, command: Text) -> Result<(), NoMemory>
        ensures ok { OnOk result (self.new ≡ lines.to_go_on command self.old) }
    {
        let text = Text::from_slice(alloc, self.text.as_slice())?;
        self.waits_with_line = false;
        self.kept = Some(Suspended::Command {
            text,
            orders: self.orders,
            blocks: self.blocks,
            command,
        });
        Ok(())
    }

    /// Executes the command of a WHENEVER that was parsed. Its text is that of a command, so parsing succeeded.
    fn run_kept_command<S: Filestore>(
        &mut self,
        store: &mut S,
        asker: &Asker<'_>,
        read: Result<Line, LangFault>,
    ) -> Result<(), NoMemory>
        requires running { S.is_spent store.old ≡ false }
        requires open { said.is_over self.old ≡ false }
        requires few { self.old.blocks ≤ 2048 }
        requires level { 0 < length self.old.desk.levels.levels }
        requires read { IsReadWell read }
        requires ready { IsReady self.old }
        ensures ok { OnOk result (RanWell S.answers S.is_spent S.can_wait asker.now.who.now store.old
            (lines.does_read asker.now.room asker.now.who.now (read_as read) self.old) self.new store.new) }
        ensures err { OnErr result (RanInPart S.answers asker.now.who.now store.old
            (lines.does_read asker.now.room asker.now.who.now (read_as read) self.old) store.new) }
        ensures same_waits { (s : ℕ) → S.can_wait store.new s ≡ S.can_wait store.old s }
        ensures ready { OnOk result (IsReady self.new) }
    {
        match read {
            Ok(line) => self.do_command(store, asker, true, line.command),
            Err(_) => Ok(()),
        }
    }
}

/// What a line says, or why it can't be read.
fn read_line(alloc: Global, text: &[u8]) -> Result<Line, LangFault>
    ensures reading { is_wanting result ≡ false → reading text.now ≡ read_as result }
    ensures well { IsReadWell result }
{
    parse_line(alloc, text)
}

/// The label at which the level continues after a line that was read, if it is a GOTO without a condition.
fn label_to(read: &Result<Line, LangFault>) -> Option<&Label>
    ensures { IfSome result (λ label. SaysGoto read.now label.now) }
{
    match read {
        Ok(line) => match &line.command {
            Command::Goto(label) => Some(label),
            _ => None,
        },
        Err(_) => None,
    }
}

/// Whether a line wasn't read because memory ran out.
fn is_wanting(read: &Result<Line, LangFault>) -> bool
    ensures { result ≡ is_wanting read.now }
{
    match read {
        Err(LangFault::NoMemory) => true,
        _ => false,
    }
}
