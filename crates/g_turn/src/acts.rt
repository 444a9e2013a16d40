//! The effect of each verb.
ghost use Rattle.std.specs.Prelude.{◌≡◌, ◌≤◌, ◌<◌, ◌+◌, ℕ, [], Bool, false, true, length, unwrap_or, OnErr, OnOk};
ghost use Rattle.g_turn.specs.Actions as actions;
ghost use Rattle.g_turn.specs.Asking as asking;
ghost use Rattle.g_turn.specs.Outcomes as said;
ghost use Rattle.g_turn.specs.State as state;
ghost use Rattle.g_turn.specs.Steps.{RanWell};
ghost use Rattle.g_lang.specs.Conditions.{IsLetter};
ghost use Rattle.g_macro.specs.Levels.{document_of, document_passed, with_param};
ghost use Rattle.g_monitor.specs.JobLines.{marked};
ghost use Rattle.g_monitor.specs.declared.job_lines.Mark.TheVariants as mark;
ghost use Rattle.g_plain.specs.Programs.{RanInPart};
ghost use Rattle.g_plain.specs.Rules.{IsWithinLimits};
ghost use Rattle.g_verbs.specs.Verbs as verbs;

use crate::asker::Asker;
use crate::uses::Use;
use crate::work::Work;
use g_base::NoMemory;
use g_lang::Param;
use g_monitor::Mark;
use g_name::{Path, Text, User};
use g_plain::{Filestore, StoreCall};
use g_trap::Mode;
use g_verbs::Action;
use std::alloc::Global;

/// The MONEY of a user that is created without an amount.
const MONEY: u64 = 1_000_000;

/// Whether a verb makes one call without bytes and prints its reply.
fn is_one_call(action: &Action) -> bool
    ensures { result ≡ actions.is_one_call action.now }
{
    matches!(
        action,
        Action::Erase { .. }
            | Action::Rename { .. }
            | Action::ListDir { .. }
            | Action::TrapGo { .. }
            | Action::TrapStop { .. }
            | Action::TrapCheck { .. }
            | Action::NewUser { .. }
            | Action::Budget { .. }
            | Action::Retrieve { .. }
    )
}

/// Whether a verb names files and makes more than one call.
fn is_of_files(action: &Action) -> bool
    ensures { result ≡ actions.is_of_files action.now }
{
    matches!(
        action,
        Action::Input { .. }
            | Action::Copy { .. }
            | Action::Append { .. }
            | Action::ListFile { .. }
            | Action::Load { .. }
            | Action::Plan { .. }
            | Action::Assign { .. }
    )
}

/// The call of a verb that makes one without bytes and prints its reply.
fn call_of(action: Action, who: &User) -> StoreCall
    requires sound { verbs.IsSound action }
    requires kind { actions.is_one_call action ≡ true }
    ensures call { (room : ℕ) (by : Bool) (w : state.Work)
        → actions.act room who.now by action w ≡ asking.one_call room result w }
    ensures limits { IsWithinLimits result }
{
    match action {
        Action::Erase { file } => StoreCall::Erase { path: file },
        Action::Rename { file, to } => StoreCall::Rename { path: file, to },
        Action::ListDir { user } => StoreCall::List {
            user: user.unwrap_or(who.copy()),
        },
        Action::TrapGo { file, user, modes } => StoreCall::TrapGo {
            path: file,
            user,
            modes,
        },
        Action::TrapStop { file, user, modes } => StoreCall::TrapStop {
            path: file,
            user,
            modes,
        },
        Action::TrapCheck { file, user } => StoreCall::TrapCheck {
            path: file,
            user: user.unwrap_or(who.copy()),
        },
        Action::NewUser {
            user,
            space,
            time,
            money,
        } => StoreCall::NewUser {
            user,
            space: space as u32,
            time,
            money: money.unwrap_or(MONEY),
        },
        Action::Budget { user, kind, amount } => StoreCall::Budget { user, kind, amount },
        Action::Retrieve { file } => StoreCall::Retrieve { path: file },
        _ => unreachable!(),
    }
}

impl Work {
    /// Executes an action for the asker's user; `by` says whether a WHENEVER executes it.
    pub(crate) fn act<S: Filestore>(
        &mut self,
        store: &mut S,
        asker: &Asker<'_>,
        by: bool,
        action: Action,
    ) -> Result<(), NoMemory>
        requires running { S.is_spent store.old ≡ false }
        requires open { said.is_over self.old ≡ false }
        requires few { self.old.blocks ≤ 2048 }
        requires level { 0 < length self.old.desk.levels.levels }
        requires sound { verbs.IsSound action }
        ensures ok { OnOk result (RanWell S.answers S.is_spent S.can_wait asker.now.who.now store.old
            (actions.act asker.now.room asker.now.who.now by action self.old) self.new store.new) }
        ensures err { OnErr result (RanInPart S.answers asker.now.who.now store.old
            (actions.act asker.now.room asker.now.who.now by action self.old) store.new) }
        ensures live { OnOk result (said.is_over self.new ≡ false → S.is_spent store.new ≡ false) }
        ensures same_waits { (s : ℕ) → S.can_wait store.new s ≡ S.can_wait store.old s }
        ensures blocks { OnOk result (self.new.blocks ≤ self.old.blocks + 2048) }
    {
        // An action is large, so it is passed on unchanged unless it becomes a call.
        if !is_one_call(&action) {
            return self.act_in_several_calls(store, asker, by, action);
        }
        self.act_in_one_call(store, asker, action)
    }

    /// Executes an action that is one call.
    fn act_in_one_call<S: Filestore>(
        &mut self,
        store: &mut S,
        asker: &Asker<'_>,
        action: Action,
    ) -> Result<(), NoMemory>
        requires running { S.is_spent store.old ≡ false }
        requires open { said.is_over self.old ≡ false }
        requires sound { verbs.IsSound action }
        requires kind { actions.is_one_call action ≡ true }
        ensures ok { (by : Bool) → OnOk result (RanWell S.answers S.is_spent S.can_wait asker.now.who.now store.old
            (actions.act asker.now.room asker.now.who.now by action self.old) self.new store.new) }
        ensures err { (by : Bool) → OnErr result (RanInPart S.answers asker.now.who.now store.old
            (actions.act asker.now.room asker.now.who.now by action self.old) store.new) }
        ensures live { OnOk result (said.is_over self.new ≡ false → S.is_spent store.new ≡ false) }
        ensures same_waits { (s : ℕ) → S.can_wait store.new s ≡ S.can_wait store.old s }
        ensures blocks { OnOk result (self.new.blocks ≤ self.old.blocks + 2048) }
    {
        let call = call_of(action, asker.who);
        self.one_call(store, asker, &call)
    }

    /// Executes an action that isn't one call.
    fn act_in_several_calls<S: Filestore>(
        &mut self,
        store: &mut S,
        asker: &Asker<'_>,
        by: bool,
        action: Action,
    ) -> Result<(), NoMemory>
        requires running { S.is_spent store.old ≡ false }
        requires open { said.is_over self.old ≡ false }
        requires few { self.old.blocks ≤ 2048 }
        requires level { 0 < length self.old.desk.levels.levels }
        requires sound { verbs.IsSound action }
        requires kind { actions.is_one_call action ≡ false }
        ensures ok { OnOk result (RanWell S.answers S.is_spent S.can_wait asker.now.who.now store.old
            (actions.act asker.now.room asker.now.who.now by action self.old) self.new store.new) }
        ensures err { OnErr result (RanInPart S.answers asker.now.who.now store.old
            (actions.act asker.now.room asker.now.who.now by action self.old) store.new) }
        ensures live { OnOk result (said.is_over self.new ≡ false → S.is_spent store.new ≡ false) }
        ensures same_waits { (s : ℕ) → S.can_wait store.new s ≡ S.can_wait store.old s }
        ensures blocks { OnOk result (self.new.blocks ≤ self.old.blocks + 2048) }
    {
        // The names of files are large, so the other verbs are matched without them.
        if is_of_files(&action) {
            return self.act_on_files(store, asker, action);
        }
        match action {
            Action::Enter { n } => self.enter(asker.alloc, asker.room, by, n as u8),
            Action::Resume => self.resume(asker.alloc, asker.room, by),
            Action::Release { unit } => self.release(store, asker, unit),
            Action::Delete => self.delete(store, asker),
            Action::SetParam { letter, text } => self.set_param(asker.alloc, letter, text),
            Action::Display { text } => self.display(asker.alloc, asker.room, text.as_slice()),
            Action::EndJob => self.end_job(store, asker),
            Action::Macro { name, params } => { self.look_up(store, asker, &name, params) }
            _ => unreachable!(),
        }
    }

    /// Executes an action that names files and makes more than one call.
    fn act_on_files<S: Filestore>(
        &mut self,
        store: &mut S,
        asker: &Asker<'_>,
        action: Action,
    ) -> Result<(), NoMemory>
        requires running { S.is_spent store.old ≡ false }
        requires open { said.is_over self.old ≡ false }
        requires few { self.old.blocks ≤ 2048 }
        requires level { 0 < length self.old.desk.levels.levels }
        requires kind { actions.is_of_files action ≡ true }
        ensures ok { (by : Bool) → OnOk result (RanWell S.answers S.is_spent S.can_wait asker.now.who.now store.old
            (actions.act asker.now.room asker.now.who.now by action self.old) self.new store.new) }
        ensures err { (by : Bool) → OnErr result (RanInPart S.answers asker.now.who.now store.old
            (actions.act asker.now.room asker.now.who.now by action self.old) store.new) }
        ensures live { OnOk result (said.is_over self.new ≡ false → S.is_spent store.new ≡ false) }
        ensures same_waits { (s : ℕ) → S.can_wait store.new s ≡ S.can_wait store.old s }
        ensures blocks { OnOk result (self.new.blocks ≤ self.old.blocks + 2048) }
    {
        match action {
            Action::Input { file } => self.input(store, asker, file),
            Action::Copy { from, to } => {
                self.fetch(store, asker, (from, Mode::Read), Use::Put(to))
            }
            Action::Append { from, to } => {
                self.fetch(store, asker, (from, Mode::Read), Use::Append(to))
            }
            Action::ListFile { file } => { self.fetch(store, asker, (file, Mode::Read), Use::List) }
            Action::Load { file } => { self.fetch(store, asker, (file, Mode::Execute), Use::Load) }
            Action::Plan { from, to } => {
                self.fetch(store, asker, (from, Mode::Read), Use::Assemble(to))
            }
            Action::Assign { unit, file } => self.assign(store, asker, unit, file),
            _ => unreachable!(),
        }
    }

    /// INPUT: the lines up to `////` are written to a file, and passed for any answer.
    pub(crate) fn input<S: Filestore>(
        &mut self,
        store: &mut S,
        asker: &Asker<'_>,
        file: Path,
    ) -> Result<(), NoMemory>
        requires running { S.is_spent store.old ≡ false }
        requires few { self.old.blocks ≤ 4096 }
        requires level { 0 < length self.old.desk.levels.levels }
        ensures ok { OnOk result (RanWell S.answers S.is_spent S.can_wait asker.now.who.now store.old
            (actions.input asker.now.room file self.old) self.new store.new) }
        ensures err { OnErr result (RanInPart S.answers asker.now.who.now store.old
            (actions.input asker.now.room file self.old) store.new) }
        ensures live { OnOk result (said.is_over self.new ≡ false → S.is_spent store.new ≡ false) }
        ensures same_waits { (s : ℕ) → S.can_wait store.new s ≡ S.can_wait store.old s }
        ensures blocks { OnOk result (self.new.blocks ≤ self.old.blocks + 128) }
    {
        match self.levels.document(asker.alloc) {
            Ok(bytes) => self.put(store, asker, true, (file, bytes)),
            Err(_) => Err(NoMemory),
        }
    }

    /// SETPARAM: the empty text if none is given.
    fn set_param(&mut self, alloc: Global, letter: u8, text: Param) -> Result<(), NoMemory>
        requires level { 0 < length self.old.desk.levels.levels }
        requires letter { IsLetter letter }
        ensures ok { OnOk result (self.new ≡ said.with_levels
            (with_param letter (unwrap_or text []) self.old.desk.levels) self.old) }
        ensures blocks { OnOk result (self.new.blocks ≡ self.old.blocks) }
    {
        let given = text.to_text(alloc)?;
        let value = given.unwrap_or(Text::new(alloc));
        self.levels.set_param(letter, value);
        Ok(())
    }

    /// DISPLAY.
    pub(crate) fn display(
        &mut self,
        alloc: Global,
        room: usize,
        text: &[u8],
    ) -> Result<(), NoMemory>
        ensures ok { OnOk result
            (self.new ≡ said.say room (marked mark.Displayed text.now) (said.done self.old)) }
        ensures blocks { OnOk result (self.new.blocks ≡ self.old.blocks) }
    {
        self.done();
        self.say_marked(alloc, room, Mark::Displayed, text)?;
        Ok(())
    }
}
