//! The work of a turn: what waited, a run of the program that continues, or the next line.
ghost use Rattle.std.specs.Prelude.{◌≡◌, ◌≤◌, ◌<◌, ℕ, [], None, false, length, is_some, option_map, true, IfOk, IfSome, OnErr, OnOk};
ghost use Rattle.g_turn.specs.LineWork.{IsAgain, IsReady};
ghost use Rattle.g_turn.specs.Making.{FewBlocks, HasLevel, taken_as};
ghost use Rattle.g_turn.specs.Outcomes as said;
ghost use Rattle.g_turn.specs.Outcomes.{with_levels};
ghost use Rattle.g_turn.specs.Steps.{RanWell};
ghost use Rattle.g_turn.specs.Turns as turns;
ghost use Rattle.g_turn.specs.Values.{pending_of};
ghost use Rattle.g_macro.specs.Levels.{next_line};
ghost use Rattle.g_plain.specs.Programs.{RanInPart};

use crate::asker::Asker;
use crate::room::empty;
use crate::suspended::Suspended;
use crate::work::Work;
use g_base::NoMemory;
use g_macro::MacroFault;
use g_name::Text;
use g_peri::{Kind, Unit};
use g_plain::Filestore;
use std::alloc::Global;
use std::mem;

impl Work {
    /// A turn begins without results, in the memory of the text that is there. The desk is unchanged since the last turn, with its 16 places for
    /// output. Allocates nothing.
    pub fn begin(&mut self, alloc: Global)
        ensures ok { self.new ≡ record {
          desk = self.old.desk;
          text = [];
          orders = 0;
          blocks = 0;
          sets = false;
          again = None;
          stop = None;
        } }
        ensures few { length self.old.desk.units.writers ≤ 16 }
    {
        let _known = self.units.assigned(Unit {
            kind: Kind::Lp,
            number: 0,
        });
        empty(alloc, &mut self.text);
        self.orders = 0;
        self.blocks = 0;
        self.sets = false;
        self.drop_again();
        self.stop = None;
    }

    /// Drops what the turn resumed with. Usually that was only a line, whose text stays in place.
    fn drop_again(&mut self)
        ensures { self.new ≡ record self.old { again = None } }
    {
        self.waits_with_line = false;
        if !self.kept.is_some() {
            return;
        }
        self.kept = None;
    }

    /// Takes back a text for its memory: the next turn begins with it, and allocates only if it adds more.
    pub fn reuse_buffer(&mut self, text: Text)
        ensures { self.new ≡ record self.old { text = text } }
    {
        self.text = text;
    }

    /// Does the work of a turn for the asker's user and monitoring file: resumes with what waited; otherwise continues a run of the program that
    /// isn't over; otherwise takes the next line.
    ///
    /// If memory runs out, the store has answered a prefix of the turn's calls, and the work is unspecified.
    pub fn go<S: Filestore>(
        &mut self,
        store: &mut S,
        asker: &Asker<'_>,
        pending: Option<Suspended>,
    ) -> Result<(), NoMemory>
        requires running { S.is_spent store.old ≡ false }
        requires open { said.is_over self.old ≡ false }
        requires few { self.old.blocks ≡ 0 }
        requires fresh { self.old.again ≡ None }
        requires blocks { IfSome (option_map pending_of pending) FewBlocks }
        requires command { IfSome (option_map pending_of pending) IsAgain }
        requires level { is_some (option_map pending_of pending) ≡ true
            → 0 < length self.old.desk.levels.levels }
        ensures ok { OnOk result (RanWell S.answers S.is_spent S.can_wait asker.now.who.now store.old
            (turns.begins asker.now.room asker.now.who.now (option_map pending_of pending) self.old) self.new store.new) }
        ensures err { OnErr result (RanInPart S.answers asker.now.who.now store.old
            (turns.begins asker.now.room asker.now.who.now (option_map pending_of pending) self.old) store.new) }
        ensures same_waits { (s : ℕ) → S.can_wait store.new s ≡ S.can_wait store.old s }
        ensures ready { OnOk result (IsReady self.new) }
    {
        match pending {
            Some(Suspended::Line(text)) => self.run_document_line(store, asker, text),
            Some(
                Suspended::Command {
                    text,
                    orders,
                    blocks,
                    command,
                },
            ) => {
                self.begin_behind(text, orders, blocks);
                self.run_fired_command(store, asker, command)
            }
            None => self.run_or_take(store, asker),
        }
    }

    /// Resumes after what was stored of the line before a command that waited.
    fn begin_behind(&mut self, text: Text, orders: u32, blocks: u32)
        ensures { self.new ≡ turns.with_kept text orders blocks self.old }
    {
        self.text = text;
        self.orders = orders;
        self.blocks = blocks;
    }

    /// Does the same if nothing waits: continues a run of the program that isn't over, otherwise takes the next line. What waits is large, so a turn
    /// without it avoids moving it.
    // Inlined: every turn calls it.
    #[inline(always)]
    pub fn run_or_take<S: Filestore>(
        &mut self,
        store: &mut S,
        asker: &Asker<'_>,
    ) -> Result<(), NoMemory>
        requires running { S.is_spent store.old ≡ false }
        requires open { said.is_over self.old ≡ false }
        requires few { self.old.blocks ≡ 0 }
        requires fresh { self.old.again ≡ None }
        ensures ok { OnOk result (RanWell S.answers S.is_spent S.can_wait asker.now.who.now store.old
            (turns.runs_or_takes asker.now.room asker.now.who.now self.old.desk.running self.old) self.new store.new) }
        ensures err { OnErr result (RanInPart S.answers asker.now.who.now store.old
            (turns.runs_or_takes asker.now.room asker.now.who.now self.old.desk.running self.old) store.new) }
        ensures same_waits { (s : ℕ) → S.can_wait store.new s ≡ S.can_wait store.old s }
        ensures ready { OnOk result (IsReady self.new) }
    {
        match self.running {
            Some(by) => self.run_on(store, asker, by),
            None => self.take(store, asker),
        }
    }

    /// Continues a run of the program; a WHENEVER follows its end, unless one began it.
    fn run_on<S: Filestore>(
        &mut self,
        store: &mut S,
        asker: &Asker<'_>,
        by: bool,
    ) -> Result<(), NoMemory>
        requires running { S.is_spent store.old ≡ false }
        requires few { self.old.blocks ≡ 0 }
        requires fresh { self.old.again ≡ None }
        ensures ok { OnOk result (RanWell S.answers S.is_spent S.can_wait asker.now.who.now store.old
            (turns.runs_on asker.now.room asker.now.who.now by self.old) self.new store.new) }
        ensures err { OnErr result (RanInPart S.answers asker.now.who.now store.old
            (turns.runs_on asker.now.room asker.now.who.now by self.old) store.new) }
        ensures same_waits { (s : ℕ) → S.can_wait store.new s ≡ S.can_wait store.old s }
        ensures ready { OnOk result (IsReady self.new) }
    {
        self.go_on(asker.alloc, asker.room)?;
        if self.is_over() {
            return Ok(());
        }
        if by {
            return Ok(());
        }
        self.may_fire(store, asker)
    }

    /// Takes a line and executes it; with no line left the job ends.
    // Inlined: every turn of a document calls it.
    #[inline(always)]
    fn take<S: Filestore>(&mut self, store: &mut S, asker: &Asker<'_>) -> Result<(), NoMemory>
        requires running { S.is_spent store.old ≡ false }
        requires open { said.is_over self.old ≡ false }
        requires few { self.old.blocks ≡ 0 }
        requires fresh { self.old.again ≡ None }
        ensures ok { OnOk result (RanWell S.answers S.is_spent S.can_wait asker.now.who.now store.old
            (turns.takes_line asker.now.room asker.now.who.now (next_line self.old.desk.levels) self.old)
            self.new store.new) }
        ensures err { OnErr result (RanInPart S.answers asker.now.who.now store.old
            (turns.takes_line asker.now.room asker.now.who.now (next_line self.old.desk.levels) self.old) store.new) }
        ensures same_waits { (s : ℕ) → S.can_wait store.new s ≡ S.can_wait store.old s }
        ensures ready { OnOk result (IsReady self.new) }
    {
        match self.take_line(asker.alloc)? {
            Next::Line(text) => self.run_document_line(store, asker, text),
            Next::TooLong(front) => self.long_line(store, asker, front),
            Next::Nothing => self.end_job(store, asker),
        }
    }

    /// The next line of the levels, in the memory of the last one.
    fn take_line(&mut self, alloc: Global) -> Result<Next, NoMemory>
        ensures taken { IfOk result (λ next.
            (next_line self.old.desk.levels).0 ≡ taken_as next) }
        ensures ok { OnOk result
            (self.new ≡ with_levels (next_line self.old.desk.levels).1 self.old) }
        ensures level { IfOk result (λ next. HasLevel next self.new) }
    {
        let room = mem::replace(&mut self.line_room, Text::new(alloc));
        match self.levels.next_line(room) {
            Ok(Some(text)) => Ok(Next::Line(text)),
            Ok(None) => Ok(Next::Nothing),
            Err(MacroFault::TooLong(front)) => Ok(Next::TooLong(front)),
            Err(_) => Err(NoMemory),
        }
    }
}

/// What is taken from the levels.
#[derive(Drop)]
enum Next {
    /// No level has a line.
    Nothing,
    Line(Text),
    /// The first 240 bytes of a line that is longer.
    TooLong(Text),
}
