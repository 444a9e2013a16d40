//! Runs of the job's program: up to 64 orders in a turn, with their transfers and their lines.
ghost use Rattle.std.specs.Prelude.{◌≡◌, ℕ, ◌≤◌, ◌<◌, IfOk, OnOk};
ghost use Rattle.g_turn.specs.Runs as runs;
ghost use Rattle.g_turn.specs.Values.{order_as, Stepped};

use crate::work::Work;
use g_base::NoMemory;
use g_macro::EventNote;
use g_monitor::{CommandError, JobLine, Mark};
use g_peri::OrderEvent;
use std::alloc::Global;

/// The most orders that a turn runs.
const MOST: u32 = 64;

impl Work {
    /// ENTER: starts the program at one of its ten entries, with overflow clear. `by` says whether a WHENEVER executes it.
    pub(crate) fn enter(
        &mut self,
        alloc: Global,
        room: usize,
        by: bool,
        n: u8,
    ) -> Result<(), NoMemory>
        requires { n ≤ 9 }
        ensures ok { OnOk result (self.new ≡ runs.entered room by n self.old.desk.program self.old) }
        ensures blocks { OnOk result (self.new.blocks ≡ self.old.blocks) }
    {
        let Some(program) = &mut self.program else {
            return self.in_error(alloc, room, CommandError::NoProgram);
        };
        program.enter(n);
        self.run_by(by);
        self.go_on(alloc, room)
    }

    /// RESUME: the program continues after its halt.
    pub(crate) fn resume(&mut self, alloc: Global, room: usize, by: bool) -> Result<(), NoMemory>
        ensures ok { OnOk result (self.new ≡ runs.resumed room by self.old.desk.program self.old) }
        ensures blocks { OnOk result (self.new.blocks ≡ self.old.blocks) }
    {
        if self.program.is_none() {
            return self.in_error(alloc, room, CommandError::NoProgram);
        }
        if !self.halted {
            return self.in_error(alloc, room, CommandError::NotHalted);
        }
        self.run_by(by);
        self.go_on(alloc, room)
    }

    /// A run of the program begins.
    fn run_by(&mut self, by: bool)
        ensures { self.new ≡ runs.running_again by self.old }
    {
        self.running = Some(by);
        self.halted = false;
    }

    /// Runs orders until the run or the work is over, or the turn's 64 are used up.
    pub(crate) fn go_on(&mut self, alloc: Global, room: usize) -> Result<(), NoMemory>
        ensures ok { OnOk result (self.new ≡ runs.goes_on room self.old) }
        ensures blocks { OnOk result (self.new.blocks ≡ self.old.blocks) }
    {
        while self.orders < MOST {
            self.run_plain();
            if self.orders >= MOST {
                return Ok(());
            }
            let goes = self.one_order(alloc, room)?;
            if !goes || self.is_over() {
                return Ok(());
            }
        }
        Ok(())
    }

    /// Runs orders whose event is Ran, at most up to the turn's last. If the work is over it runs none, since the next order is the last then.
    fn run_plain(&mut self)
        requires few { self.old.orders < 64 }
        ensures same { (room : ℕ) → runs.goes_on room self.new ≡ runs.goes_on room self.old }
        ensures more { self.old.orders ≤ self.new.orders }
        ensures blocks { self.new.blocks ≡ self.old.blocks }
    {
        if self.is_over() {
            return;
        }
        if let Some(program) = &mut self.program {
            self.orders += program.run(MOST - self.orders);
        }
    }

    /// Executes the next order and prints its line; returns whether the run continues. Without a program it doesn't.
    #[inline(never)]
    fn one_order(&mut self, alloc: Global, room: usize) -> Result<bool, NoMemory>
        requires few { self.old.orders < 64 }
        ensures ok { IfOk result (λ goes.
            runs.next_order room self.old.desk.program self.old ≡ order_as goes self.new) }
        ensures blocks { OnOk result (self.new.blocks ≡ self.old.blocks) }
    {
        match self.step()? {
            Some(event) => self.come(alloc, room, event),
            None => Ok(false),
        }
    }

    /// Executes the next order of the program with its transfer, if there is a program.
    fn step(&mut self) -> Result<Option<OrderEvent>, NoMemory>
        requires few { self.old.orders < 64 }
        ensures ok { IfOk result (λ came. Stepped came self.old self.new) }
        ensures blocks { OnOk result (self.new.blocks ≡ self.old.blocks) }
    {
        let Some(program) = &mut self.program else {
            return Ok(None);
        };
        let event = self.units.one_order(program)?;
        self.orders += 1;
        Ok(Some(event))
    }

    /// Prints the event of an order, and returns whether the run continues.
    fn come(&mut self, alloc: Global, room: usize, event: OrderEvent) -> Result<bool, NoMemory>
        ensures ok { IfOk result (λ goes.
            runs.by_event room event self.old ≡ order_as goes self.new) }
        ensures blocks { OnOk result (self.new.blocks ≡ self.old.blocks) }
    {
        match event {
            OrderEvent::Ran => Ok(true),
            OrderEvent::Displayed(text) => {
                self.say_marked(alloc, room, Mark::Displayed, text.as_slice())?;
                Ok(true)
            }
            OrderEvent::Halted(text) => {
                self.say_marked(alloc, room, Mark::Halted, text.as_slice())?;
                self.end_run(EventNote::Halted(text), true);
                Ok(false)
            }
            OrderEvent::Deleted(text) => {
                self.say_marked(alloc, room, Mark::Deleted, text.as_slice())?;
                self.program = None;
                self.end_run(EventNote::Deleted(text), false);
                Ok(false)
            }
            OrderEvent::Illegal { word, at } => {
                self.say_job_line(alloc, room, JobLine::Illegal { word, at })?;
                self.end_run(EventNote::Failed, false);
                Ok(false)
            }
        }
    }

    /// A run is over, and its command sets the outcome.
    fn end_run(&mut self, event: EventNote, halted: bool)
        ensures { self.new ≡ runs.run_ended event halted self.old }
    {
        self.running = None;
        self.halted = halted;
        self.set_outcome(false, event);
    }
}
