//! A job between its turns.
ghost use Rattle.std.specs.Prelude.{◌≡◌, ◌≤◌, ◌↔◌, ℕ, [], List, Ok, false, true, IfOk, OnErr, length};
ghost use Rattle.g_rules.specs.Tariff.{IsTariff};
ghost use Rattle.g_job.specs.Beginning.{job_begun, room_of, standing_of};
ghost use Rattle.g_turn.specs.Bounds.{IsWithin};
ghost use Rattle.g_turn.specs.Causes.{CauseOf, last_answer};
ghost use Rattle.g_job.specs.TurnEnd.{IsTurn};
ghost use Rattle.g_job.specs.Rules.{most_bytes};
ghost use Rattle.g_job.specs.Spending.{KeepsSeat, Spends, ToldAsBefore};
ghost use Rattle.g_turn.specs.State.{Work};
ghost use Rattle.g_job.specs.Turns.{turn_work};
ghost use Rattle.g_lines.specs.Lines.{ended};
ghost use Rattle.g_monitor.specs.JobLines.{header};
ghost use Rattle.g_plain.specs.Programs.{Answer, RanInPart};
ghost use Rattle.g_plain.specs.Runs.{RanBy};
ghost use Rattle.g_rules.specs.Rule.{IsInRange};

use crate::new_job::NewJob;
use crate::parts::Parts;
use g_base::NoMemory;
use g_macro::Levels;
use g_monitor::push_header;
use g_name::{Local, Text, User};
use g_peri::Units;
use g_plain::Filestore;
use g_rules::{Charge, Standing, Tariff, Turn, Usage};
use g_turn::Work;
use std::alloc::Global;
use std::marker::Model;

/// A job: its document with the macros that it has called, a program, units, its allowances of TIME and MONEY, and its monitoring file. Contracts see
/// a `JobState` (`docs/DEFINITIONS.md`, "g_job"). Its parts are boxed: moving a job into the table of jobs and out of it moves a
/// pointer.
#[derive(Drop)]
pub struct Job {
    pub(crate) parts: Box<Parts>,
}

impl Model for Job {
    ghost use Rattle.std.specs.Coded.{codes};
    ghost use Rattle.g_name.specs.contracts.path.Path as path;
    ghost use Rattle.g_job.specs.State.{JobState};

    ghost Value = { JobState };

    ghost coded = { Prim.hlevel (codes, path.the_row.coded) };

    ghost use Rattle.std.specs.Prelude.{◌≡◌};
    ghost use Rattle.g_job.specs.JobValue.{job_of};
    ghost use Rattle.g_job.specs.Rules.{IsJob};
    ghost use Rattle.g_job.specs.Terminal.{is_ready};

    ghost view = { λ j. job_of j.parts.value };

    ghost invariant = { λ j. IsJob (job_of j.parts.value) × (j.parts.value.ready ≡ is_ready (job_of j.parts.value)) };
}

impl Job {
    /// The job of this number at its beginning: no turn was taken, and its monitoring file has its first line.
    pub fn new(alloc: Global, number: u64, job: NewJob) -> Result<Job, NoMemory>
        requires allowance { (1 ≤ job.time) × (job.time ≤ 1000000) }
        requires money { job.money ≤ 1000000 }
        ensures { IfOk result (λ begun. begun ≡ job_begun number job.name job.user job.time job.money job.lines) }
    {
        let NewJob {
            name,
            user,
            time,
            money,
            lines,
        } = job;
        let Ok(levels) = Levels::new(alloc, lines) else {
            return Err(NoMemory);
        };
        let units = Units::new(alloc)?;
        let monitor = first_line(with_room(alloc)?, number, &name, &user)?;
        let mut work = Work::new(alloc, levels, units);
        work.reuse_buffer(with_room(alloc)?);
        let parts = Parts {
            number,
            name,
            user,
            allowance: time,
            money,
            used: 0,
            used_money: 0,
            turns: 0,
            work,
            again: None,
            wants: None,
            monitor,
            over: false,
            terminal: None,
            ready: true,
        };
        match Box::new(alloc, parts) {
            Ok(parts) => Ok(Job { parts }),
            Err(_) => Err(NoMemory),
        }
    }

    /// Takes a turn: resumes with what waited, or continues a run of the program that isn't over, or takes the next line; executes its command and
    /// the WHENEVER after it; and charges all that by the tariff, each kind limited to what the job has left.
    ///
    /// If memory runs out, a prefix of the turn's calls was made, and the job is unspecified: it takes no more turns.
    pub fn turn<S: Filestore, F: Fn(&Usage) -> Charge>(
        &mut self,
        alloc: Global,
        store: &mut S,
        tariff: &Tariff<F>,
    ) -> Result<Turn, NoMemory>
        requires spent { S.is_spent store.old ≡ false }
        requires open { self.old.over ≡ false }
        requires tariff { IsTariff F.Fn tariff.now }

        // Its calls and their answers; why its work is over, and what it used; and how it ends.
        ensures ok { IfOk result (λ turn. (told : List Answer) × (work : Work)
            × RanBy S.answers self.old.user store.old (turn_work self.old) told work store.new
            × CauseOf (last_answer told) work.stop
            × IsWithin (room_of self.old) work
            × IsTurn F.Fn tariff.now self.old work turn self.new) }

        // Without memory a prefix of these calls was answered.
        ensures err { OnErr result
            (RanInPart S.answers self.old.user store.old (turn_work self.old) store.new) }

        // The reel that it waits for isn't mounted, and it mounts none.
        ensures waits { (s : ℕ) → result ≡ Ok (Turn.Wants s) → S.can_wait store.new s ≡ true }
        ensures same_waits { (s : ℕ) → S.can_wait store.new s ≡ S.can_wait store.old s }
        ensures stopped { IfOk result (λ turn. (S.is_spent store.new ≡ true) ↔ (turn ≡ Turn.Broken)) }
        ensures spends { IfOk result (λ turn. Spends self.old turn self.new) }
        ensures seat { IfOk result (λ turn. KeepsSeat self.old self.new) }
        ensures waited { (s : ℕ) → result ≡ Ok (Turn.Wants s) → ToldAsBefore self.old self.new }
    {
        match self.parts.make(alloc, store) {
            Ok(()) => self.parts.end(alloc, tariff),
            Err(NoMemory) => Err(NoMemory),
        }
    }

    /// The monitoring file so far: at most 1,048,576 bytes, and one last line of at most 23 more once the job has ended.
    pub fn monitor(&self) -> &[u8]
        ensures bytes { result.now ≡ self.now.monitor }
        ensures most { length self.now.monitor ≤ most_bytes self.now.over }
    {
        self.parts.monitor.as_slice()
    }

    /// The serial of the reel for which the last turn waits, if it does.
    pub fn wants(&self) -> Option<u32>
        ensures { result ≡ self.now.wants }
    {
        self.parts.wants
    }

    /// The user whose job it is.
    pub fn user(&self) -> &User
        ensures { result.now ≡ self.now.user }
    {
        &self.parts.user
    }

    /// Its allowance of MONEY, in units.
    pub fn money(&self) -> u64
        ensures { result ≡ self.now.money }
    {
        self.parts.money
    }

    /// The units of MONEY charged so far.
    pub fn used_money(&self) -> u64
        ensures { result ≡ self.now.used_money }
    {
        self.parts.used_money
    }

    /// The standing of the job, by which the next turn is chosen: its number, the units of TIME charged so far, its allowance in units, and how many
    /// of its turns were charged.
    pub fn standing(&self) -> Standing
        ensures value { result ≡ standing_of self.now }
        ensures in_range { IsInRange result }
    {
        Standing {
            number: self.parts.number,
            used: self.parts.used,
            allowance: self.parts.allowance,
            turns: self.parts.turns,
        }
    }
}

/// The initial capacity of a monitoring file and of the text of a job's turns, in bytes: that of a few lines.
const ROOM: usize = 256;

/// An empty text with capacity for a few lines, so that it doesn't grow in small steps.
fn with_room(alloc: Global) -> Result<Text, NoMemory>
    ensures { IfOk result (λ text. text ≡ []) }
{
    Ok(Text::from(Vec::with_capacity(alloc, ROOM)?))
}

/// The first line of a monitoring file, with its byte 10, written to this empty text.
fn first_line(empty: Text, number: u64, name: &Local, user: &User) -> Result<Text, NoMemory>
    requires { empty ≡ [] }
    ensures line { IfOk result (λ text. text ≡ ended (header number name.now user.now)) }
    ensures short { IfOk result (λ text. length text ≤ 1048576) }
{
    // Establishes that names are short.
    let _name = name.as_slice();
    let _user = user.as_slice();
    let mut text = empty;
    push_header(&mut text, number, name, user)?;
    text.push(b'\n')?;
    Ok(text)
}
