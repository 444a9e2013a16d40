//! The jobs of terminals.
ghost use Rattle.std.specs.Prelude.{◌≡◌, ◌+◌, ◌<◌, ◌≤◌, ◌++◌, [], ◌∷◌, Bool, true, List, None, Ok, Err, Option, Some, IfOk, OnErr, OnOk, is_some, length};
ghost use Rattle.g_job_table.specs.Numbers.{job_in};
ghost use Rattle.g_job_table.specs.Seating.{RefusesLoginAsIn, TypesAt, LogsOutAt, printed_login, pushed_of, seats_in};
ghost use Rattle.g_job.specs.State.{JobState};
ghost use Rattle.g_lines.specs.Documents.{IsOneLine};
ghost use Rattle.g_mop.specs.Seats.{seat_at};
ghost use Rattle.g_run_model.specs.Lines.{open_at, terminal_job};

use crate::crew::Crew;
use crate::files::push_added;
use crate::place::place_of;
use crate::seating::{NewLogin, NoTerminal, NotSeated, NotTyped};
use crate::seats::{is_busy, log_out, make_seats, open_number, sit};
use crate::taking::{NotTaken, room_refusal};
use g_base::NoMemory;
use g_job::Job;
use g_name::Text;
use std::alloc::Global;

impl Crew {
    /// Takes a terminal's job in, and returns its number. `known` says whether the store knows the user. A refusal changes nothing; the reasons are
    /// checked in this order:
    /// - `NoUser`: the store doesn't know the user. `TerminalBusy`: an unfinished job is at the terminal. `JobsFull`, `NoTime`,
    ///   `NoMoney`: as for any other job, with a MONEY of 1,000.
    /// - `NoMemory`: it would have been taken in.
    pub fn login(&mut self, alloc: Global, known: bool, login: NewLogin) -> Result<u64, NotSeated>
        requires terminal { (1 ≤ login.terminal) × (login.terminal ≤ 8) }
        requires time { (1 ≤ login.time) × (login.time ≤ 1000000) }
        requires numbers { self.old.next_job + 1 < 18446744073709551616 }
        ensures refusal { RefusesLoginAsIn self.old known login.terminal login.user login.time (printed_login result) }
        ensures ok { IfOk result (λ number. (number ≡ self.old.next_job) × (self.new ≡ record self.old {
          jobs = self.old.jobs ++ terminal_job self.old.next_job login.terminal login.user login.time ∷ [];
          next_job = self.old.next_job + 1;
        })) }
        ensures there { IfOk result (λ number. job_in number self.new.jobs
            ≡ Some (terminal_job self.old.next_job login.terminal login.user login.time)) }
        ensures err { OnErr result (self.new ≡ self.old) }
    {
        match self.login_refusal(known, &login) {
            Ok(()) => match self.sit_down(alloc, login) {
                Ok(number) => Ok(number),
                Err(NoMemory) => Err(NotSeated::NotTaken(NotTaken::NoMemory)),
            },
            Err(why) => Err(why),
        }
    }

    /// The first reason, in this order, not to take the job in.
    fn login_refusal(&self, known: bool, login: &NewLogin) -> Result<(), NotSeated>
        ensures refusal { RefusesLoginAsIn self.now known login.now.terminal login.now.user login.now.time (printed_login result) }
        ensures few { OnOk result (length self.now.jobs < 64) }
        ensures free { OnOk result (seat_at login.now.terminal (seats_in self.now.jobs) ≡ None) }
    {
        if !known {
            return Err(NotSeated::NotTaken(NotTaken::NoUser));
        }
        if is_busy(&self.terminals, login.terminal) {
            return Err(NotSeated::TerminalBusy(login.terminal));
        }
        match room_refusal(&self.accounts, &self.jobs, &login.user, login.time, 1000) {
            Ok(()) => Ok(()),
            Err(why) => Err(NotSeated::NotTaken(why)),
        }
    }

    /// Begins the job and appends it to the others. Without memory nothing changes.
    fn sit_down(&mut self, alloc: Global, login: NewLogin) -> Result<u64, NoMemory>
        requires few { length self.old.jobs < 64 }
        requires free { seat_at login.terminal (seats_in self.old.jobs) ≡ None }
        requires terminal { (1 ≤ login.terminal) × (login.terminal ≤ 8) }
        requires time { (1 ≤ login.time) × (login.time ≤ 1000000) }
        requires numbers { self.old.next_job + 1 < 18446744073709551616 }
        ensures ok { IfOk result (λ number. (number ≡ self.old.next_job) × (self.new ≡ record self.old {
          jobs = self.old.jobs ++ terminal_job self.old.next_job login.terminal login.user login.time ∷ [];
          next_job = self.old.next_job + 1;
        })) }
        ensures there { IfOk result (λ number. job_in number self.new.jobs
            ≡ Some (terminal_job self.old.next_job login.terminal login.user login.time)) }
        ensures err { OnErr result (self.new ≡ self.old) }
    {
        let terminal = login.terminal;
        let job = login.begin(alloc, self.next_job)?;
        self.push_at(alloc, terminal, job)
    }

    /// Appends a terminal's job of the next number. Without memory nothing changes.
    fn push_at(&mut self, alloc: Global, terminal: u8, job: Job) -> Result<u64, NoMemory>
        requires few { length self.old.jobs < 64 }
        requires next { job.number ≡ self.old.next_job }
        requires allowed { job.allowance ≤ 1000000 }
        requires seated { (job.terminal ≡ Some terminal) × (job.desk.levels.held ≡ true) }
        requires free { seat_at terminal (seats_in self.old.jobs) ≡ None }
        requires terminal { (1 ≤ terminal) × (terminal ≤ 8) }
        requires numbers { self.old.next_job + 1 < 18446744073709551616 }
        ensures ok { IfOk result (λ number. (number ≡ self.old.next_job) × (self.new ≡ record self.old {
          jobs = self.old.jobs ++ job ∷ [];
          next_job = self.old.next_job + 1;
        })) }
        ensures there { IfOk result (λ number. job_in number self.new.jobs ≡ Some job) }
        ensures err { OnErr result (self.new ≡ self.old) }
    {
        make_seats(alloc, &mut self.terminals)?;
        match self.jobs.push(job) {
            Ok(()) => {
                let number = self.next_job;
                sit(&mut self.terminals, terminal, number);
                self.next_job += 1;
                Ok(number)
            }
            Err(_) => Err(NoMemory),
        }
    }

    /// Appends a line to the document of the job at the terminal. A fault changes nothing:
    /// - `NoTerminal`: the terminal has no unfinished job, or was logged out.
    /// - `NoMemory`: the line would have been typed.
    pub fn type_line(&mut self, terminal: u8, line: Text) -> Result<(), NotTyped>
        requires { IsOneLine line }
        ensures { TypesAt (open_at terminal self.old.jobs) line self.old self.new result }
    {
        let Some(number) = open_number(&self.terminals, terminal) else {
            return Err(NotTyped::NoTerminal);
        };
        let Some(place) = place_of(&self.jobs, number) else {
            unreachable!()
        };
        match self.jobs[place].add_line(line) {
            Ok(()) => Ok(()),
            Err(NoMemory) => Err(NotTyped::NoMemory),
        }
    }

    /// Logs the terminal out: no more lines will be typed, and its job ends when none is left. Allocates nothing. `NoTerminal`, and no change, if the
    /// terminal has no unfinished job or was logged out already.
    pub fn logout(&mut self, terminal: u8) -> Result<(), NoTerminal>
        ensures { LogsOutAt (open_at terminal self.old.jobs) self.old self.new result }
    {
        let Some(number) = log_out(&mut self.terminals, terminal) else {
            return Err(NoTerminal);
        };
        let Some(place) = place_of(&self.jobs, number) else {
            unreachable!()
        };
        self.jobs[place].finish();
        Ok(())
    }

    /// Appends what was added to the file of the job of this number after its first `before` bytes, with its terminal's mark before each line;
    /// nothing for a job without a terminal. If memory runs out, a prefix of it may have been appended.
    pub fn push_shown(&self, text: &mut Text, number: u64, before: usize) -> Result<(), NoMemory>
        requires there { (job : JobState) × (job_in number self.now.jobs ≡ Some job) }
        ensures { OnOk result ((job : JobState) → job_in number self.now.jobs ≡ Some job
            → text.new ≡ text.old ++ pushed_of job before) }
    {
        let Some(place) = place_of(self.jobs(), number) else {
            unreachable!()
        };
        push_added(text, &self.jobs()[place], before)
    }
}
