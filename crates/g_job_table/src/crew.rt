//! The crew.
ghost use Rattle.std.specs.Prelude.{◌≡◌, ◌↔◌, ◌+◌, ◌<◌, ◌≤◌, ◌≢◌, ◌++◌, ℕ, [], ◌∷◌, Bool, true, false, not, List, Ok, Err, None, Some, IfOk, IfSome, OnErr, OnOk, length, slice_index_or};
ghost use Rattle.std.specs.List.{remove};
ghost use Rattle.g_rules.specs.Tariff.{IsTariff};
ghost use Rattle.g_job_table.specs.Accounts.{AreKept, HaveAccounts, HaveRows, KeepAccounts};
ghost use Rattle.g_job_table.specs.Choice.{Chooses, TellsMounted, able_in};
ghost use Rattle.g_job_table.specs.Numbers.{AreJobs, AreOpen, job_in};
ghost use Rattle.g_job_table.specs.Taking.{RefusesAsIn, printed};
ghost use Rattle.g_job_table.specs.Turn.{TakesTurn, shown_from};
ghost use Rattle.g_job_table.specs.Weights.{AreOthers, AreWeights};
ghost use Rattle.g_job.specs.Beginning.{job_begun};
ghost use Rattle.g_job.specs.Spending.{ToldAsBefore};
ghost use Rattle.g_job.specs.State.{JobState};
ghost use Rattle.g_job.specs.Turns.{turn_work};
ghost use Rattle.g_plain.specs.Programs.{RanInPart};
ghost use Rattle.g_rules.specs.Rule.{IsWeighRule};
ghost use Rattle.g_store_model.specs.State.{State};
ghost use Rattle.g_run_model.specs.Accounts.{Opened, rows_of, settled, with_new};
ghost use Rattle.g_run_model.specs.World.{has_none, with_job, without_job};

use crate::account::{Account, charge, open_each};
use crate::choice::{first_of, one_can_step, weigh_again, weigh_each};
use crate::place::place_of;
use crate::seats::{BoxedSeats, get_up};
use crate::taken::Taken;
use crate::taking::{NotTaken, refusal};
use crate::weights::Weights;
use g_base::NoMemory;
use g_entry::UserRec;
use g_job::{Job, NewJob};
use g_plain::Filestore;
use g_rules::{Charge, Standing, Tariff, Turn, Usage, WeighRule};
use std::alloc::Global;
use std::marker::Model;

/// The jobs that were taken in and aren't over, at most 64, in order of number; the accounts of users; and the number of the next job. Contracts see
/// a `CrewState` (`docs/DEFINITIONS.md`, "g_job_table"). From the first LOGIN on, the seats of the terminals are stored with the
/// jobs; they are determined by the jobs.
#[derive(Drop)]
pub struct Crew {
    pub(crate) jobs: Vec<Job>,
    pub(crate) accounts: Vec<Account>,
    pub(crate) next_job: u64,
    pub(crate) terminals: Option<BoxedSeats>,
}

impl Model for Crew {
    ghost use Rattle.std.specs.Coded.{codes};
    ghost use Rattle.g_name.specs.contracts.path.Path as path;
    ghost use Rattle.g_job_table.specs.Crew.{CrewState};

    ghost Value = { CrewState };

    ghost coded = { Prim.hlevel (codes, path.the_row.coded) };

    ghost use Rattle.std.specs.Prelude.{◌≡◌};
    ghost use Rattle.g_job_table.specs.Numbers.{AreJobs};
    ghost use Rattle.g_job_table.specs.Seating.{seats_in, seats_of};

    ghost view = { λ c. record { jobs = c.jobs.items; accounts = c.accounts.items; next_job = c.next_job } };

    ghost invariant = { λ c. AreJobs c.jobs.items c.next_job × (seats_of c.terminals ≡ seats_in c.jobs.items) };
}

impl Crew {
    /// A crew without jobs and accounts; the next job is job 1.
    pub fn new(alloc: Global) -> Crew
        ensures { result ≡ record { jobs = []; accounts = []; next_job = 1 } }
    {
        Crew {
            jobs: Vec::new(alloc),
            accounts: Vec::new(alloc),
            next_job: 1,
            terminals: None,
        }
    }

    /// Opens an account for each of these users who has none, with the present budgets: for all users when the system comes up, and after each turn
    /// for those that it created. Without memory nothing changes.
    pub fn open_accounts(&mut self, users: &[UserRec]) -> Result<(), NoMemory>
        ensures opened { OnOk result ((s : State) (accounts : List Opened) → HaveRows users.now (rows_of s)
            → AreKept accounts self.old.accounts → AreKept (with_new s accounts) self.new.accounts) }
        ensures all { OnOk result (HaveAccounts users.now self.new.accounts) }
        ensures others { self.new ≡ record self.old { accounts = self.new.accounts } }
        ensures err { OnErr result (self.new ≡ self.old) }
    {
        let before = self.accounts.len();
        match open_each(&mut self.accounts, users) {
            Ok(()) => Ok(()),
            Err(NoMemory) => {
                self.accounts.truncate(before);
                Err(NoMemory)
            }
        }
    }

    /// Takes a job in, and returns its number. `known` says whether the store knows the user. A refusal changes nothing; the reasons are checked in
    /// this order:
    /// - `NoUser`: the store doesn't know the user. `JobsFull`: 64 jobs are unfinished. `NoTime`, `NoMoney`: the allowance
    ///   is more than the user's account has left, less the allowances of the user's unfinished jobs.
    /// - `NoMemory`: it would have been taken in.
    pub fn take_in(&mut self, alloc: Global, known: bool, job: NewJob) -> Result<u64, NotTaken>
        requires time { (1 ≤ job.time) × (job.time ≤ 1000000) }
        requires money { job.money ≤ 1000000 }
        requires numbers { self.old.next_job + 1 < 18446744073709551616 }
        ensures refusal { RefusesAsIn self.old known job.user job.time job.money (printed result) }
        ensures ok { IfOk result (λ number. (number ≡ self.old.next_job) × (self.new ≡ record self.old {
          jobs = self.old.jobs
              ++ job_begun self.old.next_job job.name job.user job.time job.money job.lines ∷ [];
          next_job = self.old.next_job + 1;
        })) }
        ensures err { OnErr result (self.new ≡ self.old) }
    {
        match refusal(&self.accounts, &self.jobs, known, &job) {
            Ok(()) => self.begin(alloc, job),
            Err(why) => Err(why),
        }
    }

    /// Begins the job and appends it to the others. Without memory nothing changes.
    fn begin(&mut self, alloc: Global, job: NewJob) -> Result<u64, NotTaken>
        requires few { length self.old.jobs < 64 }
        requires time { (1 ≤ job.time) × (job.time ≤ 1000000) }
        requires money { job.money ≤ 1000000 }
        requires numbers { self.old.next_job + 1 < 18446744073709551616 }
        ensures ok { IfOk result (λ number. (number ≡ self.old.next_job) × (self.new ≡ record self.old {
          jobs = self.old.jobs
              ++ job_begun self.old.next_job job.name job.user job.time job.money job.lines ∷ [];
          next_job = self.old.next_job + 1;
        })) }
        ensures err { OnErr result (self.new ≡ self.old) }
        ensures untold { printed result ≡ None }
    {
        match Job::new(alloc, self.next_job, job) {
            Ok(job) => self.push(job),
            Err(NoMemory) => Err(NotTaken::NoMemory),
        }
    }

    /// Appends a job of the next number. Without memory nothing changes.
    fn push(&mut self, job: Job) -> Result<u64, NotTaken>
        requires few { length self.old.jobs < 64 }
        requires next { job.number ≡ self.old.next_job }
        requires allowed { job.allowance ≤ 1000000 }
        requires elsewhere { job.terminal ≡ None }
        requires numbers { self.old.next_job + 1 < 18446744073709551616 }
        ensures ok { IfOk result (λ number. (number ≡ self.old.next_job) × (self.new ≡ record self.old {
          jobs = self.old.jobs ++ job ∷ [];
          next_job = self.old.next_job + 1;
        })) }
        ensures err { OnErr result (self.new ≡ self.old) }
        ensures untold { printed result ≡ None }
    {
        match self.jobs.push(job) {
            Ok(()) => {
                let number = self.next_job;
                self.next_job += 1;
                Ok(number)
            }
            Err(_) => Err(NotTaken::NoMemory),
        }
    }

    /// Whether a job can step: it waits for no reel, or for one that is `mounted`, and, at a terminal, for no line.
    pub fn can_step<M: Fn(u32) -> bool>(&self, mounted: &M) -> bool
        requires { M.IsAlwaysCallable mounted.now }
        ensures { (s : State) → TellsMounted M.Fn mounted.now s → result ≡ not (has_none (able_in s self.now.jobs)) }
    {
        one_can_step(self.jobs(), mounted)
    }

    /// The number of the next job: of those that can step, the one of least weight by the rule, then of least number. None if none can step.
    /// Allocates nothing.
    pub fn choose<U: Fn(&Standing) -> u64, M: Fn(u32) -> bool>(
        &self,
        weigh: &WeighRule<U>,
        weights: &Weights,
        mounted: &M,
    ) -> Option<u64>
        requires weighed { AreWeights U.Fn weigh.now self.now.jobs weights.now }
        requires callable { M.IsAlwaysCallable mounted.now }
        ensures { (s : State) → TellsMounted M.Fn mounted.now s
            → Chooses U.Fn weigh.now self.now.jobs (able_in s self.now.jobs) result }
    {
        match first_of(self.jobs(), weigh, weights, mounted) {
            Some(first) => Some(first.number),
            None => None,
        }
    }

    /// The weight of each job by the rule.
    pub fn weigh<U: Fn(&Standing) -> u64>(&self, weigh: &WeighRule<U>, weights: &mut Weights)
        requires rule { IsWeighRule U.Fn weigh.now }
        ensures { AreWeights U.Fn weigh.now self.now.jobs weights.new }
    {
        weigh_each(self.jobs(), weigh, weights);
    }

    /// The same after a turn of the job of this number: if no job has ended, the weights of the others are unchanged, and only that one is weighed
    /// again.
    pub fn weigh_behind<U: Fn(&Standing) -> u64>(
        &self,
        weigh: &WeighRule<U>,
        number: u64,
        weights: &mut Weights,
    )
        requires rule { IsWeighRule U.Fn weigh.now }
        requires others { length self.now.jobs ≡ length weights.old → AreOthers U.Fn weigh.now number self.now.jobs weights.old }
        ensures { AreWeights U.Fn weigh.now self.now.jobs weights.new }
    {
        let jobs = self.jobs();
        if jobs.len() == weights.count() {
            weigh_again(jobs, weigh, number, weights);
        } else {
            weigh_each(jobs, weigh, weights);
        }
    }

    /// A turn of the job of this number, on any store, as by `Job::turn`, and, for a job at a terminal, the length of its file before. Without memory
    /// the job is unspecified, and is removed.
    pub fn turn<S: Filestore, F: Fn(&Usage) -> Charge>(
        &mut self,
        alloc: Global,
        number: u64,
        store: &mut S,
        tariff: &Tariff<F>,
    ) -> Result<Taken, NoMemory>
        requires there { (job : JobState) × (job_in number self.old.jobs ≡ Some job) }
        requires open { AreOpen self.old.jobs }
        requires spent { S.is_spent store.old ≡ false }
        requires tariff { IsTariff F.Fn tariff.now }
        ensures ok { IfOk result (λ taken. (job : JobState) × (after : JobState)
            × (job_in number self.old.jobs ≡ Some job)
            × TakesTurn S.answers F.Fn tariff.now job store.old taken.turn after store.new
            × (self.new ≡ record self.old { jobs = with_job after self.old.jobs })
            × (taken.shown ≡ shown_from job)) }

        // Without memory a prefix of its calls was answered.
        ensures err { OnErr result ((job : JobState) × (job_in number self.old.jobs ≡ Some job)
            × RanInPart S.answers job.user store.old (turn_work job) store.new) }
        ensures gone { OnErr result (self.new ≡ record self.old { jobs = without_job number self.old.jobs }) }

        // The reel that it waits for isn't mounted, and it mounts none; a stop spends the store.
        ensures waits { (s : ℕ) → IfOk result (λ taken. taken.turn ≡ Turn.Wants s → S.can_wait store.new s ≡ true) }
        ensures same_waits { (s : ℕ) → S.can_wait store.new s ≡ S.can_wait store.old s }
        ensures stopped { IfOk result (λ taken. (S.is_spent store.new ≡ true) ↔ (taken.turn ≡ Turn.Broken)) }
    {
        let Some(place) = place_of(&self.jobs, number) else {
            unreachable!()
        };
        let shown = file_before(&self.jobs[place]);
        match self.jobs[place].turn(alloc, store, tariff) {
            Ok(turn) => Ok(Taken { turn, shown }),
            Err(NoMemory) => {
                remove_job(&mut self.jobs, place);
                get_up(&mut self.terminals, number);
                Err(NoMemory)
            }
        }
    }

    /// Removes the job of this number because it is over, and charges its account with what it has used. None, and no change, if there is no such
    /// job.
    pub fn end(&mut self, number: u64) -> Option<Job>
        ensures job { result ≡ job_in number self.old.jobs }
        ensures jobs { self.new.jobs ≡ without_job number self.old.jobs }
        ensures settled { IfSome result (λ job. (accounts : List Opened) → AreKept accounts self.old.accounts
            → AreKept (settled job accounts) self.new.accounts) }
        ensures kept { KeepAccounts self.old.accounts self.new.accounts }
        ensures none { result ≡ None → self.new ≡ self.old }
        ensures number { self.new.next_job ≡ self.old.next_job }
    {
        let Some(place) = place_of(&self.jobs, number) else {
            return None;
        };
        charge(&mut self.accounts, &self.jobs[place]);
        get_up(&mut self.terminals, number);
        Some(take_job(&mut self.jobs, place))
    }

    /// The system went down: jobs and accounts are removed. The numbering of jobs continues.
    pub fn go_down(&mut self)
        ensures { self.new ≡ record self.old { jobs = []; accounts = [] } }
    {
        self.jobs.truncate(0);
        self.accounts.truncate(0);
        self.terminals = None;
    }

    /// The jobs in order of number.
    pub fn jobs(&self) -> &[Job]
        ensures jobs { result.now ≡ self.now.jobs }
        ensures numbers { AreJobs self.now.jobs self.now.next_job }
    {
        self.jobs.as_slice()
    }
}

/// The length in bytes of the file of a job at a terminal.
fn file_before(job: &Job) -> Option<usize>
    ensures { result ≡ shown_from job.now }
{
    match job.terminal() {
        Some(_) => Some(job.monitor().len()),
        None => None,
    }
}

/// Removes the job at this place, and returns it. A job is large; removing the last one, as is usual, moves no other.
fn take_job(jobs: &mut Vec<Job>, place: usize) -> Job
    requires { place < length jobs.old.items }
    ensures value { result ≡ slice_index_or jobs.old.items place result }
    ensures items { jobs.new.items ≡ remove jobs.old.items place }
{
    if place + 1 == jobs.len() {
        jobs.swap_remove(place)
    } else {
        jobs.remove(place)
    }
}

/// Removes the job at this place. A turn rarely calls it; as a function of its own it adds no stack space for a whole job to each turn.
#[inline(never)]
fn remove_job(jobs: &mut Vec<Job>, place: usize)
    requires { place < length jobs.old.items }
    ensures { jobs.new.items ≡ remove jobs.old.items place }
{
    jobs.remove(place);
}
