//! The choice of the next job.
ghost use Rattle.std.specs.Prelude.{◌≡◌, ◌⊎◌, ◌≤◌, ℕ, IfSome, Some, length, not};
ghost use Rattle.g_job_table.specs.Choice.{IsFirst, TellsMounted, able_in};
ghost use Rattle.g_job_table.specs.Numbers.{Rise};
ghost use Rattle.g_job_table.specs.Weights.{AreOthers, AreWeights};
ghost use Rattle.g_rules.specs.Choice.{IsNoLater};
ghost use Rattle.g_rules.specs.Rule.{IsWeighRule};
ghost use Rattle.g_store_model.specs.State.{State};
ghost use Rattle.g_run_model.specs.World.{can_step, has_none, has_reel};

use crate::place::place_of;
use crate::weights::Weights;
use g_job::Job;
use g_rules::{Candidate, Standing, WeighRule};

/// The maximum number of jobs at a time.
pub(crate) const MOST_JOBS: usize = 64;

/// Whether the job can step: at a terminal it doesn't wait for a line; and it waits for no reel, or for one that is mounted.
pub(crate) fn can_step<M: Fn(u32) -> bool>(job: &Job, mounted: &M) -> bool
    requires { M.IsAlwaysCallable mounted.now }
    ensures { (s : State) → TellsMounted M.Fn mounted.now s → result ≡ can_step s job.now }
{
    job.ready() && has_reel(job, mounted)
}

/// Whether the job waits for no reel, or for one that is mounted.
fn has_reel<M: Fn(u32) -> bool>(job: &Job, mounted: &M) -> bool
    requires { M.IsAlwaysCallable mounted.now }
    ensures { (s : State) → TellsMounted M.Fn mounted.now s → result ≡ has_reel s job.now }
{
    match job.wants() {
        Some(serial) => mounted(serial),
        None => true,
    }
}

/// Whether one of the jobs can step.
pub(crate) fn one_can_step<M: Fn(u32) -> bool>(jobs: &[Job], mounted: &M) -> bool
    requires { M.IsAlwaysCallable mounted.now }
    ensures { (s : State) → TellsMounted M.Fn mounted.now s → result ≡ not (has_none (able_in s jobs.now)) }
{
    for job in jobs {
        if can_step(job, mounted) {
            return true;
        }
    }
    false
}

/// The candidate for this job: its weight and its number, as the next of those that can step.
fn candidate(job: &Job, place: usize, weight: u64) -> Candidate
    ensures { result ≡ record { place = place; weight = weight; number = job.now.number } }
{
    Candidate {
        place,
        weight,
        number: job.standing().number,
    }
}

/// The lighter of two candidates, the first of which has no greater number: only weights are compared. A turn calls it for each job.
fn lighter(best: Option<Candidate>, candidate: Candidate) -> Candidate
    requires { IfSome best (λ b. b.number ≤ candidate.number) }
    ensures one { (result ≡ candidate) ⊎ (best ≡ Some result) }
    ensures before { IsNoLater result.weight result.number candidate.weight candidate.number }
    ensures before_best { IfSome best (λ b. IsNoLater result.weight result.number b.weight b.number) }
{
    match best {
        Some(best) if best.weight <= candidate.weight => best,
        _ => candidate,
    }
}

/// The first of the jobs that can step, by their weights and then by number. Its place is that among those that can step.
pub(crate) fn first_of<U: Fn(&Standing) -> u64, M: Fn(u32) -> bool>(
    jobs: &[Job],
    weigh: &WeighRule<U>,
    weights: &Weights,
    mounted: &M,
) -> Option<Candidate>
    requires weighed { AreWeights U.Fn weigh.now jobs.now weights.now }
    requires callable { M.IsAlwaysCallable mounted.now }
    requires rise { (next : ℕ) × Rise 1 jobs.now next }
    ensures { (s : State) → TellsMounted M.Fn mounted.now s → IsFirst U.Fn weigh.now (able_in s jobs.now) result }
{
    let mut able = 0;
    let mut first: Option<Candidate> = None;
    for (place, job) in jobs.iter().enumerate() {
        if can_step(job, mounted) {
            first = Some(lighter(first, candidate(job, able, weights.get(place))));
            able += 1;
        }
    }
    first
}

/// Weighs each of the jobs by the rule. The weights are written in place.
// Called at the beginning of ticks and after a job has ended: as a function of its own it leaves only one job's weighing to each turn.
#[inline(never)]
pub(crate) fn weigh_each<U: Fn(&Standing) -> u64>(
    jobs: &[Job],
    weigh: &WeighRule<U>,
    weights: &mut Weights,
)
    requires rule { IsWeighRule U.Fn weigh.now }
    requires few { length jobs.now ≤ 64 }
    ensures { AreWeights U.Fn weigh.now jobs.now weights.new }
{
    weights.clear();
    for job in jobs {
        weights.push(weigh.weight(&job.standing()));
    }
}

/// Weighs the job of this number again, if there is one, provided that the weights of the others are still right.
pub(crate) fn weigh_again<U: Fn(&Standing) -> u64>(
    jobs: &[Job],
    weigh: &WeighRule<U>,
    number: u64,
    weights: &mut Weights,
)
    requires rule { IsWeighRule U.Fn weigh.now }
    requires rise { (next : ℕ) × Rise 1 jobs.now next }
    requires count { length jobs.now ≡ length weights.old }
    requires others { AreOthers U.Fn weigh.now number jobs.now weights.old }
    ensures { AreWeights U.Fn weigh.now jobs.now weights.new }
{
    match place_of(jobs, number) {
        Some(place) => weights.set(place, weigh.weight(&jobs[place].standing())),
        None => {}
    }
}
