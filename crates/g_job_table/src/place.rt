//! The place of a job.
ghost use Rattle.std.specs.Prelude.{◌≡◌, None, IfSome, MatchOption};
ghost use Rattle.g_job_table.specs.Numbers.{job_in};
ghost use Rattle.g_job_table.specs.Keeping.{IsPlaceOf};

use g_job::Job;

/// The place of the job of this number. Checks the first place first, since there is often only one job, and then the place that it has if no job
/// between the first and it is over.
pub(crate) fn place_of(jobs: &[Job], number: u64) -> Option<usize>
    ensures { MatchOption result (job_in number jobs.now ≡ None) (IsPlaceOf jobs.now number) }
{
    if let Some(place) = if_at(jobs, number, 0) {
        return Some(place);
    }
    if let Some(place) = if_at(jobs, number, furthest(jobs, number)) {
        return Some(place);
    }
    searched(jobs, number)
}

/// This place, if the job of this number is there.
fn if_at(jobs: &[Job], number: u64, place: usize) -> Option<usize>
    ensures { IfSome result (IsPlaceOf jobs.now number) }
{
    if place < jobs.len() && jobs[place].standing().number == number {
        Some(place)
    } else {
        None
    }
}

/// The difference of this number and that of the first job: the job isn't at a later place than that.
fn furthest(jobs: &[Job], number: u64) -> usize {
    match jobs.first() {
        Some(first) => {
            let behind = number.saturating_sub(first.standing().number);
            usize::try_from(behind).unwrap_or(usize::MAX)
        }
        None => 0,
    }
}

/// The place of the job of this number; searches all places.
// A turn rarely calls it: as a function of its own it leaves only the first two places to each turn.
#[inline(never)]
fn searched(jobs: &[Job], number: u64) -> Option<usize>
    ensures { MatchOption result (job_in number jobs.now ≡ None) (IsPlaceOf jobs.now number) }
{
    for (place, job) in jobs.iter().enumerate() {
        if job.standing().number == number {
            return Some(place);
        }
    }
    None
}
