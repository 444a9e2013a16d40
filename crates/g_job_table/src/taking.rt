//! The refusals of a job.
ghost use Rattle.std.specs.Prelude.{◌≡◌, ◌<◌, ◌++◌, ℕ, OnOk, length};
ghost use Rattle.g_job_table.specs.Taking.{IsPrinted, RefusesAsIn, RoomAsIn, printed, refusal_line};

use crate::account::{Account, left_for};
use crate::choice::MOST_JOBS;
use g_base::NoMemory;
use g_job::{Job, NewJob};
use g_monitor::push_numbers;
use g_name::{Text, User};
use std::alloc::Global;
use thiserror::Error;

/// Why a job isn't taken in. Nothing changes then.
#[derive(Clone, Copy, Debug, PartialEq, Eq, Error)]
pub enum NotTaken {
    /// There is no such user.
    #[error("no such user")]
    NoUser,
    /// 64 jobs are unfinished.
    #[error("64 jobs are unfinished")]
    JobsFull,
    /// More TIME is requested than the user has left. Both are units of TIME.
    #[error("{ask} units of TIME are needed and {left} are left")]
    NoTime { ask: u64, left: u64 },
    /// More MONEY is requested than the user has left.
    #[error("{ask} units of MONEY are needed and {left} are left")]
    NoMoney { ask: u64, left: u64 },
    /// Memory ran out; the job would have been taken in.
    #[error("out of memory")]
    NoMemory,
}

/// The first reason, in this order, not to take the job in.
pub(crate) fn refusal(
    accounts: &[Account],
    jobs: &[Job],
    known: bool,
    job: &NewJob,
) -> Result<(), NotTaken>
    ensures refusal { (next : ℕ) → RefusesAsIn (record { jobs = jobs.now; accounts = accounts.now; next_job = next })
        known job.now.user job.now.time job.now.money (printed result) }
    ensures few { OnOk result (length jobs.now < 64) }
{
    if !known {
        return Err(NotTaken::NoUser);
    }
    room_refusal(accounts, jobs, &job.user, job.time, job.money)
}

/// The first reason, in this order, for which there is no room for a job with this user, TIME and MONEY.
pub(crate) fn room_refusal(
    accounts: &[Account],
    jobs: &[Job],
    user: &User,
    time: u64,
    money: u64,
) -> Result<(), NotTaken>
    ensures refusal { (next : ℕ) → RoomAsIn (record { jobs = jobs.now; accounts = accounts.now; next_job = next })
        user.now time money (printed result) }
    ensures few { OnOk result (length jobs.now < 64) }
{
    if jobs.len() >= MOST_JOBS {
        return Err(NotTaken::JobsFull);
    }
    let left = left_for(accounts, jobs, user);
    if left.time < time {
        return Err(NotTaken::NoTime {
            ask: time,
            left: left.time,
        });
    }
    if left.money < money {
        return Err(NotTaken::NoMoney {
            ask: money,
            left: left.money,
        });
    }
    Ok(())
}

/// Appends number and text of a refusal, without a byte 10 (`docs/MANUAL.md`, "Texts of jobs and refusals"). If memory runs out, a prefix of it may
/// have been appended.
pub fn push_refusal(text: &mut Text, why: NotTaken) -> Result<(), NoMemory>
    requires { IsPrinted why }
    ensures { OnOk result (text.new ≡ text.old ++ refusal_line why) }
{
    match why {
        NotTaken::NoUser => text.extend(b"1 NO USER"),
        NotTaken::JobsFull => text.extend(b"41 JOBS FULL"),
        NotTaken::NoTime { ask, left } => push_numbers(text, b"40 NO TIME ", ask, left),
        NotTaken::NoMoney { ask, left } => push_numbers(text, b"42 NO MONEY ", ask, left),
        NotTaken::NoMemory => unreachable!(),
    }
}
