//! The accounts of users.
ghost use Rattle.std.specs.Prelude.{◌≡◌, ◌++◌, List, MatchOption, None, OnOk, is_some, unwrap_or};
ghost use Rattle.g_job_table.specs.Accounts.{charged, kept_for};
ghost use Rattle.g_job_table.specs.Keeping.{IsLeft, IsPlaceFor, Opens, empty_for, less_held};
ghost use Rattle.g_name.specs.Order.{same_text};

use g_base::NoMemory;
use g_entry::UserRec;
use g_job::Job;
use g_name::User;

/// What a user's ended jobs have left of the user's TIME, in units, and of the user's MONEY, since the system came up. The allowances of unfinished
/// jobs aren't subtracted.
#[derive(Drop)]
pub struct Account {
    pub user: User,
    pub time: u64,
    pub money: u64,
}

/// The place of a user's account.
pub(crate) fn place_for(accounts: &[Account], user: &User) -> Option<usize>
    ensures { MatchOption result (kept_for accounts.now user.now ≡ None)
        (IsPlaceFor accounts.now user.now) }
{
    for (place, account) in accounts.iter().enumerate() {
        if same_user(&account.user, user) {
            return Some(place);
        }
    }
    None
}

/// Whether the user has an account. Checks this place first, where it usually is.
fn has_account(accounts: &[Account], place: usize, user: &User) -> bool
    ensures { result ≡ is_some (kept_for accounts.now user.now) }
{
    if place < accounts.len() && same_user(&accounts[place].user, user) {
        return true;
    }
    place_for(accounts, user).is_some()
}

/// Opens an account for each of these users who has none, with the present budgets. If memory runs out, some of them may be open.
pub(crate) fn open_each(accounts: &mut Vec<Account>, users: &[UserRec]) -> Result<(), NoMemory>
    ensures ok { OnOk result (Opens accounts.old.items users.now accounts.new.items) }
    ensures front { (more : List Account) × (accounts.new.items ≡ accounts.old.items ++ more) }
{
    for (place, user) in users.iter().enumerate() {
        if !has_account(accounts, place, &user.user) {
            accounts.push(Account {
                user: user.user.copy(),
                time: user.time,
                money: user.money,
            })?;
        }
    }
    Ok(())
}

/// Takes what an ended job has used from its user's account.
pub(crate) fn charge(accounts: &mut [Account], job: &Job)
    ensures { accounts.new ≡ charged job.now accounts.old }
{
    if let Some(place) = place_for(accounts, job.user()) {
        let used = job.standing().used;
        let account = &mut accounts[place];
        account.time = account.time.saturating_sub(used);
        account.money = account.money.saturating_sub(job.used_money());
    }
}

/// The user's account, or an empty one.
fn account_for(accounts: &[Account], user: &User) -> Account
    ensures { result ≡ unwrap_or (kept_for accounts.now user.now) (empty_for user.now) }
{
    match place_for(accounts, user) {
        Some(place) => Account {
            user: user.copy(),
            time: accounts[place].time,
            money: accounts[place].money,
        },
        None => Account {
            user: user.copy(),
            time: 0,
            money: 0,
        },
    }
}

/// What is left while this job holds its allowances, if it is the user's.
fn less_held(left: Account, job: &Job, user: &User) -> Account
    ensures { result ≡ less_held user.now job.now left }
{
    if same_user(job.user(), user) {
        Account {
            user: left.user,
            time: left.time.saturating_sub(job.standing().allowance),
            money: left.money.saturating_sub(job.money()),
        }
    } else {
        left
    }
}

/// What a user has left while these jobs are unfinished and hold their allowances. A user without an account has nothing.
pub(crate) fn left_for(accounts: &[Account], jobs: &[Job], user: &User) -> Account
    ensures { IsLeft accounts.now jobs.now user.now result }
{
    let mut left = account_for(accounts, user);
    for job in jobs {
        left = less_held(left, job, user);
    }
    left
}

/// Whether both names are the same.
fn same_user(one: &User, other: &User) -> bool
    ensures { result ≡ same_text one.now other.now }
{
    one == other
}
