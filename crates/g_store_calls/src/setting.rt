//! Calls that replace a record: a user's budget, a file's name, a file's traps. Each makes one commit.
ghost use Rattle.std.specs.Prelude.{◌≡◌, ◌≤◌, ◌<◌, None, true, List, ℕ};
ghost use Rattle.g_disc_contents.specs.Facts.{IsTied};
ghost use Rattle.g_name.specs.declared.full.Full.{Full};
ghost use Rattle.g_name.specs.declared.path.Path.{Path};
ghost use Rattle.g_plain.specs.PlainTree as plain;
ghost use Rattle.g_plain.specs.declared.calls.StoreCall.TheVariants as call;
ghost use Rattle.g_plain.specs.Rules.{IsWithinLimits, most_of};
ghost use Rattle.g_trap.specs.TrapList.{IsOthers};
ghost use Rattle.g_tree.specs.Records.{ForTree};
ghost use Rattle.g_tree.specs.declared.asked.Granted.TheVariants as grant;
ghost use Rattle.g_store_calls.specs.ReplacedRecords.{IsBudgeted, IsRenamed, IsTrapped, budgeted};
ghost use Rattle.g_store_calls.specs.GrantedCalls.{AnswersGranted, GrantsOne};
ghost use Rattle.g_store_calls.specs.Kinds.{IsSettled};
ghost use Rattle.g_store_calls.specs.NewRecords.{GrantsFile, IsFileAt};
ghost use Rattle.g_store_calls.specs.Replies.{RefusesAs};

use crate::changing::{changed, replaced};
use crate::telling::number_of_user;
use g_disc::Disc;
use g_entry::{FileRec, UserRec};
use g_name::{Full, Local, User};
use g_online::{Change, Online};
use g_plain::{BudgetKind, StoreFault, StoreReply};
use g_retrieve::file_of;
use g_trap::{Modes, Traps};
use g_tree::Tree;
use std::alloc::Global;

/// The answer to `Budget`: one budget of a user below the caller is set, by one commit. `NoMemory`: nothing has changed.
/// `Stopped`: a write of the disc failed; the disc holds what it held, or that with the budget, and accepts no further
/// call.
pub(crate) fn budget<D: Disc>(
    alloc: Global,
    online: &mut Online<D>,
    user: &User,
    kind: BudgetKind,
    amount: u64,
) -> Result<StoreReply, StoreFault>
    requires live { online.old.live ≡ true }
    requires tied { IsTied online.old }
    requires limits { IsWithinLimits (call.Budget user.now kind amount) }
    requires granted { GrantsOne online.old grant.Nothing (call.Budget user.now kind amount) }
    ensures answers { AnswersGranted online.old grant.Nothing result online.new (call.Budget user.now kind amount) }
    ensures kind { IsSettled (call.Budget user.now kind amount) result }
{
    let rec = budgeted_user(online.tree(), user, kind, amount);
    changed(alloc, online, &Change::SetUser(rec), StoreReply::Done)
}

/// The record of an existing user, with another budget.
fn budgeted_user(tree: &Tree, user: &User, kind: BudgetKind, amount: u64) -> UserRec
    requires there { ForTree tree.now.users tree.now.files (λ t. plain.has_user t user.now ≡ true) }
    requires limits { IsWithinLimits (call.Budget user.now kind amount) }
    ensures { IsBudgeted tree.now.users tree.now.files user.now kind amount result }
{
    let Some(old) = tree.user(user) else {
        unreachable!()
    };
    with_budget(&old, kind, amount)
}

/// The record with this amount.
fn with_budget(user: &UserRec, kind: BudgetKind, amount: u64) -> UserRec
    requires { amount ≤ most_of kind }
    ensures { result ≡ budgeted user.now kind amount }
{
    match kind {
        BudgetKind::Space => UserRec {
            space: amount as u32,
            ..user.copy()
        },
        BudgetKind::Time => UserRec {
            time: amount,
            ..user.copy()
        },
        BudgetKind::Money => UserRec {
            money: amount,
            ..user.copy()
        },
    }
}

/// The answer to `Rename`: this file, which the path names, gets another local name, by one commit. `NoMemory`: nothing has
/// changed. `Stopped`: a write of the disc failed; the disc holds what it held, or that with the file renamed, and accepts
/// no further call.
pub(crate) fn rename<D: Disc>(
    online: &mut Online<D>,
    number: u16,
    full: Full,
    to: &Local,
) -> Result<StoreReply, StoreFault>
    requires live { online.old.live ≡ true }
    requires tied { IsTied online.old }
    requires granted { (path : Path) × GrantsOne online.old (grant.Input number full) (call.Rename path to.now) }
    ensures answers { (path : Path) → AnswersGranted online.old (grant.Input number full) result online.new (call.Rename path to.now) }
    ensures kind { (path : Path) → IsSettled (call.Rename path to.now) result }
{
    let mut name = full;
    let rec = renamed_file(online.tree(), number, &mut name, to);
    replaced(online, rec, StoreReply::Renamed(name))
}

/// The record of the file with another local name, which is also written into its full name. The call isn't refused.
fn renamed_file(tree: &Tree, number: u16, full: &mut Full, to: &Local) -> FileRec
    requires granted { (who : List ℕ) × (path : Path) × GrantsFile tree.now.users tree.now.files who (call.Rename path to.now) path number full.old }
    ensures { (who : List ℕ) (path : Path) → GrantsFile tree.now.users tree.now.files who (call.Rename path to.now) path number full.old
        → IsRenamed tree.now.users tree.now.files who path to.now result full.new }
{
    // The solver learns here that this is a name.
    let _word = to.as_slice();
    let mut rec = file_of(tree, number);
    rec.local = to.copy();
    full.local = to.copy();
    rec
}

/// The answer to `TrapGo`: this file, which the path names, opens modes to a user, by one commit. `NoMemory`: nothing has
/// changed. `Stopped`: a write of the disc failed; the disc holds what it held, or that with the modes opened, and accepts
/// no further call.
pub(crate) fn trap_go<D: Disc>(
    online: &mut Online<D>,
    number: u16,
    user: &User,
    modes: Modes,
) -> Result<StoreReply, StoreFault>
    requires live { online.old.live ≡ true }
    requires tied { IsTied online.old }
    requires granted { (path : Path) × (full : Full) × GrantsOne online.old (grant.Input number full) (call.TrapGo path user.now modes) }
    ensures answers { (path : Path) (full : Full) → AnswersGranted online.old (grant.Input number full) result online.new
        (call.TrapGo path user.now modes) }
    ensures kind { (path : Path) → IsSettled (call.TrapGo path user.now modes) result }
{
    let rec = opened_file(online.tree(), number, user, modes);
    replaced(online, rec, StoreReply::Done)
}

/// The record of the file with modes opened to a user. The call isn't refused.
fn opened_file(tree: &Tree, number: u16, user: &User, modes: Modes) -> FileRec
    requires granted { (who : List ℕ) × (path : Path) × (full : Full)
        × GrantsFile tree.now.users tree.now.files who (call.TrapGo path user.now modes) path number full }
    ensures { (who : List ℕ) (path : Path) (full : Full)
        → GrantsFile tree.now.users tree.now.files who (call.TrapGo path user.now modes) path number full
        → IsTrapped tree.now.users tree.now.files who path user.now (call.TrapGo path user.now modes) result }
{
    let old = file_of(tree, number);
    let user = number_of_user(tree, user);
    let mut traps = old.traps.copy();
    match traps.go(old.owner, user, modes) {
        Ok(()) => with_traps(old, traps),
        Err(_) => unreachable!(),
    }
}

/// The answer to `TrapStop`: this file, which the path names, closes modes to a user, by one commit. `NoMemory`: nothing
/// has changed. `Stopped`: a write of the disc failed; the disc holds what it held, or that with the modes closed, and
/// accepts no further call.
pub(crate) fn trap_stop<D: Disc>(
    online: &mut Online<D>,
    number: u16,
    user: &User,
    modes: Modes,
) -> Result<StoreReply, StoreFault>
    requires live { online.old.live ≡ true }
    requires tied { IsTied online.old }
    requires granted { (path : Path) × (full : Full) × GrantsOne online.old (grant.Input number full) (call.TrapStop path user.now modes) }
    ensures answers { (path : Path) (full : Full) → AnswersGranted online.old (grant.Input number full) result online.new
        (call.TrapStop path user.now modes) }
    ensures kind { (path : Path) → IsSettled (call.TrapStop path user.now modes) result }
{
    let rec = closed_file(online.tree(), number, user, modes);
    replaced(online, rec, StoreReply::Done)
}

/// The record of the file with modes closed to a user. The call isn't refused.
fn closed_file(tree: &Tree, number: u16, user: &User, modes: Modes) -> FileRec
    requires granted { (who : List ℕ) × (path : Path) × (full : Full)
        × GrantsFile tree.now.users tree.now.files who (call.TrapStop path user.now modes) path number full }
    ensures { (who : List ℕ) (path : Path) (full : Full)
        → GrantsFile tree.now.users tree.now.files who (call.TrapStop path user.now modes) path number full
        → IsTrapped tree.now.users tree.now.files who path user.now (call.TrapStop path user.now modes) result }
{
    let old = file_of(tree, number);
    let user = number_of_user(tree, user);
    let mut traps = old.traps.copy();
    traps.stop(old.owner, user, modes);
    with_traps(old, traps)
}

/// The record with other traps.
fn with_traps(file: FileRec, traps: Traps) -> FileRec
    ensures value { result ≡ record file { traps = traps } }
    ensures others { IsOthers traps.others }
    ensures owner { traps.owner < 32 }
{
    // The solver learns here that these are traps.
    let _others = traps.others();
    let _modes = traps.owner_modes().bits();
    FileRec { traps, ..file }
}
