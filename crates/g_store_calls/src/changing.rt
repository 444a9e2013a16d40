//! Calls that create a user or erase a file, each by one commit; and how a change of records is answered.
ghost use Rattle.std.specs.Prelude.{◌≡◌, ◌≤◌, None, true, ℕ};
ghost use Rattle.g_disc_contents.specs.Facts.{IsTied};
ghost use Rattle.g_name.specs.declared.path.Path.{Path};
ghost use Rattle.g_online.specs.AllowedChanges.{IsAllowed};
ghost use Rattle.g_online.specs.Change.{need_of};
ghost use Rattle.g_online.specs.Outcomes.{room_for};
ghost use Rattle.g_plain.specs.declared.calls.StoreCall.TheVariants as call;
ghost use Rattle.g_plain.specs.Rules.{IsWithinLimits};
ghost use Rattle.g_tree.specs.declared.asked.Granted.TheVariants as grant;
ghost use Rattle.g_store_calls.specs.Answering.{AnswersIn};
ghost use Rattle.g_store_calls.specs.AppliedChange.{HasAnswered, HasApplied};
ghost use Rattle.g_store_calls.specs.GrantedCalls.{AnswersGranted, Grants, GrantsOne};
ghost use Rattle.g_store_calls.specs.Kinds.{IsSettled};
ghost use Rattle.g_store_calls.specs.NewRecords.{IsNewUser};
ghost use Rattle.g_store_calls.specs.Replies.{RefusesAs};

use g_disc::Disc;
use g_entry::{FileRec, UserRec};
use g_name::{Full, User};
use g_online::{Change, Online};
use g_plain::{StoreFault, StoreReply};
use g_tree::Tree;
use std::alloc::Global;

/// The answer to `NewUser`: a user below the caller is created, by one commit. `NoMemory`: nothing has changed. `Stopped`:
/// a write of the disc failed; the disc holds what it held, or that with the new user, and accepts no further call.
pub(crate) fn new_user<D: Disc>(
    alloc: Global,
    online: &mut Online<D>,
    who: &User,
    user: &User,
    space: u32,
    time: u64,
    money: u64,
) -> Result<StoreReply, StoreFault>
    requires live { online.old.live ≡ true }
    requires tied { IsTied online.old }
    requires limits { IsWithinLimits (call.NewUser user.now space time money) }
    requires granted { Grants online.old who.now (call.NewUser user.now space time money) grant.Nothing }
    ensures answers { AnswersIn who.now (call.NewUser user.now space time money) online.old result online.new }
    ensures kind { IsSettled (call.NewUser user.now space time money) result }
{
    let made = made_user(online.tree(), who, user, space, time, money);
    changed(alloc, online, &Change::AddUser(made), StoreReply::Done)
}

/// The record of a user below the caller, added after the others. The call isn't refused.
fn made_user(tree: &Tree, who: &User, user: &User, space: u32, time: u64, money: u64) -> UserRec
    requires granted { (next : ℕ) × RefusesAs tree.now.users tree.now.files next who.now (call.NewUser user.now space time money) None }
    requires limits { IsWithinLimits (call.NewUser user.now space time money) }
    ensures { IsNewUser tree.now.users tree.now.files who.now user.now space time money result }
{
    // The solver learns here that this is a name.
    let _word = user.as_slice();
    let number = tree.users().len() as u8;
    let Some(superior) = tree.user_number(who) else {
        unreachable!()
    };
    UserRec {
        number,
        user: user.copy(),
        superior,
        space,
        time,
        money,
    }
}

/// The answer to `Erase`: this file, which the path names, is erased by one commit. `NoMemory`: nothing has changed.
/// `Stopped`: a write of the disc failed; the disc holds what it held, or that without the file, and accepts no further
/// call.
pub(crate) fn erase<D: Disc>(
    online: &mut Online<D>,
    number: u16,
    full: Full,
) -> Result<StoreReply, StoreFault>
    requires live { online.old.live ≡ true }
    requires tied { IsTied online.old }
    requires granted { (path : Path) × GrantsOne online.old (grant.Input number full) (call.Erase path) }
    ensures answers { (path : Path) → AnswersGranted online.old (grant.Input number full) result online.new (call.Erase path) }
    ensures kind { (path : Path) → IsSettled (call.Erase path) result }
{
    match drop_record(online, number) {
        Ok(()) => Ok(StoreReply::Erased(full)),
        Err(fault) => Err(fault),
    }
}

/// Removes the file of this number. `Stopped`.
fn drop_record<D: Disc>(online: &mut Online<D>, number: u16) -> Result<(), StoreFault>
    requires allowed { IsAllowed (Change.EraseFile number) online.old }
    ensures { HasApplied (Change.EraseFile number) online.old online.new result }
{
    match online.erase_file(number) {
        Ok(()) => Ok(()),
        Err(fault) => Err(StoreFault::from(fault)),
    }
}

/// Makes the change, which needs no blocks, and returns this reply if it was made. `Stopped`, `NoMemory`.
pub(crate) fn changed<D: Disc>(
    alloc: Global,
    online: &mut Online<D>,
    change: &Change,
    reply: StoreReply,
) -> Result<StoreReply, StoreFault>
    requires allowed { IsAllowed change.now online.old }
    requires bare { need_of change.now ≡ 0 }
    ensures { HasAnswered change.now reply online.old online.new result }
{
    match applied(alloc, online, change) {
        Ok(()) => Ok(reply),
        Err(fault) => Err(fault),
    }
}

/// Replaces the record of the same number, and returns this reply if that was done. `Stopped`, `NoMemory`.
pub(crate) fn replaced<D: Disc>(
    online: &mut Online<D>,
    rec: FileRec,
    reply: StoreReply,
) -> Result<StoreReply, StoreFault>
    requires allowed { IsAllowed (Change.SetFile rec) online.old }
    ensures { HasAnswered (Change.SetFile rec) reply online.old online.new result }
{
    match put_record(online, rec) {
        Ok(()) => Ok(reply),
        Err(fault) => Err(fault),
    }
}

/// Replaces the record of the same number. `Stopped`, `NoMemory`.
fn put_record<D: Disc>(online: &mut Online<D>, rec: FileRec) -> Result<(), StoreFault>
    requires allowed { IsAllowed (Change.SetFile rec) online.old }
    ensures { HasApplied (Change.SetFile rec) online.old online.new result }
{
    match online.set_file(rec) {
        Ok(()) => Ok(()),
        Err(fault) => Err(StoreFault::from(fault)),
    }
}

/// Makes the change, for which there is room. `Stopped`, `NoMemory`.
fn applied<D: Disc>(
    alloc: Global,
    online: &mut Online<D>,
    change: &Change,
) -> Result<(), StoreFault>
    requires allowed { IsAllowed change.now online.old }
    requires roomy { need_of change.now ≤ room_for change.now online.old }
    ensures { HasApplied change.now online.old online.new result }
{
    match online.apply(alloc, change) {
        Ok(()) => Ok(()),
        Err(fault) => Err(StoreFault::from(fault)),
    }
}
