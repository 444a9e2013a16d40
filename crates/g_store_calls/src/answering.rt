//! Any call of a job. It is checked once whether the call is refused, and which file its path names. Then the call is
//! dispatched, once.
ghost use Rattle.std.specs.Prelude.{◌≡◌, IfErr, IfOk, Some, true};
ghost use Rattle.g_disc_contents.specs.Contents.{recs_in};
ghost use Rattle.g_disc_contents.specs.Facts.{IsTied};
ghost use Rattle.g_plain.specs.Rules.{IsWithinLimits};
ghost use Rattle.g_tape.specs.Rack.{Rack};
ghost use Rattle.g_store_calls.specs.Answering.{AnswersIn, AnswersOver};
ghost use Rattle.g_store_calls.specs.GrantedCalls.{AnswersGrantedOver, Grants, GrantsOne, names_input, names_none, names_output};
ghost use Rattle.g_store_calls.specs.Kinds.{IsKind, IsSettled};
ghost use Rattle.g_store_calls.specs.Replies.{RefusesAs};

use crate::appending::append;
use crate::changing::{erase, new_user};
use crate::fetching::{fetch, retrieve};
use crate::putting::put;
use crate::setting::{budget, rename, trap_go, trap_stop};
use crate::telling::{list, trap_check};
use g_disc::Disc;
use g_known::KnownReels;
use g_name::{Full, User};
use g_online::Online;
use g_plain::{StoreCall, StoreFault, StoreReply};
use g_tape::Tapes;
use g_tree::{Granted, refusal_of};
use std::alloc::Global;

/// The answer to any call of a job, for any store that the filestore belongs to: first the refusals by users and files, in
/// their order (docs/DEFINITIONS.md), then those of the call's own function, whose comment says what each leaves.
pub fn answer<D: Disc, T: Tapes>(
    alloc: Global,
    online: &mut Online<D>,
    tapes: &mut KnownReels<T>,
    who: &User,
    call: &StoreCall,
) -> Result<StoreReply, StoreFault>
    requires live { online.old.live ≡ true }
    requires tied { IsTied online.old }
    requires limits { IsWithinLimits call.now }
    ensures answers { AnswersOver who.now call.now online.old (T.rack tapes.old) result online.new (T.rack tapes.new) }
    ensures kind { IsKind call.now (T.rack tapes.old) result }
{
    match granted_here(online, who, call) {
        Ok(Granted::Nothing) => without_file(alloc, online, who, call),
        Ok(Granted::Input { number, full }) => of_file(alloc, online, tapes, call, number, full),
        Ok(Granted::Output { number, full }) => for_output(alloc, online, call, number, full),
        Err(fault) => Err(fault),
    }
}

/// What the call is granted, or why it is refused by users and files.
fn granted_here<D: Disc>(
    online: &Online<D>,
    who: &User,
    call: &StoreCall,
) -> Result<Granted, StoreFault>
    requires { online.now.live ≡ true }
    ensures refused { IfErr result (λ fault. RefusesAs online.now.contents.users (recs_in online.now.contents)
        online.now.contents.head.next_stamp who.now call.now (Some fault)) }
    ensures granted { IfOk result (Grants online.now who.now call.now) }
{
    refusal_of(online.tree(), online.head().next_stamp, who, call)
}

/// The answer to a call that names no file, and isn't refused.
fn without_file<D: Disc>(
    alloc: Global,
    online: &mut Online<D>,
    who: &User,
    call: &StoreCall,
) -> Result<StoreReply, StoreFault>
    requires live { online.old.live ≡ true }
    requires tied { IsTied online.old }
    requires limits { IsWithinLimits call.now }
    requires named { names_none call.now ≡ true }
    requires granted { Grants online.old who.now call.now Granted.Nothing }
    ensures answers { AnswersIn who.now call.now online.old result online.new }
    ensures kind { IsSettled call.now result }
{
    match call {
        StoreCall::NewUser {
            user,
            space,
            time,
            money,
        } => new_user(alloc, online, who, user, *space, *time, *money),
        StoreCall::Budget { user, kind, amount } => budget(alloc, online, user, *kind, *amount),
        StoreCall::List { user } => list(alloc, online, user),
        _ => unreachable!(),
    }
}

/// The answer to a call that names this file for input, and isn't refused.
fn of_file<D: Disc, T: Tapes>(
    alloc: Global,
    online: &mut Online<D>,
    tapes: &mut KnownReels<T>,
    call: &StoreCall,
    number: u16,
    full: Full,
) -> Result<StoreReply, StoreFault>
    requires live { online.old.live ≡ true }
    requires tied { IsTied online.old }
    requires named { names_input call.now ≡ true }
    requires granted { GrantsOne online.old (Granted.Input number full) call.now }
    ensures answers { AnswersGrantedOver online.old (T.rack tapes.old) (Granted.Input number full) result
        online.new (T.rack tapes.new) call.now }
    ensures kind { IsKind call.now (T.rack tapes.old) result }
{
    match call {
        StoreCall::Append { bytes, .. } => append(alloc, online, tapes, number, full, bytes),
        StoreCall::Fetch { .. } => fetch(alloc, online, tapes, number, full),
        StoreCall::Erase { .. } => erase(online, number, full),
        StoreCall::Rename { to, .. } => rename(online, number, full, to),
        StoreCall::TrapGo { user, modes, .. } => trap_go(online, number, user, *modes),
        StoreCall::TrapStop { user, modes, .. } => trap_stop(online, number, user, *modes),
        StoreCall::TrapCheck { user, .. } => trap_check(online, number, user),
        StoreCall::Retrieve { .. } => retrieve(alloc, online, tapes, number, full),
        _ => unreachable!(),
    }
}

/// The answer to a call that names this file for output, and isn't refused.
fn for_output<D: Disc>(
    alloc: Global,
    online: &mut Online<D>,
    call: &StoreCall,
    number: Option<u16>,
    full: Full,
) -> Result<StoreReply, StoreFault>
    requires live { online.old.live ≡ true }
    requires tied { IsTied online.old }
    requires named { names_output call.now ≡ true }
    requires granted { GrantsOne online.old (Granted.Output number full) call.now }
    ensures answers { (rack : Rack) → AnswersGrantedOver online.old rack (Granted.Output number full) result
        online.new rack call.now }
    ensures kind { IsSettled call.now result }
{
    match call {
        StoreCall::Put { bytes, .. } => put(alloc, online, number, full, bytes),
        _ => unreachable!(),
    }
}
