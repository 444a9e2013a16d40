//! Calls of users to a store.
ghost use Rattle.std.specs.Prelude.{◌≡◌, IfOk, false};
ghost use Rattle.g_plain.specs.Rules.{IsWithinLimits};

use crate::events::{Answer, Ask, OnFile, Trapping};
use g_name::{Local, Path, Text, User, parse_path};
use g_plain::{BudgetKind, Filestore, StoreCall, StoreFault, StoreReply};
use g_trap::{Mode, Modes};
use std::alloc::Global;

/// The outcome of a call.
pub(crate) fn asked<S: Filestore>(
    alloc: Global,
    store: &mut S,
    who: &str,
    ask: &Ask,
) -> Result<Answer, StoreFault>
    requires running { S.is_spent store.old ≡ false }
{
    let who = user(who)?;
    let call = call_of(alloc, ask)?;
    match store.call(alloc, &who, &call) {
        Ok(reply) => Ok(told(&reply)),
        Err(fault) => Err(fault),
    }
}

fn user(name: &str) -> Result<User, StoreFault> {
    match User::new(name.as_bytes()) {
        Some(user) => Ok(user),
        None => Err(StoreFault::NoUser),
    }
}

fn path(path: &str) -> Result<Path, StoreFault> {
    match parse_path(path.as_bytes()) {
        Ok(path) => Ok(path),
        Err(_) => Err(StoreFault::NoFile),
    }
}

fn text(alloc: Global, letter: u8, len: usize) -> Result<Text, StoreFault> {
    let letters = vec![in alloc; letter; len]?;
    Ok(Text::from(letters))
}

fn call_of(alloc: Global, ask: &Ask) -> Result<StoreCall, StoreFault>
    ensures { IfOk result IsWithinLimits }
{
    match ask {
        Ask::NewUser(name, space) => new_user(name, *space),
        Ask::Budget(name, amount) => budget(name, *amount),
        Ask::List(name) => Ok(StoreCall::List { user: user(name)? }),
        Ask::OnFile(name, what) => on_file(alloc, path(name)?, what),
    }
}

/// The call on a file.
fn on_file(alloc: Global, path: Path, what: &OnFile) -> Result<StoreCall, StoreFault>
    ensures { IfOk result IsWithinLimits }
{
    match what {
        OnFile::Put(letter, len) => {
            let bytes = text(alloc, *letter, *len)?;
            Ok(StoreCall::Put { path, bytes })
        }
        OnFile::Append(letter, len) => {
            let bytes = text(alloc, *letter, *len)?;
            Ok(StoreCall::Append { path, bytes })
        }
        OnFile::Fetch => Ok(StoreCall::Fetch {
            path,
            mode: Mode::Read,
        }),
        OnFile::Retrieve => Ok(StoreCall::Retrieve { path }),
        OnFile::Erase => Ok(StoreCall::Erase { path }),
        OnFile::Rename(to) => renamed(path, to),
        OnFile::Trap(how, about, bits) => trapped(*how, path, user(about)?, *bits),
    }
}

fn renamed(path: Path, to: &str) -> Result<StoreCall, StoreFault>
    ensures { IfOk result IsWithinLimits }
{
    match Local::new(to.as_bytes()) {
        Some(to) => Ok(StoreCall::Rename { path, to }),
        None => Err(StoreFault::NoFile),
    }
}

fn trapped(how: Trapping, path: Path, user: User, bits: u8) -> Result<StoreCall, StoreFault>
    ensures { IfOk result IsWithinLimits }
{
    let Some(modes) = Modes::from_bits(bits) else {
        return Err(StoreFault::NoFile);
    };
    match how {
        Trapping::Go => Ok(StoreCall::TrapGo { path, user, modes }),
        Trapping::Stop => Ok(StoreCall::TrapStop { path, user, modes }),
        Trapping::Check => Ok(StoreCall::TrapCheck { path, user }),
    }
}

fn new_user(name: &str, space: u16) -> Result<StoreCall, StoreFault>
    ensures { IfOk result IsWithinLimits }
{
    Ok(StoreCall::NewUser {
        user: user(name)?,
        space: u32::from(space),
        time: 0,
        money: 0,
    })
}

fn budget(name: &str, amount: u16) -> Result<StoreCall, StoreFault>
    ensures { IfOk result IsWithinLimits }
{
    Ok(StoreCall::Budget {
        user: user(name)?,
        kind: BudgetKind::Money,
        amount: u64::from(amount),
    })
}

/// The answer that a row expects for a reply.
fn told(reply: &StoreReply) -> Answer {
    match reply {
        StoreReply::Bytes { bytes, .. } => {
            let bytes = bytes.as_slice();
            match bytes.last() {
                Some(last) => Answer::Bytes(bytes.len(), char::from(*last)),
                None => Answer::Bytes(0, '\0'),
            }
        }
        StoreReply::Listing(listing) => Answer::Files(listing.rows().len()),
        StoreReply::Modes(modes) => Answer::Modes(modes.bits()),
        _ => Answer::Done,
    }
}
