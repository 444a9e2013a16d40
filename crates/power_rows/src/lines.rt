//! The lines of a row: an event in words, and what it says.
ghost use Rattle.std.specs.Prelude.{IfOk, IfSome};
ghost use Rattle.g_plain.specs.Rules.{IsWithinLimits};

use g_name::{Local, Path, Text, User, parse_path};
use g_plain::{BudgetKind, Filestore, StoreCall, StoreFault, StoreReply};
use g_trap::{Mode, Modes};
use std::alloc::Global;

/// What an event says if it isn't refused.
#[derive(Clone, Copy)]
pub(crate) enum Said {
    Done,
    /// A dump of this number was opened.
    Opened(u64),
    /// A dump of this number was completed, adopted or restored.
    Completed(u64),
}

/// What happened to an event.
pub(crate) type Outcome = Result<Said, StoreFault>;

/// The words of a line, empty if there are fewer.
#[derive(Clone, Copy)]
pub(crate) struct Words<'a> {
    pub(crate) verb: &'a str,
    pub(crate) first: &'a str,
    pub(crate) second: &'a str,
    pub(crate) third: &'a str,
}

impl<'a> Words<'a> {
    pub(crate) fn of(line: &'a str) -> Words<'a> {
        let mut words = line.split(' ');
        Words {
            verb: words.next().unwrap_or(""),
            first: words.next().unwrap_or(""),
            second: words.next().unwrap_or(""),
            third: words.next().unwrap_or(""),
        }
    }
}

/// The reply to a call of MASTER; `Stopped` if the store is spent.
pub(crate) fn ask<S: Filestore>(
    alloc: Global,
    store: &mut S,
    call: &StoreCall,
) -> Result<StoreReply, StoreFault>
    requires limits { IsWithinLimits call.now }
{
    if store.spent() {
        return Err(StoreFault::Stopped);
    }
    store.call(alloc, &User::master(), call)
}

fn user(name: &str) -> Result<User, StoreFault> {
    match User::new(name.as_bytes()) {
        Some(user) => Ok(user),
        None => Err(StoreFault::NoUser),
    }
}

fn path(path: &str) -> Result<Path, StoreFault> {
    match parse_path(path.as_bytes()) {
        Ok(path) => Ok(path),
        Err(_) => Err(StoreFault::NoFile),
    }
}

/// Bytes of this many letters, by the words `letter len`.
fn text(alloc: Global, letter: &str, len: &str) -> Result<Text, StoreFault> {
    let Ok(len) = len.parse() else {
        return Err(StoreFault::NoFile);
    };
    let mut bytes = Text::new(alloc);
    for _ in 0..len {
        bytes.extend(letter.as_bytes())?;
    }
    Ok(bytes)
}

/// The call of a line, or none if it isn't one.
pub(crate) fn call_of(alloc: Global, words: &Words) -> Result<Option<StoreCall>, StoreFault>
    ensures { IfOk result (λ call. IfSome call IsWithinLimits) }
{
    if words.verb == "put" {
        let bytes = text(alloc, words.second, words.third)?;
        Ok(Some(StoreCall::Put {
            path: path(words.first)?,
            bytes,
        }))
    } else if words.verb == "append" {
        let bytes = text(alloc, words.second, words.third)?;
        Ok(Some(StoreCall::Append {
            path: path(words.first)?,
            bytes,
        }))
    } else if words.verb == "fetch" {
        Ok(Some(fetch_call(words.first)?))
    } else if words.verb == "retrieve" {
        Ok(Some(StoreCall::Retrieve {
            path: path(words.first)?,
        }))
    } else if words.verb == "erase" {
        Ok(Some(StoreCall::Erase {
            path: path(words.first)?,
        }))
    } else {
        other_call(words)
    }
}

fn other_call(words: &Words) -> Result<Option<StoreCall>, StoreFault>
    ensures { IfOk result (λ call. IfSome call IsWithinLimits) }
{
    if words.verb == "rename" {
        let Some(to) = Local::new(words.second.as_bytes()) else {
            return Err(StoreFault::NoFile);
        };
        let path = path(words.first)?;
        Ok(Some(StoreCall::Rename { path, to }))
    } else if words.verb == "new_user" || words.verb == "budget" {
        Ok(Some(user_call(words.verb, user(words.first)?)))
    } else if words.verb == "let_in" || words.verb == "keep_out" {
        let path = path(words.first)?;
        let user = user(words.second)?;
        Ok(Some(trap_call(words.verb, path, user, modes()?)))
    } else {
        Ok(None)
    }
}

/// A call about a user.
fn user_call(verb: &str, user: User) -> StoreCall
    ensures { IsWithinLimits result }
{
    if verb == "new_user" {
        StoreCall::NewUser {
            user,
            space: 100,
            time: 0,
            money: 0,
        }
    } else {
        StoreCall::Budget {
            user,
            kind: BudgetKind::Space,
            amount: 7,
        }
    }
}

/// A call that opens a file to a user, or closes it.
fn trap_call(verb: &str, path: Path, user: User, modes: Modes) -> StoreCall
    ensures { IsWithinLimits result }
{
    if verb == "let_in" {
        StoreCall::TrapGo { path, user, modes }
    } else {
        StoreCall::TrapStop { path, user, modes }
    }
}

/// The modes that a user gets or loses.
fn modes() -> Result<Modes, StoreFault> {
    match Modes::from_bits(5) {
        Some(modes) => Ok(modes),
        None => Err(StoreFault::NoFile),
    }
}

/// The call that reads a file.
pub(crate) fn fetch_call(name: &str) -> Result<StoreCall, StoreFault>
    ensures { IfOk result IsWithinLimits }
{
    Ok(StoreCall::Fetch {
        path: path(name)?,
        mode: Mode::Read,
    })
}

/// The call that lists a user's files.
pub(crate) fn list_call(name: &str) -> Result<StoreCall, StoreFault>
    ensures { IfOk result IsWithinLimits }
{
    Ok(StoreCall::List { user: user(name)? })
}

/// The call that asks for a user's modes.
pub(crate) fn check_call(name: &str, about: &str) -> Result<StoreCall, StoreFault>
    ensures { IfOk result IsWithinLimits }
{
    Ok(StoreCall::TrapCheck {
        path: path(name)?,
        user: user(about)?,
    })
}
