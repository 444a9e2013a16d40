//! The full names that callers and paths give to files, and what the types of names guarantee.
ghost use Rattle.std.specs.Prelude.{◌≡◌, true, IfSome};
ghost use Rattle.g_name.specs.Grammar.{is_word, is_lang};
ghost use Rattle.g_name.specs.Names.{IsName, path_name};
ghost use Rattle.g_plain.specs.PlainTree as tree;
ghost use Rattle.g_plain.specs.Rules.{IsNamed};

use crate::StoreCall;
use g_name::{Full, Lang, Local, Path, User};

/// A full name, and the number of the file that has it. The number comes from the implementation of `Questions`, which
/// identifies the file by it.
#[derive(Drop)]
pub struct NamedFile {
    pub full: Full,
    /// `None` if no file has the name.
    pub number: Option<u16>,
}

/// The full name of a path with a generation. An absent user means the caller, and an absent language four spaces.
pub fn named(who: &User, path: &Path, generation: u16) -> Full
    ensures { result ≡ tree.named who.now path.now generation }
{
    let lang = match &path.lang {
        Some(lang) => lang.copy(),
        None => Lang::spaces(),
    };
    Full {
        user: owner_of(who, path),
        local: path.local.copy(),
        generation,
        lang,
    }
}

/// The owner of the file that a path names.
fn owner_of(who: &User, path: &Path) -> User
    ensures { result ≡ tree.owner_of who.now path.now }
{
    match &path.user {
        Some(user) => user.copy(),
        None => who.copy(),
    }
}

/// The full name, with another local name.
pub fn with_local(full: &Full, local: &Local) -> Full
    ensures { result ≡ record full.now { local = local.now } }
{
    Full {
        user: full.user.copy(),
        local: local.copy(),
        generation: full.generation,
        lang: full.lang.copy(),
    }
}

/// The names and modes in a call are valid by their types. This call exists so that its contract states it.
pub fn call_is_named(call: &StoreCall)
    ensures { IsNamed call.now }
{
    match call {
        StoreCall::NewUser { user, .. } => user_is_named(user),
        StoreCall::Put { path, .. } => path_is_named(path),
        StoreCall::Rename { to, .. } => local_is_named(to),
        StoreCall::TrapGo { modes, .. } => {
            let _bits = modes.bits();
        }
        _ => {}
    }
}

fn path_is_named(path: &Path)
    ensures { IsName (path_name path.now) }
{
    owner_is_named(&path.user);
    local_is_named(&path.local);
    lang_is_named(&path.lang);
}

fn user_is_named(user: &User)
    ensures { is_word user.now ≡ true }
{
    let _word = user.as_slice();
}

fn local_is_named(local: &Local)
    ensures { is_word local.now ≡ true }
{
    let _word = local.as_slice();
}

fn owner_is_named(owner: &Option<User>)
    ensures { IfSome owner.now (λ user. is_word user ≡ true) }
{
    if let Some(user) = owner {
        user_is_named(user);
    }
}

fn lang_is_named(lang: &Option<Lang>)
    ensures { IfSome lang.now (λ l. is_lang l ≡ true) }
{
    if let Some(lang) = lang {
        let _characters = lang.as_slice();
    }
}
