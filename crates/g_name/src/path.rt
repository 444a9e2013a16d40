//! Paths: the names of files as commands write them.
ghost use Rattle.std.specs.Prelude.{◌≡◌, ◌≤◌, IfSome};
ghost use Rattle.std.proofs.Props.{props};

use crate::{Lang, Local, User};

/// A file as a command names it: `:USER.NAME(generation/LANG)`. Every part but the local name may be absent.
///
/// An absent user means the caller, and an absent language four spaces. An absent generation means the greatest existing one for input, and one more than
/// that for output.
#[derive(Drop, PartialEq, Eq)]
pub struct Path {
    pub user: Option<User>,
    pub local: Local,
    /// 1 to 4,095.
    pub generation: Option<u16>,
    pub lang: Option<Lang>,
    pub ghost in_range: { IfSome generation (λ g. (1 ≤ g) × (g ≤ 4095)) } by { Prim.hlevel props },
}

impl Path {
    /// A copy of the path. It allocates nothing.
    pub fn copy(&self) -> Path
        ensures { result ≡ self.now }
    {
        Path {
            user: copy_of_user(&self.user),
            local: self.local.copy(),
            generation: self.generation,
            lang: copy_of_lang(&self.lang),
        }
    }
}

fn copy_of_user(user: &Option<User>) -> Option<User>
    ensures { result ≡ user.now }
{
    match user {
        Some(user) => Some(user.copy()),
        None => None,
    }
}

fn copy_of_lang(lang: &Option<Lang>) -> Option<Lang>
    ensures { result ≡ lang.now }
{
    match lang {
        Some(lang) => Some(lang.copy()),
        None => None,
    }
}
