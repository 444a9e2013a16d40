//! A file is taken off the disc.
ghost use Rattle.std.specs.Prelude.{◌≡◌, false, IfErr, IfOk, Some};
ghost use Rattle.g_tree.specs.Records.{ForTree};
ghost use Rattle.g_store.specs.Events.{Migrates};
ghost use Rattle.g_store.specs.Naming.{IsNamedFile, named_answer, naming_refuses, stops};

use crate::store::Store;
use g_disc::Disc;
use g_migrate::migrate;
use g_name::{Full, Path};
use g_plain::StoreFault;
use g_tape::Tapes;
use g_tree::Tree;
use std::alloc::Global;

impl<D: Disc, T: Tapes> Store<D, T> {
    /// Takes the file that the operator's path names off the disc, by one commit (docs/DEFINITIONS.md); then its bytes are
    /// only on tape. `NoUser`: the path names no user, or one who doesn't exist. `NoFile`. `Offline`: the file isn't on the
    /// disc. `NotDumped`: no tape has a copy of it, which is always so for an empty file. After these and `NoMemory`
    /// everything is unchanged. `Stopped`: a write of the disc failed.
    pub fn migrate(&mut self, alloc: Global, path: &Path) -> Result<Full, StoreFault>
        requires running { self.old.spent ≡ false }
        ensures { Migrates path.now self.old result self.new }
    {
        let (number, full) = match file_named(self.online.tree(), path) {
            Ok(found) => found,
            Err(fault) => return Err(fault),
        };
        let answer = migrate(alloc, &mut self.online, number);
        self.spent = is_stop(&answer);
        under_name(answer, full)
    }
}

/// The file that the path names, by its number and its full name: `NoUser`, `NoFile`.
fn file_named(tree: &Tree, path: &Path) -> Result<(u16, Full), StoreFault>
    ensures ok { IfOk result (λ p. IsNamedFile tree.now.users tree.now.files path.now p.0 p.1) }
    ensures err { IfErr result (λ fault. ForTree tree.now.users tree.now.files
        (λ t. naming_refuses t path.now ≡ Some fault)) }
{
    let _users = tree.users();
    let Some(user) = &path.user else {
        return Err(StoreFault::NoUser);
    };
    let Some(owner) = tree.user_number(user) else {
        return Err(StoreFault::NoUser);
    };
    let Some(number) = tree.find(owner, path) else {
        return Err(StoreFault::NoFile);
    };
    let Some(full) = tree.full_name(number) else {
        unreachable!()
    };
    Ok((number, full))
}

/// Whether the answer is `Stopped`.
fn is_stop(answer: &Result<(), StoreFault>) -> bool
    ensures { result ≡ stops answer.now }
{
    matches!(answer, Err(StoreFault::Stopped))
}

/// The answer, with the file's name.
fn under_name(answer: Result<(), StoreFault>, full: Full) -> Result<Full, StoreFault>
    ensures { result ≡ named_answer full answer }
{
    match answer {
        Ok(()) => Ok(full),
        Err(fault) => Err(fault),
    }
}
