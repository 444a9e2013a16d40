//! One file is taken off the disc.
ghost use Rattle.std.specs.Prelude.{◌≡◌, ◌⊎◌, ◌↔◌, [], ◌∷◌, true, false, Contains, Err, IfErr, OnErr, None, is_some};
ghost use Rattle.g_entry.specs.declared.file_rec.FileRec.{FileRec};
ghost use Rattle.g_disc_contents.specs.Contents.{File};
ghost use Rattle.g_disc_contents.specs.Facts.{IsTied};
ghost use Rattle.g_online.specs.AllowedChanges.{HasNumber, IsAllowed};
ghost use Rattle.g_migrate.specs.Invariant.{KeepsStore};
ghost use Rattle.g_migrate.specs.Migration.{HasMigrated, as_stored, refusal_of};

use g_disc::Disc;
use g_online::{Change, Online, OnlineFault};
use g_plain::StoreFault;
use g_tree::{NumberList, Tree};
use std::alloc::Global;

/// Takes the file of this number off the disc by one commit (docs/DEFINITIONS.md). Then its bytes are only on tape, and its
/// blocks are free. `Offline`: it isn't on the disc. `NotDumped`: no tape has a copy of it, which is always so for an empty
/// file. After these two and `NoMemory` everything is unchanged. `Stopped`: a write of the disc failed. The disc holds what
/// it held, or that with the file only on tape, and accepts no further call.
pub fn migrate<D: Disc>(
    alloc: Global,
    online: &mut Online<D>,
    number: u16,
) -> Result<(), StoreFault>
    requires live { online.old.live ≡ true }
    requires tied { IsTied online.old }
    requires used { HasNumber online.old.contents.files number }
    ensures offline { (f : File) → Contains online.old.contents.files f → f.rec.number ≡ number
        → (result ≡ Err StoreFault.Offline) ↔ (f.online ≡ false) }
    ensures not_dumped { (f : File) → Contains online.old.contents.files f → f.rec.number ≡ number
        → (result ≡ Err StoreFault.NotDumped) ↔ ((f.online ≡ true) × (f.rec.tape ≡ None)) }
    ensures migrated { HasMigrated number online.old online.new result }
    ensures keeps { KeepsStore online.old online.new }
    ensures only { OnErr result ((result ≡ Err StoreFault.Offline) ⊎ ((result ≡ Err StoreFault.NotDumped)
        ⊎ ((result ≡ Err StoreFault.Stopped) ⊎ (result ≡ Err StoreFault.NoMemory)))) }
{
    match refusal(online, number) {
        Some(fault) => Err(fault),
        None => take_off(alloc, online, number),
    }
}

/// Why the file stays on the disc, if it does: `Offline`, `NotDumped`.
fn refusal<D: Disc>(online: &Online<D>, number: u16) -> Option<StoreFault>
    requires live { online.now.live ≡ true }
    ensures { (f : File) → Contains online.now.contents.files f → f.rec.number ≡ number
        → result ≡ refusal_of f }
{
    if !online.is_online(number) {
        return Some(StoreFault::Offline);
    }
    if has_copy(online.tree(), number) {
        None
    } else {
        Some(StoreFault::NotDumped)
    }
}

/// Whether a tape has a copy of the file.
fn has_copy(tree: &Tree, number: u16) -> bool
    ensures { (r : FileRec) → Contains tree.now.files r → r.number ≡ number → result ≡ is_some r.tape }
{
    match tree.file_at(number) {
        Some(file) => file.tape.is_some(),
        None => false,
    }
}

/// Takes a file off the disc that is on the disc and also on tape.
fn take_off<D: Disc>(alloc: Global, online: &mut Online<D>, number: u16) -> Result<(), StoreFault>
    requires allowed { IsAllowed (Change.Unload (number ∷ [])) online.old }
    requires tied { IsTied online.old }
    ensures migrated { HasMigrated number online.old online.new result }
    ensures only { OnErr result ((result ≡ Err StoreFault.Stopped) ⊎ (result ≡ Err StoreFault.NoMemory)) }
{
    let mut numbers = NumberList::new(alloc);
    match numbers.push(number) {
        Ok(()) => {}
        Err(_) => return Err(StoreFault::NoMemory),
    }
    stored(online.unload(&numbers))
}

/// The answer as a store reports it.
fn stored(answer: Result<(), OnlineFault>) -> Result<(), StoreFault>
    ensures { result ≡ as_stored answer }
{
    match answer {
        Ok(()) => Ok(()),
        Err(OnlineFault::Stopped) => Err(StoreFault::Stopped),
        Err(_) => Err(StoreFault::NoMemory),
    }
}
