//! Calls that need the bytes of a file: they are read from the disc, or brought back to it from tape.
ghost use Rattle.std.specs.Prelude.{◌≡◌, Contains, false, true};
ghost use Rattle.g_base.specs.Block as block;
ghost use Rattle.g_disc_contents.specs.Contents.{File};
ghost use Rattle.g_disc_contents.specs.Facts.{IsTied};
ghost use Rattle.g_entry.specs.declared.file_rec.FileRec.{FileRec};
ghost use Rattle.g_name.specs.declared.path.Path.{Path};
ghost use Rattle.g_plain.specs.declared.calls.StoreCall.TheVariants as call;
ghost use Rattle.g_plain.specs.declared.calls.StoreReply.TheVariants as reply;
ghost use Rattle.g_retrieve.specs.Invariant.{KeepsDevices};
ghost use Rattle.g_trap.specs.declared.mode_set.Mode.{Mode};
ghost use Rattle.g_tree.specs.declared.asked.Granted.TheVariants as grant;
ghost use Rattle.g_store_calls.specs.FetchedBytes.{HasComeBack, HasReadDisc, answer_by};
ghost use Rattle.g_store_calls.specs.GrantedCalls.{AnswersGrantedOver, GrantsOne};
ghost use Rattle.g_store_calls.specs.Kinds.{IsKind};

use g_base::blocks_for;
use g_disc::Disc;
use g_known::KnownReels;
use g_migrate::plan_unjam;
use g_name::{Full, Text};
use g_online::Online;
use g_plain::{StoreFault, StoreReply};
use g_retrieve::bring_back;
use g_tape::Tapes;
use g_tree::Tree;
use std::alloc::Global;

/// The answer to `Fetch`: the bytes of this file, which the path names for input, read from the disc. A file that isn't
/// there is brought back first (docs/DEFINITIONS.md): its reel's catalogue and each block of its copy are read, and other
/// files are taken off the disc if it has no room. After `WaitTape`, `TapeReadFault`, `NoCopy`, `DiscFull` (in blocks of
/// 512 bytes), `DiscReadFault` and `NoMemory` nothing has changed. `Stopped`: a write of the disc failed. The disc holds
/// what it held, or that without the files that were to be taken off, or also with the file; it accepts no further call.
pub(crate) fn fetch<D: Disc, T: Tapes>(
    alloc: Global,
    online: &mut Online<D>,
    tapes: &mut KnownReels<T>,
    number: u16,
    full: Full,
) -> Result<StoreReply, StoreFault>
    requires live { online.old.live ≡ true }
    requires tied { IsTied online.old }
    requires granted { (path : Path) × (mode : Mode) × GrantsOne online.old (grant.Input number full) (call.Fetch path mode) }
    ensures answers { (path : Path) (mode : Mode) → AnswersGrantedOver online.old (T.rack tapes.old) (grant.Input number full) result
        online.new (T.rack tapes.new) (call.Fetch path mode) }
    ensures kind { (path : Path) (mode : Mode) → GrantsOne online.old (grant.Input number full) (call.Fetch path mode)
        → IsKind (call.Fetch path mode) (T.rack tapes.old) result }
{
    if online.is_online(number) {
        bytes_answer(full, disc_bytes(alloc, online, number))
    } else {
        bytes_answer(full, brought_bytes(alloc, online, tapes, number))
    }
}

/// The answer to `Retrieve`: this file, which the path names for input, is on the disc. If it is there already no device is
/// used, otherwise it is brought back as by `fetch`, with the same refusals.
pub(crate) fn retrieve<D: Disc, T: Tapes>(
    alloc: Global,
    online: &mut Online<D>,
    tapes: &mut KnownReels<T>,
    number: u16,
    full: Full,
) -> Result<StoreReply, StoreFault>
    requires live { online.old.live ≡ true }
    requires tied { IsTied online.old }
    requires granted { (path : Path) × GrantsOne online.old (grant.Input number full) (call.Retrieve path) }
    ensures answers { (path : Path) → AnswersGrantedOver online.old (T.rack tapes.old) (grant.Input number full) result
        online.new (T.rack tapes.new) (call.Retrieve path) }
    ensures kind { (path : Path) → GrantsOne online.old (grant.Input number full) (call.Retrieve path)
        → IsKind (call.Retrieve path) (T.rack tapes.old) result }
{
    if online.is_online(number) {
        Ok(StoreReply::Retrieved(full))
    } else {
        back_answer(full, brought_bytes(alloc, online, tapes, number))
    }
}

/// The reply with the bytes of a file of this name, or why there are none.
fn bytes_answer(full: Full, text: Result<Text, StoreFault>) -> Result<StoreReply, StoreFault>
    ensures { result ≡ answer_by (reply.Bytes full) text }
{
    match text {
        Ok(bytes) => Ok(StoreReply::Bytes { full, bytes }),
        Err(fault) => Err(fault),
    }
}

/// The reply that a file of this name is on the disc, or why it isn't.
fn back_answer(full: Full, text: Result<Text, StoreFault>) -> Result<StoreReply, StoreFault>
    ensures { result ≡ answer_by (λ bytes. reply.Retrieved full) text }
{
    match text {
        Ok(_text) => Ok(StoreReply::Retrieved(full)),
        Err(fault) => Err(fault),
    }
}

/// The bytes of a file that is on the disc. `DiscReadFault`, `NoMemory`.
fn disc_bytes<D: Disc>(
    alloc: Global,
    online: &mut Online<D>,
    number: u16,
) -> Result<Text, StoreFault>
    requires live { online.old.live ≡ true }
    requires there { (f : File) × Contains online.old.contents.files f × (f.rec.number ≡ number)
        × (f.online ≡ true) }
    ensures { (f : File) → Contains online.old.contents.files f → f.rec.number ≡ number
        → HasReadDisc f online.old online.new result }
{
    match online.bytes(alloc, number) {
        Ok(text) => Ok(text),
        Err(fault) => Err(StoreFault::from(fault)),
    }
}

/// The bytes of a file that is only on tape, which is brought back with them. The faults of `bring_back`, and `NoMemory`.
fn brought_bytes<D: Disc, T: Tapes>(
    alloc: Global,
    online: &mut Online<D>,
    tapes: &mut KnownReels<T>,
    number: u16,
) -> Result<Text, StoreFault>
    requires live { online.old.live ≡ true }
    requires tied { IsTied online.old }
    requires offline { (f : File) × Contains online.old.contents.files f × (f.rec.number ≡ number)
        × (f.online ≡ false) }
    ensures back { HasComeBack number online.old online.new (T.rack tapes.old) (T.rack tapes.new) result }
    ensures keeps { KeepsDevices online.old online.new (T.rack tapes.old) (T.rack tapes.new) }
{
    let need = needed_blocks(online.tree(), number);
    let unjam = match plan_unjam(alloc, online, need) {
        Ok(unjam) => unjam,
        Err(_) => return Err(StoreFault::NoMemory),
    };
    bring_back(alloc, online, tapes, number, &unjam)
}

/// The number of blocks of an existing file.
fn needed_blocks(tree: &Tree, number: u16) -> u32
    requires { (r : FileRec) × Contains tree.now.files r × (r.number ≡ number) }
    ensures { (r : FileRec) → Contains tree.now.files r → r.number ≡ number
        → result ≡ block.blocks_for r.len }
{
    match tree.file_at(number) {
        Some(file) => blocks_for(file.len),
        None => unreachable!(),
    }
}
