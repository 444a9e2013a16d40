//! Append: bytes are appended to those of a file, which are read from the disc, or from tape if they are only there.
ghost use Rattle.std.specs.Prelude.{◌≡◌, ◌≤◌, ◌+◌, ◌++◌, ◌^◌, ◌<◌, true, false, Contains, IfOk, None, Some, length};
ghost use Rattle.g_name.specs.declared.full.Full.{Full};
ghost use Rattle.g_base.specs.Block as block;
ghost use Rattle.g_entry.specs.declared.file_rec.FileRec.{FileRec};
ghost use Rattle.g_name.specs.declared.path.Path.{Path};
ghost use Rattle.g_plain.specs.declared.calls.StoreCall.TheVariants as call;
ghost use Rattle.g_tape.specs.Rack.{Rack};
ghost use Rattle.g_tree.specs.declared.asked.Granted.TheVariants as grant;
ghost use Rattle.g_laws_store.specs.UnjamPlan.{IsUnjamPlan};
ghost use Rattle.g_tree.specs.Records.{full_of};
ghost use Rattle.g_disc_contents.specs.Contents.{File, taken_off};
ghost use Rattle.g_disc_contents.specs.Facts.{IsTied, room_with};
ghost use Rattle.g_migrate.specs.UnjamPlan.{IsRoomWithout};
ghost use Rattle.g_online.specs.AllowedChanges.{IsAllowed};
ghost use Rattle.g_online.specs.Change.{need_of};
ghost use Rattle.g_online.specs.Outcomes.{room_for};
ghost use Rattle.g_store_calls.specs.Appending.{HasAppended, version_of};
ghost use Rattle.g_store_calls.specs.AppliedChange.{HasApplied};
ghost use Rattle.g_store_calls.specs.Asking.{HasPlanned};
ghost use Rattle.g_store_calls.specs.GrantedCalls.{AnswersGrantedOver, GrantsOne};
ghost use Rattle.g_store_calls.specs.Kinds.{IsKind};

use g_base::blocks_for;
use g_disc::Disc;
use g_entry::FileRec;
use g_known::KnownReels;
use g_migrate::{Unjam, plan_unjam};
use g_name::{Full, Text};
use g_online::{Change, Online};
use g_plain::{StoreFault, StoreReply};
use g_retrieve::{file_of, read_copy};
use g_tape::Tapes;
use g_tree::NumberList;
use std::alloc::Global;

/// The answer to `Append`: a new version of this file, which the path names, with its bytes followed by those of the call.
/// One commit writes it, preceded by another if files are taken off the disc to make room. A file that is only on tape
/// isn't brought back: its bytes are read from tape, and only the new version is written. `WaitTape`, `TapeReadFault` and
/// `NoCopy` concern a file that is only on tape, `DiscReadFault` one that is on the disc. `DiscFull`: the new version needs
/// more blocks than can be freed. After these and `NoMemory` nothing has changed. `Stopped`: a write of the disc failed.
/// The disc holds what it held, or that without the files that were taken off it, or also with the new version; it accepts
/// no further call.
pub(crate) fn append<D: Disc, T: Tapes>(
    alloc: Global,
    online: &mut Online<D>,
    tapes: &mut KnownReels<T>,
    number: u16,
    full: Full,
    bytes: &Text,
) -> Result<StoreReply, StoreFault>
    requires live { online.old.live ≡ true }
    requires tied { IsTied online.old }
    requires granted { (path : Path) × GrantsOne online.old (grant.Input number full) (call.Append path bytes.now) }
    ensures answers { (path : Path) → AnswersGrantedOver online.old (T.rack tapes.old) (grant.Input number full) result
        online.new (T.rack tapes.new) (call.Append path bytes.now) }
    ensures kind { (path : Path) → GrantsOne online.old (grant.Input number full) (call.Append path bytes.now)
        → IsKind (call.Append path bytes.now) (T.rack tapes.old) result }
{
    match append_to(alloc, online, tapes, number, bytes) {
        Ok(()) => Ok(StoreReply::Appended(full)),
        Err(fault) => Err(fault),
    }
}

/// Appends bytes to those of the file of this number.
fn append_to<D: Disc, T: Tapes>(
    alloc: Global,
    online: &mut Online<D>,
    tapes: &mut KnownReels<T>,
    number: u16,
    bytes: &Text,
) -> Result<(), StoreFault>
    requires live { online.old.live ≡ true }
    requires tied { IsTied online.old }
    requires used { (f : File) × Contains online.old.contents.files f × (f.rec.number ≡ number) }
    requires fits { (f : File) → Contains online.old.contents.files f → f.rec.number ≡ number
        → f.rec.len + length bytes.now ≤ 65536 }
    requires stamps { online.old.contents.head.next_stamp < 2 ^ 62 }
    ensures { (f : File) → Contains online.old.contents.files f → f.rec.number ≡ number
        → HasAppended (full_of online.old.contents.users f.rec) f bytes.now online.old online.new
        (T.rack tapes.old) (T.rack tapes.new) result }
{
    let file = file_of(online.tree(), number);
    if online.is_online(number) {
        append_here(alloc, online, file, bytes)
    } else {
        append_from_tape(alloc, online, tapes, file, bytes)
    }
}

/// Appends bytes to those of a file that is on the disc: first room is made for the new version, then the old bytes are
/// read.
fn append_here<D: Disc>(
    alloc: Global,
    online: &mut Online<D>,
    file: FileRec,
    bytes: &Text,
) -> Result<(), StoreFault>
    requires live { online.old.live ≡ true }
    requires tied { IsTied online.old }
    requires here { (f : File) × Contains online.old.contents.files f × (f.rec ≡ file) × (f.online ≡ true) }
    requires fits { file.len + length bytes.now ≤ 65536 }
    requires stamps { online.old.contents.head.next_stamp < 2 ^ 62 }
    ensures { (f : File) → Contains online.old.contents.files f → f.rec ≡ file → (rack : Rack)
        → HasAppended (full_of online.old.contents.users f.rec) f bytes.now online.old online.new rack rack result }
{
    let need = blocks_for(file.len + bytes.as_slice().len() as u32);
    let plan = match plan_for(alloc, online, need) {
        Ok(plan) => plan,
        Err(fault) => return Err(fault),
    };
    let old = match online.bytes(alloc, file.number) {
        Ok(old) => old,
        Err(fault) => return Err(StoreFault::from(fault)),
    };
    put_behind(alloc, online, file, old, bytes, plan)
}

/// Appends bytes to those of a file that is only on tape: they are read first, then room is made for the new version.
fn append_from_tape<D: Disc, T: Tapes>(
    alloc: Global,
    online: &mut Online<D>,
    tapes: &mut KnownReels<T>,
    file: FileRec,
    bytes: &Text,
) -> Result<(), StoreFault>
    requires live { online.old.live ≡ true }
    requires tied { IsTied online.old }
    requires away { (f : File) × Contains online.old.contents.files f × (f.rec ≡ file) × (f.online ≡ false) }
    requires fits { file.len + length bytes.now ≤ 65536 }
    requires stamps { online.old.contents.head.next_stamp < 2 ^ 62 }
    ensures { (f : File) → Contains online.old.contents.files f → f.rec ≡ file
        → HasAppended (full_of online.old.contents.users f.rec) f bytes.now online.old online.new
        (T.rack tapes.old) (T.rack tapes.new) result }
{
    let Some(copy) = file.tape else {
        unreachable!()
    };
    let old = match read_copy(alloc, tapes, online.tree(), file.number, &copy, file.len) {
        Ok(old) => old,
        Err(fault) => return Err(fault),
    };
    let need = blocks_for(file.len + bytes.as_slice().len() as u32);
    let plan = match plan_for(alloc, online, need) {
        Ok(plan) => plan,
        Err(fault) => return Err(fault),
    };
    put_behind(alloc, online, file, old, bytes, plan)
}

/// The plan that makes room for this many blocks. `DiscFull`, `NoMemory`.
fn plan_for<D: Disc>(alloc: Global, online: &Online<D>, need: u32) -> Result<Unjam, StoreFault>
    requires live { online.now.live ≡ true }
    requires tied { IsTied online.now }
    ensures planned { HasPlanned need online.now result }
    ensures without { IfOk result (λ plan. IsRoomWithout online.now plan.take plan.room) }
{
    let plan = match plan_unjam(alloc, online, need) {
        Ok(plan) => plan,
        Err(_) => return Err(StoreFault::NoMemory),
    };
    if plan.room < need {
        return Err(StoreFault::DiscFull {
            need,
            room: plan.room,
        });
    }
    Ok(plan)
}

/// Writes the new version of a file, with the old bytes followed by these, by a plan that has made room for it.
fn put_behind<D: Disc>(
    alloc: Global,
    online: &mut Online<D>,
    file: FileRec,
    old: Text,
    bytes: &Text,
    plan: Unjam,
) -> Result<(), StoreFault>
    requires live { online.old.live ≡ true }
    requires tied { IsTied online.old }
    requires there { (f : File) × Contains online.old.contents.files f × (f.rec ≡ file) }
    requires long { length old ≡ file.len }
    requires fits { file.len + length bytes.now ≤ 65536 }
    requires stamps { online.old.contents.head.next_stamp < 2 ^ 62 }
    requires plan { IsUnjamPlan (block.blocks_for (file.len + length bytes.now)) online.old plan.take plan.room }
    requires roomy { block.blocks_for (file.len + length bytes.now)
        ≤ room_with (taken_off plan.take online.old.contents.files) online.old }
    ensures { HasApplied
        (Change.PutFile (version_of file online.old.contents.head.next_stamp (file.len + length bytes.now))
        (old ++ bytes.now) plan.take)
        online.old online.new result }
{
    let mut text = old;
    match text.extend(bytes.as_slice()) {
        Ok(()) => {}
        Err(_) => return Err(StoreFault::NoMemory),
    }
    let len = text.as_slice().len() as u32;
    let rec = next_version(file, online.head().next_stamp, len);
    put_version(alloc, online, rec, &text, &plan.take)
}

/// Writes a new version of a file, for which there is room once these files are off the disc. `Stopped`, `NoMemory`.
fn put_version<D: Disc>(
    alloc: Global,
    online: &mut Online<D>,
    rec: FileRec,
    bytes: &Text,
    unjam: &NumberList,
) -> Result<(), StoreFault>
    requires allowed { IsAllowed (Change.PutFile rec bytes.now unjam.now) online.old }
    requires roomy { need_of (Change.PutFile rec bytes.now unjam.now)
        ≤ room_for (Change.PutFile rec bytes.now unjam.now) online.old }
    ensures { HasApplied (Change.PutFile rec bytes.now unjam.now) online.old online.new result }
{
    match online.put_file(alloc, rec, bytes, unjam) {
        Ok(()) => Ok(()),
        Err(fault) => Err(StoreFault::from(fault)),
    }
}

/// The record of a new version of a file, which has no copy on tape yet.
fn next_version(file: FileRec, stamp: u64, len: u32) -> FileRec
    ensures { result ≡ version_of file stamp len }
{
    FileRec {
        stamp,
        len,
        tape: None,
        ..file
    }
}
