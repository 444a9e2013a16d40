//! Calls that create a new version.
ghost use Rattle.std.specs.Prelude.{◌≡◌, ◌<◌, ◌≤◌, ◌^◌, true, None, Some, ℕ, length};
ghost use Rattle.g_disc_contents.specs.Contents.{recs_in};
ghost use Rattle.g_disc_contents.specs.Facts.{IsTied};
ghost use Rattle.g_name.specs.declared.full.Full.{Full};
ghost use Rattle.g_name.specs.declared.path.Path.{Path};
ghost use Rattle.g_plain.specs.declared.calls.StoreCall.TheVariants as call;
ghost use Rattle.g_plain.specs.PlainTree as plain;
ghost use Rattle.g_laws_store.specs.Calls.{IsVersionOf};
ghost use Rattle.g_tape.specs.Rack.{Rack};
ghost use Rattle.g_tree.specs.declared.asked.Granted.TheVariants as grant;
ghost use Rattle.g_tree.specs.Records.{ForTree, name_of_file, number_of};
ghost use Rattle.g_store_calls.specs.GrantedCalls.{AnswersGrantedOver, GrantsOne};
ghost use Rattle.g_store_calls.specs.Kinds.{IsSettled};
ghost use Rattle.g_store_calls.specs.Versions.{HasMade, IsNext};

use g_base::blocks_for;
use g_disc::Disc;
use g_entry::FileRec;
use g_migrate::plan_unjam;
use g_name::{Full, Text};
use g_online::Online;
use g_plain::{StoreFault, StoreReply};
use g_trap::Traps;
use std::alloc::Global;

/// The answer to `Put`: a new version of the file of this number, or a new file if there is none, by one commit. If there
/// is no room, the oldest versions that are also on tape are taken off the disc first, by a commit of their own. After
/// `DiscFull`, if that doesn't make enough room (in blocks of 512 bytes), and after `NoMemory` nothing has changed.
/// `Stopped`: a write of the disc failed. The disc holds what it held, or that without the versions that were taken off, or
/// that with the new version; it accepts no further call.
pub(crate) fn put<D: Disc>(
    alloc: Global,
    online: &mut Online<D>,
    number: Option<u16>,
    full: Full,
    bytes: &Text,
) -> Result<StoreReply, StoreFault>
    requires live { online.old.live ≡ true }
    requires tied { IsTied online.old }
    requires granted { (path : Path) × GrantsOne online.old (grant.Output number full) (call.Put path bytes.now) }
    ensures answers { (path : Path) (rack : Rack) → AnswersGrantedOver online.old rack (grant.Output number full) result online.new rack
        (call.Put path bytes.now) }
    ensures kind { (path : Path) → GrantsOne online.old (grant.Output number full) (call.Put path bytes.now)
        → IsSettled (call.Put path bytes.now) result }
{
    let rec = version_of(online, number, &full, bytes);
    match make_version(alloc, online, rec, bytes) {
        Ok(()) => Ok(StoreReply::Made(full)),
        Err(fault) => Err(fault),
    }
}

/// The record of the version that a `Put` makes, of the file of this number and full name. The call isn't refused.
fn version_of<D: Disc>(
    online: &Online<D>,
    number: Option<u16>,
    full: &Full,
    bytes: &Text,
) -> FileRec
    requires live { online.now.live ≡ true }
    requires tied { IsTied online.now }
    requires granted { (path : Path) × GrantsOne online.now (grant.Output number full.now) (call.Put path bytes.now) }
    ensures version { IsVersionOf online.now full.now result }
    ensures next { IsNext online.now bytes.now result }
{
    let len = bytes.as_slice().len() as u32;
    match number {
        Some(number) => next_of(online, number, len),
        None => first_of(online, full, len),
    }
}

/// The record of the next version of the file of this number, with this length.
fn next_of<D: Disc>(online: &Online<D>, number: u16, len: u32) -> FileRec
    requires live { online.now.live ≡ true }
    requires tied { IsTied online.now }
    requires there { (full : Full) × (name_of_file online.now.contents.users (recs_in online.now.contents) number ≡ Some full) }
    requires early { online.now.contents.head.next_stamp < 2 ^ 62 }
    requires short { len ≤ 65536 }
    ensures version { (full : Full) → name_of_file online.now.contents.users (recs_in online.now.contents) number ≡ Some full
        → IsVersionOf online.now full result }
    ensures len { result.len ≡ len }
{
    let Some(file) = online.tree().file_at(number) else {
        unreachable!()
    };
    FileRec {
        stamp: online.head().next_stamp,
        len,
        tape: None,
        ..file.copy()
    }
}

/// The record of the first version of a new file of this full name, with this length. Only its owner may use it.
fn first_of<D: Disc>(online: &Online<D>, full: &Full, len: u32) -> FileRec
    requires live { online.now.live ≡ true }
    requires tied { IsTied online.now }
    requires none { number_of online.now.contents.users (recs_in online.now.contents) full.now ≡ None }
    requires owner { ForTree online.now.contents.users (recs_in online.now.contents)
        (λ t. plain.has_user t full.now.user ≡ true) }
    requires few { length (recs_in online.now.contents) < 1024 }
    requires generation { (1 ≤ full.now.generation) × (full.now.generation ≤ 4095) }
    requires early { online.now.contents.head.next_stamp < 2 ^ 62 }
    requires short { len ≤ 65536 }
    ensures version { IsVersionOf online.now full.now result }
    ensures len { result.len ≡ len }
{
    // The solver learns here that the parts of the name are names.
    let _word = full.local.as_slice();
    let _lang = full.lang.as_slice();
    let tree = online.tree();
    let Some(number) = tree.free_file() else {
        unreachable!()
    };
    let Some(owner) = tree.user_number(&full.user) else {
        unreachable!()
    };
    FileRec {
        number,
        owner,
        local: full.local.copy(),
        generation: full.generation,
        lang: full.lang.copy(),
        stamp: online.head().next_stamp,
        len,
        traps: Traps::fresh(),
        tape: None,
    }
}

/// Creates the version, with these bytes. If there is no room, versions that are also on tape are taken off the disc. After
/// `DiscFull`, if that isn't enough, and after `NoMemory` nothing has changed. `Stopped`.
fn make_version<D: Disc>(
    alloc: Global,
    online: &mut Online<D>,
    rec: FileRec,
    bytes: &Text,
) -> Result<(), StoreFault>
    requires live { online.old.live ≡ true }
    requires tied { IsTied online.old }
    requires next { IsNext online.old bytes.now rec }
    ensures { HasMade rec bytes.now online.old online.new result }
{
    let need = blocks_for(rec.len);
    let plan = match plan_unjam(alloc, online, need) {
        Ok(plan) => plan,
        Err(_) => return Err(StoreFault::NoMemory),
    };
    if plan.room < need {
        return Err(StoreFault::DiscFull {
            need,
            room: plan.room,
        });
    }
    match online.put_file(alloc, rec, bytes, &plan.take) {
        Ok(()) => Ok(()),
        Err(fault) => Err(StoreFault::from(fault)),
    }
}
