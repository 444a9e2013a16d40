//! A file that is only on tape is brought back to the disc.
ghost use Rattle.std.specs.Prelude.{◌≡◌, ◌⊎◌, ◌↔◌, ℕ, ◌<◌, Contains, Err, IfErr, length, false, true, Some};
ghost use Rattle.std.specs.Option.{ForSome};
ghost use Rattle.g_base.specs.Block as block;
ghost use Rattle.g_name.specs.declared.full.Full.{Full};
ghost use Rattle.g_entry.specs.declared.file_rec.FileRec.{FileRec};
ghost use Rattle.g_entry.specs.declared.file_rec.TapeCopy.{TapeCopy};
ghost use Rattle.g_tape.specs.Rack.{is_mounted, reel};
ghost use Rattle.g_tree.specs.Records.{IsRecords, name_of_file};
ghost use Rattle.g_disc_contents.specs.Contents.{File};
ghost use Rattle.g_disc_contents.specs.Facts.{IsTied};
ghost use Rattle.g_online.specs.AllowedChanges.{IsAllowed};
ghost use Rattle.g_laws_store.specs.UnjamPlan.{IsUnjamPlan};
ghost use Rattle.g_retrieve.specs.Retrieval.{HasBroughtBack, HasReadCopy, IsOnTape, IsPutBack, as_read};
ghost use Rattle.g_retrieve.specs.Invariant.{HasLostCopy, KeepsDevices};

use crate::bytes::tape_bytes;
use g_disc::Disc;
use g_entry::{FileRec, TapeCopy};
use g_incr::ShelfFault;
use g_known::KnownReels;
use g_name::Text;
use g_online::{Change, Online, Unjam};
use g_plain::StoreFault;
use g_tape::Tapes;
use g_tree::Tree;
use std::alloc::Global;

/// Brings the file of this number, whose bytes are only on tape, back to the disc (docs/DEFINITIONS.md), and returns these
/// bytes. It reads each block of the copy, and as much of its reel's catalogue as isn't known yet. Then other files are
/// taken off the disc by the plan, and the bytes are written there. `WaitTape`: its reel isn't mounted, and nothing was
/// read. `TapeReadFault`: a read failed. `NoCopy`: the completed dumps of the reel don't contain the copy's place.
/// `DiscFull`: the bytes need more blocks than the plan's room. After these four, in this order, and after `NoMemory`, the
/// disc and all of memory are unchanged.
/// `Stopped`: a write of the disc failed. The disc holds what it held, or that without the files of the plan, or also with
/// the file; it accepts no further call.
pub fn bring_back<D: Disc, T: Tapes>(
    alloc: Global,
    online: &mut Online<D>,
    tapes: &mut KnownReels<T>,
    number: u16,
    unjam: &Unjam,
) -> Result<Text, StoreFault>
    requires live { online.old.live ≡ true }
    requires tied { IsTied online.old }
    requires offline { (f : File) × Contains online.old.contents.files f × (f.rec.number ≡ number)
        × (f.online ≡ false) }
    requires plan { (f : File) → Contains online.old.contents.files f → f.rec.number ≡ number
        → IsUnjamPlan (block.blocks_for f.rec.len) online.old unjam.now.take unjam.now.room }
    ensures waits { (f : File) (c : TapeCopy) → IsOnTape number online.old f c
        → (result ≡ Err (StoreFault.WaitTape c.serial))
        ↔ (is_mounted (reel c.serial (T.rack tapes.old).reels) ≡ false) }
    ensures lost { (f : File) (c : TapeCopy) → IsOnTape number online.old f c
        → (name : Full) (serial : ℕ) → result ≡ Err (StoreFault.NoCopy name serial)
        → HasLostCopy f c name serial online.old (T.rack tapes.old) }
    ensures full { (f : File) (c : TapeCopy) → IsOnTape number online.old f c
        → (need room : ℕ) → result ≡ Err (StoreFault.DiscFull need room)
        → (need ≡ block.blocks_for f.rec.len) × (room ≡ unjam.now.room) × (room < need) }
    ensures brought { (f : File) (c : TapeCopy) → IsOnTape number online.old f c
        → HasBroughtBack number unjam.now f c online.old online.new (T.rack tapes.old) (T.rack tapes.new)
        result }
    ensures keeps { KeepsDevices online.old online.new (T.rack tapes.old) (T.rack tapes.new) }
    ensures only { (f : File) (c : TapeCopy) → IsOnTape number online.old f c → IfErr result (λ e.
        (e ≡ StoreFault.WaitTape c.serial) ⊎ ((e ≡ StoreFault.TapeReadFault)
        ⊎ (((name : Full) × (e ≡ StoreFault.NoCopy name c.serial))
        ⊎ ((e ≡ StoreFault.DiscFull (block.blocks_for f.rec.len) unjam.now.room)
        ⊎ ((e ≡ StoreFault.Stopped) ⊎ (e ≡ StoreFault.NoMemory)))))) }
{
    let tree = online.tree();
    let file = file_of(tree, number);
    let Some(copy) = file.tape else {
        unreachable!()
    };
    match read_copy(alloc, tapes, tree, number, &copy, file.len) {
        Ok(text) => put_back(alloc, online, number, text, unjam),
        Err(fault) => Err(fault),
    }
}

/// The record of an existing file.
pub fn file_of(tree: &Tree, number: u16) -> FileRec
    requires { (r : FileRec) × Contains tree.now.files r × (r.number ≡ number) }
    ensures value { (r : FileRec) → Contains tree.now.files r → r.number ≡ number → result ≡ r }
    ensures records { IsRecords tree.now.users tree.now.files }
{
    match tree.file_at(number) {
        Some(file) => file.copy(),
        None => unreachable!(),
    }
}

/// The bytes of a file's copy on tape. `WaitTape`: its reel isn't mounted. `TapeReadFault`: a read of it failed. `NoCopy`:
/// the completed dumps of the reel don't contain the copy's place. `NoMemory`. The reel is unchanged.
pub fn read_copy<T: Tapes>(
    alloc: Global,
    tapes: &mut KnownReels<T>,
    tree: &Tree,
    number: u16,
    copy: &TapeCopy,
    len: u32,
) -> Result<Text, StoreFault>
    requires used { (r : FileRec) × Contains tree.now.files r × (r.number ≡ number) }
    requires records { IsRecords tree.now.users tree.now.files }
    requires filled { 0 < len }
    ensures { HasReadCopy (name_of_file tree.now.users tree.now.files number) copy.now len
        (T.rack tapes.old) (T.rack tapes.new) result }
{
    match tape_bytes(alloc, tapes, copy, len) {
        Ok(Some(text)) => Ok(text),
        Ok(None) => Err(lost(tree, number, copy.serial)),
        Err(fault) => Err(read_fault(fault, copy.serial)),
    }
}

/// The fault of a file whose copy is lost.
fn lost(tree: &Tree, number: u16, serial: u32) -> StoreFault
    requires used { (r : FileRec) × Contains tree.now.files r × (r.number ≡ number) }
    requires records { IsRecords tree.now.users tree.now.files }
    ensures { (name : Full) × (name_of_file tree.now.users tree.now.files number ≡ Some name)
        × (result ≡ StoreFault.NoCopy name serial) }
{
    match tree.full_name(number) {
        Some(name) => StoreFault::NoCopy(name, serial),
        None => unreachable!(),
    }
}

/// The store's fault for a fault of the reader. A store waits for a reel that isn't mounted.
fn read_fault(fault: ShelfFault, serial: u32) -> StoreFault
    ensures { result ≡ as_read serial fault }
{
    match fault {
        ShelfFault::NoTape | ShelfFault::NotMounted => StoreFault::WaitTape(serial),
        fault => fault.into(),
    }
}

/// Writes the bytes to the disc and returns them.
fn put_back<D: Disc>(
    alloc: Global,
    online: &mut Online<D>,
    number: u16,
    text: Text,
    unjam: &Unjam,
) -> Result<Text, StoreFault>
    requires allowed { IsAllowed (Change.Bring number text unjam.now.take) online.old }
    requires plan { IsUnjamPlan (block.blocks_for (length text)) online.old unjam.now.take unjam.now.room }
    requires tied { IsTied online.old }
    ensures { IsPutBack number text unjam.now online.old online.new result }
{
    // What is in use fits on the disc, so the plan's room is the room without the files that it takes.
    let _room = online.room();
    match online.bring(alloc, number, &text, &unjam.take) {
        Ok(()) => Ok(text),
        Err(fault) => Err(fault.into()),
    }
}
