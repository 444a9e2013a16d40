//! What the catalogue of the rack shows: whether a reel is free, and whether the bytes of all files are there.
ghost use Rattle.std.specs.Prelude.{◌≡◌, ◌↔◌, [], All, Contains, IfNone, IfSome, IsFalse, IsTrue, Some, true, false};
ghost use Rattle.g_entry.specs.declared.file_rec.TapeCopy.{TapeCopy};
ghost use Rattle.g_tree.specs.Records.{full_of};
ghost use Rattle.g_disc_contents.specs.Contents.{File};
ghost use Rattle.g_disc_contents.specs.Facts.{IsTied};
ghost use Rattle.g_process.specs.Lists.{IsLost, IsLostIn, IsOfFile, IsThere, notes_at};

use g_base::blocks_for;
use g_disc::Disc;
use g_entry::FileRec;
use g_incr::DumpNote;
use g_online::Online;
use g_plain::StoreFault;
use g_shelf::{Listed, is_held};

/// Whether the reel has no completed dump by these lists.
pub(crate) fn is_free(lists: &[Listed], serial: u32) -> bool
    ensures { IsTrue result ↔ (notes_at serial lists.now ≡ []) }
{
    notes_of(lists, serial).is_empty()
}

/// The dumps of the reel with this serial, if it is among these.
fn notes_of(lists: &[Listed], serial: u32) -> &[DumpNote]
    ensures { result.now ≡ notes_at serial lists.now }
{
    for list in lists {
        if list.serial == serial {
            return list.notes.as_slice();
        }
    }
    &[]
}

/// Whether the bytes of the file are on the disc, or its copy is in a completed dump.
fn is_there<D: Disc>(online: &Online<D>, lists: &[Listed], file: &FileRec) -> bool
    requires live { online.now.live ≡ true }
    requires there { IsOfFile online.now file.now }
    requires tied { IsTied online.now }
    ensures yes { IsTrue result → IsThere online.now lists.now file.now }
    ensures no { IsFalse result → IsLost online.now lists.now file.now }
{
    if online.is_online(file.number) {
        return true;
    }
    match file.tape {
        Some(copy) => is_held(notes_of(lists, copy.serial), &copy, blocks_for(file.len)),
        None => false,
    }
}

/// The first of these files whose bytes are neither on the disc nor in its copy, as a fault.
pub(crate) fn first_lost<D: Disc>(
    online: &Online<D>,
    lists: &[Listed],
    files: &[FileRec],
) -> Option<StoreFault>
    requires live { online.now.live ≡ true }
    requires tied { IsTied online.now }
    requires there { All (IsOfFile online.now) files.now }
    ensures some { IfSome result (IsLostIn online.now lists.now files.now) }
    ensures none { IfNone result (All (IsThere online.now lists.now) files.now) }
{
    for file in files {
        if !is_there(online, lists, file) {
            return Some(lost(online, file));
        }
    }
    None
}

/// The fault of a file whose bytes aren't there.
fn lost<D: Disc>(online: &Online<D>, file: &FileRec) -> StoreFault
    requires live { online.now.live ≡ true }
    requires tied { IsTied online.now }
    requires there { IsOfFile online.now file.now }
    requires offline { (f : File) → Contains online.now.contents.files f → f.rec ≡ file.now → f.online ≡ false }
    ensures { (copy : TapeCopy) × (file.now.tape ≡ Some copy)
        × (result ≡ StoreFault.NoCopy (full_of online.now.contents.users file.now) copy.serial) }
{
    let Some(full) = online.tree().full_name(file.number) else {
        unreachable!()
    };
    let Some(copy) = file.tape else {
        unreachable!()
    };
    StoreFault::NoCopy(full, copy.serial)
}
