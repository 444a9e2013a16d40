//! The bytes of a file.
ghost use Rattle.std.specs.Prelude.{◌≡◌, ◌≢◌, ◌<◌, Err, IfErr, IfOk, IfSome, None};
ghost use Rattle.std.specs.Option.{ForSome};
ghost use Rattle.g_copy.specs.Copy.{IsCopy};
ghost use Rattle.g_disc.specs.Disc.{ReadsByCause};
ghost use Rattle.g_dirs.specs.Directory.{Directory, copy_at};
ghost use Rattle.g_dirs.specs.Image.{StandsFor};
ghost use Rattle.g_look.specs.Copies.{AreBytesAt, IsHeldAt, IsHeldBy, IsHeldNowhere};
ghost use Rattle.g_look.specs.Looks.{AreMounted, IsOfBytes, IsOfCopy, OfDumps, ReadsRackByCause};
ghost use Rattle.g_look.specs.ShownBytes.{IsLost, IsNoFile, IsNowhere, IsShown};

use crate::LookFault;
use crate::bytes::file_text;
use crate::disc::see_directory;
use crate::listing::tree_of;
use g_dirs::FileCopy;
use g_disc::Disc;
use g_entry::{FileRec, TapeCopy};
use g_incr::ShelfFault;
use g_known::KnownReels;
use g_name::{Path, Text};
use g_retrieve::tape_bytes;
use g_tape::Tapes;
use std::alloc::Global;

/// The bytes of the file that the path names for input (if the path has no user, the user is MASTER): from the disc if it is there, otherwise from
/// its copy on tape. Traps aren't checked. Both devices are only read. `NoFilestore`: the disc represents none; `NoFile`: no file has the name;
/// `NoCopy`: the file is only on tape, and its reel isn't mounted or no completed dump holds its copy; `DiscUnread`, `TapeUnread`, `NoMemory`.
pub fn show<D: Disc, T: Tapes>(
    alloc: Global,
    disc: &mut D,
    tapes: &mut KnownReels<T>,
    path: &Path,
) -> Result<Text, LookFault>
    requires size { 2177 < (D.state disc.old).size }
    ensures bytes { IfOk result (λ text. ForSome (D.state disc.old).held (λ blocks.
        OfDumps (T.rack tapes.old) (λ dumps. IsShown blocks dumps path.now text))) }
    ensures no_filestore { result ≡ Err LookFault.NoFilestore → ForSome (D.state disc.old).held
        (λ blocks. (d : Directory) → StandsFor blocks d → ⊥) }
    ensures no_file { result ≡ Err LookFault.NoFile → ForSome (D.state disc.old).held (λ blocks. IsNoFile blocks path.now) }
    ensures no_copy { result ≡ Err LookFault.NoCopy → AreMounted (T.rack tapes.old) → ForSome (D.state disc.old).held (λ blocks.
        OfDumps (T.rack tapes.old) (λ dumps. IsLost blocks dumps path.now)) }
    ensures disc { ReadsByCause (result ≡ Err LookFault.DiscUnread) (D.state disc.old) (D.state disc.new) }
    ensures tapes { ReadsRackByCause (result ≡ Err LookFault.TapeUnread) (T.rack tapes.old) (T.rack tapes.new) }
    ensures only { result ≢ Err LookFault.NoUser }
{
    let dirs = match see_directory(alloc, disc) {
        Ok(dirs) => dirs,
        Err(fault) => return Err(fault),
    };
    let (tree, online) = match tree_of(alloc, dirs) {
        Ok(made) => made,
        Err(_) => return Err(LookFault::NoMemory),
    };
    let number = match tree.find(0, path) {
        Some(number) => number,
        None => return Err(LookFault::NoFile),
    };
    match tree.file_at(number) {
        Some(file) => file_bytes(alloc, disc, tapes, online.as_slice(), file),
        None => unreachable!(),
    }
}

/// The bytes of a file, from the disc if it is there, otherwise from its copy on tape.
fn file_bytes<D: Disc, T: Tapes>(
    alloc: Global,
    disc: &mut D,
    tapes: &mut KnownReels<T>,
    online: &[FileCopy],
    file: &FileRec,
) -> Result<Text, LookFault>
    requires size { 2177 < (D.state disc.old).size }
    requires copy { IfSome (copy_at online.now file.now.number) (IsCopy (D.state disc.old).size) }
    ensures bytes { IfOk result (AreBytesAt (D.state disc.old).held (T.rack tapes.old) file.now (copy_at online.now file.now.number)) }
    ensures offline { result ≡ Err LookFault.NoCopy → copy_at online.now file.now.number ≡ None }
    ensures lost { result ≡ Err LookFault.NoCopy → AreMounted (T.rack tapes.old)
        → OfDumps (T.rack tapes.old) (λ dumps. IsNowhere dumps file.now) }
    ensures disc { ReadsByCause (result ≡ Err LookFault.DiscUnread) (D.state disc.old) (D.state disc.new) }
    ensures tapes { ReadsRackByCause (result ≡ Err LookFault.TapeUnread) (T.rack tapes.old) (T.rack tapes.new) }
    ensures faults { IfErr result IsOfBytes }
{
    match file_text(alloc, disc, online, file.number) {
        Ok(Some(text)) => Ok(text),
        Ok(None) => taped_text(alloc, tapes, file),
        Err(fault) => Err(fault),
    }
}

/// The bytes of a file, from its copy on tape.
fn taped_text<T: Tapes>(
    alloc: Global,
    tapes: &mut KnownReels<T>,
    file: &FileRec,
) -> Result<Text, LookFault>
    ensures bytes { IfOk result (λ text. OfDumps (T.rack tapes.old) (λ dumps. IsHeldBy dumps file.now text)) }
    ensures lost { result ≡ Err LookFault.NoCopy → AreMounted (T.rack tapes.old)
        → OfDumps (T.rack tapes.old) (λ dumps. IsNowhere dumps file.now) }
    ensures tapes { ReadsRackByCause (result ≡ Err LookFault.TapeUnread) (T.rack tapes.old) (T.rack tapes.new) }
    ensures faults { IfErr result IsOfCopy }
{
    match file.tape {
        Some(copy) => copy_text(alloc, tapes, &copy, file.len),
        None => Err(LookFault::NoCopy),
    }
}

/// The bytes of a copy.
fn copy_text<T: Tapes>(
    alloc: Global,
    tapes: &mut KnownReels<T>,
    copy: &TapeCopy,
    len: u32,
) -> Result<Text, LookFault>
    ensures bytes { IfOk result (λ text. OfDumps (T.rack tapes.old) (λ dumps. IsHeldAt dumps copy.now len text)) }
    ensures lost { result ≡ Err LookFault.NoCopy → AreMounted (T.rack tapes.old)
        → OfDumps (T.rack tapes.old) (λ dumps. IsHeldNowhere dumps copy.now len) }
    ensures tapes { ReadsRackByCause (result ≡ Err LookFault.TapeUnread) (T.rack tapes.old) (T.rack tapes.new) }
    ensures faults { IfErr result IsOfCopy }
{
    match tape_bytes(alloc, tapes, copy, len) {
        Ok(Some(text)) => Ok(text),
        Ok(None) => Err(LookFault::NoCopy),
        Err(ShelfFault::ReadFault) => Err(LookFault::TapeUnread),
        Err(ShelfFault::NoMemory) => Err(LookFault::NoMemory),
        Err(ShelfFault::NoTape) => Err(LookFault::NoCopy),
        Err(ShelfFault::NotMounted) => Err(LookFault::NoCopy),
    }
}
