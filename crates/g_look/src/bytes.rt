//! The rule about the bytes of a version, which may be at up to three places.
ghost use Rattle.std.specs.List.{list_any};
ghost use Rattle.std.specs.Prelude.{◌≡◌, ◌≢◌, ◌==◌, ◌⊎◌, ℕ, ◌<◌, All, Contains, Err, IfErr, IfNone, IfOk, IfSome, List, OnErr, length, None, Some, true};
ghost use Rattle.g_copy.specs.Copy.{IsCopy};
ghost use Rattle.g_copy.specs.declared.copy.DiscCopy.{DiscCopy};
ghost use Rattle.g_disc.specs.Disc.{ReadsByCause};
ghost use Rattle.g_dirs.specs.Directory.{copy_at};
ghost use Rattle.g_entry.specs.declared.file_rec.FileRec.{FileRec};
ghost use Rattle.g_store_meaning.specs.Meaning.{told_reels};
ghost use Rattle.g_look.specs.Looks.{ReadsRackByCause};
ghost use Rattle.g_look.specs.Reads.{AreRead, IsFileRead, IsOtherRead, IsReadAt};
ghost use Rattle.g_look.specs.Standing.{IsSound};
ghost use Rattle.g_look.specs.Texts.{AgreeAt, AllAgree, AreBytesOther, DifferAt, FileAgrees, FileDiffers, IsDiscText, IsDumpedPlace, IsSecond, IsTapeText, TwoDiffer};

use crate::tape::tape_text;
use crate::{Broken, Lie, LookFault};
use g_copy::{CopyFault, DiscCopy, read_copy};
use g_dirs::{Dirs, FileCopy};
use g_disc::Disc;
use g_entry::{FileRec, TapeCopy};
use g_name::Text;
use g_tape::Tapes;
use g_tree::full_of;
use std::alloc::Global;

/// Rule 12: a version whose bytes differ at two of its places. Each place that a file of the disc, or a dumped record of its stamp, names is read.
/// `DiscUnread`, `TapeUnread`, `NoMemory`.
pub(crate) fn judge_bytes<D: Disc, T: Tapes>(
    alloc: Global,
    disc: &mut D,
    tapes: &mut T,
    dirs: &Dirs,
    dumped: &[FileRec],
) -> Result<Option<Broken>, LookFault>
    requires size { 2177 < (D.state disc.old).size }
    requires sound { IsSound (D.state disc.old).size dirs.now }
    requires mounted { All (λ r. r.mounted ≡ true) (told_reels (T.rack tapes.old)) }
    ensures some { IfOk result (λ broken. IfSome broken (AreBytesOther (D.state disc.old).held (told_reels (T.rack tapes.old))
        dirs.now.online.items dumped.now dirs.now.users.items dirs.now.files.items)) }
    ensures none { IfOk result (λ broken. IfNone broken ((r : FileRec) → Contains dirs.now.files.items r
        → FileAgrees (D.state disc.old).held (told_reels (T.rack tapes.old)) dirs.now.online.items dumped.now r)) }
    ensures read { IfOk result (λ broken. IfNone broken (AreRead (T.rack tapes.old) (T.rack tapes.new) dirs.now.files.items dumped.now)) }
    ensures disc { ReadsByCause (result ≡ Err LookFault.DiscUnread) (D.state disc.old) (D.state disc.new) }
    ensures tapes { ReadsRackByCause (result ≡ Err LookFault.TapeUnread) (T.rack tapes.old) (T.rack tapes.new) }
    ensures faults { IfErr result (λ e. (e ≡ LookFault.DiscUnread) ⊎ ((e ≡ LookFault.TapeUnread) ⊎ (e ≡ LookFault.NoMemory))) }
{
    match compare_files(alloc, disc, tapes, dirs, dumped) {
        Ok(None) => {}
        Ok(Some(broken)) => return Ok(Some(broken)),
        Err(fault) => return Err(fault),
    }
    match read_others(alloc, tapes, dirs.files.as_slice(), dumped) {
        Ok(()) => Ok(None),
        Err(fault) => Err(fault),
    }
}

/// The first file whose bytes differ at two of its places.
fn compare_files<D: Disc, T: Tapes>(
    alloc: Global,
    disc: &mut D,
    tapes: &mut T,
    dirs: &Dirs,
    dumped: &[FileRec],
) -> Result<Option<Broken>, LookFault>
    requires size { 2177 < (D.state disc.old).size }
    requires sound { IsSound (D.state disc.old).size dirs.now }
    requires mounted { All (λ r. r.mounted ≡ true) (told_reels (T.rack tapes.old)) }
    ensures some { IfOk result (λ broken. IfSome broken (AreBytesOther (D.state disc.old).held (told_reels (T.rack tapes.old))
        dirs.now.online.items dumped.now dirs.now.users.items dirs.now.files.items)) }
    ensures none { IfOk result (λ broken. IfNone broken ((r : FileRec) → Contains dirs.now.files.items r
        → FileAgrees (D.state disc.old).held (told_reels (T.rack tapes.old)) dirs.now.online.items dumped.now r)) }
    ensures read { IfOk result (λ broken. IfNone broken ((r : FileRec) → Contains dirs.now.files.items r
        → IsFileRead (T.rack tapes.old) (T.rack tapes.new) dumped.now r)) }
    ensures disc { ReadsByCause (result ≡ Err LookFault.DiscUnread) (D.state disc.old) (D.state disc.new) }
    ensures tapes { ReadsRackByCause (result ≡ Err LookFault.TapeUnread) (T.rack tapes.old) (T.rack tapes.new) }
    ensures faults { IfErr result (λ e. (e ≡ LookFault.DiscUnread) ⊎ ((e ≡ LookFault.TapeUnread) ⊎ (e ≡ LookFault.NoMemory))) }
{
    for file in dirs.files.as_slice() {
        match compare_file(alloc, disc, tapes, dirs, file, dumped) {
            Ok(None) => {}
            Ok(Some((one, other))) => {
                return Ok(Some(Broken::Bytes {
                    full: full_of(dirs.users.as_slice(), file),
                    stamp: file.stamp,
                    one,
                    other,
                }));
            }
            Err(fault) => return Err(fault),
        }
    }
    Ok(None)
}

/// Two places of the file's version at which the bytes differ.
fn compare_file<D: Disc, T: Tapes>(
    alloc: Global,
    disc: &mut D,
    tapes: &mut T,
    dirs: &Dirs,
    file: &FileRec,
    dumped: &[FileRec],
) -> Result<Option<(Lie, Lie)>, LookFault>
    requires size { 2177 < (D.state disc.old).size }
    requires sound { IsSound (D.state disc.old).size dirs.now }
    requires there { Contains dirs.now.files.items file.now }
    requires mounted { All (λ r. r.mounted ≡ true) (told_reels (T.rack tapes.old)) }
    ensures some { IfOk result (λ pair. IfSome pair (λ p. FileDiffers (D.state disc.old).held (told_reels (T.rack tapes.old))
        dirs.now.online.items dumped.now file.now p.0 p.1)) }
    ensures none { IfOk result (λ pair. IfNone pair (FileAgrees (D.state disc.old).held (told_reels (T.rack tapes.old))
        dirs.now.online.items dumped.now file.now)) }
    ensures read { IfOk result (λ pair. IsFileRead (T.rack tapes.old) (T.rack tapes.new) dumped.now file.now) }
    ensures disc { ReadsByCause (result ≡ Err LookFault.DiscUnread) (D.state disc.old) (D.state disc.new) }
    ensures tapes { ReadsRackByCause (result ≡ Err LookFault.TapeUnread) (T.rack tapes.old) (T.rack tapes.new) }
    ensures faults { IfErr result (λ e. (e ≡ LookFault.DiscUnread) ⊎ ((e ≡ LookFault.TapeUnread) ⊎ (e ≡ LookFault.NoMemory))) }
{
    let there = match file_text(alloc, disc, dirs.online.as_slice(), file.number) {
        Ok(there) => there,
        Err(fault) => return Err(fault),
    };
    let place = dumped_place(dumped, file.stamp);
    let second = second_place(file.tape, place);
    compare_texts(alloc, tapes, &there, file.tape, second, file.len)
}

/// The place of the dumped record of this stamp.
fn dumped_place(dumped: &[FileRec], stamp: u64) -> Option<TapeCopy>
    ensures { IsDumpedPlace dumped.now stamp result }
{
    for of in dumped {
        if of.stamp == stamp && of.tape.is_some() {
            return of.tape;
        }
    }
    None
}

/// The dumped record's place, if it isn't the file's.
fn second_place(tape: Option<TapeCopy>, place: Option<TapeCopy>) -> Option<TapeCopy>
    ensures { IsSecond tape place result }
{
    if place == tape { None } else { place }
}

/// The bytes of the file of this number, if it is on the disc.
pub(crate) fn file_text<D: Disc>(
    alloc: Global,
    disc: &mut D,
    online: &[FileCopy],
    number: u16,
) -> Result<Option<Text>, LookFault>
    requires size { 2177 < (D.state disc.old).size }
    requires copy { IfSome (copy_at online.now number) (IsCopy (D.state disc.old).size) }
    ensures text { IfOk result (IsDiscText (D.state disc.old).held (copy_at online.now number)) }
    ensures long { IfOk result (λ text. IfSome text (λ bytes. (c : DiscCopy)
        × (copy_at online.now number ≡ Some c) × (length bytes ≡ c.len))) }
    ensures none { IfOk result (λ text. IfNone text (copy_at online.now number ≡ None)) }
    ensures disc { ReadsByCause (result ≡ Err LookFault.DiscUnread) (D.state disc.old) (D.state disc.new) }
    ensures only { OnErr result ((result ≡ Err LookFault.DiscUnread) ⊎ (result ≡ Err LookFault.NoMemory)) }
{
    match copy_at(online, number) {
        Some(copy) => match read_copy(alloc, disc, &copy) {
            Ok(text) => Ok(Some(text)),
            Err(CopyFault::ReadFault) => Err(LookFault::DiscUnread),
            Err(_) => Err(LookFault::NoMemory),
        },
        None => Ok(None),
    }
}

/// The copy on disc of the file of this number.
pub fn copy_at(online: &[FileCopy], number: u16) -> Option<DiscCopy>
    ensures { result ≡ copy_at online.now number }
{
    for one in online {
        if one.number() == number {
            return Some(one.get().copy());
        }
    }
    None
}

/// Two places with different bytes, among the disc, which has these bytes if it has any, and two on tape.
fn compare_texts<T: Tapes>(
    alloc: Global,
    tapes: &mut T,
    there: &Option<Text>,
    first: Option<TapeCopy>,
    second: Option<TapeCopy>,
    len: u32,
) -> Result<Option<(Lie, Lie)>, LookFault>
    requires mounted { All (λ r. r.mounted ≡ true) (told_reels (T.rack tapes.old)) }
    ensures some { IfOk result (λ pair. IfSome pair (λ p. DifferAt (told_reels (T.rack tapes.old)) len there.now first second p.0 p.1)) }
    ensures none { IfOk result (λ pair. IfNone pair (AgreeAt (told_reels (T.rack tapes.old)) len there.now first second)) }
    ensures first { IfOk result (λ pair. IsReadAt (T.rack tapes.old) (T.rack tapes.new) first len) }
    ensures second { IfOk result (λ pair. IsReadAt (T.rack tapes.old) (T.rack tapes.new) second len) }
    ensures tapes { ReadsRackByCause (result ≡ Err LookFault.TapeUnread) (T.rack tapes.old) (T.rack tapes.new) }
    ensures only { OnErr result ((result ≡ Err LookFault.TapeUnread) ⊎ (result ≡ Err LookFault.NoMemory)) }
{
    let x = match place_text(alloc, tapes, first, len) {
        Ok(x) => x,
        Err(fault) => return Err(fault),
    };
    let y = match place_text(alloc, tapes, second, len) {
        Ok(y) => y,
        Err(fault) => return Err(fault),
    };
    Ok(differing(there, first, &x, second, &y))
}

/// The bytes at a place on tape, if it is one.
fn place_text<T: Tapes>(
    alloc: Global,
    tapes: &mut T,
    place: Option<TapeCopy>,
    len: u32,
) -> Result<Text, LookFault>
    requires mounted { All (λ r. r.mounted ≡ true) (told_reels (T.rack tapes.old)) }
    ensures text { IfOk result (λ text. IfSome place (λ c. IsTapeText (told_reels (T.rack tapes.old)) c len text)) }
    ensures read { IfOk result (λ text. IsReadAt (T.rack tapes.old) (T.rack tapes.new) place len) }
    ensures tapes { ReadsRackByCause (result ≡ Err LookFault.TapeUnread) (T.rack tapes.old) (T.rack tapes.new) }
    ensures only { OnErr result ((result ≡ Err LookFault.TapeUnread) ⊎ (result ≡ Err LookFault.NoMemory)) }
{
    match place {
        Some(copy) => tape_text(alloc, tapes, &copy, len),
        None => Ok(Text::new(alloc)),
    }
}

/// Two of the places whose bytes differ: the disc, if it has any, and two on tape, if they are given.
fn differing(
    there: &Option<Text>,
    first: Option<TapeCopy>,
    x: &Text,
    second: Option<TapeCopy>,
    y: &Text,
) -> Option<(Lie, Lie)>
    ensures some { IfSome result (λ p. TwoDiffer there.now first x.now second y.now p.0 p.1) }
    ensures none { IfNone result (AllAgree there.now first x.now second y.now) }
{
    match against_disc(there, first, x) {
        Some(copy) => return Some((Lie::Disc, Lie::Tape(copy))),
        None => {}
    }
    match against_disc(there, second, y) {
        Some(copy) => return Some((Lie::Disc, Lie::Tape(copy))),
        None => {}
    }
    match against_tape(first, x, second, y) {
        Some((one, other)) => Some((Lie::Tape(one), Lie::Tape(other))),
        None => None,
    }
}

/// The place on tape, if it is given, the disc has bytes, and they differ.
fn against_disc(there: &Option<Text>, place: Option<TapeCopy>, text: &Text) -> Option<TapeCopy>
    ensures place { IfSome result (λ c. place ≡ Some c) }
    ensures differ { IfSome result (λ c. (bytes : List ℕ) × (there.now ≡ Some bytes) × (bytes ≢ text.now)) }
    ensures none { IfNone result (IfSome there.now (λ bytes. IfSome place (λ c. bytes ≡ text.now))) }
{
    match there {
        Some(bytes) => match place {
            Some(copy) => {
                if bytes.as_slice() == text.as_slice() {
                    None
                } else {
                    Some(copy)
                }
            }
            None => None,
        },
        None => None,
    }
}

/// Two places on tape, if both are given and their bytes differ.
fn against_tape(
    first: Option<TapeCopy>,
    x: &Text,
    second: Option<TapeCopy>,
    y: &Text,
) -> Option<(TapeCopy, TapeCopy)>
    ensures places { IfSome result (λ p. (first ≡ Some p.0) × (second ≡ Some p.1)) }
    ensures differ { IfSome result (λ p. x.now ≢ y.now) }
    ensures none { IfNone result (IfSome first (λ c. IfSome second (λ e. x.now ≡ y.now))) }
{
    match first {
        Some(one) => match second {
            Some(other) => {
                if x.as_slice() == y.as_slice() {
                    None
                } else {
                    Some((one, other))
                }
            }
            None => None,
        },
        None => None,
    }
}

/// Reads the copies of the dumped records whose stamp no file has, so that an unreadable block is reported.
pub(crate) fn read_others<T: Tapes>(
    alloc: Global,
    tapes: &mut T,
    files: &[FileRec],
    dumped: &[FileRec],
) -> Result<(), LookFault>
    requires mounted { All (λ r. r.mounted ≡ true) (told_reels (T.rack tapes.old)) }
    ensures read { IfOk result (λ u. (of : FileRec) → Contains dumped.now of → IsOtherRead (T.rack tapes.old) (T.rack tapes.new) files.now of) }
    ensures tapes { ReadsRackByCause (result ≡ Err LookFault.TapeUnread) (T.rack tapes.old) (T.rack tapes.new) }
    ensures only { OnErr result ((result ≡ Err LookFault.TapeUnread) ⊎ (result ≡ Err LookFault.NoMemory)) }
{
    for of in dumped {
        match read_other(alloc, tapes, files, of) {
            Ok(()) => {}
            Err(fault) => return Err(fault),
        }
    }
    Ok(())
}

/// Reads the copy of the dumped record, if no file has its stamp.
fn read_other<T: Tapes>(
    alloc: Global,
    tapes: &mut T,
    files: &[FileRec],
    of: &FileRec,
) -> Result<(), LookFault>
    requires mounted { All (λ r. r.mounted ≡ true) (told_reels (T.rack tapes.old)) }
    ensures read { IfOk result (λ u. IsOtherRead (T.rack tapes.old) (T.rack tapes.new) files.now of.now) }
    ensures tapes { ReadsRackByCause (result ≡ Err LookFault.TapeUnread) (T.rack tapes.old) (T.rack tapes.new) }
    ensures only { OnErr result ((result ≡ Err LookFault.TapeUnread) ⊎ (result ≡ Err LookFault.NoMemory)) }
{
    if has_stamp(files, of.stamp) {
        return Ok(());
    }
    match place_text(alloc, tapes, of.tape, of.len) {
        Ok(_text) => Ok(()),
        Err(fault) => Err(fault),
    }
}

/// Whether a file has this stamp.
fn has_stamp(files: &[FileRec], stamp: u64) -> bool
    ensures { result ≡ list_any (λ r. r.stamp == stamp) files.now }
{
    files.iter().any(|file| file.stamp == stamp)
}
