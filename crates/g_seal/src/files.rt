//! The lines of the files of a disc.
ghost use Rattle.std.specs.Prelude.{◌≡◌, ◌<◌, ◌++◌, All, Contains, Err, IfErr, IfOk, IfSome, None, OnOk, map, true};
ghost use Rattle.std.specs.Option.{ForSome};
ghost use Rattle.sha2.specs.Sha256.{sha256};
ghost use Rattle.g_copy.specs.Copy.{IsCopy};
ghost use Rattle.g_disc.specs.Disc.{ReadsByCause};
ghost use Rattle.g_dirs.specs.Directory.{copy_at};
ghost use Rattle.g_entry.specs.declared.file_rec.FileRec.{FileRec};
ghost use Rattle.g_lines.specs.Lines.{ended, text_of};
ghost use Rattle.g_store_meaning.specs.Meaning.{told_reels};
ghost use Rattle.g_store_meaning.specs.Reading.{ReelsTold};
ghost use Rattle.g_look.specs.Looks.{ReadsRackByCause};
ghost use Rattle.g_look.specs.Standing.{IsSound, found_in};
ghost use Rattle.g_seal.specs.InMemory.{rec_line};
ghost use Rattle.g_seal.specs.SealText.{file_line};
ghost use Rattle.g_seal.specs.Sealing.{HasNowhere, IsNowhere, IsOfSeal, IsOfTape, bytes_of, sealed_files, taped_bytes};

use crate::SealedFile;
use crate::disc_sum::disc_sum;
use crate::lines::push_file_line;
use crate::reel_sum::reel_sum;
use g_copy::DiscCopy;
use g_dirs::Dirs;
use g_disc::Disc;
use g_entry::{FileRec, Format};
use g_look::{LookFault, copy_at};
use g_name::Text;
use g_tape::Tapes;
use g_tree::full_of;

/// Appends a line for each file of what the disc holds to the text, or nothing if it holds no filestore. `NoCopy`: the bytes of a file are
/// neither on the disc nor on a reel of the rack; `DiscUnread`, `TapeUnread`, `NoMemory`.
pub(crate) fn push_held<D: Disc, T: Tapes>(
    text: &mut Text,
    disc: &mut D,
    tapes: &mut T,
    held: &Option<(Format, Dirs)>,
) -> Result<(), LookFault>
    requires size { 2177 < (D.state disc.old).size }
    requires sound { IfSome held.now (λ f. IsSound (D.state disc.old).size f.1) }
    requires mounted { All (λ r. r.mounted ≡ true) (told_reels (T.rack tapes.old)) }
    ensures text { ReelsTold (told_reels (T.rack tapes.old)) → ForSome (D.state disc.old).held (λ blocks. OnOk result (text.new ≡ text.old
        ++ text_of (map file_line (sealed_files blocks (told_reels (T.rack tapes.old)) (found_in held.now))))) }
    ensures no_copy { result ≡ Err LookFault.NoCopy → HasNowhere (told_reels (T.rack tapes.old)) (found_in held.now) }
    ensures disc { ReadsByCause (result ≡ Err LookFault.DiscUnread) (D.state disc.old) (D.state disc.new) }
    ensures tapes { ReadsRackByCause (result ≡ Err LookFault.TapeUnread) (T.rack tapes.old) (T.rack tapes.new) }
    ensures faults { IfErr result IsOfSeal }
{
    match held {
        Some((_format, dirs)) => push_files(text, disc, tapes, dirs),
        None => Ok(()),
    }
}

/// Appends a line for each file of the directory to the text. `NoCopy`: the bytes of a file are neither on the disc nor on a
/// reel of the rack; `DiscUnread`, `TapeUnread`, `NoMemory`.
fn push_files<D: Disc, T: Tapes>(
    text: &mut Text,
    disc: &mut D,
    tapes: &mut T,
    dirs: &Dirs,
) -> Result<(), LookFault>
    requires size { 2177 < (D.state disc.old).size }
    requires sound { IsSound (D.state disc.old).size dirs.now }
    requires mounted { All (λ r. r.mounted ≡ true) (told_reels (T.rack tapes.old)) }
    ensures text { ReelsTold (told_reels (T.rack tapes.old)) → ForSome (D.state disc.old).held (λ blocks. OnOk result (text.new ≡ text.old
        ++ text_of (map (rec_line blocks (told_reels (T.rack tapes.old)) dirs.now.users.items dirs.now.online.items) dirs.now.files.items))) }
    ensures no_copy { result ≡ Err LookFault.NoCopy → (r : FileRec) × Contains dirs.now.files.items r
        × IsNowhere (told_reels (T.rack tapes.old)) r (copy_at dirs.now.online.items r.number) }
    ensures disc { ReadsByCause (result ≡ Err LookFault.DiscUnread) (D.state disc.old) (D.state disc.new) }
    ensures tapes { ReadsRackByCause (result ≡ Err LookFault.TapeUnread) (T.rack tapes.old) (T.rack tapes.new) }
    ensures faults { IfErr result IsOfSeal }
{
    for file in dirs.files.as_slice() {
        match push_file(text, disc, tapes, dirs, file) {
            Ok(()) => {}
            Err(fault) => return Err(fault),
        }
    }
    Ok(())
}

/// Appends the line of a file to the text.
fn push_file<D: Disc, T: Tapes>(
    text: &mut Text,
    disc: &mut D,
    tapes: &mut T,
    dirs: &Dirs,
    file: &FileRec,
) -> Result<(), LookFault>
    requires size { 2177 < (D.state disc.old).size }
    requires sound { IsSound (D.state disc.old).size dirs.now }
    requires there { Contains dirs.now.files.items file.now }
    requires mounted { All (λ r. r.mounted ≡ true) (told_reels (T.rack tapes.old)) }
    ensures text { ReelsTold (told_reels (T.rack tapes.old)) → ForSome (D.state disc.old).held (λ blocks. OnOk result (text.new ≡ text.old
        ++ ended (rec_line blocks (told_reels (T.rack tapes.old)) dirs.now.users.items dirs.now.online.items file.now))) }
    ensures no_copy { result ≡ Err LookFault.NoCopy
        → IsNowhere (told_reels (T.rack tapes.old)) file.now (copy_at dirs.now.online.items file.now.number) }
    ensures disc { ReadsByCause (result ≡ Err LookFault.DiscUnread) (D.state disc.old) (D.state disc.new) }
    ensures tapes { ReadsRackByCause (result ≡ Err LookFault.TapeUnread) (T.rack tapes.old) (T.rack tapes.new) }
    ensures faults { IfErr result IsOfSeal }
{
    let copy = copy_at(dirs.online.as_slice(), file.number);
    let sum = match file_sum(disc, tapes, &copy, file) {
        Ok(sum) => sum,
        Err(fault) => return Err(fault),
    };
    let sealed = SealedFile {
        full: full_of(dirs.users.as_slice(), file),
        len: file.len,
        stamp: file.stamp,
        sum,
        online: copy.is_some(),
        tape: file.tape,
    };
    match push_file_line(text, &sealed) {
        Ok(()) => Ok(()),
        Err(_) => Err(LookFault::NoMemory),
    }
}

/// The sum of a file's bytes, on the disc if it is there, otherwise on its reel.
fn file_sum<D: Disc, T: Tapes>(
    disc: &mut D,
    tapes: &mut T,
    copy: &Option<DiscCopy>,
    file: &FileRec,
) -> Result<[u8; 32], LookFault>
    requires size { 2177 < (D.state disc.old).size }
    requires copy { IfSome copy.now (IsCopy (D.state disc.old).size) }
    requires mounted { All (λ r. r.mounted ≡ true) (told_reels (T.rack tapes.old)) }
    ensures sum { ReelsTold (told_reels (T.rack tapes.old)) → ForSome (D.state disc.old).held (λ blocks. IfOk result (λ sum.
        sum ≡ sha256 (bytes_of blocks (told_reels (T.rack tapes.old)) file.now copy.now))) }
    ensures no_copy { result ≡ Err LookFault.NoCopy → IsNowhere (told_reels (T.rack tapes.old)) file.now copy.now }
    ensures disc { ReadsByCause (result ≡ Err LookFault.DiscUnread) (D.state disc.old) (D.state disc.new) }
    ensures tapes { ReadsRackByCause (result ≡ Err LookFault.TapeUnread) (T.rack tapes.old) (T.rack tapes.new) }
    ensures faults { IfErr result IsOfSeal }
{
    match copy {
        Some(copy) => match disc_sum(disc, copy) {
            Ok(sum) => Ok(sum),
            Err(_) => Err(LookFault::DiscUnread),
        },
        None => taped_sum(tapes, file),
    }
}

/// The sum of a file's bytes on its reel.
fn taped_sum<T: Tapes>(tapes: &mut T, file: &FileRec) -> Result<[u8; 32], LookFault>
    requires mounted { All (λ r. r.mounted ≡ true) (told_reels (T.rack tapes.old)) }
    ensures sum { ReelsTold (told_reels (T.rack tapes.old)) → IfOk result (λ sum.
        sum ≡ sha256 (taped_bytes (told_reels (T.rack tapes.old)) file.now.tape file.now.len)) }
    ensures no_copy { result ≡ Err LookFault.NoCopy → IsNowhere (told_reels (T.rack tapes.old)) file.now None }
    ensures tapes { ReadsRackByCause (result ≡ Err LookFault.TapeUnread) (T.rack tapes.old) (T.rack tapes.new) }
    ensures faults { IfErr result IsOfTape }
{
    match file.tape {
        Some(copy) => match reel_sum(tapes, &copy, file.len) {
            Ok(Some(sum)) => Ok(sum),
            Ok(None) => Err(LookFault::NoCopy),
            Err(fault) => Err(fault),
        },
        None => Err(LookFault::NoCopy),
    }
}
