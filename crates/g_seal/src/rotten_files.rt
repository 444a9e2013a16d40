//! The files of a disc whose sealed bytes have changed.
ghost use Rattle.std.specs.Prelude.{◌≡◌, ◌⊎◌, ◌<◌, ◌==◌, ◌++◌, All, Contains, Err, IfErr, IfOk, IfSome, MatchOption, None, OnOk, Some, option_map, true};
ghost use Rattle.std.specs.List.{flat_map, list_any};
ghost use Rattle.std.specs.Option.{ForSome};
ghost use Rattle.g_copy.specs.Copy.{IsCopy};
ghost use Rattle.g_disc.specs.Disc.{ReadsByCause};
ghost use Rattle.g_lines.specs.Lines.{text_of};
ghost use Rattle.g_store_meaning.specs.Meaning.{told_reels};
ghost use Rattle.g_store_meaning.specs.Reading.{ReelsTold};
ghost use Rattle.g_look.specs.Looks.{ReadsRackByCause};
ghost use Rattle.g_look.specs.Standing.{IsSound, found_in};
ghost use Rattle.g_seal.specs.InMemory.{rec_lines, rec_of, rec_version};
ghost use Rattle.g_seal.specs.Rotten.{disc_state, is_inside, is_left_out, is_same_place, rotten_files, tape_state};
ghost use Rattle.g_seal.specs.Sealing.{IsOfReport};

use crate::disc_sum::disc_sum;
use crate::reel_state::{reel_state, sum_state};
use crate::rotten_line::push_version;
use crate::versions::{CopyState, FoundVersion};
use crate::{RottenDump, SealedFile, Twins};
use g_copy::DiscCopy;
use g_dirs::Dirs;
use g_disc::Disc;
use g_entry::{FileRec, Format, TapeCopy};
use g_look::{LookFault, copy_at};
use g_name::Text;
use g_tape::Tapes;
use g_tree::full_of;

/// The rotten dumps of the first rack, what a second one has, and the files of a seal.
#[derive(Drop)]
pub(crate) struct Sought<'a> {
    pub rotten: &'a [RottenDump],
    pub twins: &'a Twins,
    pub files: &'a [SealedFile],
}

/// Appends a line for each file of what the disc holds that is rotten, or nothing if it holds no filestore. `DiscUnread`, `TapeUnread`, `NoMemory`.
pub(crate) fn push_rotten_held<D: Disc, T: Tapes>(
    text: &mut Text,
    disc: &mut D,
    tapes: &mut T,
    held: &Option<(Format, Dirs)>,
    sought: &Sought,
) -> Result<(), LookFault>
    requires size { 2177 < (D.state disc.old).size }
    requires sound { IfSome held.now (λ f. IsSound (D.state disc.old).size f.1) }
    requires mounted { All (λ r. r.mounted ≡ true) (told_reels (T.rack tapes.old)) }
    ensures text { ReelsTold (told_reels (T.rack tapes.old)) → ForSome (D.state disc.old).held (λ blocks. OnOk result (text.new ≡ text.old
        ++ text_of (rotten_files blocks (told_reels (T.rack tapes.old))
        (record { rotten = sought.now.rotten.now; twins = sought.now.twins.now }) (found_in held.now) sought.now.files.now))) }
    ensures disc { ReadsByCause (result ≡ Err LookFault.DiscUnread) (D.state disc.old) (D.state disc.new) }
    ensures tapes { ReadsRackByCause (result ≡ Err LookFault.TapeUnread) (T.rack tapes.old) (T.rack tapes.new) }
    ensures faults { IfErr result IsOfReport }
{
    match held {
        Some((_format, dirs)) => push_rotten_files(text, disc, tapes, dirs, sought),
        None => Ok(()),
    }
}

/// Appends a line for each file of the directory that is rotten.
fn push_rotten_files<D: Disc, T: Tapes>(
    text: &mut Text,
    disc: &mut D,
    tapes: &mut T,
    dirs: &Dirs,
    sought: &Sought,
) -> Result<(), LookFault>
    requires size { 2177 < (D.state disc.old).size }
    requires sound { IsSound (D.state disc.old).size dirs.now }
    requires mounted { All (λ r. r.mounted ≡ true) (told_reels (T.rack tapes.old)) }
    ensures text { ReelsTold (told_reels (T.rack tapes.old)) → ForSome (D.state disc.old).held (λ blocks. OnOk result (text.new ≡ text.old
        ++ text_of (flat_map (rec_lines blocks (told_reels (T.rack tapes.old)) (record { rotten = sought.now.rotten.now; twins = sought.now.twins.now })
        dirs.now.users.items dirs.now.online.items dirs.now.files.items) sought.now.files.now))) }
    ensures disc { ReadsByCause (result ≡ Err LookFault.DiscUnread) (D.state disc.old) (D.state disc.new) }
    ensures tapes { ReadsRackByCause (result ≡ Err LookFault.TapeUnread) (T.rack tapes.old) (T.rack tapes.new) }
    ensures faults { IfErr result IsOfReport }
{
    for sealed in sought.files {
        match found_version(disc, tapes, dirs, sought, sealed) {
            Ok(found) => match push_version(text, &found) {
                Ok(()) => {}
                Err(_) => return Err(LookFault::NoMemory),
            },
            Err(fault) => return Err(fault),
        }
    }
    Ok(())
}

/// The version of a sealed file, if the disc still has it.
fn found_version<D: Disc, T: Tapes>(
    disc: &mut D,
    tapes: &mut T,
    dirs: &Dirs,
    sought: &Sought,
    sealed: &SealedFile,
) -> Result<Option<FoundVersion>, LookFault>
    requires size { 2177 < (D.state disc.old).size }
    requires sound { IsSound (D.state disc.old).size dirs.now }
    requires mounted { All (λ r. r.mounted ≡ true) (told_reels (T.rack tapes.old)) }
    ensures version { ReelsTold (told_reels (T.rack tapes.old)) → ForSome (D.state disc.old).held (λ blocks. IfOk result (λ found. found
        ≡ option_map (rec_version blocks (told_reels (T.rack tapes.old)) (record { rotten = sought.now.rotten.now; twins = sought.now.twins.now })
        dirs.now.users.items dirs.now.online.items sealed.now)
        (rec_of dirs.now.files.items sealed.now.stamp))) }
    ensures disc { ReadsByCause (result ≡ Err LookFault.DiscUnread) (D.state disc.old) (D.state disc.new) }
    ensures tapes { ReadsRackByCause (result ≡ Err LookFault.TapeUnread) (T.rack tapes.old) (T.rack tapes.new) }
    ensures faults { IfErr result IsOfReport }
{
    let file = match file_of(dirs.files.as_slice(), sealed.stamp) {
        Some(file) => file,
        None => return Ok(None),
    };
    let copy = copy_at(dirs.online.as_slice(), file.number);
    let on_disc = match disc_state(disc, &copy, &sealed.sum) {
        Ok(state) => state,
        Err(fault) => return Err(fault),
    };
    let on_tape = match tape_state(tapes, sought.rotten, sealed, on_disc, file) {
        Ok(state) => state,
        Err(fault) => return Err(fault),
    };
    Ok(Some(FoundVersion {
        full: full_of(dirs.users.as_slice(), file),
        stamp: file.stamp,
        place: file.tape,
        disc: on_disc,
        tape: on_tape,
        twin: sought.twins.state_of(sealed, on_disc, &file.tape),
    }))
}

/// The file with this stamp.
fn file_of(files: &[FileRec], stamp: u64) -> Option<&FileRec>
    ensures found { MatchOption result (rec_of files.now stamp ≡ None) (λ file. rec_of files.now stamp ≡ Some file.now) }
    ensures there { IfSome result (λ file. Contains files.now file.now) }
{
    for file in files {
        if file.stamp == stamp {
            return Some(file);
        }
    }
    None
}

/// The state of a version's copy on disc.
fn disc_state<D: Disc>(
    disc: &mut D,
    copy: &Option<DiscCopy>,
    due: &[u8; 32],
) -> Result<CopyState, LookFault>
    requires size { 2177 < (D.state disc.old).size }
    requires copy { IfSome copy.now (IsCopy (D.state disc.old).size) }
    ensures state { ForSome (D.state disc.old).held (λ blocks. IfOk result (λ s. s ≡ disc_state blocks due.now copy.now)) }
    ensures disc { ReadsByCause (result ≡ Err LookFault.DiscUnread) (D.state disc.old) (D.state disc.new) }
    ensures faults { IfErr result (λ e. e ≡ LookFault.DiscUnread) }
{
    match copy {
        Some(copy) => match disc_sum(disc, copy) {
            Ok(sum) => Ok(sum_state(&sum, due)),
            Err(_) => Err(LookFault::DiscUnread),
        },
        None => Ok(CopyState::Absent),
    }
}

/// The state of a version's copy on tape, by that of its copy on disc.
fn tape_state<T: Tapes>(
    tapes: &mut T,
    rotten: &[RottenDump],
    sealed: &SealedFile,
    disc: CopyState,
    file: &FileRec,
) -> Result<CopyState, LookFault>
    requires mounted { All (λ r. r.mounted ≡ true) (told_reels (T.rack tapes.old)) }
    ensures state { ReelsTold (told_reels (T.rack tapes.old)) → IfOk result (λ s.
        s ≡ tape_state (told_reels (T.rack tapes.old)) rotten.now sealed.now disc file.now.len file.now.tape) }
    ensures tapes { ReadsRackByCause (result ≡ Err LookFault.TapeUnread) (T.rack tapes.old) (T.rack tapes.new) }
    ensures faults { IfErr result (λ e. (e ≡ LookFault.TapeUnread) ⊎ (e ≡ LookFault.NoMemory)) }
{
    match &file.tape {
        Some(copy) => {
            if is_left_out(rotten, sealed, disc, copy) {
                Ok(CopyState::Absent)
            } else {
                reel_state(tapes, copy, file.len, &sealed.sum)
            }
        }
        None => Ok(CopyState::Absent),
    }
}

/// Whether a copy on tape isn't compared: it was sealed only as part of its dump, which isn't rotten, and the disc's copy has the sealed bytes.
pub(crate) fn is_left_out(
    rotten: &[RottenDump],
    sealed: &SealedFile,
    disc: CopyState,
    copy: &TapeCopy,
) -> bool
    ensures { result ≡ is_left_out rotten.now sealed.now disc copy.now }
{
    sealed.online
        && disc.is_sealed()
        && is_same_place(copy, &sealed.tape)
        && !is_inside_any(copy, rotten)
}

/// Whether the copies are at the same place.
pub(crate) fn is_same_place(copy: &TapeCopy, other: &Option<TapeCopy>) -> bool
    ensures { result ≡ is_same_place copy.now other.now }
{
    match other {
        Some(other) => other.serial == copy.serial && other.first == copy.first,
        None => false,
    }
}

/// Whether the copy begins within the blocks of one of the dumps.
fn is_inside_any(copy: &TapeCopy, dumps: &[RottenDump]) -> bool
    ensures { result ≡ list_any (is_inside copy.now) dumps.now }
{
    for dump in dumps {
        if is_inside(copy, dump) {
            return true;
        }
    }
    false
}

/// Whether the copy begins within the blocks of the dump.
fn is_inside(copy: &TapeCopy, dump: &RottenDump) -> bool
    ensures { result ≡ is_inside copy.now dump.now }
{
    dump.serial == copy.serial
        && dump.place <= copy.first
        && u64::from(copy.first) < u64::from(dump.place) + u64::from(dump.blocks)
}
