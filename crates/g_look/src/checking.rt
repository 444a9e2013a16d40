//! The check whether disc and rack belong together, and its text.
ghost use Rattle.std.specs.Prelude.{◌≡◌, ◌⊎◌, ◌↔◌, ◌<◌, All, Err, IfErr, IfNone, IfOk, IsTrue, true};
ghost use Rattle.std.specs.Option.{ForSome};
ghost use Rattle.g_disc.specs.Disc.{ReadsByCause};
ghost use Rattle.g_dirs.specs.Directory.{Directory};
ghost use Rattle.g_dirs.specs.Image.{StandsFor};
ghost use Rattle.g_store_meaning.specs.Meaning.{told_reels};
ghost use Rattle.g_store_meaning.specs.Reading.{AllTold};
ghost use Rattle.g_restore.specs.Gathering.{HasFew};
ghost use Rattle.g_look.specs.Judging.{IsDiscJudged};
ghost use Rattle.g_look.specs.Looks.{ReadsRackByCause};
ghost use Rattle.g_look.specs.Reads.{AreNamedRead, AreRead};
ghost use Rattle.g_look.specs.Rules.{IsVerdict};
ghost use Rattle.g_look.specs.SeenDumps.{AreSeen};
ghost use Rattle.g_look.specs.Standing.{IsSound, IsStanding};
ghost use Rattle.g_look.specs.Text.{IsChecked};

use crate::bytes::{judge_bytes, read_others};
use crate::check_text::check_text;
use crate::disc::{Standing, see_disc};
use crate::gaps::missing;
use crate::head::judge_head;
use crate::rack::{Judged, judge_rack, see_rack};
use crate::records::{no_copy, other_length};
use crate::{Broken, LookFault, Verdict};
use g_dirs::Dirs;
use g_disc::Disc;
use g_entry::FileRec;
use g_name::Text;
use g_restore::Found;
use g_tape::Tapes;
use std::alloc::Global;

/// The result of a check: whether the disc holds a filestore, the rule that disc and rack break, and the text of the check, each line with its byte
/// 10.
#[derive(Drop)]
pub struct Checked {
    pub filestore: bool,
    pub verdict: Verdict,
    pub text: Text,
}

/// Checks whether disc and rack belong together (docs/MANUAL.md, "The rules of a check"). All reels have to be mounted. Both devices are only read:
/// on the disc the gate, the current slot, its head twice, and the blocks of files; on each reel the records of the completed dumps, and each copy
/// that a file names, once. `DiscUnread`, `TapeUnread`, `NoMemory`.
pub fn check<D: Disc, T: Tapes>(
    alloc: Global,
    disc: &mut D,
    tapes: &mut T,
) -> Result<Checked, LookFault>
    requires size { 2177 < (D.state disc.old).size }
    requires mounted { All (λ r. r.mounted ≡ true) (T.rack tapes.old).reels }
    ensures right { AllTold (D.state disc.old).held (told_reels (T.rack tapes.old)) → IfOk result (λ c.
        IsChecked (D.state disc.old).size (D.state disc.old).held (told_reels (T.rack tapes.old)) c.verdict.broken c.verdict.missing c.text) }
    ensures filestore { ForSome (D.state disc.old).held (λ blocks. IfOk result (λ c.
        IsTrue c.filestore ↔ ((d : Directory) × StandsFor blocks d))) }
    ensures read { AllTold (D.state disc.old).held (told_reels (T.rack tapes.old)) → IfOk result (λ c.
        IfNone c.verdict.broken (AreNamedRead (D.state disc.old).held (T.rack tapes.old) (T.rack tapes.new))) }
    ensures disc { ReadsByCause (result ≡ Err LookFault.DiscUnread) (D.state disc.old) (D.state disc.new) }
    ensures tapes { ReadsRackByCause (result ≡ Err LookFault.TapeUnread) (T.rack tapes.old) (T.rack tapes.new) }
    ensures faults { IfErr result (λ e. (e ≡ LookFault.DiscUnread) ⊎ ((e ≡ LookFault.TapeUnread) ⊎ (e ≡ LookFault.NoMemory))) }
{
    let found = match see_rack(alloc, tapes) {
        Ok(found) => found,
        Err(fault) => return Err(fault),
    };
    let standing = match see_disc(alloc, disc) {
        Ok(standing) => standing,
        Err(fault) => return Err(fault),
    };
    let broken = match judge(alloc, disc, tapes, found.as_slice(), &standing) {
        Ok(broken) => broken,
        Err(fault) => return Err(fault),
    };
    let missing = match missing(alloc, found.as_slice()) {
        Ok(missing) => missing,
        Err(_) => return Err(LookFault::NoMemory),
    };
    let verdict = Verdict { broken, missing };
    let size = disc.size();
    match check_text(alloc, size, &standing, found.as_slice(), tapes, &verdict) {
        Ok(text) => Ok(Checked {
            filestore: standing.dirs.is_some(),
            verdict,
            text,
        }),
        Err(_) => Err(LookFault::NoMemory),
    }
}

/// The first rule that is broken.
fn judge<D: Disc, T: Tapes>(
    alloc: Global,
    disc: &mut D,
    tapes: &mut T,
    found: &[Found],
    standing: &Standing,
) -> Result<Option<Broken>, LookFault>
    requires size { 2177 < (D.state disc.old).size }
    requires mounted { All (λ r. r.mounted ≡ true) (told_reels (T.rack tapes.old)) }
    requires few { All HasFew found.now }
    requires standing { IsStanding (D.state disc.old).size (D.state disc.old).held standing.now }
    ensures right { AreSeen (told_reels (T.rack tapes.old)) found.now → AllTold (D.state disc.old).held (told_reels (T.rack tapes.old))
        → IfOk result (IsVerdict (D.state disc.old).held (told_reels (T.rack tapes.old))) }
    ensures read { AreSeen (told_reels (T.rack tapes.old)) found.now → AllTold (D.state disc.old).held (told_reels (T.rack tapes.old))
        → IfOk result (λ broken. IfNone broken (AreNamedRead (D.state disc.old).held (T.rack tapes.old) (T.rack tapes.new))) }
    ensures disc { ReadsByCause (result ≡ Err LookFault.DiscUnread) (D.state disc.old) (D.state disc.new) }
    ensures tapes { ReadsRackByCause (result ≡ Err LookFault.TapeUnread) (T.rack tapes.old) (T.rack tapes.new) }
    ensures faults { IfErr result (λ e. (e ≡ LookFault.DiscUnread) ⊎ ((e ≡ LookFault.TapeUnread) ⊎ (e ≡ LookFault.NoMemory))) }
{
    let dumped = match judge_rack(alloc, found) {
        Ok(Judged::Fits(dumped)) => dumped,
        Ok(Judged::Breaks(broken)) => return Ok(Some(broken)),
        Err(fault) => return Err(fault),
    };
    match &standing.dirs {
        Some((_format, dirs)) => judge_disc(alloc, disc, tapes, found, dirs, dumped.as_slice()),
        None => match read_others(alloc, tapes, &[], dumped.as_slice()) {
            Ok(()) => Ok(None),
            Err(fault) => Err(fault),
        },
    }
}

/// The first rule of the disc that is broken, if the rack breaks none.
fn judge_disc<D: Disc, T: Tapes>(
    alloc: Global,
    disc: &mut D,
    tapes: &mut T,
    found: &[Found],
    dirs: &Dirs,
    dumped: &[FileRec],
) -> Result<Option<Broken>, LookFault>
    requires size { 2177 < (D.state disc.old).size }
    requires mounted { All (λ r. r.mounted ≡ true) (told_reels (T.rack tapes.old)) }
    requires sound { IsSound (D.state disc.old).size dirs.now }
    ensures judged { IfOk result (IsDiscJudged (D.state disc.old).held (told_reels (T.rack tapes.old)) found.now dirs.now dumped.now) }
    ensures read { IfOk result (λ broken. IfNone broken (AreRead (T.rack tapes.old) (T.rack tapes.new) dirs.now.files.items dumped.now)) }
    ensures disc { ReadsByCause (result ≡ Err LookFault.DiscUnread) (D.state disc.old) (D.state disc.new) }
    ensures tapes { ReadsRackByCause (result ≡ Err LookFault.TapeUnread) (T.rack tapes.old) (T.rack tapes.new) }
    ensures faults { IfErr result (λ e. (e ≡ LookFault.DiscUnread) ⊎ ((e ≡ LookFault.TapeUnread) ⊎ (e ≡ LookFault.NoMemory))) }
{
    match judge_head(found, &dirs.head, tapes) {
        Some(broken) => return Ok(Some(broken)),
        None => {}
    }
    match no_copy(found, dirs.users.as_slice(), dirs.files.as_slice()) {
        Some(broken) => return Ok(Some(broken)),
        None => {}
    }
    match other_length(dirs.users.as_slice(), dirs.files.as_slice(), dumped) {
        Some(broken) => return Ok(Some(broken)),
        None => {}
    }
    judge_bytes(alloc, disc, tapes, dirs, dumped)
}
