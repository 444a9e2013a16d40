//! The completed dumps of a rack, and the rules between them.
ghost use Rattle.std.specs.Prelude.{◌≡◌, ◌⊎◌, All, Err, IfErr, IfOk, List, OnErr, true};
ghost use Rattle.g_incr.specs.Layout.{Dump};
ghost use Rattle.g_shelf.specs.CompletedDumps.{all_dumps};
ghost use Rattle.g_store_meaning.specs.Meaning.{told_reels};
ghost use Rattle.g_restore.specs.Gathering.{HasFew};
ghost use Rattle.g_restore.specs.KnownDumps.{AreKnown};
ghost use Rattle.g_look.specs.Looks.{ReadsRackByCause};
ghost use Rattle.g_look.specs.SeenDumps.{AreSeen, IsJudged, WhereSeen};

use crate::pairs::{by_number, falling, twice};
use crate::{Broken, LookFault};
use g_entry::FileRec;
use g_incr::ShelfFault;
use g_plain::StoreFault;
use g_restore::{Dumped, Found, fold, read_rack};
use g_tape::Tapes;
use std::alloc::Global;

/// The completed dumps of all reels. `TapeUnread`, `NoMemory`.
pub fn see_rack<T: Tapes>(alloc: Global, tapes: &mut T) -> Result<Vec<Found>, LookFault>
    requires mounted { All (λ r. r.mounted ≡ true) (T.rack tapes.old).reels }
    ensures seen { IfOk result (λ found. AreSeen (told_reels (T.rack tapes.old)) found.items) }
    ensures few { IfOk result (λ found. All HasFew found.items) }
    ensures known { IfOk result (λ found. (dumps : List Dump) × AreKnown found.items dumps) }
    ensures tapes { ReadsRackByCause (result ≡ Err LookFault.TapeUnread) (T.rack tapes.old) (T.rack tapes.new) }
    ensures only { OnErr result ((result ≡ Err LookFault.TapeUnread) ⊎ (result ≡ Err LookFault.NoMemory)) }
{
    match read_rack(alloc, tapes) {
        Ok(found) => Ok(found),
        Err(ShelfFault::ReadFault) => Err(LookFault::TapeUnread),
        Err(_) => Err(LookFault::NoMemory),
    }
}

/// A rack that breaks no rule, with the files of its dumped directory; or the first rule that it breaks.
#[derive(Drop)]
pub(crate) enum Judged {
    Fits(Vec<FileRec>),
    Breaks(Broken),
}

/// The first rule that the rack breaks, or the files of the directory that the dumps give.
pub(crate) fn judge_rack(alloc: Global, found: &[Found]) -> Result<Judged, LookFault>
    requires few { All HasFew found.now }
    ensures judged { IfOk result (λ judged. WhereSeen found.now (λ reels shelf. IsJudged (all_dumps shelf reels) judged)) }
    ensures only { IfErr result (λ e. e ≡ LookFault.NoMemory) }
{
    let sorted = match by_number(alloc, found) {
        Ok(sorted) => sorted,
        Err(_) => return Err(LookFault::NoMemory),
    };
    let dumps = sorted.as_slice();
    match twice(dumps) {
        Some(broken) => return Ok(Judged::Breaks(broken)),
        None => {}
    }
    match falling(dumps) {
        Some(broken) => return Ok(Judged::Breaks(broken)),
        None => {}
    }
    match fold(alloc, found) {
        Ok(dumped) => Ok(Judged::Fits(files_of(dumped))),
        Err(StoreFault::NoDump) => Ok(Judged::Fits(Vec::new(alloc))),
        Err(StoreFault::LostDirectory(user)) => Ok(Judged::Breaks(Broken::LostDirectory(user))),
        Err(StoreFault::LostCopy(full, serial)) => Ok(Judged::Breaks(Broken::LostCopy(
            full, serial,
        ))),
        Err(_) => Err(LookFault::NoMemory),
    }
}

/// The files of a dumped directory.
fn files_of(dumped: Dumped) -> Vec<FileRec>
    ensures { result.items ≡ dumped.files.items }
{
    let Dumped { files, .. } = dumped;
    files
}
