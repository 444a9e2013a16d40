//! The report of a check against a seal.
ghost use Rattle.std.specs.Prelude.{◌≡◌, ◌<◌, [], All, Err, IfErr, IfOk, true};
ghost use Rattle.g_disc.specs.Disc.{ReadsByCause};
ghost use Rattle.g_store_meaning.specs.Meaning.{told_reels};
ghost use Rattle.g_store_meaning.specs.Reading.{AllTold};
ghost use Rattle.g_look.specs.Looks.{ReadsRackByCause};
ghost use Rattle.g_seal.specs.Entries.{AreEntries};
ghost use Rattle.g_seal.specs.Rotten.{IsReport, IsSealing};
ghost use Rattle.g_seal.specs.SealText.{sealed_text};
ghost use Rattle.g_seal.specs.Sealing.{IsOfReport, IsSealed};

use crate::room::fitted;
use crate::rotten_dumps::{push_rotten_dumps, rotten_dumps};
use crate::rotten_files::{Sought, push_rotten_held};
use crate::{Seal, Twins};
use g_disc::Disc;
use g_look::{LookFault, see_disc};
use g_name::Text;
use g_tape::Tapes;
use std::alloc::Global;

/// The report of a check against a seal: a line for each sealed dump that is on its reel with other bytes, and one for each file of the disc with a
/// sealed stamp and other bytes, each in the order of the seal (docs/MANUAL.md, "A check against a seal"). A file's line also names its copy in the second
/// rack, by what was found there. All reels have to be mounted. Both devices are only read. `DiscUnread`, `TapeUnread`, `NoMemory`.
pub fn rotten<D: Disc, T: Tapes>(
    alloc: Global,
    disc: &mut D,
    tapes: &mut T,
    seal: &Seal,
    twins: &Twins,
) -> Result<Text, LookFault>
    requires size { 2177 < (D.state disc.old).size }
    requires mounted { All (λ r. r.mounted ≡ true) (T.rack tapes.old).reels }
    ensures text { AllTold (D.state disc.old).held (told_reels (T.rack tapes.old)) → IfOk result (λ text.
        IsReport (D.state disc.old).held (told_reels (T.rack tapes.old)) twins.now seal.now.dumps.items seal.now.files.items text) }

    // A store that hasn't changed since it was sealed has nothing to report.
    ensures unchanged { AllTold (D.state disc.old).held (told_reels (T.rack tapes.old))
        → IsSealing (D.state disc.old).held (told_reels (T.rack tapes.old)) seal.now.dumps.items seal.now.files.items → IfOk result (λ text. text ≡ []) }

    // The same if the seal's text is that of these devices.
    ensures own { AllTold (D.state disc.old).held (told_reels (T.rack tapes.old)) → AreEntries seal.now.dumps.items seal.now.files.items
        → IsSealed (D.state disc.old).held (told_reels (T.rack tapes.old)) (sealed_text seal.now.dumps.items seal.now.files.items)
        → IfOk result (λ text. text ≡ []) }
    ensures disc { ReadsByCause (result ≡ Err LookFault.DiscUnread) (D.state disc.old) (D.state disc.new) }
    ensures tapes { ReadsRackByCause (result ≡ Err LookFault.TapeUnread) (T.rack tapes.old) (T.rack tapes.new) }
    ensures faults { IfErr result IsOfReport }
{
    let standing = match see_disc(alloc, disc) {
        Ok(standing) => standing,
        Err(fault) => return Err(fault),
    };
    let rotten = match rotten_dumps(alloc, tapes, seal.dumps.as_slice()) {
        Ok(rotten) => rotten,
        Err(fault) => return Err(fault),
    };
    let mut text = Text::new(alloc);
    match push_rotten_dumps(&mut text, rotten.as_slice(), b"") {
        Ok(()) => {}
        Err(_) => return Err(LookFault::NoMemory),
    }
    let sought = Sought {
        rotten: rotten.as_slice(),
        twins,
        files: seal.files.as_slice(),
    };
    match push_rotten_held(&mut text, disc, tapes, &standing.dirs, &sought) {
        Ok(()) => Ok(fitted(text)),
        Err(fault) => Err(fault),
    }
}
