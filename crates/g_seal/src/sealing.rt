//! The seal of a disc and a rack.
ghost use Rattle.std.specs.Prelude.{◌≡◌, ◌↔◌, ◌<◌, All, Err, IfErr, IfOk, IsTrue, true};
ghost use Rattle.std.specs.Option.{ForSome};
ghost use Rattle.g_disc.specs.Disc.{ReadsByCause};
ghost use Rattle.g_dirs.specs.Directory.{Directory};
ghost use Rattle.g_dirs.specs.Image.{StandsFor};
ghost use Rattle.g_store_meaning.specs.Meaning.{told_reels};
ghost use Rattle.g_store_meaning.specs.Reading.{AllTold};
ghost use Rattle.g_look.specs.Looks.{ReadsRackByCause};
ghost use Rattle.g_seal.specs.Sealing.{HasLost, IsOfSeal, IsSealed};

use crate::dumps::push_dumps;
use crate::files::push_held;
use crate::lines::push_seal;
use crate::room::text_for;
use g_disc::Disc;
use g_look::{LookFault, see_disc, see_rack};
use g_name::Text;
use g_tape::Tapes;
use std::alloc::Global;

/// Whether the disc holds a filestore, and the text of the seal, each line with its byte 10.
#[derive(Drop)]
pub struct Sealed {
    pub filestore: bool,
    pub text: Text,
}

/// The seal: a line for each completed dump of the rack and for each file of the disc, with the SHA-256 of its bytes, and a last line with
/// that of all lines before it (docs/MANUAL.md, "A seal"). All reels have to be mounted. Both are only read. `NoCopy`: the bytes of
/// a file are neither on the disc nor on a reel of the rack; `DiscUnread`, `TapeUnread`, `NoMemory`.
pub fn seal<D: Disc, T: Tapes>(
    alloc: Global,
    disc: &mut D,
    tapes: &mut T,
) -> Result<Sealed, LookFault>
    requires size { 2177 < (D.state disc.old).size }
    requires mounted { All (λ r. r.mounted ≡ true) (T.rack tapes.old).reels }
    ensures text { AllTold (D.state disc.old).held (told_reels (T.rack tapes.old)) → IfOk result (λ s.
        IsSealed (D.state disc.old).held (told_reels (T.rack tapes.old)) s.text) }
    ensures filestore { ForSome (D.state disc.old).held (λ blocks. IfOk result (λ s.
        IsTrue s.filestore ↔ ((d : Directory) × StandsFor blocks d))) }
    ensures no_copy { result ≡ Err LookFault.NoCopy → ForSome (D.state disc.old).held (λ blocks.
        HasLost blocks (told_reels (T.rack tapes.old))) }
    ensures disc { ReadsByCause (result ≡ Err LookFault.DiscUnread) (D.state disc.old) (D.state disc.new) }
    ensures tapes { ReadsRackByCause (result ≡ Err LookFault.TapeUnread) (T.rack tapes.old) (T.rack tapes.new) }
    ensures faults { IfErr result IsOfSeal }
{
    let found = match see_rack(alloc, tapes) {
        Ok(found) => found,
        Err(fault) => return Err(fault),
    };
    let standing = match see_disc(alloc, disc) {
        Ok(standing) => standing,
        Err(fault) => return Err(fault),
    };
    let mut text = match text_for(alloc, found.len(), &standing.dirs) {
        Ok(text) => text,
        Err(_) => return Err(LookFault::NoMemory),
    };
    match push_dumps(&mut text, tapes, found.as_slice()) {
        Ok(()) => {}
        Err(fault) => return Err(fault),
    }
    match push_held(&mut text, disc, tapes, &standing.dirs) {
        Ok(()) => {}
        Err(fault) => return Err(fault),
    }
    match push_seal(&mut text) {
        Ok(()) => Ok(Sealed {
            filestore: standing.dirs.is_some(),
            text,
        }),
        Err(_) => Err(LookFault::NoMemory),
    }
}
