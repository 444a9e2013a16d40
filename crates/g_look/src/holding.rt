//! The contents of a rack.
ghost use Rattle.std.specs.Prelude.{◌≡◌, ◌⊎◌, Err, ℕ, All, IfErr, IfOk, List, true};
ghost use Rattle.g_incr.specs.Layout.{Dump};
ghost use Rattle.g_lines.specs.Lines.{text_of};
ghost use Rattle.g_shelf.specs.CompletedDumps.{AreShelved};
ghost use Rattle.g_store_meaning.specs.Meaning.{told_reels};
ghost use Rattle.g_store_meaning.specs.Reading.{ReelsTold};
ghost use Rattle.g_look.specs.Looks.{ReadsRackByCause};
ghost use Rattle.g_look.specs.Text.{rack_lines};

use crate::LookFault;
use crate::rack::see_rack;
use crate::rack_text::push_rack;
use g_name::Text;
use g_tape::Tapes;
use std::alloc::Global;

/// The lines of the rack: each reel, followed by its completed dumps. All reels have to be mounted; they are only read. `TapeUnread`, `NoMemory`.
pub fn dumps<T: Tapes>(alloc: Global, tapes: &mut T) -> Result<Text, LookFault>
    requires mounted { All (λ r. r.mounted ≡ true) (T.rack tapes.old).reels }
    ensures text { ReelsTold (told_reels (T.rack tapes.old)) → (shelf : ℕ → List Dump) → AreShelved shelf (told_reels (T.rack tapes.old))
        → IfOk result (λ text. text ≡ text_of (rack_lines shelf (told_reels (T.rack tapes.old)))) }
    ensures tapes { ReadsRackByCause (result ≡ Err LookFault.TapeUnread) (T.rack tapes.old) (T.rack tapes.new) }
    ensures faults { IfErr result (λ e. (e ≡ LookFault.TapeUnread) ⊎ (e ≡ LookFault.NoMemory)) }
{
    let found = match see_rack(alloc, tapes) {
        Ok(found) => found,
        Err(fault) => return Err(fault),
    };
    let mut text = Text::new(alloc);
    match push_rack(&mut text, tapes, found.as_slice()) {
        Ok(()) => Ok(text),
        Err(_) => Err(LookFault::NoMemory),
    }
}
