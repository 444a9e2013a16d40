//! The completed dumps of all reels of a rack.
ghost use Rattle.std.specs.Prelude.{◌≡◌, ◌⊎◌, All, Err, IfOk, OnErr, true};
ghost use Rattle.g_base.specs.Counts.{Rose};
ghost use Rattle.g_tape.specs.Reads.{OnlyReads};
ghost use Rattle.g_known.specs.ReelNotes.{AreListed};

use crate::known::KnownReels;
use g_incr::ShelfFault;
use g_shelf::Listed;
use g_tape::Tapes;
use std::alloc::Global;

/// The completed dumps of all reels, one list for each reel, by increasing serial. Their content isn't read.
/// `ReadFault`, `NoMemory`; the content of the reels is unchanged.
pub fn catalogue<T: Tapes>(
    alloc: Global,
    tapes: &mut KnownReels<T>,
) -> Result<Vec<Listed>, ShelfFault>
    requires mounted { All (λ r. r.mounted ≡ true) (T.rack tapes.old).reels }
    ensures lists { IfOk result (λ lists. AreListed (T.rack tapes.old) lists.items) }
    ensures only { OnlyReads (T.rack tapes.old) (T.rack tapes.new) }
    ensures faults { OnErr result ((result ≡ Err ShelfFault.ReadFault) ⊎ (result ≡ Err ShelfFault.NoMemory)) }
    ensures kept { (result ≡ Err ShelfFault.ReadFault → ⊥) → (T.rack tapes.new).read_faults ≡ (T.rack tapes.old).read_faults }
    ensures rose { result ≡ Err ShelfFault.ReadFault → Rose (T.rack tapes.old).read_faults (T.rack tapes.new).read_faults }
{
    let mut lists = Vec::new(alloc);
    for i in 0..tapes.reels() {
        let serial = tapes.serial(i);
        let notes = tapes.notes(alloc, serial)?;
        match lists.push(Listed { serial, notes }) {
            Ok(()) => {}
            Err(_) => return Err(ShelfFault::NoMemory),
        }
    }
    Ok(lists)
}
