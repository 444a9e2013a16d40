//! The completed dumps of all reels, read with their records.
ghost use Rattle.std.specs.Prelude.{◌≡◌, ◌⊎◌, All, IfOk, List, OnErr, map, true};
ghost use Rattle.g_base.specs.Counts.{Rose};
ghost use Rattle.g_tape.specs.Reads.{OnlyReads};
ghost use Rattle.g_incr.specs.Layout.{Dump};
ghost use Rattle.g_restore.specs.KnownDumps.{known, known_of};
ghost use Rattle.g_store_meaning.specs.Surviving.{DumpsMadeSafe};
ghost use Rattle.g_restore.specs.Reels.{AreOnReels};

use g_incr::{DumpDir, ShelfFault};
use g_shelf::{OfDump, read_reel};
use g_tape::{Tapes, secure_all};
use std::alloc::Global;

/// A completed dump: the serial of its reel, and its records.
#[derive(Drop)]
pub struct Found {
    pub serial: u32,
    pub dir: DumpDir,
}

impl OfDump for Found {
    ghost use Rattle.std.specs.Prelude.{◌≡◌};
    ghost use Rattle.g_restore.specs.KnownDumps.{known, known_of};

    ghost is_of = { λ found d. known found ≡ known_of d };

    fn of_dump(serial: u32, dir: DumpDir) -> Found {
        Found { serial, dir }
    }
}

/// The completed dumps of all reels, by increasing serial, those of a reel in their order. Each is read once, without
/// its content. `ReadFault`, `NoMemory`; the content of the reels is unchanged.
pub fn read_rack<T: Tapes>(alloc: Global, tapes: &mut T) -> Result<Vec<Found>, ShelfFault>
    requires mounted { All (λ r. r.mounted ≡ true) (T.rack tapes.old).reels }
    ensures found { IfOk result (λ found. (dumps : List Dump)
        × AreOnReels (T.rack tapes.old).reels dumps × (map known found.items ≡ map known_of dumps)) }
    ensures only { OnlyReads (T.rack tapes.old) (T.rack tapes.new) }
    ensures faults { OnErr result ((result ≡ Err ShelfFault.ReadFault) ⊎ (result ≡ Err ShelfFault.NoMemory)) }
    ensures kept { (result ≡ Err ShelfFault.ReadFault → ⊥) → (T.rack tapes.new).read_faults ≡ (T.rack tapes.old).read_faults }
    ensures rose { result ≡ Err ShelfFault.ReadFault → Rose (T.rack tapes.old).read_faults (T.rack tapes.new).read_faults }
{
    let mut found = Vec::new(alloc);
    for i in 0..tapes.reels() {
        let serial = tapes.serial(i);
        // A `match`, since the proof names its arms (`in-Ok`, `in-Err`).
        match read_reel(alloc, tapes, serial, &mut found) {
            Ok(()) => {}
            Err(fault) => return Err(fault),
        }
    }
    Ok(found)
}

/// Makes the rack durable and then reads it as `read_rack` does: a restore must not rely on a mark that a power loss could
/// still remove. `ReadFault` also if a reel can't be made durable.
pub(crate) fn read_durable_rack<T: Tapes>(
    alloc: Global,
    tapes: &mut T,
) -> Result<Vec<Found>, ShelfFault>
    requires mounted { All (λ r. r.mounted ≡ true) (T.rack tapes.old).reels }
    ensures found { IfOk result (λ found. (dumps : List Dump)
        × AreOnReels (T.rack tapes.old).reels dumps × (map known found.items ≡ map known_of dumps)) }
    ensures only { OnlyReads (T.rack tapes.old) (T.rack tapes.new) }
    ensures faults { OnErr result ((result ≡ Err ShelfFault.ReadFault) ⊎ (result ≡ Err ShelfFault.NoMemory)) }
    ensures kept { (result ≡ Err ShelfFault.ReadFault → ⊥) → (T.rack tapes.new).read_faults ≡ (T.rack tapes.old).read_faults }
    ensures rose { result ≡ Err ShelfFault.ReadFault → Rose (T.rack tapes.old).read_faults (T.rack tapes.new).read_faults }
    ensures durable { IfOk result (λ found. DumpsMadeSafe (T.rack tapes.old) (T.rack tapes.new)) }
{
    match secure_all(tapes) {
        Ok(()) => read_rack(alloc, tapes),
        Err(_) => Err(ShelfFault::ReadFault),
    }
}
