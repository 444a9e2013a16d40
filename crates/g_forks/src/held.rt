//! The completed dumps of a rack, by where each lies.
ghost use Rattle.std.specs.Prelude.{◌≡◌, All, IfOk, None, OnOk, true};
ghost use Rattle.g_tape.specs.Rack.{reel, refuses_unmount};
ghost use Rattle.g_tape.specs.Reads.{OnlyReads};
ghost use Rattle.g_forks.specs.Forks.{Adds, AreWithin, HasAll, IsRead};

use g_base::NoMemory;
use g_incr::{DumpDir, ShelfFault};
use g_shelf::{OfDump, read_reel};
use g_tape::Tapes;
use std::alloc::Global;

/// A completed dump: its number, the serial of its reel, the block of its header there, and how many blocks lie between header and mark.
#[derive(Clone, Copy, PartialEq, Eq, Drop)]
pub struct Held {
    pub number: u64,
    pub serial: u32,
    pub place: u32,
    pub count: u32,
}

impl OfDump for Held {
    ghost use Rattle.std.specs.Prelude.{◌≡◌};
    ghost use Rattle.g_forks.specs.Forks.{held_of};

    ghost is_of = { λ held d. held ≡ held_of d };

    fn of_dump(serial: u32, dir: DumpDir) -> Held {
        Held {
            number: dir.note.number,
            serial,
            place: dir.note.place,
            count: dir.note.count,
        }
    }
}

/// The completed dumps of all reels, by rising serial. All reels must be mounted. A reel that can't be read has none here. Only counts of
/// reads change. `NoMemory`.
pub fn dumps_in<T: Tapes>(alloc: Global, tapes: &mut T) -> Result<Vec<Held>, NoMemory>
    requires mounted { All (λ r. r.mounted ≡ true) (T.rack tapes.old).reels }
    ensures within { IfOk result (λ held. AreWithin (T.rack tapes.old) held.items) }
    ensures all { IfOk result (λ held. IsRead (T.rack tapes.old) (T.rack tapes.new) → HasAll (T.rack tapes.old).reels held.items) }
    ensures only { OnlyReads (T.rack tapes.old) (T.rack tapes.new) }
{
    let mut held = Vec::new(alloc);
    for i in 0..tapes.reels() {
        let serial = tapes.serial(i);
        match add_reel(alloc, tapes, serial, &mut held) {
            Ok(()) => {}
            Err(fault) => return Err(fault),
        }
    }
    Ok(held)
}

/// Appends the completed dumps of a reel, or none if it can't be read. `NoMemory`.
fn add_reel<T: Tapes>(
    alloc: Global,
    tapes: &mut T,
    serial: u32,
    held: &mut Vec<Held>,
) -> Result<(), NoMemory>
    requires mounted { refuses_unmount (reel serial (T.rack tapes.old).reels) ≡ None }
    ensures adds { OnOk result (Adds serial held.old.items held.new.items (T.rack tapes.old) (T.rack tapes.new)) }
    ensures only { OnlyReads (T.rack tapes.old) (T.rack tapes.new) }
{
    let mut more = Vec::new(alloc);
    match read_reel(alloc, tapes, serial, &mut more) {
        Ok(()) => {
            held.extend_from_slice(more.as_slice())?;
            Ok(())
        }
        Err(ShelfFault::NoMemory) => Err(NoMemory),
        Err(_) => Ok(()),
    }
}
