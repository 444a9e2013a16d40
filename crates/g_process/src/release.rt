//! The reels whose dumps are no longer needed.
ghost use Rattle.std.specs.Prelude.{◌≡◌, All, OnErr, OnOk, map, true};
ghost use Rattle.g_tape.specs.Durable.{WritesDurably};
ghost use Rattle.g_tape.specs.Rack.{Writing};
ghost use Rattle.g_process.specs.Releases as releases;

use g_base::WriteFailed;
use g_shelf::Listed;
use g_tape::{TapeFault, Tapes};

/// Overwrites block 0 of each reel that has a completed dump by these lists, except the reel with this serial, by a block
/// of zeros, which becomes its only block.
pub(crate) fn release<T: Tapes>(
    tapes: &mut T,
    lists: &[Listed],
    serial: u32,
) -> Result<(), WriteFailed>
    requires mounted { All (λ r. r.mounted ≡ true) (T.rack tapes.old).reels }
    requires listed { map (λ l. l.serial) lists.now ≡ map (λ r. r.serial) (T.rack tapes.old).reels }
    ensures ok { OnOk result (releases.AreReleased (releases.taken serial lists.now) (T.rack tapes.old) (T.rack tapes.new)) }
    ensures durable { OnOk result (releases.AreReleasedDurably (releases.taken serial lists.now) (T.rack tapes.old) (T.rack tapes.new)) }
    ensures cut { OnErr result (releases.IsCutAt serial lists.now (T.rack tapes.old) (T.rack tapes.new)) }
{
    for list in lists {
        if is_taken(list, serial) {
            match blank(tapes, list.serial) {
                Ok(()) => {}
                Err(_) => return Err(WriteFailed),
            }
        }
    }
    Ok(())
}

/// Writes a block of zeros to the reel, which becomes its only block.
fn blank<T: Tapes>(tapes: &mut T, serial: u32) -> Result<(), TapeFault>
    ensures written { Writing serial 0 releases.zeros (T.rack tapes.old) result (T.rack tapes.new) }
    ensures durable { WritesDurably serial 0 releases.zeros (T.rack tapes.old) result (T.rack tapes.new) }
{
    let zeros = [0; 512];
    tapes.write(serial, 0, &zeros)
}

/// Whether another reel than this one has a completed dump.
fn is_taken(list: &Listed, serial: u32) -> bool
    ensures { result ≡ releases.is_taken serial list.now }
{
    list.serial != serial && !list.notes.as_slice().is_empty()
}
