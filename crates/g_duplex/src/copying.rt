//! Copies a reel from the reel of the same serial in another rack.
ghost use Rattle.std.specs.Prelude.{◌≡◌, None};
ghost use Rattle.g_tape.specs.Rack.{reel, refuses_read, refuses_write};
ghost use Rattle.g_duplex.specs.Copying.{BlockCopied, BothReels, ReelCopied};
ghost use Rattle.g_duplex.specs.Rebuild.{refuses_rebuild};
ghost use Rattle.g_duplex.specs.Twins.{beside_twin, of_twin};

use crate::comparing::length_of;
use crate::fault::DuplexFault;
use crate::twin::Twin;
use g_tape::Tapes;

/// Why copying a reel from the other one is refused, if it is.
pub(crate) fn refuses_copy<T: Tapes>(from: &T, to: &T, serial: u32) -> Option<DuplexFault>
    ensures { result ≡ refuses_rebuild (reel serial (T.rack to.now).reels) (reel serial (T.rack from.now).reels) }
{
    match (to.length(serial), from.length(serial)) {
        (Ok(len), Ok(source)) => {
            if !(to.mounted(serial) && from.mounted(serial)) {
                Some(DuplexFault::NotMounted)
            } else if source == 0 && len != 0 {
                Some(DuplexFault::NotEmptied)
            } else {
                None
            }
        }
        _ => Some(DuplexFault::NoTape),
    }
}

/// Copies the reel of a twin from the other one. `ReadFailed`, `WriteFailed`.
pub(crate) fn copy_twin<T: Tapes>(
    first: &mut T,
    second: &mut T,
    twin: Twin,
    serial: u32,
) -> Result<(), DuplexFault>
    requires free { refuses_rebuild (reel serial (of_twin twin (T.rack first.old) (T.rack second.old)).reels)
        (reel serial (beside_twin twin (T.rack first.old) (T.rack second.old)).reels) ≡ None }
    requires room { BothReels serial (T.rack first.old) (T.rack second.old) (λ a b. a.capacity ≡ b.capacity) }
    ensures { ReelCopied serial (beside_twin twin (T.rack first.old) (T.rack second.old)) (of_twin twin (T.rack first.old) (T.rack second.old)) result
        (beside_twin twin (T.rack first.new) (T.rack second.new)) (of_twin twin (T.rack first.new) (T.rack second.new)) }
{
    match twin {
        Twin::First => copy_reel(second, first, serial),
        Twin::Second => copy_reel(first, second, serial),
    }
}

/// Copies a reel from the other one, block by block from block 0 on.
fn copy_reel<T: Tapes>(from: &mut T, to: &mut T, serial: u32) -> Result<(), DuplexFault>
    requires free { refuses_rebuild (reel serial (T.rack to.old).reels) (reel serial (T.rack from.old).reels) ≡ None }
    requires room { BothReels serial (T.rack to.old) (T.rack from.old) (λ a b. a.capacity ≡ b.capacity) }
    ensures { ReelCopied serial (T.rack from.old) (T.rack to.old) result (T.rack from.new) (T.rack to.new) }
{
    let len = length_of(from, serial);
    for k in 0..len {
        match copy_block(from, to, serial, k) {
            Ok(()) => {}
            Err(fault) => return Err(fault),
        }
    }
    Ok(())
}

/// Copies block k of a reel from the other one.
fn copy_block<T: Tapes>(from: &mut T, to: &mut T, serial: u32, k: u32) -> Result<(), DuplexFault>
    requires readable { refuses_read k (reel serial (T.rack from.old).reels) ≡ None }
    requires writable { refuses_write k (reel serial (T.rack to.old).reels) ≡ None }
    ensures { BlockCopied serial k (T.rack from.old) (T.rack to.old) result (T.rack from.new) (T.rack to.new) }
{
    let mut block = [0; 512];
    match from.read(serial, k, &mut block) {
        Ok(()) => {}
        Err(_) => return Err(DuplexFault::ReadFailed),
    }
    match to.write(serial, k, &block) {
        Ok(()) => Ok(()),
        Err(_) => Err(DuplexFault::WriteFailed),
    }
}
