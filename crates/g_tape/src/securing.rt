//! Makes every reel of a rack durable.
ghost use Rattle.g_tape.specs.Durable.{AllSecureDurably};
ghost use Rattle.g_tape.specs.Rack.{SecuringAll};

use crate::fault::TapeFault;
use crate::tapes::Tapes;

/// Makes every reel of the rack durable, as `Tapes::secure` does, by increasing serial and whether mounted or not. `ReadFailed` at
/// the first reel whose device fails. A power loss may then leave nothing that it couldn't have left before.
pub fn secure_all<T: Tapes>(tapes: &mut T) -> Result<(), TapeFault>
    ensures secured { SecuringAll (T.rack tapes.old) result (T.rack tapes.new) }
    ensures durable { AllSecureDurably (T.rack tapes.old) result (T.rack tapes.new) }
{
    for i in 0..tapes.reels() {
        let serial = tapes.serial(i);
        tapes.secure(serial)?;
    }
    Ok(())
}
