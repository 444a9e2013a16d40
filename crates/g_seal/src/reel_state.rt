//! Whether bytes on a reel have the sealed sum.
ghost use Rattle.std.specs.Prelude.{◌≡◌, ◌⊎◌, All, Err, IfErr, IfOk, true};
ghost use Rattle.g_store_meaning.specs.Meaning.{told_reels};
ghost use Rattle.g_store_meaning.specs.Reading.{ReelsTold};
ghost use Rattle.g_look.specs.Looks.{ReadsRackByCause};
ghost use Rattle.g_seal.specs.Rotten.{reel_state, sum_state};

use crate::reel_sum::reel_sum;
use crate::versions::CopyState;
use g_entry::TapeCopy;
use g_look::LookFault;
use g_tape::Tapes;

/// Whether `len` bytes from a block of a reel on have this sum; `Absent` if the rack hasn't all of these blocks. `TapeUnread`, `NoMemory`.
pub(crate) fn reel_state<T: Tapes>(
    tapes: &mut T,
    copy: &TapeCopy,
    len: u32,
    due: &[u8; 32],
) -> Result<CopyState, LookFault>
    requires mounted { All (λ r. r.mounted ≡ true) (told_reels (T.rack tapes.old)) }
    ensures state { ReelsTold (told_reels (T.rack tapes.old)) → IfOk result (λ s. s ≡ reel_state (told_reels (T.rack tapes.old)) copy.now len due.now) }
    ensures tapes { ReadsRackByCause (result ≡ Err LookFault.TapeUnread) (T.rack tapes.old) (T.rack tapes.new) }
    ensures faults { IfErr result (λ e. (e ≡ LookFault.TapeUnread) ⊎ (e ≡ LookFault.NoMemory)) }
{
    match reel_sum(tapes, copy, len) {
        Ok(Some(sum)) => Ok(sum_state(&sum, due)),
        Ok(None) => Ok(CopyState::Absent),
        Err(fault) => Err(fault),
    }
}

/// Whether a sum is this one.
pub(crate) fn sum_state(sum: &[u8; 32], due: &[u8; 32]) -> CopyState
    ensures { result ≡ sum_state sum.now due.now }
{
    if *sum == *due {
        CopyState::Sealed
    } else {
        CopyState::Other
    }
}
