//! The place of a reel in the rack, by its serial.
ghost use Rattle.std.specs.Prelude.{◌≡◌, None, MatchOption};
ghost use Rattle.g_tape.specs.Rack.{reel};
ghost use Rattle.g_tape.specs.Place.{IsPlaceOf};

use crate::memory_reel::MemoryReel;

/// The place of the reel, if the rack has it.
pub(crate) fn place_of(reels: &[MemoryReel], serial: u32) -> Option<usize>
    ensures { MatchOption result (reel serial reels.now ≡ None) (IsPlaceOf serial reels.now) }
{
    for (i, reel) in reels.iter().enumerate() {
        if reel.state().serial() == serial {
            return Some(i);
        }
    }
    None
}
