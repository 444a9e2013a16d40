//! Whether the reels of two folders can be a pair.
ghost use Rattle.std.specs.Prelude.{◌≡◌, map, true};
ghost use Rattle.g_duplex.specs.Pair.{ArePaired};
ghost use Rattle.g_duplex.specs.Places.{standing_by, standings_by};
ghost use Rattle.g_duplex.specs.Twins.{AreTwins};
ghost use Rattle.g_files.specs.FileReel.{reel_of};

use crate::rack::HostReel;
use g_duplex::{Twin, standing_by};

/// Whether they are the same reels, as long where neither is lost.
pub(crate) fn are_alike(reels: &[HostReel], beside: &[HostReel], lost: &[(u32, Twin)]) -> bool
    ensures { result ≡ true → ArePaired (standings_by lost.now (map reel_of reels.now)) (map reel_of reels.now) (map reel_of beside.now) }
{
    if reels.len() != beside.len() {
        return false;
    }
    for i in 0..reels.len() {
        if !is_alike(&reels[i], &beside[i], lost) {
            return false;
        }
    }
    true
}

/// Whether two reels have one label, and are as long where neither is lost. Their blocks aren't observable.
fn is_alike(reel: &HostReel, other: &HostReel, lost: &[(u32, Twin)]) -> bool
    ensures { result ≡ true → AreTwins (standing_by (reel_of reel.now).serial lost.now) (reel_of reel.now) (reel_of other.now) }
{
    let standing = standing_by(reel.state().serial(), lost);
    reel.state().serial() == other.state().serial()
        && reel.state().capacity() == other.state().capacity()
        && (standing.is_lost() || reel.state().len() == other.state().len())
}
