//! Mounting all reels of a rack, to read what they hold.
ghost use Rattle.std.specs.Prelude.{◌≡◌, All, IsTrue, is_none, map, true};
ghost use Rattle.g_shelf.specs.LastDump.{first_unmounted};
ghost use Rattle.g_tape.specs.Reel.{with_mounted};

use g_base::MAX_REELS;
use g_shelf::first_unmounted;
use g_tape::Tapes;

/// Mounts each reel, and says whether all are. Nothing else of the rack changes.
pub fn mount_all<T: Tapes>(tapes: &mut T) -> bool
    ensures value { result ≡ is_none (first_unmounted (T.rack tapes.new).reels) }
    ensures mounted { IsTrue result → All (λ r. r.mounted ≡ true) (T.rack tapes.new).reels }
    ensures reels { map (with_mounted true) (T.rack tapes.new).reels ≡ map (with_mounted true) (T.rack tapes.old).reels }
    ensures counts { T.rack tapes.new ≡ record (T.rack tapes.old) { reels = (T.rack tapes.new).reels } }
{
    for i in 0..MAX_REELS {
        if i >= tapes.reels() {
            break;
        }
        let serial = tapes.serial(i);
        let _mounted = tapes.mount(serial);
    }
    first_unmounted(tapes).is_none()
}
