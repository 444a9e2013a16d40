//! Unmounting all reels of a rack.
ghost use Rattle.std.specs.Prelude.{◌≡◌, map, false};
ghost use Rattle.g_tape.specs.Reel.{with_mounted};
ghost use Rattle.g_outlook.specs.Looking.{IsUnmounted};

use g_tape::Tapes;

/// Unmounts each reel. Nothing else of the rack changes.
pub(crate) fn unmount_all<T: Tapes>(tapes: &mut T)
    ensures unmounted { IsUnmounted (T.rack tapes.new) }
    ensures reels { map (with_mounted false) (T.rack tapes.new).reels ≡ map (with_mounted false) (T.rack tapes.old).reels }
    ensures counts { T.rack tapes.new ≡ record (T.rack tapes.old) { reels = (T.rack tapes.new).reels } }
{
    for i in 0..tapes.reels() {
        let serial = tapes.serial(i);
        let _unmounted = tapes.unmount(serial);
    }
}
