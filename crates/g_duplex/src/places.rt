//! The reels of a rack by their places.
ghost use Rattle.std.specs.Prelude.{◌≡◌, MatchOption, None, length};
ghost use Rattle.g_tape.specs.Rack.{reel};
ghost use Rattle.g_duplex.specs.Pair.{lost_of};
ghost use Rattle.g_duplex.specs.Places.{IsFirst, standing_by, standings_by};

use crate::standings::{LostTwins, Standings};
use crate::twin::{Standing, Twin};
use g_tape::Tapes;

/// The place of the reel of this serial, if the rack has it.
pub(crate) fn place_of<T: Tapes>(rack: &T, serial: u32) -> Option<usize>
    ensures { MatchOption result (reel serial (T.rack rack.now).reels ≡ None) (IsFirst serial (T.rack rack.now).reels) }
{
    for i in 0..rack.reels() {
        if rack.serial(i) == serial {
            return Some(i);
        }
    }
    None
}

/// The lost twins, by increasing serial.
pub(crate) fn lost_among<T: Tapes>(rack: &T, standings: &Standings) -> LostTwins
    requires { length standings.now ≡ length (T.rack rack.now).reels }
    ensures { result ≡ lost_of (T.rack rack.now).reels standings.now }
{
    let mut lost = LostTwins::new();
    for i in 0..rack.reels() {
        lost.put(rack.serial(i), standings.get(i));
    }
    lost
}

/// The standings of all reels, given the lost twins.
pub(crate) fn standings_by<T: Tapes>(rack: &T, lost: &[(u32, Twin)]) -> Standings
    ensures { result ≡ standings_by lost.now (T.rack rack.now).reels }
{
    let mut standings = Standings::new();
    for i in 0..rack.reels() {
        standings.push(standing_by(rack.serial(i), lost));
    }
    standings
}

/// The standing of the twins of a serial, given the lost twins.
pub fn standing_by(serial: u32, lost: &[(u32, Twin)]) -> Standing
    ensures { result ≡ standing_by serial lost.now }
{
    for entry in lost {
        if entry.0 == serial {
            return Standing::Lost(entry.1);
        }
    }
    Standing::Level
}
