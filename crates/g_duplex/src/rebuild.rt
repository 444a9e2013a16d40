//! The calls on both twins of a reel: comparing them, and rebuilding one from the other.
ghost use Rattle.std.specs.Prelude.{◌≡◌, Some};
ghost use Rattle.g_tape.specs.Rack.{reel};
ghost use Rattle.g_duplex.specs.Pair.{standing_in};
ghost use Rattle.g_duplex.specs.Rebuild.{PairCompares, PairRebuilds, rack_at, rack_beside, refuses_rebuild, stands_rebuilt};
ghost use Rattle.g_duplex.specs.declared.twin.Standing.TheVariants.{Lost};

use crate::comparing::{refuses_both, same_reel};
use crate::copying::{copy_twin, refuses_copy};
use crate::duplex::Duplex;
use crate::fault::DuplexFault;
use crate::places::{lost_among, place_of};
use crate::twin::{Standing, Twin};
use g_tape::Tapes;

impl<T: Tapes> Duplex<T> {
    ghost use Rattle.g_duplex.specs.Meaning.{pair_of};

    /// Whether neither twin of the reel is lost and both hold the same blocks. A lost twin isn't read. `NoTape`, `NotMounted`,
    /// `ReadFailed`.
    pub fn agree(&mut self, serial: u32) -> Result<bool, DuplexFault>
        ensures { PairCompares serial (pair_of self.old) result (pair_of self.new) }
    {
        let Some(standing) = self.standing(serial) else {
            return Err(DuplexFault::NoTape);
        };
        if let Some(fault) = refuses_both(&self.first, &self.second, serial) {
            return Err(fault);
        }
        if standing.is_lost() {
            return Ok(false);
        }
        same_reel(&mut self.first, &mut self.second, serial)
    }

    /// Rebuilds this twin of the reel from the other one, from block 0 on. `NoTape`, `NotMounted` and `NotEmptied` change
    /// nothing. After `ReadFailed` and `WriteFailed` the twin is lost; after `Ok` neither is, and both hold the same blocks.
    pub fn rebuild_twin(&mut self, serial: u32, twin: Twin) -> Result<(), DuplexFault>
        requires { (lost : Twin) → standing_in serial (pair_of self.old) ≡ Some (Lost lost) → lost ≡ twin }
        ensures { PairRebuilds serial twin (pair_of self.old) result (pair_of self.new) }
    {
        let Some(place) = place_of(&self.first, serial) else {
            return Err(DuplexFault::NoTape);
        };
        if let Some(fault) = self.refuses_rebuild(serial, twin) {
            return Err(fault);
        }
        let answer = copy_twin(&mut self.first, &mut self.second, twin, serial);
        self.standings.set(place, stands_rebuilt(twin, &answer));
        self.lost = lost_among(&self.first, &self.standings);
        answer
    }

    /// Why rebuilding this twin is refused, if it is.
    fn refuses_rebuild(&self, serial: u32, twin: Twin) -> Option<DuplexFault>
        ensures { result ≡ refuses_rebuild (reel serial (rack_at twin (pair_of self.now)).reels) (reel serial (rack_beside twin (pair_of self.now)).reels) }
    {
        match twin {
            Twin::First => refuses_copy(&self.second, &self.first, serial),
            Twin::Second => refuses_copy(&self.first, &self.second, serial),
        }
    }
}

/// The standing of the twins after this one was rebuilt, or after that failed.
fn stands_rebuilt(twin: Twin, answer: &Result<(), DuplexFault>) -> Standing
    ensures { result ≡ stands_rebuilt twin answer.now }
{
    match answer {
        Ok(()) => Standing::Level,
        Err(_) => Standing::Lost(twin),
    }
}
