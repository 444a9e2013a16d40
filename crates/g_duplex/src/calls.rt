//! The calls of a rack, on two racks.
ghost use Rattle.std.specs.Prelude.{◌≡◌, ◌≤◌};
ghost use Rattle.g_tape.specs.Rack.{reel, refuses_read, refuses_write};
ghost use Rattle.g_duplex.specs.Pair.{shown};

use crate::asking::{counted, read_twins, secure_twins, write_twins};
use crate::duplex::Duplex;
use crate::places::{lost_among, place_of};
use crate::twin::Twin;
use g_base::Block;
use g_tape::{TapeFault, Tapes};

impl<T: Tapes> Duplex<T> {
    ghost use Rattle.g_duplex.specs.Meaning.{pair_of};

    /// Why a read of block k is refused, if it is.
    fn refuses_read(&self, serial: u32, k: u32) -> Option<TapeFault>
        ensures { result ≡ refuses_read k (reel serial (shown (pair_of self.now)).reels) }
    {
        match self.length(serial) {
            Err(fault) => Some(fault),
            Ok(len) => {
                if !self.mounted(serial) {
                    Some(TapeFault::NotMounted)
                } else if k < len {
                    None
                } else {
                    Some(TapeFault::End)
                }
            }
        }
    }

    /// Why a write of block k is refused, if it is.
    fn refuses_write(&self, serial: u32, k: u32) -> Option<TapeFault>
        ensures { result ≡ refuses_write k (reel serial (shown (pair_of self.now)).reels) }
    {
        match (self.length(serial), self.capacity(serial)) {
            (Ok(len), Ok(capacity)) => {
                if !self.mounted(serial) {
                    Some(TapeFault::NotMounted)
                } else if len < k || !(k < capacity) {
                    Some(TapeFault::End)
                } else {
                    None
                }
            }
            _ => Some(TapeFault::NoTape),
        }
    }
}

impl<T: Tapes> Tapes for Duplex<T> {
    ghost use Rattle.g_duplex.specs.Calls.{PairArms, PairMounts, PairReads, PairSecures, PairUnmounts, PairWrites};
    ghost use Rattle.g_duplex.specs.Meaning.{pair_of};
    ghost use Rattle.g_duplex.specs.SeenReels.{are_reels};

    ghost rack = { λ d. shown (pair_of d) };

    fn reels(&self) -> usize {
        self.first.reels()
    }

    fn serial(&self, i: usize) -> u32 {
        self.first.serial(i)
    }

    fn mounted(&self, serial: u32) -> bool {
        match self.standing(serial) {
            None => false,
            Some(standing) => {
                standing.is_up(self.first.mounted(serial), self.second.mounted(serial))
            }
        }
    }

    fn capacity(&self, serial: u32) -> Result<u32, TapeFault> {
        self.first.capacity(serial)
    }

    fn length(&self, serial: u32) -> Result<u32, TapeFault> {
        match self.standing(serial) {
            None => Err(TapeFault::NoTape),
            Some(standing) => match standing.leader() {
                Twin::First => self.first.length(serial),
                Twin::Second => self.second.length(serial),
            },
        }
    }

    fn mount(&mut self, serial: u32) -> Result<(), TapeFault>
        ensures { PairMounts serial (pair_of self.old) result (pair_of self.new) }
    {
        match self.first.mount(serial) {
            Ok(()) => self.second.mount(serial),
            Err(fault) => Err(fault),
        }
    }

    fn unmount(&mut self, serial: u32) -> Result<(), TapeFault>
        ensures { PairUnmounts serial (pair_of self.old) result (pair_of self.new) }
    {
        if let Err(fault) = self.first.capacity(serial) {
            return Err(fault);
        }
        if !self.mounted(serial) {
            return Err(TapeFault::NotMounted);
        }
        // A lost twin may have been unmounted before.
        let _first = self.first.unmount(serial);
        let _second = self.second.unmount(serial);
        Ok(())
    }

    fn read(&mut self, serial: u32, k: u32, into: &mut Block) -> Result<(), TapeFault>
        ensures { PairReads serial k (pair_of self.old) result into.new (pair_of self.new) }
    {
        let Some(standing) = self.standing(serial) else {
            return Err(TapeFault::NoTape);
        };
        if let Some(fault) = self.refuses_read(serial, k) {
            return Err(fault);
        }
        let answer = read_twins(&mut self.first, &mut self.second, standing, serial, k, into);
        self.read_faults = counted(&answer, self.read_faults);
        answer
    }

    fn write(&mut self, serial: u32, k: u32, from: &Block) -> Result<(), TapeFault>
        ensures { PairWrites serial k from.now (pair_of self.old) result (pair_of self.new) }
    {
        let Some(place) = place_of(&self.first, serial) else {
            return Err(TapeFault::NoTape);
        };
        if let Some(fault) = self.refuses_write(serial, k) {
            return Err(fault);
        }
        let standing = self.standings.get(place);
        let fires = self.fuse.burn();
        let (answer, after) = write_twins(
            &mut self.first,
            &mut self.second,
            standing,
            fires,
            serial,
            k,
            from,
        );
        self.standings.set(place, after);
        self.lost = lost_among(&self.first, &self.standings);
        self.write_faults = counted(&answer, self.write_faults);
        answer
    }

    fn secure(&mut self, serial: u32) -> Result<(), TapeFault>
        ensures { PairSecures serial (pair_of self.old) result (pair_of self.new) }
    {
        let Some(place) = place_of(&self.first, serial) else {
            return Err(TapeFault::NoTape);
        };
        let standing = self.standings.get(place);
        let (secured, after) = secure_twins(&mut self.first, &mut self.second, standing, serial);
        self.standings.set(place, after);
        self.lost = lost_among(&self.first, &self.standings);
        self.read_faults = counted(&secured, self.read_faults);
        secured
    }

    fn arm(&mut self, k: u32)
        requires { 1 ≤ k }
        ensures { PairArms k (pair_of self.old) (pair_of self.new) }
    {
        self.fuse.arm(k);
        self.arms.arm(k, self.write_faults);
    }

    ghost well_formed = { λ d. are_reels d.standings (T.rack d.first).reels (T.rack d.second).reels d.paired (T.well_formed d.first) (T.well_formed d.second) };

    ghost fused = { λ d. d.fused };
}
