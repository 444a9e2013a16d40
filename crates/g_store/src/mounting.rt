//! Reels are mounted and unmounted.
ghost use Rattle.std.specs.Prelude.{◌≡◌, ◌&&◌, false};
ghost use Rattle.g_tape.specs.Rack.{is_mounted, reel};
ghost use Rattle.g_store.specs.Events.{Mounts, Unmounts};
ghost use Rattle.g_store.specs.Refusing.{is_on, rack_answer};

use crate::store::Store;
use g_disc::Disc;
use g_plain::StoreFault;
use g_tape::{TapeFault, Tapes};

impl<D: Disc, T: Tapes> Store<D, T> {
    /// Mounts the reel (docs/DEFINITIONS.md). `NoTape`: it isn't in the rack. A reel that is mounted stays so. No block is
    /// read or written.
    pub fn mount(&mut self, serial: u32) -> Result<(), StoreFault>
        requires running { self.old.spent ≡ false }
        ensures { Mounts serial self.old result self.new }
    {
        let answer = self.tapes.mount(serial);
        rack_answer(answer)
    }

    /// Unmounts the reel. `NoTape`: it isn't in the rack. `NotMounted`. `TapeBusy`: the open dump is on it. No block is read or
    /// written.
    pub fn unmount(&mut self, serial: u32) -> Result<(), StoreFault>
        requires running { self.old.spent ≡ false }
        ensures { Unmounts serial self.old result self.new }
    {
        if self.is_busy(serial) {
            return Err(StoreFault::TapeBusy);
        }
        let answer = self.tapes.unmount(serial);
        rack_answer(answer)
    }

    /// Whether the open dump is on this reel, and the reel is mounted.
    fn is_busy(&self, serial: u32) -> bool
        ensures { result ≡ (is_on serial self.now.dump && is_mounted (reel serial self.now.rack.reels)) }
    {
        match &self.dump {
            Some(dump) => dump.serial() == serial && self.tapes.mounted(serial),
            None => false,
        }
    }
}

/// The store's answer to a mount or an unmount, from the answer of its rack: `NoTape`, `NotMounted`.
pub fn rack_answer(answer: Result<(), TapeFault>) -> Result<(), StoreFault>
    ensures { result ≡ rack_answer answer }
{
    match answer {
        Ok(()) => Ok(()),
        Err(TapeFault::NoTape) => Err(StoreFault::NoTape),
        Err(_) => Err(StoreFault::NotMounted),
    }
}
