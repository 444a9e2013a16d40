//! A rack in memory that loses power.
ghost use Rattle.std.specs.Prelude.{◌≡◌, ◌<◌, ◌↔◌, ◌++◌, [], ◌∷◌, All, IsTrue, None, OnOk, map};
ghost use Rattle.std.specs.Option.{MatchOption};
ghost use Rattle.g_base.specs.Fuse.{BurnsByFailures};
ghost use Rattle.g_tape.specs.Place.{IsPlaceOf};
ghost use Rattle.g_tape.specs.Rack.{AreReels, reel};
ghost use Rattle.g_power.specs.CutReel.{reel_of};

use crate::cut_reel::CutReel;
use crate::losing::Loss;
use crate::medium::is_synced;
use crate::power::Shared;
use g_base::{Armings, Block, Fuse, MAX_REELS, NoMemory, raised};
use g_tape::{TapeFault, Tapes};
use std::alloc::Global;

/// A rack whose power fails at a chosen call. Contracts don't see its blocks.
#[derive(Drop)]
pub struct CutTapes {
    power: Shared,
    reels: Vec<CutReel>,
    /// The header or mark that was written last. A torn block may have its bytes.
    last: Block,
    read_faults: u64,
    write_faults: u64,
    fuse: Fuse,
    arms: Armings,
    ghost well_formed: { AreReels (map reel_of reels.items) },
    ghost fused: { BurnsByFailures write_faults arms fuse },
}

impl CutTapes {
    /// A rack of this many empty reels, with serials from 1 on.
    pub fn new(
        alloc: Global,
        power: Shared,
        count: u32,
        capacity: u32,
    ) -> Result<CutTapes, NoMemory> {
        let mut reels = Vec::new(alloc);
        if count < 1_000_000 && 2 <= capacity && capacity <= 65_536 {
            for serial in 1..=count {
                push_reel(&mut reels, CutReel::new(alloc, serial, capacity)?)?;
            }
        }
        Ok(CutTapes {
            power,
            reels,
            last: [0; 512],
            read_faults: 0,
            write_faults: 0,
            fuse: Fuse::new(),
            arms: Armings::new(),
        })
    }

    /// The rack that another process opens; after a power loss, if there was one.
    pub fn reopened(self, alloc: Global, loss: Option<Loss>) -> Result<CutTapes, NoMemory> {
        let CutTapes {
            power,
            reels,
            last,
            ..
        } = self;
        let mut left = Vec::new(alloc);
        for mut reel in reels {
            reel.reopen();
            if let Some(loss) = loss {
                reel.lose(&power, loss, &last)?;
            }
            push_reel(&mut left, reel)?;
        }
        Ok(CutTapes {
            power,
            reels: left,
            last,
            read_faults: 0,
            write_faults: 0,
            fuse: Fuse::new(),
            arms: Armings::new(),
        })
    }
}

/// Appends a reel, unless there are 16 already or one has a serial as great.
fn push_reel(reels: &mut Vec<CutReel>, reel: CutReel) -> Result<(), NoMemory>
    requires rack { AreReels (map reel_of reels.old.items) }
    ensures rack { OnOk result (AreReels (map reel_of reels.new.items)) }
{
    if reels.len() >= MAX_REELS || !is_above(reel.state().serial(), reels) {
        return Err(NoMemory);
    }
    reels.push(reel)?;
    Ok(())
}

/// Whether the serial is above those of all these reels.
fn is_above(serial: u32, reels: &[CutReel]) -> bool
    ensures { IsTrue result ↔ All (λ reel. (reel_of reel).serial < serial) reels.now }
{
    reels.iter().all(|reel| reel.state().serial() < serial)
}

impl Tapes for CutTapes {
    ghost use Rattle.g_power.specs.CutTapes.{rack_of};

    ghost rack = { λ t. rack_of t };

    fn reels(&self) -> usize {
        self.reels.len()
    }

    fn serial(&self, i: usize) -> u32 {
        self.reels[i].state().serial()
    }

    fn mounted(&self, serial: u32) -> bool {
        match place_of(&self.reels, serial) {
            Some(place) => self.reels[place].state().is_mounted(),
            None => false,
        }
    }

    fn capacity(&self, serial: u32) -> Result<u32, TapeFault> {
        match place_of(&self.reels, serial) {
            Some(place) => Ok(self.reels[place].state().capacity()),
            None => Err(TapeFault::NoTape),
        }
    }

    fn length(&self, serial: u32) -> Result<u32, TapeFault> {
        match place_of(&self.reels, serial) {
            Some(place) => Ok(self.reels[place].state().len()),
            None => Err(TapeFault::NoTape),
        }
    }

    fn mount(&mut self, serial: u32) -> Result<(), TapeFault> {
        let Some(place) = place_of(&self.reels, serial) else {
            return Err(TapeFault::NoTape);
        };
        self.reels[place].set_mounted(true);
        Ok(())
    }

    fn unmount(&mut self, serial: u32) -> Result<(), TapeFault> {
        let Some(place) = place_of(&self.reels, serial) else {
            return Err(TapeFault::NoTape);
        };
        if let Some(fault) = self.reels[place].state().refuses_unmount() {
            return Err(fault);
        }
        self.reels[place].set_mounted(false);
        Ok(())
    }

    fn read(&mut self, serial: u32, k: u32, into: &mut Block) -> Result<(), TapeFault> {
        let Some(place) = place_of(&self.reels, serial) else {
            return Err(TapeFault::NoTape);
        };
        if let Some(fault) = self.reels[place].state().refuses_read(k) {
            return Err(fault);
        }
        if self.reels[place].read(&self.power, k, into).is_err() {
            self.read_faults = raised(self.read_faults);
            return Err(TapeFault::ReadFailed);
        }
        Ok(())
    }

    fn write(&mut self, serial: u32, k: u32, from: &Block) -> Result<(), TapeFault> {
        let Some(place) = place_of(&self.reels, serial) else {
            return Err(TapeFault::NoTape);
        };
        if let Some(fault) = self.reels[place].state().refuses_write(k) {
            return Err(fault);
        }
        if is_synced(k, from) {
            self.last = *from;
        }
        let fires = self.fuse.burn();
        if self.reels[place]
            .end_with(&self.power, fires, k, from)
            .is_err()
        {
            self.write_faults = raised(self.write_faults);
            return Err(TapeFault::WriteFailed);
        }
        Ok(())
    }

    fn secure(&mut self, serial: u32) -> Result<(), TapeFault> {
        let Some(place) = place_of(&self.reels, serial) else {
            return Err(TapeFault::NoTape);
        };
        if self.reels[place].secure(&self.power).is_err() {
            self.read_faults = raised(self.read_faults);
            return Err(TapeFault::ReadFailed);
        }
        Ok(())
    }

    fn arm(&mut self, k: u32) {
        self.fuse.arm(k);
        self.arms.arm(k, self.write_faults);
    }

    ghost well_formed = { λ t. t.well_formed };

    ghost fused = { λ t. t.fused };
}

/// The place of the reel, if it is there.
fn place_of(reels: &[CutReel], serial: u32) -> Option<usize>
    ensures { MatchOption result (reel serial (map reel_of reels.now) ≡ None) (IsPlaceOf serial (map reel_of reels.now)) }
{
    for (i, reel) in reels.iter().enumerate() {
        if reel.state().serial() == serial {
            return Some(i);
        }
    }
    None
}
