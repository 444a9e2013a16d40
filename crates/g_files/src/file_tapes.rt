//! A rack of files, one for each reel: counts of faults, and the fuse.
ghost use Rattle.std.specs.Prelude.{◌≡◌, ◌≤◌, [], Err, None, OnOk, Some, MatchOption, map, true, false};
ghost use Rattle.g_base.specs.Fuse.{BurnsByFailures, never};
ghost use Rattle.g_files.specs.Faults.{FailsByFault};
ghost use Rattle.g_files.specs.FileReel.{reel_of};
ghost use Rattle.g_files.specs.ReelRisk.{risk_of};
ghost use Rattle.g_files.specs.Reels.{AreFresh, AreSaved, LeaveNoMore, faults_of};
ghost use Rattle.g_files.specs.Ahead.{window_of};
ghost use Rattle.g_files.specs.Window.{window};
ghost use Rattle.g_tape.specs.Place.{IsPlaceOf};
ghost use Rattle.g_tape.specs.Rack.{AreReels, reel};
ghost use Rattle.g_tape.specs.Reads.{LeavesNoMore};

use crate::ahead::ReadAhead;
use crate::file_reel::FileReel;
use crate::raw::RawFile;
use g_base::{Armings, Block, Fuse, raised};
use g_tape::{TapeFault, Tapes, half_of};
use std::io;

/// A rack on open files.
#[derive(Drop)]
pub struct FileTapes<F: RawFile + Drop, L: Drop> {
    /// What is held as long as the rack lives, as the lock of its folder.
    lock: L,
    reels: Vec<FileReel<F>>,
    ahead: ReadAhead,
    read_faults: u64,
    write_faults: u64,
    fuse: Fuse,
    arms: Armings,
    ghost well_formed: { AreReels (map reel_of reels.items) },
    ghost fresh: { AreFresh ahead reels.items },
    ghost fused: { BurnsByFailures write_faults arms fuse },
}

impl<F: RawFile + Drop, L: Drop> FileTapes<F, L> {
    ghost use Rattle.g_files.specs.FileTapes.{opened, rack_faults, rack_of, rack_reels};

    /// The rack of these reels, which are in rising serial.
    pub fn new(lock: L, reels: Vec<FileReel<F>>, ahead: ReadAhead) -> FileTapes<F, L>
        requires reels { AreReels (map reel_of reels.items) }
        requires ahead { window_of ahead ≡ window 0 [] }
        ensures { rack_of result ≡ opened (map reel_of reels.items) (map risk_of reels.items) }
    {
        FileTapes {
            lock,
            reels,
            ahead,
            read_faults: 0,
            write_faults: 0,
            fuse: Fuse::new(),
            arms: Armings::new(),
        }
    }

    /// The reels, in rising serial.
    pub fn each(&self) -> &[FileReel<F>]
        ensures { result.now ≡ rack_reels self.now }
    {
        &self.reels
    }

    /// Cuts off what failed calls may have left after the reels, and syncs what this run wrote, at its end. On Ok each file has
    /// exactly the blocks of its reel. If that fails for a reel, the others are finished all the same, and the error is that of the
    /// first. Whether or not it fails, a power loss leaves nothing that it couldn't have left before.
    pub fn finish(&mut self) -> io::Result<()>
        ensures saved { OnOk result (AreSaved (rack_reels self.new)) }
        ensures same { rack_of self.new ≡ record (rack_of self.old) { risks = (rack_of self.new).risks } }
        ensures no_more { LeavesNoMore (rack_of self.old) (rack_of self.new) }
        ensures cause { FailsByFault result (rack_faults self.old) (rack_faults self.new) }
    {
        self.ahead.forget(0);
        finish_all(&mut self.reels)
    }
}

impl<F: RawFile + Drop, L: Drop> Tapes for FileTapes<F, L> {
    ghost use Rattle.g_files.specs.FileTapes.{rack_of};

    ghost rack = { λ t. rack_of t };

    fn reels(&self) -> usize {
        self.reels.len()
    }

    fn serial(&self, i: usize) -> u32 {
        self.reels[i].state().serial()
    }

    fn mounted(&self, serial: u32) -> bool {
        match place_of(&self.reels, serial) {
            Some(place) => self.reels[place].state().is_mounted(),
            None => false,
        }
    }

    fn capacity(&self, serial: u32) -> Result<u32, TapeFault> {
        match place_of(&self.reels, serial) {
            Some(place) => Ok(self.reels[place].state().capacity()),
            None => Err(TapeFault::NoTape),
        }
    }

    fn length(&self, serial: u32) -> Result<u32, TapeFault> {
        match place_of(&self.reels, serial) {
            Some(place) => Ok(self.reels[place].state().len()),
            None => Err(TapeFault::NoTape),
        }
    }

    fn mount(&mut self, serial: u32) -> Result<(), TapeFault> {
        let Some(place) = place_of(&self.reels, serial) else {
            return Err(TapeFault::NoTape);
        };
        self.reels[place].set_mounted(true);
        Ok(())
    }

    /// Makes no system call. Blocks that aren't durable yet become so by the next write that syncs, by `secure` or by `finish`.
    fn unmount(&mut self, serial: u32) -> Result<(), TapeFault> {
        let Some(place) = place_of(&self.reels, serial) else {
            return Err(TapeFault::NoTape);
        };
        if let Some(fault) = self.reels[place].state().refuses_unmount() {
            return Err(fault);
        }
        self.reels[place].set_mounted(false);
        Ok(())
    }

    fn read(&mut self, serial: u32, k: u32, into: &mut Block) -> Result<(), TapeFault> {
        let Some(place) = place_of(&self.reels, serial) else {
            return Err(TapeFault::NoTape);
        };
        if let Some(fault) = self.reels[place].state().refuses_read(k) {
            return Err(fault);
        }
        if self.reels[place]
            .read(&mut self.ahead, place, k, into)
            .is_err()
        {
            self.read_faults = raised(self.read_faults);
            return Err(TapeFault::ReadFailed);
        }
        Ok(())
    }

    /// An armed write writes half of the block, followed by zeros.
    fn write(&mut self, serial: u32, k: u32, from: &Block) -> Result<(), TapeFault> {
        let Some(place) = place_of(&self.reels, serial) else {
            return Err(TapeFault::NoTape);
        };
        if let Some(fault) = self.reels[place].state().refuses_write(k) {
            return Err(fault);
        }
        self.ahead.forget(k);
        if self.fuse.burn() {
            self.write_faults = raised(self.write_faults);
            let _left = self.reels[place].end_with(k, &half_of(from));
            return Err(TapeFault::WriteFailed);
        }
        if self.reels[place].end_with(k, from).is_err() {
            self.write_faults = raised(self.write_faults);
            return Err(TapeFault::WriteFailed);
        }
        Ok(())
    }

    fn secure(&mut self, serial: u32) -> Result<(), TapeFault> {
        let Some(place) = place_of(&self.reels, serial) else {
            return Err(TapeFault::NoTape);
        };
        // What was read ahead after the end of the reel may be cut off.
        self.ahead.forget_of(place, self.reels[place].state().len());
        if self.reels[place].secure().is_err() {
            self.read_faults = raised(self.read_faults);
            return Err(TapeFault::ReadFailed);
        }
        Ok(())
    }

    fn arm(&mut self, k: u32) {
        self.fuse.arm(k);
        self.arms.arm(k, self.write_faults);
    }

    ghost well_formed = { λ t. t.well_formed };

    ghost fused = { λ t. t.fused };
}

/// The place of the reel, if it is there.
fn place_of<F: RawFile + Drop>(reels: &[FileReel<F>], serial: u32) -> Option<usize>
    ensures { MatchOption result (reel serial (map reel_of reels.now) ≡ None) (IsPlaceOf serial (map reel_of reels.now)) }
{
    for (i, reel) in reels.iter().enumerate() {
        if reel.state().serial() == serial {
            return Some(i);
        }
    }
    None
}

/// Finishes each reel, and returns the first error.
fn finish_all<F: RawFile + Drop>(reels: &mut [FileReel<F>]) -> io::Result<()>
    ensures saved { OnOk result (AreSaved reels.new) }
    ensures same { map reel_of reels.new ≡ map reel_of reels.old }
    ensures no_more { LeaveNoMore reels.old reels.new }
    ensures cause { FailsByFault result (faults_of reels.old) (faults_of reels.new) }
{
    let mut finished = Ok(());
    for i in 0..reels.len() {
        finished = finished.and(reels[i].finish());
    }
    finished
}
