//! The rack together with what is known of its reels.
ghost use Rattle.std.specs.Prelude.{◌≡◌, ◌↔◌, ◌+◌, ◌<◌, ◌≤◌, IfOk, IsTrue, List, OnErr};
ghost use Rattle.std.specs.Option.{ForSome};
ghost use Rattle.g_tape.specs.Rack.{reel};
ghost use Rattle.g_incr.specs.Layout.{Dump};
ghost use Rattle.g_incr.specs.Reading.{ReadsReel};
ghost use Rattle.g_shelf.specs.CompletedDumps.{end_of};
ghost use Rattle.g_shelf.specs.HeldBlocks.{AreHeld};
ghost use Rattle.g_known.specs.ReelNotes.{AreFound, IsNoted};

use crate::lists::end;
use crate::remembered::Remembered;
use g_base::Block;
use g_entry::TapeCopy;
use g_incr::{DumpNote, ShelfFault};
use g_shelf::{Notes, is_held};
use g_tape::{TapeFault, Tapes};
use std::alloc::Global;
use std::marker::Model;

/// A rack that remembers the completed dumps of its reels. Contracts see only the rack; what is remembered, and when it is
/// forgotten, is in the contracts of `Remembered`, whose calls are made here.
///
/// The remembered dumps are the first ones of their reel, which hasn't been unmounted since they were read. An unmount forgets
/// the reel, and so does a write into a remembered dump. A query reads on after the remembered dumps; that it reads nothing else
/// isn't promised. If there is no memory to remember what was read, the query returns `NoMemory`.
#[derive(Drop)]
pub struct KnownReels<T: Tapes> {
    reels: Remembered<T>,
}

impl<T: Tapes> Model for KnownReels<T> {
    ghost use Rattle.g_known.specs.ReelNotes.{AreKnown};

    ghost Value = { T };

    ghost coded = { T.code };

    ghost view = { λ k. k.reels.tapes };

    ghost invariant = { λ k. AreKnown (T.rack k.reels.tapes) k.reels.known.items };
}

impl<T: Tapes> KnownReels<T> {
    /// The rack, of whose dumps nothing is known yet. It allocates nothing.
    #[tactic(auto, using(crate::proofs::KnownLemmas::none_known))]
    pub fn new(alloc: Global, tapes: T) -> KnownReels<T>
        ensures { result ≡ tapes }
    {
        KnownReels {
            reels: Remembered {
                tapes,
                known: Vec::new(alloc),
            },
        }
    }

    /// The rack in its current state.
    pub fn into_tapes(self) -> T
        ensures { result ≡ self }
    {
        self.reels.tapes
    }

    /// Whether all `blocks` blocks from the copy's first one on are content of completed dumps of its reel. `NoTape`,
    /// `NotMounted`, `ReadFault`, `NoMemory`; the reel's content is unchanged.
    pub fn find_copy(
        &mut self,
        alloc: Global,
        copy: &TapeCopy,
        blocks: u32,
    ) -> Result<bool, ShelfFault>
        ensures reads { ReadsReel copy.now.serial result (T.rack self.old) (T.rack self.new) }
        ensures held { IfOk result (λ is. (dumps : List Dump)
            × AreFound copy.now.serial dumps (T.rack self.old) × (IsTrue is ↔ AreHeld dumps copy.now blocks)) }
        ensures fits { IfOk result (λ is. IsTrue is → 0 < blocks →
            ForSome (reel copy.now.serial (T.rack self.old).reels) (λ r. copy.now.first + blocks ≤ r.len)) }
    {
        match self.reels.fill(alloc, copy.serial) {
            Ok(()) => {}
            Err(fault) => return Err(fault),
        }
        Ok(is_held(self.reels.notes(copy.serial), copy, blocks))
    }

    /// The block after the completed dumps of the reel, at most the reel's length in blocks. `NoTape`, `NotMounted`,
    /// `ReadFault`, `NoMemory`; the reel's content is unchanged.
    pub fn end_of(&mut self, alloc: Global, serial: u32) -> Result<u32, ShelfFault>
        ensures reads { ReadsReel serial result (T.rack self.old) (T.rack self.new) }
        ensures end { IfOk result (λ end. (dumps : List Dump)
            × AreFound serial dumps (T.rack self.old) × (end ≡ end_of dumps)) }
        ensures fits { IfOk result (λ end. ForSome (reel serial (T.rack self.old).reels) (λ r. end ≤ r.len)) }
    {
        match self.reels.fill(alloc, serial) {
            Ok(()) => {}
            Err(fault) => return Err(fault),
        }
        Ok(end(self.reels.notes(serial)) as u32)
    }

    /// The notes of the reel's completed dumps, in their order. `NoTape`, `NotMounted`, `ReadFault`, `NoMemory`; the reel's
    /// content is unchanged.
    pub fn notes(&mut self, alloc: Global, serial: u32) -> Result<Notes, ShelfFault>
        ensures reads { ReadsReel serial result (T.rack self.old) (T.rack self.new) }
        ensures noted { IfOk result (IsNoted serial (T.rack self.old)) }
    {
        match self.reels.fill(alloc, serial) {
            Ok(()) => copied(alloc, self.reels.notes(serial)),
            Err(fault) => Err(fault),
        }
    }
}

/// A copy of the notes. `NoMemory`.
fn copied(alloc: Global, notes: &[DumpNote]) -> Result<Notes, ShelfFault>
    ensures same { IfOk result (λ copy. copy ≡ notes.now) }
    ensures only { OnErr result (result ≡ Err ShelfFault.NoMemory) }
{
    match Vec::from_slice(alloc, notes) {
        Ok(notes) => Ok(Notes::from(notes)),
        Err(_) => Err(ShelfFault::NoMemory),
    }
}

impl<T: Tapes> Tapes for KnownReels<T> {
    ghost rack = { λ k. T.rack k };

    fn reels(&self) -> usize {
        self.reels.tapes.reels()
    }

    fn serial(&self, i: usize) -> u32 {
        self.reels.tapes.serial(i)
    }

    fn mounted(&self, serial: u32) -> bool {
        self.reels.tapes.mounted(serial)
    }

    fn capacity(&self, serial: u32) -> Result<u32, TapeFault> {
        self.reels.tapes.capacity(serial)
    }

    fn length(&self, serial: u32) -> Result<u32, TapeFault> {
        self.reels.tapes.length(serial)
    }

    fn mount(&mut self, serial: u32) -> Result<(), TapeFault> {
        self.reels.mount(serial)
    }

    fn unmount(&mut self, serial: u32) -> Result<(), TapeFault> {
        self.reels.unmount(serial)
    }

    fn read(&mut self, serial: u32, k: u32, into: &mut Block) -> Result<(), TapeFault> {
        self.reels.read(serial, k, into)
    }

    fn write(&mut self, serial: u32, k: u32, from: &Block) -> Result<(), TapeFault> {
        self.reels.write(serial, k, from)
    }

    fn secure(&mut self, serial: u32) -> Result<(), TapeFault> {
        self.reels.secure(serial)
    }

    fn arm(&mut self, k: u32) {
        self.reels.tapes.arm(k);
    }

    ghost well_formed = { λ k. T.well_formed k };

    ghost fused = { λ k. T.fused k };
}
