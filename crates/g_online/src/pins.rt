//! The versions of a dump: they are pinned when it is opened, read while it is written, and unpinned when it ends.
ghost use Rattle.std.specs.Prelude.{◌≡◌, ◌≢◌, ℕ, ◌+◌, ◌<◌, ◌≤◌, ◌^◌, All, AllPairs, IfOk, List, None, OnErr, OnOk, Some, length, slice_get, slice_index_or, slice_set, false, true, [], ◌∷◌, if◌then◌else◌};
ghost use Rattle.std.specs.Option.{ForSome, option_copied};
ghost use Rattle.g_base.specs.Block.{blocks_for};
ghost use Rattle.g_blocks.specs.Pool.{HasGiven, IsTaken};
ghost use Rattle.g_disc.specs.Disc.{ReadsByCause};
ghost use Rattle.g_disc_contents.specs.Facts.{IsTied, Pin};
ghost use Rattle.g_online.specs.DumpedVersions.{HasItsNumber, HasPut, is_stamp_current, is_waiting, lost_of, lost_places, pinned_in, pins_from, place_in, waiting_below, waiting_of};
ghost use Rattle.g_online.specs.Invariant.{copy_places};
ghost use Rattle.g_online.specs.Pins.{HasPinned};

use crate::numbers::UserNumbers;
use crate::pin_list::PinList;
use crate::pinned::Pinned;
use crate::{Online, OnlineFault};
use g_base::{Block, BlockList, NoMemory, blocks_for};
use g_blocks::Pool;
use g_copy::DiscCopy;
use g_dirs::CopyTable;
use g_disc::Disc;
use g_entry::{FileRec, TapeCopy};
use g_table::FileTable;
use g_tree::Tree;
use std::alloc::Global;

impl<D: Disc> Online<D> {
    /// Pins the versions that wait to be dumped, by owner and then by number: those of files that aren't empty and have no
    /// copy on tape. Their blocks stay until `unpin` or `close_dump`, even if the files are erased or replaced. For each
    /// version a place on the reel `serial` is noted: the first from block `first` on, each other one directly after its
    /// predecessor. It allocates all memory that the closing needs. Out of memory, nothing has changed.
    pub fn pin(&mut self, alloc: Global, serial: u32, first: u32) -> Result<(), NoMemory>
        requires live { self.old.live ≡ true }
        requires none { self.old.pins ≡ None }
        requires place { first ≤ 131_072 }
        ensures ok { OnOk result (HasPinned serial first self.old self.new) }
        ensures same { OnErr result (self.new ≡ self.old) }
        ensures tied { IsTied self.new }
    {
        let pins = match waiting_versions(alloc, &self.tree, &self.online, serial, first) {
            Ok(pins) => pins,
            Err(_) => return Err(NoMemory),
        };
        let list = match PinList::new(alloc, pins) {
            Ok(list) => list,
            Err(_) => return Err(NoMemory),
        };
        self.pins = Some(list);
        Ok(())
    }

    /// Removes the pins. The blocks that no file has any more become free.
    pub fn unpin(&mut self)
        requires live { self.old.live ≡ true }
        ensures free { self.new ≡ record self.old { pins = None; touched = [] } }
        ensures tied { IsTied self.new }
    {
        free_orphaned_pins(
            &mut self.pool,
            pinned_versions(&self.pins),
            self.tree.files(),
        );
        self.pins = None;
        self.touched = UserNumbers::new();
    }

    /// Reads block `part` of the `i`-th pinned version, both counted from 0. Only the count of failed reads may change. On
    /// `ReadFault` the contents of `into` are unspecified.
    pub fn pinned_block(&mut self, i: usize, part: u32, into: &mut Block) -> Result<(), OnlineFault>
        requires live { self.old.live ≡ true }
        requires there { (pins : List Pin) × (self.old.pins ≡ Some pins) × (pin : Pin)
            × (slice_get pins i ≡ Some pin) × (part < blocks_for pin.len) }
        ensures block { OnOk result ((pins : List Pin) (pin : Pin) → self.old.pins ≡ Some pins
            → slice_get pins i ≡ Some pin
            → ForSome pin.blocks (λ blocks. slice_get blocks part ≡ Some into.new)) }
        ensures same { self.new ≡ record self.old { disc = self.new.disc } }
        ensures reads { ReadsByCause (result ≡ Err OnlineFault.ReadFault) self.old.disc self.new.disc }
        ensures tied { IsTied self.new }
        ensures only { OnErr result (result ≡ Err OnlineFault.ReadFault) }
    {
        let Some(place) = place_of(pinned_versions(&self.pins), i, part) else {
            unreachable!()
        };
        match self.disc.read(place, into) {
            Ok(()) => Ok(()),
            Err(_) => Err(OnlineFault::ReadFault),
        }
    }
}

/// The pinned versions, if there are any.
pub(crate) fn pinned_versions(pins: &Option<PinList>) -> &[Pinned]
    ensures { result.now ≡ pinned_in pins.now }
{
    match pins {
        Some(pins) => pins.as_slice(),
        None => &[],
    }
}

/// Where block `part` of the `i`-th version lies.
fn place_of(pins: &[Pinned], i: usize, part: u32) -> Option<u32>
    ensures { result ≡ place_in (slice_get pins.now i) part }
{
    match pins.get(i) {
        Some(pin) => pin.blocks.as_slice().get(part as usize).copied(),
        None => None,
    }
}

/// Returns the blocks of those versions that no file has any more to the pool.
pub(crate) fn free_orphaned_pins(pool: &mut Pool, pins: &[Pinned], files: &FileTable)
    requires rising { AllPairs (λ r s. r.number < s.number) files.now }
    requires numbered { All (λ p. All (HasItsNumber p) files.now) pins.now }
    requires apart { AllPairs (λ j k. j ≢ k) (lost_places files.now pins.now) }
    requires taken { All (IsTaken pool.old) (lost_places files.now pins.now) }
    ensures { HasGiven (lost_places files.now pins.now) pool.old pool.new }
{
    for pin in pins {
        give_one_lost(pool, pin, files);
    }
}

/// Does so for one version.
fn give_one_lost(pool: &mut Pool, pin: &Pinned, files: &FileTable)
    requires rising { AllPairs (λ r s. r.number < s.number) files.now }
    requires numbered { All (HasItsNumber pin.now) files.now }
    requires apart { AllPairs (λ j k. j ≢ k) (lost_of files.now pin.now) }
    requires taken { All (IsTaken pool.old) (lost_of files.now pin.now) }
    ensures { HasGiven (lost_of files.now pin.now) pool.old pool.new }
{
    if is_current(files, pin) {
        pool.give(&[]);
    } else {
        pool.give(pin.blocks.as_slice());
    }
}

/// Whether some file has this version. Only the file of its number can have it.
fn is_current(files: &FileTable, pin: &Pinned) -> bool
    requires rising { AllPairs (λ r s. r.number < s.number) files.now }
    requires numbered { All (HasItsNumber pin.now) files.now }
    ensures { result ≡ is_stamp_current files.now pin.now.stamp }
{
    match files.get(pin.number) {
        Some(file) => file.stamp == pin.stamp,
        None => false,
    }
}

/// The versions that wait, by owner and then by number, with their tape places end to end from block `first` on. The files
/// are searched only for owners who have such a version.
fn waiting_versions(
    alloc: Global,
    tree: &Tree,
    online: &CopyTable,
    serial: u32,
    first: u32,
) -> Result<Vec<Pinned>, NoMemory>
    requires place { first ≤ 131_072 }
    ensures { IfOk result (λ pins. pins.items
        ≡ pins_from serial first online.now (waiting_below 63 tree.now.files)) }
{
    let files = tree.files();
    let waiting = waiting_owners(files);
    let mut pins = Vec::new(alloc);
    let mut at = first;
    for owner in 0..63 {
        if waiting[usize::from(owner)] {
            match pin_owner(&mut pins, &mut at, serial, owner, files, online) {
                Ok(()) => {}
                Err(_) => return Err(NoMemory),
            }
        }
    }
    Ok(pins)
}

/// A flag for each number of a user: none of a user's files waits unless it is set.
fn waiting_owners(files: &FileTable) -> [bool; 256]
    ensures { (owner : ℕ) → owner < 256 → slice_index_or result owner false ≡ false
        → waiting_of owner files.now ≡ [] }
{
    let mut waiting = [false; 256];
    for file in files {
        note_waiting(&mut waiting, file);
    }
    waiting
}

/// Sets the flag of the file's owner if the file waits.
fn note_waiting(waiting: &mut [bool; 256], file: &FileRec)
    ensures { waiting.new ≡ (if is_waiting file.now then slice_set waiting.old file.now.owner true
        else waiting.old) }
{
    if waits(file) {
        waiting[usize::from(file.owner)] = true;
    }
}

/// Appends the versions of this owner that wait. `at` is the block after the last place on tape.
fn pin_owner(
    pins: &mut Vec<Pinned>,
    at: &mut u32,
    serial: u32,
    owner: u8,
    files: &FileTable,
    online: &CopyTable,
) -> Result<(), NoMemory>
    requires few { length files.now ≤ 1024 }
    requires lengths { All (λ r. r.len ≤ 65536) files.now }
    requires room { at.old + 131_072 < 2 ^ 32 }
    ensures { OnOk result (HasPut serial online.now (waiting_of owner files.now)
        pins.old.items at.old pins.new.items at.new) }
{
    for file in files {
        match pin_file(pins, at, serial, owner, file, online) {
            Ok(()) => {}
            Err(_) => return Err(NoMemory),
        }
    }
    Ok(())
}

/// Does so for one file.
fn pin_file(
    pins: &mut Vec<Pinned>,
    at: &mut u32,
    serial: u32,
    owner: u8,
    file: &FileRec,
    online: &CopyTable,
) -> Result<(), NoMemory>
    requires room { at.old + blocks_for file.now.len < 2 ^ 32 }
    ensures { OnOk result (HasPut serial online.now (waiting_of owner (file.now ∷ []))
        pins.old.items at.old pins.new.items at.new) }
{
    if file.owner != owner || !waits(file) {
        return Ok(());
    }
    let pinned = Pinned {
        stamp: file.stamp,
        number: file.number,
        len: file.len,
        copy: TapeCopy { serial, first: *at },
        blocks: blocks_of(online.get(file.number)),
    };
    match pins.push(pinned) {
        Ok(()) => {}
        Err(_) => return Err(NoMemory),
    }
    *at += blocks_for(file.len);
    Ok(())
}

/// Whether the version waits to be dumped.
fn waits(file: &FileRec) -> bool
    ensures { result ≡ is_waiting file.now }
{
    file.len > 0 && file.tape.is_none()
}

/// The blocks of a copy, if there is one.
fn blocks_of(copy: Option<&DiscCopy>) -> BlockList
    ensures { result ≡ copy_places (option_copied copy.entry) }
{
    match copy {
        Some(copy) => copy.blocks.copy(),
        None => BlockList::new(),
    }
}
