//! The image of a disc: a file of whole blocks. Consecutive writes are buffered, and blocks that are read in order are read
//! ahead; a read always returns what was written last. A write of the gate, block 0, is a commit: it is preceded and followed by a
//! sync.
ghost use Rattle.std.specs.Prelude.{◌≡◌, ◌+◌, ◌*◌, ◌<◌, ◌≤◌, [], length, true, false, IfOk, OnOk};
ghost use Rattle.std.specs.Option.{ForSome};
ghost use Rattle.g_base.specs.ToldContent.{Changes};
ghost use Rattle.g_files.specs.Bytes.{AreBytes, part};
ghost use Rattle.g_files.specs.Calls.{HasWrittenAll};
ghost use Rattle.g_files.specs.Durability.{AreSynced, DurableAreSyncable, HasDurable, HasSyncable, IsSettled, StayDurable, StaySyncable, overlaid};
ghost use Rattle.g_files.specs.Faults.{FailsByFault};
ghost use Rattle.g_files.specs.Durability.{KeepsDurability, SyncsDurability, WritesBlock, WritesDurability};

use crate::raw::RawFile;
use crate::whole::{read_whole, write_whole};
use crate::window::{MOST, Window};
use g_base::{Block, ReadFailed, WriteFailed};
use std::alloc::Global;
use std::io;

/// The block that names the current slot (docs/FORMATS.md, "The disc").
const GATE: u32 = 0;

/// Where an image came from when it was opened.
#[derive(Clone, Copy, PartialEq, Eq)]
pub enum Origin {
    /// This process made it, and synced it.
    New,
    /// It existed; writes of an earlier process may not have reached the device.
    Found,
}

/// An open image of `size` blocks.
#[derive(Drop)]
pub(crate) struct Image<F: RawFile + Drop> {
    file: F,
    pub size: u32,
    /// Whether the gate is known to be durable.
    settled: bool,
    /// Whether this run wrote to the file since the last sync that succeeded.
    pending: bool,
    /// Blocks that were written by the caller but not to the file.
    buffered: Window,
    /// Blocks of the file that were read ahead.
    ahead: Window,
    /// The block that follows the one read last.
    next: u32,
    /// How many blocks the last read-ahead asked for.
    wanted: u32,
    ghost sized: { ForSome (F.content file) (λ bytes. length bytes ≡ 512 * size) },
    ghost bytes: { ForSome (F.content file) AreBytes },
    ghost within: { buffered.at + length buffered.bytes ≤ 512 * size },
    ghost buffered_bytes: { AreBytes buffered.bytes },
    ghost fresh: { ForSome (F.content file) (λ bytes. ahead.bytes ≡ part ahead.at (length ahead.bytes) bytes) },
    ghost few: { wanted ≤ 64 },
    ghost sound: { DurableAreSyncable (F.durability file) },
    ghost apart: { 0 < length buffered.bytes → 512 ≤ buffered.at },
    ghost gate: { settled ≡ true → HasDurable 0 512 (F.durability file) },
    ghost synced: { settled ≡ true → pending ≡ false → AreSynced (F.durability file) },
}

impl<F: RawFile + Drop> Image<F> {
    ghost use Rattle.g_files.specs.Image.{durability_seen, faults_of, file_of, seen, settled_of, size_of};

    /// The image on a file of `size` blocks. A new one needs no further call before its first write: its file was synced.
    pub fn over(alloc: Global, file: F, size: u32, origin: Origin) -> io::Result<Image<F>>
        requires sized { ForSome (F.content file) (λ bytes. length bytes ≡ 512 * size) }
        requires bytes { ForSome (F.content file) AreBytes }
        requires sound { DurableAreSyncable (F.durability file) }
        requires new { origin ≡ Origin.New → IsSettled (F.durability file) }
        ensures seen { IfOk result (λ image. seen image ≡ F.content file) }
        ensures size { IfOk result (λ image. size_of image ≡ size) }
        ensures as_durable { IfOk result (λ image. durability_seen image ≡ overlaid 0 0 (F.durability file)) }
    {
        Ok(Image {
            file,
            size,
            settled: is_new(origin),
            pending: false,
            buffered: Window::new(alloc)?,
            ahead: Window::new(alloc)?,
            next: 0,
            wanted: 1,
        })
    }

    /// Reads block k.
    pub fn read(&mut self, k: u32, into: &mut Block) -> Result<(), ReadFailed>
        requires { k < size_of self.old }
        ensures block { OnOk result (ForSome (seen self.old) (λ bytes. into.new ≡ part (512 * k) 512 bytes)) }
        ensures same { seen self.new ≡ seen self.old }
        ensures size { size_of self.new ≡ size_of self.old }
        ensures as_durable { durability_seen self.new ≡ durability_seen self.old }
    {
        if self.buffered.copy(k, into) {
            return Ok(());
        }
        self.read_file(k, into)
    }

    /// Makes the gate durable. The system may consider written what a sync that failed, perhaps one of an earlier process, didn't
    /// write; so the gate is written again, unchanged, and synced, unless it is known to be durable.
    pub fn secure(&mut self) -> Result<(), WriteFailed>
        requires { 0 < size_of self.old }
        ensures same { seen self.new ≡ seen self.old }
        ensures size { size_of self.new ≡ size_of self.old }
        ensures durability { KeepsDurability (durability_seen self.old) (durability_seen self.new) result }
        ensures gate { OnOk result (HasDurable 0 512 (durability_seen self.new)) }
        ensures settled { OnOk result (settled_of self.new ≡ true) }
    {
        if self.settled { Ok(()) } else { self.settle() }
    }

    /// Writes block k. A block that follows the one written before is buffered, with at most 63 others, and reaches the file
    /// by one call, before any other block is written; any other block is written at once. If this fails, block k alone may
    /// have changed: buffered blocks stay buffered.
    pub fn write(&mut self, k: u32, block: &Block) -> Result<(), WriteFailed>
        requires { k < size_of self.old }
        ensures written { Changes (HasWrittenAll (512 * k) block.now result) (seen self.old) (seen self.new) }
        ensures size { size_of self.new ≡ size_of self.old }
        ensures durability { WritesBlock k block.now (seen self.old) (seen self.new) (durability_seen self.old) (durability_seen self.new) result }
    {
        if k == GATE {
            return self.write_through(k, block);
        }
        if self.secure().is_err() {
            return Err(WriteFailed);
        }
        if self.buffered.is_next(k) {
            return self.buffer(k, block);
        }
        if self.restart(k).is_err() {
            return Err(WriteFailed);
        }
        self.write_at(k, block)
    }

    /// Writes these bytes at the start of block k, after all buffered blocks. Writing the gate is a commit: everything written
    /// before is durable before it, and it is durable before anything written later.
    pub fn write_through(&mut self, k: u32, bytes: &[u8]) -> Result<(), WriteFailed>
        requires block { k < size_of self.old }
        requires few { length bytes.now ≤ 512 }
        requires bytes { AreBytes bytes.now }
        ensures written { Changes (HasWrittenAll (512 * k) bytes.now result) (seen self.old) (seen self.new) }
        ensures size { size_of self.new ≡ size_of self.old }
        ensures durability { WritesBlock k bytes.now (seen self.old) (seen self.new) (durability_seen self.old) (durability_seen self.new) result }
    {
        if self.secure().is_err() {
            return Err(WriteFailed);
        }
        if self.flush().is_err() {
            return Err(WriteFailed);
        }
        if k == GATE {
            return self.write_gate(bytes);
        }
        self.write_at(k, bytes)
    }

    /// Flushes the buffered blocks and syncs, at the end of a run. On Ok the file has the bytes that reads see. A run that
    /// wrote nothing syncs nothing.
    pub fn finish(&mut self) -> Result<(), WriteFailed>
        ensures saved { OnOk result (file_of self.new ≡ seen self.old) }
        ensures same { seen self.new ≡ seen self.old }
        ensures size { size_of self.new ≡ size_of self.old }
        ensures durability { KeepsDurability (durability_seen self.old) (durability_seen self.new) result }
        ensures synced { OnOk result (settled_of self.old ≡ true → AreSynced (durability_seen self.new)) }
        ensures cause { FailsByFault result (faults_of self.old) (faults_of self.new) }
    {
        if self.flush().is_err() {
            return Err(WriteFailed);
        }
        if self.pending {
            return self.sync();
        }
        Ok(())
    }
}

impl<F: RawFile + Drop> Image<F> {
    ghost use Rattle.g_files.specs.Image.{buffered_at, buffered_of, durability_of, durability_seen, faults_of, file_of, seen, settled_of, size_of};

    /// Reads block k of the file.
    fn read_file(&mut self, k: u32, into: &mut Block) -> Result<(), ReadFailed>
        requires { k < size_of self.old }
        ensures block { OnOk result (ForSome (file_of self.old) (λ bytes. into.new ≡ part (512 * k) 512 bytes)) }
        ensures file { file_of self.new ≡ file_of self.old }
        ensures at { buffered_at self.new ≡ buffered_at self.old }
        ensures buffered { buffered_of self.new ≡ buffered_of self.old }
        ensures size { size_of self.new ≡ size_of self.old }
        ensures as_durable { durability_of self.new ≡ durability_of self.old }
    {
        if self.ahead.copy(k, into) {
            self.next = k.saturating_add(1);
            return Ok(());
        }
        self.look_ahead(k);
        if self.ahead.copy(k, into) {
            return Ok(());
        }
        if read_whole(&mut self.file, into, 512 * u64::from(k)).is_err() {
            return Err(ReadFailed);
        }
        Ok(())
    }

    /// If block k, which isn't in memory, is the next one in order, reads it and those that follow: 4, 16 and then 64 at a time.
    fn look_ahead(&mut self, k: u32)
        ensures file { file_of self.new ≡ file_of self.old }
        ensures at { buffered_at self.new ≡ buffered_at self.old }
        ensures buffered { buffered_of self.new ≡ buffered_of self.old }
        ensures size { size_of self.new ≡ size_of self.old }
        ensures as_durable { durability_of self.new ≡ durability_of self.old }
    {
        let in_order = k == self.next;
        self.next = k.saturating_add(1);
        if !in_order {
            self.wanted = 1;
            return;
        }
        self.wanted = MOST.min(4 * self.wanted);
        self.ahead.fetch(&mut self.file, k, self.wanted);
    }

    /// Writes the gate and syncs it, after everything that was written before has been synced.
    fn write_gate(&mut self, bytes: &[u8]) -> Result<(), WriteFailed>
        requires some { 0 < size_of self.old }
        requires few { length bytes.now ≤ 512 }
        requires bytes { AreBytes bytes.now }
        requires empty { buffered_of self.old ≡ [] }
        requires settled { settled_of self.old ≡ true }
        ensures written { Changes (HasWrittenAll 0 bytes.now result) (seen self.old) (seen self.new) }
        ensures size { size_of self.new ≡ size_of self.old }
        ensures durability { WritesBlock 0 bytes.now (seen self.old) (seen self.new) (durability_seen self.old) (durability_seen self.new) result }
    {
        if self.sync_before_gate().is_err() {
            return Err(WriteFailed);
        }
        self.settled = false;
        if self.write_at(GATE, bytes).is_err() {
            return Err(WriteFailed);
        }
        if self.sync().is_err() {
            return Err(WriteFailed);
        }
        self.settled = true;
        Ok(())
    }

    /// Syncs what was written before the gate.
    fn sync_before_gate(&mut self) -> Result<(), WriteFailed>
        requires settled { settled_of self.old ≡ true }
        ensures buffered { buffered_of self.new ≡ buffered_of self.old }
        ensures same { seen self.new ≡ seen self.old }
        ensures size { size_of self.new ≡ size_of self.old }
        ensures settled { settled_of self.new ≡ settled_of self.old }
        ensures durability { SyncsDurability (durability_of self.old) (durability_of self.new) result }
    {
        if self.pending { self.sync() } else { Ok(()) }
    }

    /// Buffers block k, which follows the last buffered one; flushes first if 64 are buffered.
    fn buffer(&mut self, k: u32, block: &Block) -> Result<(), WriteFailed>
        requires block { k < size_of self.old }
        requires next { 512 * k ≡ buffered_at self.old + length (buffered_of self.old) }
        requires other { 0 < k }
        ensures written { Changes (HasWrittenAll (512 * k) block.now result) (seen self.old) (seen self.new) }
        ensures size { size_of self.new ≡ size_of self.old }
        ensures durability { WritesBlock k block.now (seen self.old) (seen self.new) (durability_seen self.old) (durability_seen self.new) result }
    {
        if self.make_room(k).is_err() {
            return Err(WriteFailed);
        }
        self.buffered.push(block);
        Ok(())
    }

    /// Makes room for one more buffered block.
    fn make_room(&mut self, k: u32) -> Result<(), WriteFailed>
        requires block { k < size_of self.old }
        requires next { 512 * k ≡ buffered_at self.old + length (buffered_of self.old) }
        ensures next { OnOk result (512 * k ≡ buffered_at self.new + length (buffered_of self.new)) }
        ensures room { OnOk result (length (buffered_of self.new) < 32768) }
        ensures same { seen self.new ≡ seen self.old }
        ensures size { size_of self.new ≡ size_of self.old }
        ensures durability { KeepsDurability (durability_seen self.old) (durability_seen self.new) result }
    {
        if !self.buffered.is_full() {
            return Ok(());
        }
        if self.flush().is_err() {
            return Err(WriteFailed);
        }
        self.buffered.restart(k);
        Ok(())
    }

    /// Flushes; the next block to be buffered is the one that follows block k.
    fn restart(&mut self, k: u32) -> Result<(), WriteFailed>
        requires block { k < size_of self.old }
        ensures empty { OnOk result (buffered_of self.new ≡ []) }
        ensures same { seen self.new ≡ seen self.old }
        ensures size { size_of self.new ≡ size_of self.old }
        ensures durability { KeepsDurability (durability_seen self.old) (durability_seen self.new) result }
    {
        if self.flush().is_err() {
            return Err(WriteFailed);
        }
        self.buffered.restart(k + 1);
        Ok(())
    }

    /// Writes the gate unchanged, and syncs it.
    fn settle(&mut self) -> Result<(), WriteFailed>
        requires some { 0 < size_of self.old }
        requires unsettled { settled_of self.old ≡ false }
        ensures same { seen self.new ≡ seen self.old }
        ensures size { size_of self.new ≡ size_of self.old }
        ensures durability { KeepsDurability (durability_seen self.old) (durability_seen self.new) result }
        ensures settled { OnOk result (settled_of self.new ≡ true) }
    {
        if self.flush().is_err() {
            return Err(WriteFailed);
        }
        if self.rewrite_gate().is_err() {
            return Err(WriteFailed);
        }
        if self.sync().is_err() {
            return Err(WriteFailed);
        }
        self.settled = true;
        Ok(())
    }

    /// Reads the gate and writes it unchanged.
    fn rewrite_gate(&mut self) -> Result<(), WriteFailed>
        requires some { 0 < size_of self.old }
        requires empty { buffered_of self.old ≡ [] }
        requires unsettled { settled_of self.old ≡ false }
        ensures empty { buffered_of self.new ≡ [] }
        ensures same { seen self.new ≡ seen self.old }
        ensures size { size_of self.new ≡ size_of self.old }
        ensures settled { settled_of self.new ≡ settled_of self.old }
        ensures durable { StayDurable (durability_of self.old) (durability_of self.new) }
        ensures kept { OnOk result (StaySyncable (durability_of self.old) (durability_of self.new)) }
        ensures here { OnOk result (HasSyncable 0 512 (durability_of self.new)) }
    {
        let mut gate = [0; 512];
        if self.read_gate(&mut gate).is_err() {
            return Err(WriteFailed);
        }
        self.write_again(&gate)
    }

    /// Reads the gate from the file.
    fn read_gate(&mut self, gate: &mut Block) -> io::Result<()>
        requires empty { buffered_of self.old ≡ [] }
        ensures gate { OnOk result (ForSome (seen self.new) (λ bytes. gate.new ≡ part 0 512 bytes)) }
        ensures empty { buffered_of self.new ≡ [] }
        ensures same { seen self.new ≡ seen self.old }
        ensures size { size_of self.new ≡ size_of self.old }
        ensures settled { settled_of self.new ≡ settled_of self.old }
        ensures as_durable { durability_of self.new ≡ durability_of self.old }
    {
        read_whole(&mut self.file, gate, 0)
    }

    /// Writes the gate as it is.
    fn write_again(&mut self, gate: &Block) -> Result<(), WriteFailed>
        requires some { 0 < size_of self.old }
        requires empty { buffered_of self.old ≡ [] }
        requires gate { ForSome (seen self.old) (λ bytes. gate.now ≡ part 0 512 bytes) }
        requires unsettled { settled_of self.old ≡ false }
        ensures empty { buffered_of self.new ≡ [] }
        ensures same { seen self.new ≡ seen self.old }
        ensures size { size_of self.new ≡ size_of self.old }
        ensures settled { settled_of self.new ≡ settled_of self.old }
        ensures durable { StayDurable (durability_of self.old) (durability_of self.new) }
        ensures kept { OnOk result (StaySyncable (durability_of self.old) (durability_of self.new)) }
        ensures here { OnOk result (HasSyncable 0 512 (durability_of self.new)) }
    {
        self.write_at(GATE, gate)
    }

    /// Writes the buffered blocks to the file. If this fails, all of them stay buffered.
    fn flush(&mut self) -> Result<(), WriteFailed>
        ensures empty { OnOk result (buffered_of self.new ≡ []) }
        ensures same { seen self.new ≡ seen self.old }
        ensures size { size_of self.new ≡ size_of self.old }
        ensures settled { settled_of self.new ≡ settled_of self.old }
        ensures durability { KeepsDurability (durability_seen self.old) (durability_seen self.new) result }
        ensures cause { FailsByFault result (faults_of self.old) (faults_of self.new) }
    {
        if self.buffered.is_empty() {
            return Ok(());
        }
        self.ahead.truncate(0);
        self.pending = true;
        if write_whole(&mut self.file, self.buffered.bytes(), self.buffered.at()).is_err() {
            return Err(WriteFailed);
        }
        self.buffered.truncate(0);
        Ok(())
    }

    /// Writes these bytes at the start of block k of the file.
    fn write_at(&mut self, k: u32, bytes: &[u8]) -> Result<(), WriteFailed>
        requires block { k < size_of self.old }
        requires few { length bytes.now ≤ 512 }
        requires bytes { AreBytes bytes.now }
        requires empty { buffered_of self.old ≡ [] }
        requires unsettled { k ≡ 0 → settled_of self.old ≡ false }
        ensures written { Changes (HasWrittenAll (512 * k) bytes.now result) (seen self.old) (seen self.new) }
        ensures empty { buffered_of self.new ≡ [] }
        ensures size { size_of self.new ≡ size_of self.old }
        ensures settled { settled_of self.new ≡ settled_of self.old }
        ensures durability { WritesDurability (512 * k) bytes.now (file_of self.old) (durability_of self.old) (durability_of self.new) result }
        ensures syncable { OnOk result (HasSyncable (512 * k) (length bytes.now) (durability_of self.new)) }
    {
        self.ahead.truncate(k);
        self.pending = true;
        if write_whole(&mut self.file, bytes, 512 * u64::from(k)).is_err() {
            return Err(WriteFailed);
        }
        Ok(())
    }

    /// Waits until all writes have reached the device.
    fn sync(&mut self) -> Result<(), WriteFailed>
        ensures buffered { buffered_of self.new ≡ buffered_of self.old }
        ensures file { file_of self.new ≡ file_of self.old }
        ensures same { seen self.new ≡ seen self.old }
        ensures size { size_of self.new ≡ size_of self.old }
        ensures settled { settled_of self.new ≡ settled_of self.old }
        ensures durability { SyncsDurability (durability_of self.old) (durability_of self.new) result }
        ensures cause { FailsByFault result (faults_of self.old) (faults_of self.new) }
    {
        self.pending = true; // unless the sync succeeds
        if self.file.sync().is_err() {
            return Err(WriteFailed);
        }
        self.pending = false;
        Ok(())
    }
}

/// Whether this process made and synced the image.
fn is_new(origin: Origin) -> bool
    ensures { result ≡ true → origin ≡ Origin.New }
{
    match origin {
        Origin::New => true,
        Origin::Found => false,
    }
}
