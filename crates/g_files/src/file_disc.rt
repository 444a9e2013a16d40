//! A disc on an image: counts of faults and writes, and the fuse.
ghost use Rattle.std.specs.Prelude.{◌≡◌, ◌*◌, ◌<◌, ◌≤◌, ℕ, IfOk, List, OnErr, OnOk, Some, length, true};
ghost use Rattle.std.specs.Option.{ForSome};
ghost use Rattle.g_base.specs.Block.{IsBlock, with_block};
ghost use Rattle.g_base.specs.Fuse.{BurnsByWrites};
ghost use Rattle.g_disc.specs.Disc.{StayDurable, StaySyncable, is_durable, is_syncable};
ghost use Rattle.g_files.specs.Bytes.{AreBytes, blocks_of};
ghost use Rattle.g_files.specs.Durability.{DurableAreSyncable, IsSettled, WritesBlock};
ghost use Rattle.g_files.specs.Faults.{FailsByFault};
ghost use Rattle.g_files.specs.Image.{blocks_seen, durability_seen, seen, size_of};

use crate::image::{Image, Origin};
use crate::raw::RawFile;
use g_base::{
    Armings, Block, FIRST_COPY_BLOCK, Fuse, MAX_DISC_BLOCKS, ReadFailed, WriteFailed, raised,
};
use g_disc::Disc;
use std::alloc::Global;
use std::io::{self, Error, ErrorKind};

/// The bytes of a block.
const BLOCK_BYTES: u64 = 512;

/// A disc on an open file.
#[derive(Drop)]
pub struct FileDisc<F: RawFile + Drop> {
    image: Image<F>,
    read_faults: u64,
    write_faults: u64,
    writes: u64,
    fuse: Fuse,
    arms: Armings,
    ghost fused: { BurnsByWrites writes arms fuse },
}

impl<F: RawFile + Drop> FileDisc<F> {
    ghost use Rattle.g_files.specs.FileDisc.{disc_faults, disc_file, disc_size, disc_state, is_secured, opened};

    /// The disc on a file. `InvalidData` unless the file has 2,178 to 1,048,576 whole blocks; otherwise the error is the system's,
    /// or memory has run out.
    pub fn open(alloc: Global, file: F, origin: Origin) -> io::Result<FileDisc<F>>
        requires new { origin ≡ Origin.New → IsSettled (F.durability file) }
        ensures size { IfOk result (λ disc. (2177 < disc_size disc) × (disc_size disc ≤ 1048576)) }
        ensures whole { IfOk result (λ disc. ForSome (F.content file) (λ bytes. length bytes ≡ 512 * disc_size disc)) }
        ensures opened { IfOk result (λ disc. disc_state disc ≡ opened (disc_size disc) (F.content file) (F.durability file)) }
    {
        let mut file = file;
        let size = blocks_in(&mut file)?;
        Ok(FileDisc {
            image: Image::over(alloc, file, size, origin)?,
            read_faults: 0,
            write_faults: 0,
            writes: 0,
            fuse: Fuse::new(),
            arms: Armings::new(),
        })
    }

    /// Writes what is buffered to the file and syncs it, at the end of a run. On Ok the blocks of the file are the disc's. A
    /// commit doesn't depend on it: everything committed is already on the device.
    pub fn finish(&mut self) -> Result<(), WriteFailed>
        ensures saved { OnOk result (ForSome (disc_file self.new) (λ bytes. (disc_state self.old).held ≡ Some (blocks_of (disc_size self.old) bytes))) }
        ensures same { disc_state self.new
            ≡ record (disc_state self.old) { volatile = (disc_state self.new).volatile; dropped = (disc_state self.new).dropped } }
        ensures durable { StayDurable (disc_state self.old) (disc_state self.new) }
        ensures syncable { OnOk result (StaySyncable (disc_state self.old) (disc_state self.new)) }
        ensures synced { OnOk result (is_secured self.old ≡ true
            → (k : ℕ) → is_syncable (disc_state self.new) k ≡ true → is_durable (disc_state self.new) k ≡ true) }
        ensures cause { FailsByFault result (disc_faults self.old) (disc_faults self.new) }
    {
        self.image.finish()
    }
}

impl<F: RawFile + Drop> Disc for FileDisc<F> {
    ghost use Rattle.g_files.specs.FileDisc.{disc_state};

    ghost state = { λ d. disc_state d };

    fn size(&self) -> u32 {
        self.image.size
    }

    fn read(&mut self, k: u32, into: &mut Block) -> Result<(), ReadFailed> {
        if self.image.read(k, into).is_err() {
            self.read_faults = raised(self.read_faults);
            return Err(ReadFailed);
        }
        Ok(())
    }

    fn secure(&mut self) -> Result<(), ReadFailed> {
        if self.image.secure().is_err() {
            self.read_faults = raised(self.read_faults);
            return Err(ReadFailed);
        }
        Ok(())
    }

    /// An armed write writes half of the block.
    fn write(&mut self, k: u32, from: &Block) -> Result<(), WriteFailed> {
        self.writes = raised(self.writes);
        let fires = self.fuse.burn();
        if write_block(&mut self.image, k, from, fires).is_err() {
            self.write_faults = raised(self.write_faults);
            return Err(WriteFailed);
        }
        Ok(())
    }

    fn arm(&mut self, k: u32) {
        self.fuse.arm(k);
        self.arms.arm(k, self.writes);
    }
}

/// Writes block k. If `fires`, it writes the first half only, and fails.
fn write_block<F: RawFile + Drop>(
    image: &mut Image<F>,
    k: u32,
    from: &Block,
    fires: bool,
) -> Result<(), WriteFailed>
    requires { k < size_of image.old }
    ensures size { size_of image.new ≡ size_of image.old }
    ensures fired { fires ≡ true → OnOk result ⊥ }
    ensures block { OnOk result (blocks_seen image.new ≡ with_block k from.now (blocks_seen image.old)) }
    ensures torn { OnErr result ((left : List ℕ) × IsBlock left × (blocks_seen image.new ≡ with_block k left (blocks_seen image.old))) }
    ensures durability { WritesBlock k from.now (seen image.old) (seen image.new) (durability_seen image.old) (durability_seen image.new) result }
{
    if fires {
        let _torn = image.write_through(k, &from[..256]);
        return Err(WriteFailed);
    }
    image.write(k, from)
}

/// How many blocks the file has; `InvalidData` unless they are whole and as many as a disc has.
fn blocks_in<F: RawFile>(file: &mut F) -> io::Result<u32>
    ensures size { IfOk result (λ n. (2177 < n) × (n ≤ 1048576)) }
    ensures whole { IfOk result (λ n. ForSome (F.content file.old) (λ bytes. length bytes ≡ 512 * n)) }
    ensures bytes { ForSome (F.content file.old) AreBytes }
    ensures sound { DurableAreSyncable (F.durability file.old) }
    ensures same { F.content file.new ≡ F.content file.old }
    ensures as_durable { F.durability file.new ≡ F.durability file.old }
{
    let bytes = file.len()?;
    match u32::try_from(bytes / BLOCK_BYTES) {
        Ok(size)
            if bytes % BLOCK_BYTES == 0 && FIRST_COPY_BLOCK < size && size <= MAX_DISC_BLOCKS => {
            Ok(size)
        }
        _ => Err(Error::from(ErrorKind::InvalidData)),
    }
}
