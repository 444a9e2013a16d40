//! A disc in memory, whose failures are set beforehand.
ghost use Rattle.std.specs.Prelude.{◌≡◌, ◌<◌, ◌≤◌, IfOk, Some};
ghost use Rattle.g_base.specs.Fuse.{armed_with};
ghost use Rattle.g_disc.specs.Memory.{MemoryReads, MemorySecures, MemoryWrites, blank, left_by};

use crate::blocks::Blocks;
use crate::disc::Disc;
use g_base::{Armings, Block, Fuse, NoMemory, ReadFailed, WriteFailed, raised};
use std::alloc::Global;
use std::marker::Model;

/// What a failing write leaves in the block.
#[derive(Drop)]
pub enum Leave {
    /// The block, unchanged.
    Old,
    /// The new block.
    Whole,
    /// The first 256 bytes of the new block, and the rest of the old one.
    Half,
    /// These bytes.
    These(Block),
}

/// A disc in memory, whose writes are durable at once. Nothing fails but the write at which its fuse is 1, the reads that are named,
/// and `secure` if that is set.
#[derive(Drop)]
pub struct MemoryDisc {
    blocks: Blocks,
    leave: Leave,
    fail: Vec<u64>,
    reads: u64,
    insecure: bool,
    read_faults: u64,
    write_faults: u64,
    writes: u64,
    fuse: Fuse,
    arms: Armings,
}

impl Model for MemoryDisc {
    ghost use Rattle.std.specs.Prelude.{◌<◌, ◌^◌, [], All, Some, length};
    ghost use Rattle.g_base.specs.Block.{IsBlock};
    ghost use Rattle.g_base.specs.Fuse.{BurnsByWrites};
    ghost use Rattle.g_disc.specs.Memory.{Memory};

    ghost Value = { Memory };

    ghost view = { λ m. record {
      disc = record {
        held = Some m.blocks;
        size = length m.blocks;
        read_faults = m.read_faults;
        write_faults = m.write_faults;
        writes = m.writes;
        fuse = m.fuse;
        arms = m.arms;
        volatile = [];
        dropped = [];
      };
      leave = m.leave;
      fail = m.fail.items;
      reads = m.reads;
      insecure = m.insecure;
    } };

    ghost invariant = { λ m. (length m.blocks < 2 ^ 32) × All IsBlock m.blocks
        × BurnsByWrites m.writes m.arms m.fuse };
}

impl MemoryDisc {
    /// A disc of `blocks` blocks of zeros. Its failing writes leave the block unchanged until `set_leave` says otherwise.
    pub fn new(alloc: Global, blocks: u32) -> Result<MemoryDisc, NoMemory>
        ensures { IfOk result (λ m. m ≡ blank blocks) }
    {
        Ok(MemoryDisc {
            blocks: Blocks::new(alloc, blocks)?,
            leave: Leave::Old,
            fail: Vec::new(alloc),
            reads: 0,
            insecure: false,
            read_faults: 0,
            write_faults: 0,
            writes: 0,
            fuse: Fuse::new(),
            arms: Armings::new(),
        })
    }

    /// Says what failing writes leave from now on.
    pub fn set_leave(&mut self, leave: Leave)
        ensures { self.new ≡ record self.old { leave = leave } }
    {
        self.leave = leave;
    }

    /// Names the reads that fail, counted from 1 since the disc was made, in place of those named
    /// before.
    pub fn fail_reads(&mut self, calls: Vec<u64>)
        ensures { self.new ≡ record self.old { fail = calls.items } }
    {
        self.fail = calls;
    }

    /// Says whether `secure` fails from now on.
    pub fn set_insecure(&mut self, fails: bool)
        ensures { self.new ≡ record self.old { insecure = fails } }
    {
        self.insecure = fails;
    }
}

impl Disc for MemoryDisc {
    ghost state = { λ m. m.disc };

    fn size(&self) -> u32 {
        self.blocks.count()
    }

    fn read(&mut self, k: u32, into: &mut Block) -> Result<(), ReadFailed>
        requires { k < self.old.disc.size }
        ensures { MemoryReads k into.new self.old self.new result }
    {
        self.reads = raised(self.reads);
        if self.fail.contains(&self.reads) {
            self.read_faults = raised(self.read_faults);
            return Err(ReadFailed);
        }
        self.blocks.read(k, into);
        Ok(())
    }

    fn secure(&mut self) -> Result<(), ReadFailed>
        ensures { MemorySecures self.old self.new result }
    {
        if self.insecure {
            self.read_faults = raised(self.read_faults);
            return Err(ReadFailed);
        }
        Ok(())
    }

    fn write(&mut self, k: u32, from: &Block) -> Result<(), WriteFailed>
        requires { k < self.old.disc.size }
        ensures { MemoryWrites k from.now self.old self.new result }
    {
        self.writes = raised(self.writes);
        if self.fuse.burn() {
            self.write_faults = raised(self.write_faults);
            let left = left_of(&self.leave, &self.blocks.get(k), from);
            self.blocks.set(k, &left);
            return Err(WriteFailed);
        }
        self.blocks.set(k, from);
        Ok(())
    }

    fn arm(&mut self, k: u32)
        requires { 1 ≤ k }
        ensures { self.new ≡ record self.old {
          disc = record self.old.disc
              { fuse = Some k; arms = armed_with k self.old.disc.writes self.old.disc.arms };
        } }
    {
        self.fuse.arm(k);
        self.arms.arm(k, self.writes);
    }
}

/// What a failing write of `new` leaves of `old`.
fn left_of(leave: &Leave, old: &Block, new: &Block) -> Block
    ensures { result ≡ left_by leave.now old.now new.now }
{
    match leave {
        Leave::Old => *old,
        Leave::Whole => *new,
        Leave::Half => {
            let mut left = *old;
            left[..256].copy_from_slice(&new[..256]);
            left
        }
        Leave::These(bytes) => *bytes,
    }
}
