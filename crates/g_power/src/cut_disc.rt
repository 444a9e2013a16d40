//! A disc in memory that loses power.
ghost use Rattle.std.specs.Prelude.{◌≡◌, IfOk};
ghost use Rattle.g_base.specs.Fuse.{BurnsByWrites};

use crate::cut_blocks::CutBlocks;
use crate::losing::Loss;
use crate::power::Shared;
use g_base::{Armings, Block, Fuse, NoMemory, ReadFailed, WriteFailed, raised};
use g_disc::Disc;
use std::alloc::Global;

/// A disc whose power fails at a chosen call. Contracts don't see its blocks.
#[derive(Drop)]
pub struct CutDisc {
    size: u32,
    blocks: CutBlocks,
    read_faults: u64,
    write_faults: u64,
    writes: u64,
    fuse: Fuse,
    arms: Armings,
    ghost fused: { BurnsByWrites writes arms fuse },
}

impl CutDisc {
    /// A disc of this many blocks of zeros.
    pub fn new(alloc: Global, power: Shared, size: u32) -> Result<CutDisc, NoMemory> {
        Ok(CutDisc {
            size,
            blocks: CutBlocks::new(alloc, power, size)?,
            read_faults: 0,
            write_faults: 0,
            writes: 0,
            fuse: Fuse::new(),
            arms: Armings::new(),
        })
    }

    /// Power was lost.
    pub fn lose(&mut self, loss: Loss) {
        self.blocks.lose(loss);
    }
}

impl Disc for CutDisc {
    ghost use Rattle.std.specs.Prelude.{[], None};

    ghost state = { λ d. record {
      held = None;
      size = d.size;
      read_faults = d.read_faults;
      write_faults = d.write_faults;
      writes = d.writes;
      fuse = d.fuse;
      arms = d.arms;
      volatile = [];
      dropped = [];
    } };

    fn size(&self) -> u32 {
        self.size
    }

    fn read(&mut self, k: u32, into: &mut Block) -> Result<(), ReadFailed> {
        if !self.blocks.read(k, into) {
            self.read_faults = raised(self.read_faults);
            return Err(ReadFailed);
        }
        Ok(())
    }

    fn secure(&mut self) -> Result<(), ReadFailed> {
        if !self.blocks.secure() {
            self.read_faults = raised(self.read_faults);
            return Err(ReadFailed);
        }
        Ok(())
    }

    fn write(&mut self, k: u32, from: &Block) -> Result<(), WriteFailed> {
        self.writes = raised(self.writes);
        if self.fuse.burn() || !self.blocks.write(k, from) {
            self.write_faults = raised(self.write_faults);
            return Err(WriteFailed);
        }
        Ok(())
    }

    fn arm(&mut self, k: u32) {
        self.fuse.arm(k);
        self.arms.arm(k, self.writes);
    }
}
