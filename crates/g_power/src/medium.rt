//! The blocks of a reel that loses power: what is read, and what a power loss may leave.
use crate::losing::{Loss, torn};
use crate::power::Power;
use g_base::{Block, NoMemory};
use std::alloc::{AllocError, Global};

/// One thing that a power loss may leave: these blocks, and possibly more of any content, up to this number in all.
#[derive(Drop)]
struct Remnant {
    front: Vec<Block>,
    longest: usize,
}

/// What a failed write left to be read.
#[derive(Clone, Copy)]
pub(crate) enum Left {
    Unchanged,
    Shortened,
    Torn,
}

/// A power loss leaves one of the remnants.
#[derive(Drop)]
pub(crate) struct Medium {
    blocks: Vec<Block>,
    /// The blocks that were there before the reel was last shortened.
    past: Vec<Block>,
    remnants: Vec<Remnant>,
    /// Whether a sync makes all blocks durable.
    is_syncable: bool,
    /// Whether a sync failed since all blocks were last durable.
    has_dropped: bool,
}

/// Whether the write of this block is synced: it is block 0, or begins as a dump's header or mark does.
pub(crate) fn is_synced(k: u32, block: &Block) -> bool {
    k == 0 || block.starts_with(b"G3HD") || block.starts_with(b"G3MK")
}

impl Medium {
    /// No blocks.
    pub(crate) fn new(alloc: Global) -> Result<Medium, NoMemory> {
        let mut medium = Medium {
            blocks: Vec::new(alloc),
            past: Vec::new(alloc),
            remnants: Vec::new(alloc),
            is_syncable: true,
            has_dropped: false,
        };
        medium.settle()?;
        Ok(medium)
    }

    /// Block k.
    pub(crate) fn block(&self, k: u32) -> Block {
        match self.blocks.get(k as usize) {
            Some(block) => *block,
            None => [0; 512],
        }
    }

    /// All blocks are durable.
    fn settle(&mut self) -> Result<(), NoMemory> {
        let whole = Remnant {
            front: self.blocks.clone()?,
            longest: self.blocks.len(),
        };
        self.remnants.clear();
        self.remnants.push(whole)?;
        self.is_syncable = true;
        self.has_dropped = false;
        Ok(())
    }

    /// Whether a sync makes the first k blocks durable.
    fn is_syncable_to(&self, k: u32) -> bool {
        self.is_syncable || self.remnants.iter().all(|it| k as usize <= it.front.len())
    }

    /// What a power loss may leave after a write of block k was begun: no more than k blocks of each remnant, and any bytes in
    /// block k.
    fn begun(&self, k: u32, block: &Block) -> Result<Vec<Remnant>, AllocError> {
        let mut begun = Vec::new(*self.blocks.allocator());
        let longest = k as usize + 1;
        if is_synced(k, block) && self.is_syncable_to(k) {
            let front = front_of(&self.blocks, k)?;
            begun.push(Remnant { front, longest })?;
        } else {
            for remnant in &self.remnants {
                let front = front_of(&remnant.front, k)?;
                begun.push(Remnant { front, longest })?;
            }
        }
        Ok(begun)
    }

    /// Ends the reel with block k.
    pub(crate) fn end_with(&mut self, k: u32, block: &Block) -> Result<(), NoMemory> {
        let begun = self.begun(k, block)?;
        self.is_syncable = self.is_syncable_to(k);
        self.remnants = begun;
        self.put_last(k, block)?;
        if is_synced(k, block) && self.is_syncable {
            self.settle()?;
        }
        Ok(())
    }

    fn put_last(&mut self, k: u32, block: &Block) -> Result<(), NoMemory> {
        if self.blocks.len() > k as usize {
            self.past = self.blocks.clone()?;
        }
        self.blocks.truncate(k as usize);
        self.blocks.push(*block)?;
        Ok(())
    }

    /// A write of block k at which power is lost or the device fails. On the device all is as before, or the write was begun. If the
    /// write is synced, either its first sync failed, or all blocks before it are durable.
    pub(crate) fn fail(&mut self, power: &Power, k: u32, block: &Block) -> Result<Left, NoMemory> {
        let syncs = is_synced(k, block);
        let cuts = self.blocks.len() > k as usize;
        let stage = power.roll(5);
        let mut begun = self.begun(k, block)?;
        if syncs && self.is_syncable_to(k) {
            if stage > 0 {
                self.remnants.clear();
            } else if !cuts {
                begun.clear();
            }
        }
        self.remnants.append(&mut begun)?;
        self.is_syncable = self.is_syncable_to(k);
        if syncs || cuts {
            self.fail_sync(power);
        }
        self.leave(power, stage, k, block)
    }

    /// What is read after a write that failed at this stage.
    fn leave(&mut self, power: &Power, stage: u8, k: u32, block: &Block) -> Result<Left, NoMemory> {
        match stage {
            0 | 1 => Ok(Left::Unchanged),
            2 => {
                self.put_last(k, block)?;
                Ok(Left::Torn)
            }
            3 => {
                self.put_last(k, &torn(power, block, block, &[0; 512]))?;
                Ok(Left::Torn)
            }
            _ => {
                self.past = self.blocks.clone()?;
                self.blocks.truncate(k as usize);
                Ok(Left::Shortened)
            }
        }
    }

    /// Makes all blocks durable, if a sync does.
    pub(crate) fn secure(&mut self) -> Result<(), NoMemory> {
        if self.is_syncable {
            self.settle()?;
        }
        Ok(())
    }

    /// A sync fails. Unless power is lost, it drops what it should have made durable.
    pub(crate) fn fail_sync(&mut self, power: &Power) {
        self.has_dropped = self.has_dropped || power.drops();
    }

    /// Another process opens the reel. It doesn't know what was dropped, and writes only the last block again before it syncs.
    pub(crate) fn reopen(&mut self) {
        if self.has_dropped {
            let len = self.blocks.len();
            self.is_syncable = self
                .remnants
                .iter()
                .all(|it| len <= it.front.len().saturating_add(1));
        }
    }

    /// Power was lost: one of the remnants is left. A block after its front is new, old, or any bytes.
    pub(crate) fn lose(
        &mut self,
        power: &Power,
        loss: Loss,
        other: &Block,
    ) -> Result<(), NoMemory> {
        let count = u8::try_from(self.remnants.len()).unwrap_or(255);
        let Some(remnant) = self.remnants.get(usize::from(power.roll(count))) else {
            return Ok(());
        };
        let mut left = remnant.front.clone()?;
        for k in left.len()..remnant.longest {
            if power.roll(16) == 0 {
                break;
            }
            left.push(self.left(power, loss, k, other))?;
        }
        self.blocks = left;
        self.settle()
    }

    /// What is left of block k.
    fn left(&self, power: &Power, loss: Loss, k: usize, other: &Block) -> Block {
        let old = match self.past.get(k) {
            Some(block) => *block,
            None => [0; 512],
        };
        let new = match self.blocks.get(k) {
            Some(block) => *block,
            None => old,
        };
        loss.left(power, &new, &old, other)
    }

    /// The number of blocks; a reel has fewer than 2^32.
    pub(crate) fn len(&self) -> u32 {
        u32::try_from(self.blocks.len()).unwrap_or(0)
    }
}

/// The first k blocks, or all if there are fewer.
fn front_of(blocks: &Vec<Block>, k: u32) -> Result<Vec<Block>, AllocError> {
    let mut front = blocks.clone()?;
    front.truncate(k as usize);
    Ok(front)
}
