//! The blocks of a disc that loses power: what is read, and what a power loss may bring back.
use crate::losing::{Loss, torn};
use crate::power::{Fate, Power, Shared};
use g_base::{Block, NoMemory};
use std::alloc::Global;

/// A block that isn't durable, and what it held before it was written.
#[derive(Clone, Copy)]
struct Change {
    k: u32,
    old: Block,
}

/// Blocks whose power fails at a chosen call.
#[derive(Drop)]
pub(crate) struct CutBlocks {
    power: Shared,
    blocks: Vec<Block>,
    /// What the next sync makes durable, in the order of the writes.
    fresh: Vec<Change>,
    /// What was written before a sync that failed, and not since. No sync makes it durable.
    dropped: Vec<Change>,
}

impl CutBlocks {
    /// This many blocks of zeros.
    pub(crate) fn new(alloc: Global, power: Shared, size: u32) -> Result<CutBlocks, NoMemory> {
        Ok(CutBlocks {
            power,
            blocks: vec![in alloc; [0; 512]; size as usize]?,
            fresh: Vec::new(alloc),
            dropped: Vec::new(alloc),
        })
    }

    /// Reads block k, unless power is off.
    pub(crate) fn read(&self, k: u32, into: &mut Block) -> bool {
        *into = self.block(k);
        !self.power.is_off()
    }

    /// Block k as it is read.
    fn block(&self, k: u32) -> Block {
        match self.blocks.get(k as usize) {
            Some(block) => *block,
            None => [0; 512],
        }
    }

    /// Writes block k; block 0 with a sync before it and one after it. Says whether it is written.
    pub(crate) fn write(&mut self, k: u32, from: &Block) -> bool {
        match self.power.call() {
            Fate::Done => {
                if k == 0 {
                    self.commit(from)
                } else {
                    self.put(k, from)
                }
            }
            Fate::Faulty => {
                self.fail(k, from);
                false
            }
            Fate::Dead => false,
        }
    }

    /// Writes a block, which isn't durable then. It isn't written if there is no memory.
    fn put(&mut self, k: u32, from: &Block) -> bool {
        let old = self.block(k);
        if self.fresh.push(Change { k, old }).is_err() {
            return false;
        }
        self.dropped.retain(|change| change.k != k);
        if let Some(block) = self.blocks.get_mut(k as usize) {
            *block = *from;
        }
        true
    }

    fn commit(&mut self, from: &Block) -> bool {
        self.fresh.clear();
        let is_written = self.put(0, from);
        if is_written {
            self.fresh.clear();
        }
        is_written
    }

    /// A write at which power is lost or the device fails: nothing happened, or the block is written, whole or torn.
    fn fail(&mut self, k: u32, from: &Block) {
        let stage = self.power.roll(4);
        if k == 0 {
            if stage == 0 {
                self.fail_sync();
                return;
            }
            self.fresh.clear();
        }
        if stage == 1 {
            return;
        }
        let old = self.block(k);
        let left = if stage == 2 {
            *from
        } else {
            torn(&self.power, from, &old, &old)
        };
        let _is_written = self.put(k, &left);
        if k == 0 {
            self.fail_sync();
        }
    }

    /// A sync fails. Unless power is lost, it drops what it should have made durable.
    fn fail_sync(&mut self) {
        if self.power.drops() {
            let _is_dropped = self.dropped.append(&mut self.fresh);
        }
    }

    /// Makes block 0 durable, and no other. Says whether it is.
    pub(crate) fn secure(&mut self) -> bool {
        match self.power.call() {
            Fate::Done => {
                self.fresh.retain(|change| change.k != 0);
                self.dropped.retain(|change| change.k != 0);
                true
            }
            Fate::Faulty => {
                self.fail_sync();
                false
            }
            Fate::Dead => false,
        }
    }

    /// Power was lost: each block that isn't durable is new, old or torn.
    pub(crate) fn lose(&mut self, loss: Loss) {
        let gate = self.block(0);
        for change in self.fresh.iter().rev() {
            lose_block(&mut self.blocks, &self.power, loss, change, &gate);
        }
        for change in self.dropped.iter().rev() {
            lose_block(&mut self.blocks, &self.power, loss, change, &gate);
        }
        self.fresh.clear();
        self.dropped.clear();
    }
}

/// What a power loss leaves of a block that was written.
fn lose_block(blocks: &mut Vec<Block>, power: &Power, loss: Loss, change: &Change, other: &Block) {
    if let Some(block) = blocks.get_mut(change.k as usize) {
        let new = *block;
        *block = loss.left(power, &new, &change.old, other);
    }
}
