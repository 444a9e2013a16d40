//! A disc with a cache.
ghost use Rattle.std.specs.Prelude.{◌≡◌, ◌<◌, ◌≤◌, [], IfErr, IfOk, None, Some};
ghost use Rattle.g_base.specs.Fuse.{armed_with};
ghost use Rattle.g_cache.specs.Absent.{AreAbsent};
ghost use Rattle.g_cache.specs.CachedDisc.{CachedReads, CachedWrites, cached_with, kept_block, without_block};
ghost use Rattle.g_disc.specs.Disc.{Secures};

use crate::absent::AbsentBlocks;
use crate::block_cache::BlockCache;
use g_base::{Block, NoMemory};
use g_disc::{Disc, ReadFailed, WriteFailed};
use std::alloc::Global;
use std::marker::Model;

/// A disc with a cache of the 64 blocks that were used last. It owns the disc below, and answers as that disc
/// would. A write goes through to the disc below and drops the block from the cache.
#[derive(Drop)]
pub struct CachedDisc<D: Disc> {
    disc: D,
    cache: BlockCache,
    /// Blocks that aren't cached, so that a write needn't search the cache for them.
    absent: AbsentBlocks,
}

impl<D: Disc> Model for CachedDisc<D> {
    ghost use Rattle.g_cache.specs.Absent.{AreAbsent};
    ghost use Rattle.g_cache.specs.CachedDisc.{Cached, Agrees, cached_code, cached_with};

    ghost Value = { Cached D };

    ghost coded = { cached_code D.code };

    ghost view = { λ c. cached_with c.disc c.cache };

    ghost invariant = { λ c. (Agrees c.cache (D.state c.disc).held) × (AreAbsent c.absent c.cache) };
}

impl<D: Disc> CachedDisc<D> {
    /// Adds an empty cache to the disc. If memory runs out, the disc is returned unchanged.
    pub fn new(alloc: Global, disc: D) -> Result<CachedDisc<D>, (NoMemory, D)>
        ensures empty { IfOk result (λ c. c ≡ cached_with disc []) }
        ensures unchanged { IfErr result (λ e. e.1 ≡ disc) }
    {
        match BlockCache::new(alloc) {
            Ok(cache) => Ok(CachedDisc {
                disc,
                cache,
                absent: AbsentBlocks::new(),
            }),
            Err(_) => Err((NoMemory, disc)),
        }
    }

    /// The disc below.
    pub fn into_disc(self) -> D
        ensures { result ≡ self.disc }
    {
        self.disc
    }
}

impl<D: Disc> Disc for CachedDisc<D> {
    ghost state = { λ c. D.state c.disc };

    fn size(&self) -> u32 {
        self.disc.size()
    }

    /// Reads block k, from the cache if it is there, otherwise from the disc below. A block that was
    /// written since its last read isn't cached yet, because it may be written again before the next read.
    /// If memory to cache a block runs out, it is returned all the same.
    fn read(&mut self, k: u32, into: &mut Block) -> Result<(), ReadFailed>
        requires { k < (D.state self.old.disc).size }
        ensures { CachedReads D.state k into.new self.old self.new result }
    {
        if self.cache.recall(k, into) {
            return Ok(());
        }
        self.disc.read(k, into)?;
        if self.absent.has(k) {
            self.absent.strike(k);
            return Ok(());
        }
        self.cache.keep(k, into);
        Ok(())
    }

    /// Makes the gate durable on the disc below. The cached blocks stay, since no block's content changes.
    fn secure(&mut self) -> Result<(), ReadFailed>
        requires { 0 < (D.state self.old.disc).size }
        ensures secured { Secures (D.state self.old.disc) (D.state self.new.disc) result }
        ensures kept { self.new.kept ≡ self.old.kept }
    {
        self.disc.secure()
    }

    /// Writes block k through to the disc below. Whether or not that fails, the block isn't cached afterwards.
    fn write(&mut self, k: u32, from: &Block) -> Result<(), WriteFailed>
        requires { k < (D.state self.old.disc).size }
        ensures { CachedWrites D.state k from.now self.old self.new result }
    {
        forget(&mut self.cache, &mut self.absent, k);
        self.disc.write(k, from)
    }

    fn arm(&mut self, k: u32)
        requires { 1 ≤ k }
        ensures armed { D.state self.new.disc ≡ record (D.state self.old.disc)
            { fuse = Some k; arms = armed_with k (D.state self.old.disc).writes (D.state self.old.disc).arms } }
        ensures kept { self.new.kept ≡ self.old.kept }
    {
        self.disc.arm(k);
    }
}

/// Drops block k from the cache, and notes it as absent. Searches for it only if it isn't noted already.
fn forget(cache: &mut BlockCache, absent: &mut AbsentBlocks, k: u32)
    requires { AreAbsent absent.old cache.old }
    ensures gone { kept_block k cache.new ≡ None }
    ensures others { cache.new ≡ without_block k cache.old }
    ensures absent { AreAbsent absent.new cache.new }
{
    if absent.has(k) {
        return;
    }
    cache.forget(k);
    absent.note(k);
}
