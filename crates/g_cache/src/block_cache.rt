//! Blocks cached in memory; the least recently used one is evicted first.
ghost use Rattle.std.specs.Prelude.{◌≡◌, ◌<◌, ◌⊎◌, ℕ, [], ◌∷◌, IfOk, None, Some, is_some, length, slice_index_or, take, true, false};
ghost use Rattle.g_cache.specs.CachedDisc.{kept_block, without_block};

use arrayvec::ArrayVec;
use g_base::{Block, NoMemory};
use lru::LruCache;
use std::alloc::Global;
use std::marker::Model;
use std::num::NonZeroUsize;

/// At most 64 blocks with their numbers. Contracts see a list, the most recently used block first. A block
/// stays at its place from when it is cached until it is dropped: only the places are ordered by use, and no
/// block moves.
#[derive(Drop)]
pub(crate) struct BlockCache {
    places: LruCache<u32, u8>,
    blocks: Vec<Block>,
    free: ArrayVec<u8, 64>,
}

impl Model for BlockCache {
    ghost use Rattle.std.specs.Prelude.{ℕ, List};
    ghost use Rattle.g_cache.specs.Places.{kept_at, ArePlaces};

    ghost Value = { List (ℕ × List ℕ) };

    ghost view = { λ c. kept_at c.blocks.items c.places.entries };

    ghost invariant = { λ c. ArePlaces c.places.cap c.places.entries c.free.items c.blocks.items };
}

impl BlockCache {
    /// An empty cache. Allocates the memory for 64 blocks.
    pub fn new(alloc: Global) -> Result<BlockCache, NoMemory>
        ensures { IfOk result (λ c. c ≡ []) }
    {
        let places = LruCache::new(alloc, NonZeroUsize::new(64).unwrap())?;
        let blocks = vec![in alloc; [0; 512]; 64]?;
        Ok(BlockCache {
            places,
            blocks,
            free: all_places(),
        })
    }

    /// Whether block k is cached. If it is, it is copied into `into`, and is now the most recently used. If it isn't,
    /// neither the cache nor `into` changes.
    pub fn recall(&mut self, k: u32, into: &mut Block) -> bool
        ensures found { result ≡ is_some (kept_block k self.old) }
        ensures block { result ≡ true → kept_block k self.old ≡ Some into.new }
        ensures first { result ≡ true → self.new ≡ (k, into.new) ∷ without_block k self.old }
        ensures missed { result ≡ false → self.new ≡ self.old }
        ensures untouched { result ≡ false → into.new ≡ into.old }
    {
        match self.places.get(&k).copied() {
            Some(place) => {
                *into = self.blocks[place as usize];
                true
            }
            None => false,
        }
    }

    /// Caches block k, which wasn't cached, as the most recently used, unless memory for it runs out.
    pub fn keep(&mut self, k: u32, block: &Block)
        requires { kept_block k self.old ≡ None }
        ensures { (self.new ≡ (k, block.now) ∷ take 63 self.old) ⊎ (self.new ≡ self.old) }
    {
        match self.free.pop() {
            Some(place) => match self.places.put(k, place) {
                Ok(_) => self.blocks[place as usize] = *block,
                Err(_) => self.free.push(place),
            },
            None => {
                let Some((_, last)) = self.places.peek_lru() else {
                    unreachable!()
                };
                let place = *last;
                if self.places.put(k, place).is_ok() {
                    self.blocks[place as usize] = *block;
                }
            }
        }
    }

    /// Drops block k, if it is cached. All others stay.
    pub fn forget(&mut self, k: u32)
        ensures gone { kept_block k self.new ≡ None }
        ensures others { self.new ≡ without_block k self.old }
    {
        // Its clause says that no number is cached twice.
        let _len = self.places.len();
        if let Some(place) = self.places.pop(&k) {
            if self.free.try_push(place).is_err() {
                unreachable!()
            }
        }
    }
}

/// All 64 places.
fn all_places() -> ArrayVec<u8, 64>
    ensures count { length result.items ≡ 64 }
    ensures each { (k d : ℕ) → k < 64 → slice_index_or result.items k d ≡ k }
{
    let mut places = ArrayVec::new();
    for place in 0..64 {
        places.push(place);
    }
    places
}
