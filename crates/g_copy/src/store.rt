//! Stores a text in free blocks, and returns the blocks of a copy to the pool.
ghost use Rattle.std.specs.Prelude.{◌≡◌, ◌≢◌, ◌+◌, ◌<◌, ◌≤◌, ◌⊎◌, ◌↔◌, All, AllPairs, Contains, Err, IfErr, IfOk, IsErr, IsErrOf, length};
ghost use Rattle.g_base.specs.Block as block;
ghost use Rattle.g_base.specs.Counts.{RoseBy};
ghost use Rattle.g_base.specs.Limits.{max_file_blocks, max_file_bytes};
ghost use Rattle.g_base.specs.ToldContent.{Changes};
ghost use Rattle.g_blocks.specs.Pool.{HasGiven, IsTaken, free_count};
ghost use Rattle.g_disc.specs.Disc.{Causes};
ghost use Rattle.g_disc.specs.Durable.{DirtiesOnly};
ghost use Rattle.g_copy.specs.Copy.{Holds, IsCopy};
ghost use Rattle.g_copy.specs.Store.{StopsIn, Takes};

use crate::copy::DiscCopy;
use crate::fault::CopyFault;
use crate::write::write_copy;
use g_base::{BlockList, BlockWriter, blocks_for};
use g_blocks::Pool;
use g_disc::Disc;
use std::alloc::Global;

/// Stores the bytes in the lowest free blocks of the pool, which is that of this disc. The blocks are taken
/// from the pool first: on `DiscFull` and `NoMemory` neither the disc nor the pool changes. On `Stopped`
/// the blocks stay taken, and may hold anything.
pub fn store_copy<D: Disc>(
    alloc: Global,
    disc: &mut D,
    pool: &mut Pool,
    bytes: &[u8],
) -> Result<DiscCopy, CopyFault>
    requires size { 2177 < (D.state disc.old).size }
    requires pool { 2177 + length pool.old ≡ (D.state disc.old).size }
    requires len { length bytes.now ≤ max_file_bytes }
    ensures len { IfOk result (λ copy. copy.len ≡ length bytes.now) }
    ensures copy { IfOk result (IsCopy (D.state disc.new).size) }
    ensures takes { IfOk result (λ copy. Takes (length bytes.now) copy.blocks pool.old pool.new) }
    ensures holds { IfOk result (λ copy.
        Changes (Holds copy.blocks bytes.now) (D.state disc.old).held (D.state disc.new).held) }
    ensures writes { IfOk result (λ copy.
        RoseBy (length copy.blocks) (D.state disc.old).writes (D.state disc.new).writes) }
    ensures dirties { IfOk result (λ copy.
        DirtiesOnly (Contains copy.blocks) (D.state disc.old) (D.state disc.new) result) }

    // A full disc is reported exactly, and before anything is written.
    ensures full { IsErrOf result (CopyFault.DiscFull (block.blocks_for (length bytes.now)) (free_count pool.old))
        ↔ (free_count pool.old < block.blocks_for (length bytes.now)) }
    ensures unchanged { IfErr result (λ e. e ≢ CopyFault.Stopped
        → (D.state disc.new ≡ D.state disc.old) × (pool.new ≡ pool.old)) }
    ensures stopped { result ≡ Err CopyFault.Stopped
        → StopsIn (length bytes.now) pool.old pool.new (D.state disc.old) (D.state disc.new) }
    ensures causes { Causes ⊥ (result ≡ Err CopyFault.Stopped) (D.state disc.old) (D.state disc.new) }
    ensures only { IfErr result (λ e. (e ≡ CopyFault.Stopped) ⊎ (e ≡ CopyFault.NoMemory)
        ⊎ (e ≡ CopyFault.DiscFull (block.blocks_for (length bytes.now)) (free_count pool.old))) }
{
    let len = bytes.len() as u32;
    let taken = pool.take(alloc, blocks_for(len))?;
    let copy = DiscCopy {
        blocks: list_of(taken.as_slice()),
        len,
    };
    write_copy(disc, &mut BlockWriter::new(), &copy, bytes)?;
    Ok(copy)
}

/// The list of these numbers.
fn list_of(numbers: &[u32]) -> BlockList
    requires { length numbers.now ≤ max_file_blocks }
    ensures { result ≡ numbers.now }
{
    BlockList::from_slice(numbers).unwrap()
}

/// Returns the blocks of a copy to the pool.
pub fn drop_copy(pool: &mut Pool, copy: &DiscCopy)
    requires apart { AllPairs (λ j k. j ≢ k) copy.now.blocks }
    requires taken { All (IsTaken pool.old) copy.now.blocks }
    ensures { HasGiven copy.now.blocks pool.old pool.new }
{
    pool.give(copy.blocks.as_slice());
}
