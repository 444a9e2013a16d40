//! Reads blocks of a reel.
ghost use Rattle.std.specs.Prelude.{◌≡◌, ◌≢◌, ℕ, ◌+◌, ◌^◌, ◌<◌, ◌≤◌, IfNone, IfOk, IfSome, drop, length, slice_get, take};
ghost use Rattle.std.specs.Option.{ForSome};
ghost use Rattle.g_tape.specs.Rack.{reel, refuses_unmount};
ghost use Rattle.g_tape.specs.Reads.{HasRead, blocks_of};
ghost use Rattle.g_incr.specs.Reading.{ReadsReel};

use crate::fault::ShelfFault;
use g_base::Block;
use g_entry::empty_block;
use g_tape::{TapeFault, Tapes};
use std::alloc::Global;

/// Block `k` of a reel, or `None` if the reel ends before it. `NoTape`, `NotMounted`, `ReadFault`.
pub fn read_block<T: Tapes>(tapes: &mut T, serial: u32, k: u32) -> Result<Option<Block>, ShelfFault>
    ensures reads { ReadsReel serial result (T.rack tapes.old) (T.rack tapes.new) }
    ensures found { IfOk result (λ o. ForSome (blocks_of serial (T.rack tapes.old)) (λ bs. slice_get bs k ≡ o)) }
    ensures read { IfOk result (λ o. IfSome o (λ b. HasRead serial k (T.rack tapes.old) (T.rack tapes.new))) }

    // The end of the reel is known whether or not its blocks are exposed.
    ensures within { IfOk result (λ o. IfSome o (λ b. ForSome (reel serial (T.rack tapes.old).reels) (λ r. k < r.len))) }
    ensures past { IfOk result (λ o. IfNone o (ForSome (reel serial (T.rack tapes.old).reels) (λ r. r.len ≤ k))) }
    ensures memory { result ≢ Err ShelfFault.NoMemory }
{
    let mut block = empty_block();
    match tapes.read(serial, k, &mut block) {
        Ok(()) => Ok(Some(block)),
        Err(TapeFault::End) => Ok(None),
        Err(TapeFault::NoTape) => Err(ShelfFault::NoTape),
        Err(TapeFault::NotMounted) => Err(ShelfFault::NotMounted),
        Err(TapeFault::ReadFailed) => Err(ShelfFault::ReadFault),
        Err(TapeFault::WriteFailed) => Err(ShelfFault::ReadFault),
    }
}

/// Whether the reel can be read at all: `NoTape`, `NotMounted`.
fn can_be_read<T: Tapes>(tapes: &T, serial: u32) -> Result<(), ShelfFault>
    ensures reads { ReadsReel serial result (T.rack tapes.now) (T.rack tapes.now) }
    ensures free { IfOk result (λ u. refuses_unmount (reel serial (T.rack tapes.now).reels) ≡ None) }
{
    match tapes.length(serial) {
        Err(_) => Err(ShelfFault::NoTape),
        Ok(_) => {
            if tapes.mounted(serial) {
                Ok(())
            } else {
                Err(ShelfFault::NotMounted)
            }
        }
    }
}

/// The `count` blocks of a reel from block `from` on, or fewer if the reel ends before. `NoTape`, `NotMounted`,
/// `ReadFault`, `NoMemory`.
pub fn read_blocks<T: Tapes>(
    alloc: Global,
    tapes: &mut T,
    serial: u32,
    from: u32,
    count: u32,
) -> Result<Vec<Block>, ShelfFault>
    requires { from + count < 2 ^ 32 }
    ensures reads { ReadsReel serial result (T.rack tapes.old) (T.rack tapes.new) }
    ensures found { IfOk result (λ v. ForSome (blocks_of serial (T.rack tapes.old)) (λ bs. v.items ≡ take count (drop from bs))) }
    ensures read { IfOk result (λ v. (k : ℕ) → from ≤ k → k < from + length v.items
        → HasRead serial k (T.rack tapes.old) (T.rack tapes.new)) }

    // Fewer only if the reel ends, which is known whether or not its blocks are exposed.
    ensures most { IfOk result (λ v. length v.items ≤ count) }
    ensures fewer { IfOk result (λ v. length v.items < count
        → ForSome (reel serial (T.rack tapes.old).reels) (λ r. r.len ≤ from + length v.items)) }
{
    match can_be_read(tapes, serial) {
        Ok(()) => {}
        Err(fault) => return Err(fault),
    }
    let mut blocks = match Vec::with_capacity(alloc, count.min(1_087) as usize) {
        Ok(blocks) => blocks,
        Err(_) => return Err(ShelfFault::NoMemory),
    };
    for k in from..from + count {
        let block = match read_block(tapes, serial, k) {
            Ok(Some(block)) => block,
            Ok(None) => return Ok(blocks),
            Err(fault) => return Err(fault),
        };
        match blocks.push(block) {
            Ok(()) => {}
            Err(_) => return Err(ShelfFault::NoMemory),
        }
    }
    Ok(blocks)
}
