//! The sum of bytes on a reel.
ghost use Rattle.std.specs.Prelude.{◌≡◌, ◌↔◌, ◌⊎◌, ◌+◌, ◌^◌, ◌<◌, ◌≤◌, All, Err, IfErr, IfNone, IfOk, IfSome, IsTrue, None, drop, take, true};
ghost use Rattle.std.specs.Option.{ForSome};
ghost use Rattle.sha2.specs.Sha256.{sha256};
ghost use Rattle.g_base.specs.Block as block;
ghost use Rattle.g_store_meaning.specs.Meaning.{joined, told_reels};
ghost use Rattle.g_store_meaning.specs.Reading.{ReelsTold};
ghost use Rattle.g_tape.specs.Rack.{reel, refuses_unmount};
ghost use Rattle.g_tape.specs.Reads.{blocks_of};
ghost use Rattle.g_incr.specs.Reading.{ReadsReel};
ghost use Rattle.g_look.specs.Looks.{ReadsRackByCause};
ghost use Rattle.g_seal.specs.Sealing.{HasAll, bytes_on};

use crate::adding::add_block;
use g_base::blocks_for;
use g_entry::TapeCopy;
use g_incr::{ShelfFault, read_block};
use g_look::LookFault;
use g_tape::Tapes;
use sha2::{Digest, Sha256};

/// Whether the reel is in the rack, and has all blocks of the copy.
pub(crate) fn has_all<T: Tapes>(tapes: &T, copy: &TapeCopy, len: u32) -> bool
    ensures { IsTrue result ↔ HasAll (told_reels (T.rack tapes.now)) copy.now len }
{
    match tapes.length(copy.serial) {
        Ok(there) => copy.first <= there && blocks_for(len) <= there - copy.first,
        Err(_) => false,
    }
}

/// The SHA-256 of `len` bytes from a block of a reel on, which are read block by block; none where the rack hasn't all of these blocks. All
/// reels have to be mounted. `TapeUnread`, `NoMemory`.
pub(crate) fn reel_sum<T: Tapes>(
    tapes: &mut T,
    copy: &TapeCopy,
    len: u32,
) -> Result<Option<[u8; 32]>, LookFault>
    requires mounted { All (λ r. r.mounted ≡ true) (told_reels (T.rack tapes.old)) }
    ensures sum { IfOk result (λ found. IfSome found (λ sum. ReelsTold (told_reels (T.rack tapes.old))
        → sum ≡ sha256 (bytes_on (told_reels (T.rack tapes.old)) copy.now len))) }
    ensures there { IfOk result (λ found. IfSome found (λ sum. HasAll (told_reels (T.rack tapes.old)) copy.now len)) }
    ensures none { IfOk result (λ found. IfNone found (HasAll (told_reels (T.rack tapes.old)) copy.now len → ⊥)) }
    ensures tapes { ReadsRackByCause (result ≡ Err LookFault.TapeUnread) (T.rack tapes.old) (T.rack tapes.new) }
    ensures faults { IfErr result (λ e. (e ≡ LookFault.TapeUnread) ⊎ (e ≡ LookFault.NoMemory)) }
{
    if !has_all(tapes, copy, len) {
        return Ok(None);
    }
    match sum_from(tapes, copy.serial, copy.first, len) {
        Ok(sum) => Ok(Some(sum)),
        Err(ShelfFault::ReadFault) => Err(LookFault::TapeUnread),
        Err(_) => Err(LookFault::NoMemory),
    }
}

/// The SHA-256 of `len` bytes from block `first` of the reel on. The reel is mounted and has these blocks.
fn sum_from<T: Tapes>(
    tapes: &mut T,
    serial: u32,
    first: u32,
    len: u32,
) -> Result<[u8; 32], ShelfFault>
    requires low { first + block.blocks_for len < 2 ^ 32 }
    requires mounted { refuses_unmount (reel serial (T.rack tapes.old).reels) ≡ None }
    requires fits { ForSome (reel serial (T.rack tapes.old).reels) (λ r. first + block.blocks_for len ≤ r.len) }
    ensures reads { ReadsReel serial result (T.rack tapes.old) (T.rack tapes.new) }
    ensures sum { IfOk result (λ sum. ForSome (blocks_of serial (T.rack tapes.old)) (λ blocks.
        sum ≡ sha256 (take len (joined (take (block.blocks_for len) (drop first blocks)))))) }
{
    let mut sum = Sha256::new();
    let mut left = len as usize;
    let end = first + blocks_for(len);
    for k in first..end {
        let block = match read_block(tapes, serial, k) {
            Ok(Some(block)) => block,
            Ok(None) => unreachable!(),
            Err(fault) => return Err(fault),
        };
        left = add_block(&mut sum, &block, left);
    }
    Ok(sum.finalize())
}
