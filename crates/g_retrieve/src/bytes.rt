//! The bytes of a copy on tape.
ghost use Rattle.std.specs.Prelude.{◌≡◌, ℕ, ◌+◌, ◌<◌, ◌≤◌, ◌^◌, IfNone, IfOk, IfSome, List, length, take, drop};
ghost use Rattle.std.specs.Option.{ForSome};
ghost use Rattle.g_base.specs.Block as block;
ghost use Rattle.g_tape.specs.Rack.{reel, refuses_unmount};
ghost use Rattle.g_tape.specs.Reads.{HasRead, blocks_of};
ghost use Rattle.g_incr.specs.Layout.{Dump};
ghost use Rattle.g_incr.specs.Reading.{ReadsReel};
ghost use Rattle.g_shelf.specs.CompletedDumps.{AreCompleted};
ghost use Rattle.g_store_meaning.specs.Meaning.{IsContent, joined};

use g_base::{Block, blocks_for};
use g_entry::TapeCopy;
use g_incr::{ShelfFault, read_block};
use g_known::KnownReels;
use g_name::Text;
use g_tape::Tapes;
use std::alloc::Global;

/// The `len` bytes of the copy: each of its blocks is read from its reel in this call, and as much of the reel's dumps as
/// isn't known yet. Without a fault the result is None if and only if the completed dumps of the reel don't contain the
/// place (docs/DEFINITIONS.md, "g_disc_contents"). For an empty file it is never None. `NoTape`, `NotMounted`, `ReadFault`,
/// `NoMemory`. Nothing changes except the record of reads.
pub fn tape_bytes<T: Tapes>(
    alloc: Global,
    tapes: &mut KnownReels<T>,
    copy: &TapeCopy,
    len: u32,
) -> Result<Option<Text>, ShelfFault>
    ensures reads { ReadsReel copy.now.serial result (T.rack tapes.old) (T.rack tapes.new) }
    ensures len { IfOk result (λ found. IfSome found (λ text. length text ≡ len)) }

    // It specifies the place if the reel exposes its contents.
    ensures some { IfOk result (λ found. IfSome found (λ text. ForSome (blocks_of copy.now.serial (T.rack tapes.old))
        (λ blocks. (dumps : List Dump) → AreCompleted copy.now.serial blocks dumps → 0 < len → IsContent dumps copy.now text))) }
    ensures none { IfOk result (λ found. IfNone found (ForSome (blocks_of copy.now.serial (T.rack tapes.old))
        (λ blocks. (dumps : List Dump) → AreCompleted copy.now.serial blocks dumps
        → (text : List ℕ) → length text ≡ len → IsContent dumps copy.now text → ⊥))) }
    ensures filled { IfOk result (λ found. IfNone found (0 < len)) }
    ensures read { IfOk result (λ found. IfSome found (λ text. (k : ℕ) → copy.now.first ≤ k
        → k < copy.now.first + block.blocks_for len → HasRead copy.now.serial k (T.rack tapes.old) (T.rack tapes.new))) }
{
    match tapes.find_copy(alloc, copy, blocks_for(len)) {
        Ok(true) => {}
        Ok(false) => return Ok(None),
        Err(fault) => return Err(fault),
    }
    match read_text(alloc, tapes, copy.serial, copy.first, len) {
        Ok(text) => Ok(Some(text)),
        Err(fault) => Err(fault),
    }
}

/// The first `len` bytes of the blocks from block `first` of the reel on. The reel is mounted and has these blocks.
fn read_text<T: Tapes>(
    alloc: Global,
    tapes: &mut T,
    serial: u32,
    first: u32,
    len: u32,
) -> Result<Text, ShelfFault>
    requires low { first + block.blocks_for len < 2 ^ 32 }
    requires mounted { refuses_unmount (reel serial (T.rack tapes.old).reels) ≡ None }
    requires fits { (k : ℕ) → first ≤ k → k < first + block.blocks_for len
        → ForSome (reel serial (T.rack tapes.old).reels) (λ r. k < r.len) }
    ensures reads { ReadsReel serial result (T.rack tapes.old) (T.rack tapes.new) }
    ensures text { IfOk result (λ text. ForSome (blocks_of serial (T.rack tapes.old))
        (λ blocks. text ≡ take len (joined (take (block.blocks_for len) (drop first blocks))))) }
    ensures len { IfOk result (λ text. length text ≡ len) }
    ensures read { IfOk result (λ text. (k : ℕ) → first ≤ k → k < first + block.blocks_for len
        → HasRead serial k (T.rack tapes.old) (T.rack tapes.new)) }
{
    let mut bytes = match Vec::with_capacity(alloc, len as usize) {
        Ok(bytes) => bytes,
        Err(_) => return Err(ShelfFault::NoMemory),
    };
    let end = first + blocks_for(len);
    for k in first..end {
        let block = match read_block(tapes, serial, k) {
            Ok(Some(block)) => block,
            Ok(None) => unreachable!(),
            Err(fault) => return Err(fault),
        };
        let count = (len as usize - bytes.len()).min(512);
        match bytes.extend_from_slice(front(&block, count)) {
            Ok(()) => {}
            Err(_) => return Err(ShelfFault::NoMemory),
        }
    }
    Ok(Text::from(bytes))
}

/// The first `count` bytes of a block.
fn front(block: &Block, count: usize) -> &[u8]
    requires { count ≤ 512 }
    ensures value { result.now ≡ take count block.now }
    ensures whole { length block.now ≡ 512 }
{
    &block[..count]
}
