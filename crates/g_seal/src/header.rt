//! Whether a sealed dump was overwritten by a later one.
ghost use Rattle.std.specs.Prelude.{◌≡◌, ◌⊎◌, ◌+◌, ◌-◌, All, Err, IfErr, IfOk, true};
ghost use Rattle.g_store_meaning.specs.Meaning.{told_reels};
ghost use Rattle.g_store_meaning.specs.Reading.{ReelsTold};
ghost use Rattle.g_look.specs.Looks.{ReadsRackByCause};
ghost use Rattle.g_seal.specs.Rotten.{block_on, is_later_header, is_mark, is_overwritten};

use crate::SealedDump;
use byteorder::{BigEndian, ByteOrder};
use g_base::Block;
use g_incr::{ShelfFault, read_block};
use g_look::LookFault;
use g_tape::Tapes;

/// Whether a later dump was written onto the place of this one: the dump's mark isn't there, and the header of a dump with a greater number
/// is at the reel's first block or at the dump's own. `TapeUnread`, `NoMemory`.
pub(crate) fn is_overwritten<T: Tapes>(tapes: &mut T, dump: &SealedDump) -> Result<bool, LookFault>
    requires mounted { All (λ r. r.mounted ≡ true) (told_reels (T.rack tapes.old)) }
    ensures value { ReelsTold (told_reels (T.rack tapes.old)) → IfOk result (λ is. is ≡ is_overwritten (told_reels (T.rack tapes.old)) dump.now) }
    ensures tapes { ReadsRackByCause (result ≡ Err LookFault.TapeUnread) (T.rack tapes.old) (T.rack tapes.new) }
    ensures faults { IfErr result (λ e. (e ≡ LookFault.TapeUnread) ⊎ (e ≡ LookFault.NoMemory)) }
{
    match is_marked(tapes, dump) {
        Ok(true) => Ok(false),
        Ok(false) => match begins_later(tapes, dump, 0) {
            Ok(true) => Ok(true),
            Ok(false) => begins_later(tapes, dump, dump.place),
            Err(fault) => Err(fault),
        },
        Err(fault) => Err(fault),
    }
}

/// Whether the dump's last block is its mark.
fn is_marked<T: Tapes>(tapes: &mut T, dump: &SealedDump) -> Result<bool, LookFault>
    requires mounted { All (λ r. r.mounted ≡ true) (told_reels (T.rack tapes.old)) }
    ensures value { ReelsTold (told_reels (T.rack tapes.old)) → IfOk result (λ is.
        is ≡ is_mark dump.now (block_on (told_reels (T.rack tapes.old)) dump.now.serial (dump.now.place + dump.now.blocks - 1))) }
    ensures tapes { ReadsRackByCause (result ≡ Err LookFault.TapeUnread) (T.rack tapes.old) (T.rack tapes.new) }
    ensures faults { IfErr result (λ e. (e ≡ LookFault.TapeUnread) ⊎ (e ≡ LookFault.NoMemory)) }
{
    let last = (u64::from(dump.place) + u64::from(dump.blocks)).saturating_sub(1);
    if 4_294_967_295 < last {
        return Err(LookFault::NoMemory);
    }
    match block_at(tapes, dump.serial, last as u32) {
        Ok(block) => Ok(is_mark(dump, &block)),
        Err(fault) => Err(fault),
    }
}

/// Whether the header of a dump with a greater number is at this block.
fn begins_later<T: Tapes>(tapes: &mut T, dump: &SealedDump, at: u32) -> Result<bool, LookFault>
    requires mounted { All (λ r. r.mounted ≡ true) (told_reels (T.rack tapes.old)) }
    ensures value { ReelsTold (told_reels (T.rack tapes.old)) → IfOk result (λ is.
        is ≡ is_later_header dump.now at (block_on (told_reels (T.rack tapes.old)) dump.now.serial at)) }
    ensures tapes { ReadsRackByCause (result ≡ Err LookFault.TapeUnread) (T.rack tapes.old) (T.rack tapes.new) }
    ensures faults { IfErr result (λ e. (e ≡ LookFault.TapeUnread) ⊎ (e ≡ LookFault.NoMemory)) }
{
    match block_at(tapes, dump.serial, at) {
        Ok(block) => Ok(is_later_header(dump, at, &block)),
        Err(fault) => Err(fault),
    }
}

/// Block k of the reel, or none if the reel ends before it.
fn block_at<T: Tapes>(tapes: &mut T, serial: u32, k: u32) -> Result<Option<Block>, LookFault>
    ensures block { ReelsTold (told_reels (T.rack tapes.old)) → IfOk result (λ block. block ≡ block_on (told_reels (T.rack tapes.old)) serial k) }
    ensures tapes { ReadsRackByCause (result ≡ Err LookFault.TapeUnread) (T.rack tapes.old) (T.rack tapes.new) }
    ensures faults { IfErr result (λ e. (e ≡ LookFault.TapeUnread) ⊎ (e ≡ LookFault.NoMemory)) }
{
    match read_block(tapes, serial, k) {
        Ok(block) => Ok(block),
        Err(ShelfFault::ReadFault) => Err(LookFault::TapeUnread),
        Err(_) => Err(LookFault::NoMemory),
    }
}

/// Whether the block is the dump's mark: the word, the number, the place and the count.
fn is_mark(dump: &SealedDump, block: &Option<Block>) -> bool
    ensures { result ≡ is_mark dump.now block.now }
{
    match block {
        Some(block) => {
            &block[..4] == b"G3MK".as_slice()
                && BigEndian::read_u64(&block[4..12]) == dump.number
                && BigEndian::read_u32(&block[12..16]) == dump.place
                && u64::from(BigEndian::read_u32(&block[16..20])) + 2 == u64::from(dump.blocks)
        }
        None => false,
    }
}

/// Whether the block is the header of a later dump that begins there.
fn is_later_header(dump: &SealedDump, at: u32, block: &Option<Block>) -> bool
    ensures { result ≡ is_later_header dump.now at block.now }
{
    match block {
        Some(block) => {
            &block[..4] == b"G3HD".as_slice()
                && BigEndian::read_u32(&block[14..18]) == at
                && dump.number < BigEndian::read_u64(&block[6..14])
        }
        None => false,
    }
}
