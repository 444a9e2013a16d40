//! The bytes at a place on tape.
ghost use Rattle.std.specs.Prelude.{◌≡◌, ◌⊎◌, ◌≤◌, ◌-◌, ◌++◌, All, Err, IfOk, OnErr, OnOk, length, take, true};
ghost use Rattle.g_store_meaning.specs.Meaning.{joined, told_reels};
ghost use Rattle.g_look.specs.Looks.{ReadsRackByCause};
ghost use Rattle.g_look.specs.Reads.{IsReadFrom};
ghost use Rattle.g_look.specs.Texts.{IsTapeText};

use crate::LookFault;
use g_base::{Block, NoMemory, blocks_for};
use g_entry::TapeCopy;
use g_incr::{ShelfFault, read_blocks};
use g_name::Text;
use g_tape::Tapes;
use std::alloc::Global;

/// The `len` bytes from the place on, or as many as the reel has, each block read once; none if the reel isn't in the rack. `TapeUnread`, `NoMemory`.
pub(crate) fn tape_text<T: Tapes>(
    alloc: Global,
    tapes: &mut T,
    copy: &TapeCopy,
    len: u32,
) -> Result<Text, LookFault>
    requires mounted { All (λ r. r.mounted ≡ true) (told_reels (T.rack tapes.old)) }
    ensures text { IfOk result (IsTapeText (told_reels (T.rack tapes.old)) copy.now len) }
    ensures read { IfOk result (λ text. IsReadFrom (T.rack tapes.old) (T.rack tapes.new) copy.now len) }
    ensures tapes { ReadsRackByCause (result ≡ Err LookFault.TapeUnread) (T.rack tapes.old) (T.rack tapes.new) }
    ensures only { OnErr result ((result ≡ Err LookFault.TapeUnread) ⊎ (result ≡ Err LookFault.NoMemory)) }
{
    // No reel has that many blocks.
    if 65_536 < copy.first {
        return Ok(Text::new(alloc));
    }
    match read_blocks(alloc, tapes, copy.serial, copy.first, blocks_for(len)) {
        Ok(blocks) => match text_in(alloc, blocks.as_slice(), len) {
            Ok(text) => Ok(text),
            Err(_) => Err(LookFault::NoMemory),
        },
        Err(ShelfFault::ReadFault) => Err(LookFault::TapeUnread),
        Err(ShelfFault::NoMemory) => Err(LookFault::NoMemory),
        Err(ShelfFault::NoTape) => Ok(Text::new(alloc)),
        Err(ShelfFault::NotMounted) => Ok(Text::new(alloc)),
    }
}

/// The first `len` bytes of the blocks.
fn text_in(alloc: Global, blocks: &[Block], len: u32) -> Result<Text, NoMemory>
    ensures { IfOk result (λ text. text ≡ take len (joined blocks.now)) }
{
    let mut bytes = Vec::new(alloc);
    for block in blocks {
        add_block(&mut bytes, block, len as usize)?;
    }
    Ok(Text::from(bytes))
}

/// Appends the block, or the part of it that makes the bytes `len` long.
#[tactic(auto, using(crate::proofs::CompareLemmas::take_min))]
fn add_block(bytes: &mut Vec<u8>, block: &Block, len: usize) -> Result<(), NoMemory>
    requires { length bytes.old.items ≤ len }
    ensures { OnOk result (bytes.new.items ≡ bytes.old.items ++ take (len - length bytes.old.items) block.now) }
{
    let count = (len - bytes.len()).min(512);
    bytes.extend_from_slice(front(block, count))?;
    Ok(())
}

/// The first `count` bytes of a block.
fn front(block: &Block, count: usize) -> &[u8]
    requires { count ≤ 512 }
    ensures value { result.now ≡ take count block.now }
    ensures whole { length block.now ≡ 512 }
{
    &block[..count]
}
