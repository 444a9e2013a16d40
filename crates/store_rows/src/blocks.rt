//! Blocks that a row writes and checks directly.
use crate::events::Answer;
use crate::rows::{Outcome, Wrong};
use g_base::Block;
use g_disc::{Disc, MemoryDisc};
use g_known::KnownReels;
use g_plain::StoreFault;
use g_tape::{MemoryTapes, Tapes};

/// The block of these fields: zeros but for `place=number` and `place=letters`, and `all=letter`, which fills it.
fn block_of(fields: &str) -> Result<Block, Wrong> {
    let mut block = [0; 512];
    for field in fields.split_whitespace() {
        put(&mut block, field)?;
    }
    Ok(block)
}

fn put(block: &mut Block, field: &str) -> Result<(), Wrong> {
    let Some((place, value)) = field.split_once('=') else {
        return Err(Wrong("no field"));
    };
    if place == "all" {
        for letter in value.as_bytes() {
            *block = [*letter; 512];
        }
        return Ok(());
    }
    put_at(block, place.parse()?, value)
}

fn put_at(block: &mut Block, place: usize, value: &str) -> Result<(), Wrong> {
    match value.parse() {
        Ok(byte) => put_bytes(block, place, &[byte]),
        Err(_) => put_bytes(block, place, value.as_bytes()),
    }
}

fn put_bytes(block: &mut Block, place: usize, bytes: &[u8]) -> Result<(), Wrong> {
    let mut at = place;
    for byte in bytes {
        if at >= 512 {
            return Err(Wrong("a field outside of its block"));
        }
        block[at] = *byte;
        at += 1;
    }
    Ok(())
}

/// Writes a block of the disc.
pub(crate) fn write(disc: &mut MemoryDisc, k: u32, fields: &str) -> Outcome {
    let Ok(block) = block_of(fields) else {
        return Err(StoreFault::NoFile);
    };
    if k >= disc.size() {
        return Err(StoreFault::NoFilestore);
    }
    match disc.write(k, &block) {
        Ok(()) => Ok(Answer::Done),
        Err(_) => Err(StoreFault::Stopped),
    }
}

/// Whether a block of the disc has these fields.
pub(crate) fn holds(disc: &mut MemoryDisc, k: u32, fields: &str) -> Outcome {
    let Ok(wanted) = block_of(fields) else {
        return Err(StoreFault::NoFile);
    };
    if k >= disc.size() {
        return Err(StoreFault::NoFilestore);
    }
    let mut block = [0; 512];
    match disc.read(k, &mut block) {
        Ok(()) if block == wanted => Ok(Answer::Done),
        Ok(()) => Ok(Answer::Differs),
        Err(_) => Err(StoreFault::DiscReadFault),
    }
}

/// Appends a block to a reel that is mounted.
pub(crate) fn put_on_reel(
    tapes: &mut KnownReels<MemoryTapes>,
    serial: u32,
    fields: &str,
) -> Outcome {
    let Ok(block) = block_of(fields) else {
        return Err(StoreFault::NoFile);
    };
    let Ok(end) = tapes.length(serial) else {
        return Err(StoreFault::NoTape);
    };
    match tapes.write(serial, end, &block) {
        Ok(()) => Ok(Answer::Done),
        Err(_) => Err(StoreFault::Stopped),
    }
}
