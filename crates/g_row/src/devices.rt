//! The devices with which a row's run begins, and how they are read after it.
ghost use Rattle.std.specs.Prelude.{◌<◌, ◌≤◌, IfOk};

use crate::row::{Row, Seen};
use anyhow::anyhow;
use g_disc::{Disc, Leave, MemoryDisc};
use g_look::list;
use g_tape::{MemoryTapes, TapeLeave, Tapes};
use std::alloc::Global;

/// The row's disc, and what its failing writes leave. An error: the number of blocks is out of range, or no memory.
pub fn disc_of(alloc: Global, row: &Row) -> anyhow::Result<MemoryDisc>
    ensures { IfOk result (λ disc. (2177 < disc.disc.size) × (disc.disc.size ≤ 1048576)) }
{
    if row.blocks < 2_178 || row.blocks > 1_048_576 {
        return Err(anyhow!("no disc has so many blocks: {}", row.blocks));
    }
    let mut disc = MemoryDisc::new(alloc, row.blocks)?;
    if row.torn > 0 {
        disc.set_leave(Leave::These([row.torn; 512]));
    } else if row.disc == "whole" {
        disc.set_leave(Leave::Whole);
    }
    Ok(disc)
}

/// The row's rack, and what its failing writes leave. An error: the rack or a reel is out of range, or no memory.
pub fn tapes_of(alloc: Global, row: &Row) -> anyhow::Result<MemoryTapes> {
    let mut tapes = rack_of(alloc, row.reels.as_slice())?;
    if row.leaves == "cut" {
        tapes.set_leave(TapeLeave::Cut);
    } else if row.leaves == "half" {
        tapes.set_leave(TapeLeave::Half);
    } else if row.leaves == "whole" {
        tapes.set_leave(TapeLeave::Whole);
    }
    Ok(tapes)
}

/// A rack of one to three reels of these capacities.
fn rack_of(alloc: Global, capacities: &[u32]) -> anyhow::Result<MemoryTapes> {
    match capacities {
        [one] => {
            let one = capacity_of(*one)?;
            Ok(MemoryTapes::new(alloc, vec![in alloc; (1, one)]?)?)
        }
        [one, two] => {
            let (one, two) = (capacity_of(*one)?, capacity_of(*two)?);
            Ok(MemoryTapes::new(alloc, vec![in alloc; (1, one), (2, two)]?)?)
        }
        [one, two, three] => {
            let (one, two, three) = (capacity_of(*one)?, capacity_of(*two)?, capacity_of(*three)?);
            Ok(MemoryTapes::new(alloc, vec![in alloc; (1, one), (2, two), (3, three)]?)?)
        }
        _ => Err(anyhow!("no rack has so many reels")),
    }
}

/// A capacity that a reel can have.
fn capacity_of(blocks: u32) -> anyhow::Result<u32>
    ensures { IfOk result (λ capacity. (2 ≤ capacity) × (capacity ≤ 65536)) }
{
    if blocks < 2 || blocks > 65_536 {
        return Err(anyhow!("no reel has so many blocks: {blocks}"));
    }
    Ok(blocks)
}

/// The results of the row's run, with the devices after it. An error: the disc can't be read, or no memory.
pub fn seen_of(
    alloc: Global,
    row: &Row,
    status: u8,
    text: &[u8],
    disc: MemoryDisc,
    tapes: &MemoryTapes,
) -> anyhow::Result<Seen> {
    Ok(Seen {
        status,
        text: String::from_utf8_lossy(alloc, text)?,
        lengths: lengths_of(alloc, tapes)?,
        files: files_of(alloc, row, disc)?,
    })
}

/// The lines of the disc's files, if the row has copies.
fn files_of(alloc: Global, row: &Row, mut disc: MemoryDisc) -> anyhow::Result<String> {
    if row.copies.is_empty() {
        return Ok(String::new(alloc));
    }
    if disc.size() < 2_178 {
        return Err(anyhow!("no disc has so few blocks"));
    }
    let files = list(alloc, &mut disc, None)?;
    Ok(String::from_utf8_lossy(alloc, files.as_slice())?)
}

/// The length of each reel.
fn lengths_of(alloc: Global, tapes: &MemoryTapes) -> anyhow::Result<Vec<u32>> {
    let mut lengths = Vec::new(alloc);
    for i in 0..tapes.reels() {
        lengths.push(tapes.length(tapes.serial(i)).unwrap_or(0))?;
    }
    Ok(lengths)
}
