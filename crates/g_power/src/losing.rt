//! What a power loss leaves of a block that wasn't durable.
use crate::power::Power;
use g_base::Block;

/// How much a power loss takes: of eight blocks, how many are left as they were written, and how many as they were before. Any
/// other block is torn.
#[derive(Clone, Copy)]
pub struct Loss {
    new: u8,
    old: u8,
}

/// The losses by seed: nothing, everything, all torn, and mixtures. Disc and tapes may lose differently.
static LOSSES: [(Loss, Loss); 8] = [
    (Loss { new: 8, old: 0 }, Loss { new: 8, old: 0 }),
    (Loss { new: 0, old: 8 }, Loss { new: 0, old: 8 }),
    (Loss { new: 0, old: 0 }, Loss { new: 0, old: 0 }),
    (Loss { new: 8, old: 0 }, Loss { new: 0, old: 8 }),
    (Loss { new: 0, old: 8 }, Loss { new: 8, old: 0 }),
    (Loss { new: 3, old: 3 }, Loss { new: 3, old: 3 }),
    (Loss { new: 7, old: 1 }, Loss { new: 7, old: 1 }),
    (Loss { new: 1, old: 6 }, Loss { new: 6, old: 1 }),
];

/// The losses of disc and tapes for this seed.
pub fn losses(seed: u32) -> (Loss, Loss) {
    match LOSSES.get((seed % 8) as usize) {
        Some(losses) => *losses,
        None => (Loss { new: 8, old: 0 }, Loss { new: 8, old: 0 }),
    }
}

impl Loss {
    /// What is left of the block `new`, written over the block `old`. A torn block may be one that was written elsewhere.
    pub(crate) fn left(self, power: &Power, new: &Block, old: &Block, other: &Block) -> Block {
        let rolled = power.roll(8);
        if rolled < self.new {
            *new
        } else if rolled < self.new.saturating_add(self.old) {
            *old
        } else {
            torn(power, new, old, other)
        }
    }
}

/// A mixture of the two blocks, another block, or one byte repeated.
pub(crate) fn torn(power: &Power, new: &Block, old: &Block, other: &Block) -> Block {
    match power.roll(5) {
        0 => halves(new, old),
        1 => halves(old, new),
        2 => *other,
        3 => [0; 512],
        _ => [power.roll(255); 512],
    }
}

/// The first half of one block, and the second half of another.
fn halves(first: &Block, second: &Block) -> Block {
    let mut block = *second;
    block[..256].copy_from_slice(&first[..256]);
    block
}
