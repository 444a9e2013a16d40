//! Blocks that are added to a sum.
ghost use Rattle.std.specs.Prelude.{◌≡◌, ◌-◌, ◌++◌, ℕ, List, length, min, take};
ghost use Rattle.sha2.specs.Hashers.{Holds256};

use g_base::Block;
use sha2::{Digest, Sha256};

/// Adds the next block of a text to a sum, of which so many bytes are left, and returns how many are left then.
pub(crate) fn add_block(sum: &mut Sha256, block: &Block, left: usize) -> usize
    ensures adds { (m : List ℕ) → Holds256 sum.old m → Holds256 sum.new (m ++ take (min left 512) block.now) }
    ensures left { result ≡ left - min left 512 }
    ensures whole { length block.now ≡ 512 }
{
    let count = left.min(512);
    sum.update(&block[..count]);
    left - count
}
