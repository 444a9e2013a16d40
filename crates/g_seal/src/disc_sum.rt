//! The sum of bytes on the disc.
ghost use Rattle.std.specs.Prelude.{◌≡◌, ◌<◌, IfOk};
ghost use Rattle.std.specs.Option.{ForSome};
ghost use Rattle.sha2.specs.Sha256.{sha256};
ghost use Rattle.g_copy.specs.Copy.{IsCopy, bytes_at};
ghost use Rattle.g_disc.specs.Disc.{ReadsOnly};

use crate::adding::add_block;
use g_base::ReadFailed;
use g_copy::DiscCopy;
use g_disc::Disc;
use sha2::{Digest, Sha256};

/// The SHA-256 of the bytes of a copy, which are read block by block. `ReadFailed`.
pub(crate) fn disc_sum<D: Disc>(disc: &mut D, copy: &DiscCopy) -> Result<[u8; 32], ReadFailed>
    requires size { 2177 < (D.state disc.old).size }
    requires copy { IsCopy (D.state disc.old).size copy.now }
    ensures sum { IfOk result (λ sum. ForSome (D.state disc.old).held (λ blocks. sum ≡ sha256 (bytes_at copy.now.blocks copy.now.len blocks))) }
    ensures reads { ReadsOnly (D.state disc.old) (D.state disc.new) result }
{
    let mut sum = Sha256::new();
    let mut left = copy.len as usize;
    let mut block = [0; 512];
    for place in copy.blocks.as_slice() {
        match disc.read(*place, &mut block) {
            Ok(()) => {}
            Err(_) => return Err(ReadFailed),
        }
        left = add_block(&mut sum, &block, left);
    }
    Ok(sum.finalize())
}
