//! Reads a text back from the blocks of its copy.
ghost use Rattle.std.specs.Prelude.{◌≡◌, ◌⊎◌, ◌<◌, IfErr, IfOk, Err, length};
ghost use Rattle.std.specs.Option.{ForSome};
ghost use Rattle.g_disc.specs.Disc.{ReadsByCause};
ghost use Rattle.g_copy.specs.Copy.{IsCopy, bytes_at};

use crate::copy::DiscCopy;
use crate::fault::CopyFault;
use g_disc::Disc;
use g_name::Text;
use std::alloc::Global;

/// The bytes of a copy, read from the disc. The only errors are `ReadFault` and `NoMemory`.
pub fn read_copy<D: Disc>(alloc: Global, disc: &mut D, copy: &DiscCopy) -> Result<Text, CopyFault>
    requires size { 2177 < (D.state disc.old).size }
    requires copy { IsCopy (D.state disc.old).size copy.now }
    ensures text { IfOk result (λ text. ForSome (D.state disc.old).held
        (λ blocks. bytes_at copy.now.blocks copy.now.len blocks ≡ text)) }
    ensures len { IfOk result (λ text. length text ≡ copy.now.len) }
    ensures counts { ReadsByCause (result ≡ Err CopyFault.ReadFault)
        (D.state disc.old) (D.state disc.new) }
    ensures only { IfErr result (λ e. (e ≡ CopyFault.ReadFault) ⊎ (e ≡ CopyFault.NoMemory)) }
{
    let len = copy.len as usize;
    let mut bytes = Vec::with_capacity(alloc, len)?;
    let mut block = [0; 512];
    for place in copy.blocks.as_slice() {
        match disc.read(*place, &mut block) {
            Ok(()) => {}
            Err(_) => return Err(CopyFault::ReadFault),
        }
        let count = (len - bytes.len()).min(512);
        bytes.extend_from_slice(&block[..count])?;
    }
    Ok(Text::from(bytes))
}
