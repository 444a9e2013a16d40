//! Writes a text into the blocks of its copy.
ghost use Rattle.std.specs.Prelude.{◌≡◌, ◌*◌, ◌^◌, ◌<◌, Contains, OnErr, OnOk, Err, drop, length, take};
ghost use Rattle.g_base.specs.ToldContent.{Changes};
ghost use Rattle.g_disc.specs.Disc.{WritesOnly};
ghost use Rattle.g_disc.specs.Durable.{DirtiesOnly};
ghost use Rattle.g_copy.specs.Copy.{Holds, IsCopy, OnlyAt};

use crate::copy::DiscCopy;
use crate::fault::CopyFault;
use g_base::BlockWriter;
use g_disc::Disc;

/// Writes the bytes into the blocks of the copy, and zeros after the last of them. It allocates no
/// memory: the blocks are built in `writer`, whose content doesn't matter. On `Stopped` these blocks may hold
/// anything; all others are unchanged.
pub fn write_copy<D: Disc>(
    disc: &mut D,
    writer: &mut BlockWriter,
    copy: &DiscCopy,
    bytes: &[u8],
) -> Result<(), CopyFault>
    requires size { 2177 < (D.state disc.old).size }
    requires copy { IsCopy (D.state disc.old).size copy.now }
    requires len { copy.now.len ≡ length bytes.now }
    ensures counts { WritesOnly (length copy.now.blocks) (D.state disc.old) (D.state disc.new) result }
    ensures ok { OnOk result
        (Changes (Holds copy.now.blocks bytes.now) (D.state disc.old).held (D.state disc.new).held) }
    ensures stopped { OnErr result
        (Changes (OnlyAt copy.now.blocks) (D.state disc.old).held (D.state disc.new).held) }
    ensures dirties { DirtiesOnly (Contains copy.now.blocks) (D.state disc.old) (D.state disc.new) result }
    ensures only { OnErr result (result ≡ Err CopyFault.Stopped) }
{
    let _size = disc.size();
    let places = copy.blocks.as_slice();
    for (i, place) in places.iter().enumerate() {
        put_part(writer, bytes, i);
        match disc.write(*place, writer.block()) {
            Ok(()) => {}
            Err(_) => return Err(CopyFault::Stopped),
        }
    }
    Ok(())
}

/// Replaces the content of a writer by the bytes of block i.
fn put_part(writer: &mut BlockWriter, bytes: &[u8], i: usize)
    requires { i < 2 ^ 32 }
    ensures { writer.new ≡ take 512 (drop (512 * i) bytes.now) }
{
    let start = (512 * i).min(bytes.len());
    let end = (start + 512).min(bytes.len());
    writer.restart();
    writer.put_bytes(&bytes[start..end]);
}
