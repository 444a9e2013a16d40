//! Where the bytes of a version are read.
ghost use Rattle.std.specs.Prelude.{◌≡◌, ℕ, ◌<◌, true};
ghost use Rattle.g_base.specs.Block as block;
ghost use Rattle.g_disc_contents.specs.Facts.{IsTied};
ghost use Rattle.g_process.specs.Progress.{IsReadable, ReadsSource};

use g_base::Block;
use g_disc::Disc;
use g_entry::FileRec;
use g_online::Online;
use g_plain::StoreFault;
use g_tape::Tapes;

/// Reads block `part` of the version: from the disc if the file is there, otherwise from its copy on tape. On
/// `DiscReadFault` and `TapeReadFault` the contents of `into` are unspecified.
pub(crate) fn read_source<D: Disc, T: Tapes>(
    online: &mut Online<D>,
    tapes: &mut T,
    version: &FileRec,
    part: u32,
    into: &mut Block,
) -> Result<(), StoreFault>
    requires live { online.old.live ≡ true }
    requires tied { IsTied online.old }
    requires readable { (serial : ℕ) × IsReadable serial online.old (T.rack tapes.old) version.now }
    requires within { part < block.blocks_for version.now.len }
    ensures read { ReadsSource version.now part online.old (T.rack tapes.old) result into.new online.new (T.rack tapes.new) }
    ensures tied { IsTied online.new }
{
    if online.is_online(version.number) {
        return match online.file_block(version.number, part, into) {
            Ok(()) => Ok(()),
            Err(_) => Err(StoreFault::DiscReadFault),
        };
    }
    let Some(copy) = version.tape else {
        unreachable!()
    };
    match tapes.read(copy.serial, copy.first + part, into) {
        Ok(()) => Ok(()),
        Err(_) => Err(StoreFault::TapeReadFault),
    }
}
