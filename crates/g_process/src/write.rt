//! The dump, block by block.
ghost use Rattle.std.specs.Prelude.{◌≡◌, ◌<◌, None, true};
ghost use Rattle.g_tape.specs.Rack.{reel, refuses_write};
ghost use Rattle.g_disc_contents.specs.Facts.{IsTied};
ghost use Rattle.g_incr.specs.Plan.{needs};
ghost use Rattle.g_process.specs.Progress.{AreReadable, Fills, MayWrite, WritesBlock, WritesBlocks};

use crate::job::Job;
use crate::sources::read_source;
use g_base::Block;
use g_disc::Disc;
use g_incr::Piece;
use g_online::Online;
use g_plain::StoreFault;
use g_tape::Tapes;

/// Writes the whole dump, from block 0 of its reel to its mark. `DiscReadFault`, `TapeReadFault`, `Stopped`.
pub(crate) fn write_blocks<D: Disc, T: Tapes>(
    online: &mut Online<D>,
    tapes: &mut T,
    job: &Job,
) -> Result<(), StoreFault>
    requires live { online.old.live ≡ true }
    requires tied { IsTied online.old }
    requires may { MayWrite job.now.serial job.now.writer job.now.versions.items online.old (T.rack tapes.old) }
    ensures writes { WritesBlocks job.now.serial job.now.writer job.now.versions.items online.old (T.rack tapes.old)
        result online.new (T.rack tapes.new) }
    ensures tied { IsTied online.new }
{
    for k in 0..job.writer.needs() {
        match write_block(online, tapes, job, k) {
            Ok(()) => {}
            Err(fault) => return Err(fault),
        }
    }
    Ok(())
}

/// Writes block k of the dump.
fn write_block<D: Disc, T: Tapes>(
    online: &mut Online<D>,
    tapes: &mut T,
    job: &Job,
    k: u32,
) -> Result<(), StoreFault>
    requires live { online.old.live ≡ true }
    requires tied { IsTied online.old }
    requires below { k < needs job.now.writer }
    requires readable { AreReadable job.now.serial job.now.writer job.now.versions.items online.old (T.rack tapes.old) }
    requires free { refuses_write k (reel job.now.serial (T.rack tapes.old).reels) ≡ None }
    ensures writes { WritesBlock job.now.serial job.now.writer job.now.versions.items k online.old (T.rack tapes.old)
        result online.new (T.rack tapes.new) }
    ensures tied { IsTied online.new }
{
    let mut block: Block = [0; 512];
    match fill(online, tapes, job, k, &mut block) {
        Ok(()) => {}
        Err(fault) => return Err(fault),
    }
    match tapes.write(job.serial, k, &block) {
        Ok(()) => Ok(()),
        Err(_) => Err(StoreFault::Stopped),
    }
}

/// Writes block k of the dump into `into`.
fn fill<D: Disc, T: Tapes>(
    online: &mut Online<D>,
    tapes: &mut T,
    job: &Job,
    k: u32,
    into: &mut Block,
) -> Result<(), StoreFault>
    requires live { online.old.live ≡ true }
    requires tied { IsTied online.old }
    requires below { k < needs job.now.writer }
    requires readable { AreReadable job.now.serial job.now.writer job.now.versions.items online.old (T.rack tapes.old) }
    ensures fills { Fills job.now.writer job.now.versions.items k online.old (T.rack tapes.old)
        result into.new online.new (T.rack tapes.new) }
    ensures tied { IsTied online.new }
{
    match job.writer.piece(k, into) {
        Piece::Ready => Ok(()),
        Piece::Content { version, part } => {
            read_source(online, tapes, &job.versions[version], part, into)
        }
    }
}
