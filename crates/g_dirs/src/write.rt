//! The commit of a directory.
ghost use Rattle.std.specs.Prelude.{◌≡◌, ◌+◌, ◌<◌, OnErr, OnOk, false, replicate, true, if◌then◌else◌};
ghost use Rattle.std.specs.Option.{ForSome};
ghost use Rattle.g_base.specs.Fields.{padded};
ghost use Rattle.g_base.specs.ToldContent.{Changes};
ghost use Rattle.g_disc.specs.Disc.{WritesOnly};
ghost use Rattle.g_disc.specs.Durable.{AreSyncable};
ghost use Rattle.g_slots.specs.Commit.{KeepsCurrent, Prepares};
ghost use Rattle.g_slots.specs.Layout.{GateNames, GateWritten, other};
ghost use Rattle.g_dirs.specs.Commit.{NewDirectory, OldOrNew};
ghost use Rattle.g_dirs.specs.Directory.{AreRecords, IsDirectory};
ghost use Rattle.g_dirs.specs.Durable.{AreRememberedSyncable, CommitsDurably, IsOfFile};
ghost use Rattle.g_dirs.specs.Pages.{Covers, KeepsMarks, Remembers, RemembersAll, RemembersPage, is_remembered, marks_of, pages_of, unwritten};
ghost use Rattle.g_dirs.specs.Writing.{DirtiesSlot, WroteFirst};

use crate::{DirsFault, Listing, Pages};
use g_base::BlockWriter;
use g_disc::Disc;
use g_entry::Format;
use g_slots::Slots;

/// One commit: makes this directory the one that the disc represents. Which blocks may have changed is known: those that are
/// marked. Of these it writes, in order of number, the blocks of the slot that isn't current whose remembered content differs, and
/// then the gate. It looks at no other block, so the cost is that of the changes. The blocks are built in `writer`, whatever it holds.
/// The marks of the slot that becomes current are cleared.
///
/// On `Stopped` a write failed, and the disc represents what it did before or the new directory. Then neither `slots` nor `last` may be
/// used again: find the gate, and begin to remember, from scratch.
pub fn write_changed<D: Disc>(
    disc: &mut D,
    slots: &mut Slots,
    listing: &Listing,
    last: &mut Pages,
    writer: &mut BlockWriter,
) -> Result<(), DirsFault>
    requires size { 2177 < (D.state disc.old).size }
    requires gate { GateNames slots.old (D.state disc.old).held }
    requires records { AreRecords Format.Two listing.now }
    requires rules { IsDirectory (D.state disc.old).size listing.now }
    requires remembers { ForSome (D.state disc.old).held (Remembers last.old) }

    // Each change was marked.
    requires covers { Covers listing.now (other slots.old) last.old }
    ensures ok { OnOk result
        (Changes (NewDirectory listing.now) (D.state disc.old).held (D.state disc.new).held) }
    ensures side { OnOk result (slots.new ≡ other slots.old) }
    ensures gate { OnOk result (GateNames slots.new (D.state disc.new).held) }
    ensures written { OnOk result (GateWritten slots.new (D.state disc.new).held) }
    ensures stopped { OnErr result
        (Changes (OldOrNew listing.now) (D.state disc.old).held (D.state disc.new).held) }

    // Only the blocks whose remembered content differs are written, and the gate: as many as with all blocks marked.
    ensures counts { WritesOnly (unwritten listing.now (pages_of (other slots.old) last.old) 1088 + 1)
        (D.state disc.old) (D.state disc.new) result }
    ensures remembers { OnOk result (ForSome (D.state disc.new).held (Remembers last.new)) }
    ensures all { OnOk result (RemembersAll listing.now (pages_of slots.new last.new)) }
    ensures others { OnOk result (pages_of slots.old last.new ≡ pages_of slots.old last.old) }

    // What a power loss leaves.
    ensures remembered { AreRememberedSyncable last.old (D.state disc.old)
        → OnOk result (AreRememberedSyncable last.new (D.state disc.new)) }
    ensures survives { AreRememberedSyncable last.old (D.state disc.old)
        → AreSyncable (IsOfFile listing.now) (D.state disc.old)
        → CommitsDurably listing.now slots.new (D.state disc.old) (D.state disc.new) result }
    ensures marks { OnOk result (marks_of slots.new last.new ≡ replicate 1088 false) }
    ensures other_marks { OnOk result (marks_of slots.old last.new ≡ marks_of slots.old last.old) }
    ensures only { OnErr result (result ≡ Err DirsFault.Stopped) }
{
    let _size = disc.size();
    let next = slots.side().other();
    fill(disc, slots, listing, last, writer)?;
    slots.flip(disc)?;
    last.clear(next);
    Ok(())
}

/// Writes this directory into the slot that isn't current.
fn fill<D: Disc>(
    disc: &mut D,
    slots: &Slots,
    listing: &Listing,
    last: &mut Pages,
    writer: &mut BlockWriter,
) -> Result<(), DirsFault>
    requires size { 2177 < (D.state disc.old).size }
    requires gate { GateNames slots.now (D.state disc.old).held }
    requires records { AreRecords Format.Two listing.now }
    requires rules { IsDirectory (D.state disc.old).size listing.now }
    requires remembers { ForSome (D.state disc.old).held (Remembers last.old) }
    requires covers { Covers listing.now (other slots.now) last.old }
    ensures ok { OnOk result (WroteFirst slots.now listing.now 1088
        (D.state disc.old) (D.state disc.new) last.old last.new) }
    ensures stopped { OnErr result
        (Changes (KeepsCurrent slots.now) (D.state disc.old).held (D.state disc.new).held) }
    ensures counts { WritesOnly (unwritten listing.now (pages_of (other slots.now) last.old) 1088)
        (D.state disc.old) (D.state disc.new) result }
    ensures marks { OnOk result (KeepsMarks last.old last.new) }
    ensures dirties { DirtiesSlot slots.now (D.state disc.old) (D.state disc.new) last.old last.new result }
    ensures only { OnErr result (result ≡ Err DirsFault.Stopped) }
{
    let _size = disc.size();
    let side = slots.side().other();
    // All blocks are built in one writer, and compared and written from there.
    let mut k = last.next_marked(side, 0);
    while k < 1088 {
        listing.put_block(writer, k);
        // In a loop the proof reads the arms of a `match`, not the result of `?`.
        match write_page(disc, slots, k, writer, last) {
            Ok(()) => {}
            Err(fault) => return Err(fault),
        }
        k = last.next_marked(side, k + 1);
    }
    Ok(())
}

/// Writes the block of this writer as block `k` of the slot that isn't current, and remembers it. If it is already remembered with
/// that content, nothing is written.
fn write_page<D: Disc>(
    disc: &mut D,
    slots: &Slots,
    k: u32,
    writer: &BlockWriter,
    last: &mut Pages,
) -> Result<(), DirsFault>
    requires place { k < 1088 }
    requires size { 2177 < (D.state disc.old).size }
    requires gate { GateNames slots.now (D.state disc.old).held }
    requires remembers { ForSome (D.state disc.old).held (Remembers last.old) }
    ensures ok { OnOk result
        (Changes (Prepares slots.now k (padded 512 writer.now)) (D.state disc.old).held (D.state disc.new).held) }
    ensures stopped { OnErr result
        (Changes (KeepsCurrent slots.now) (D.state disc.old).held (D.state disc.new).held) }
    ensures counts { WritesOnly
        (if is_remembered (pages_of (other slots.now) last.old) k (padded 512 writer.now) then 0 else 1)
        (D.state disc.old) (D.state disc.new) result }
    ensures pages { OnOk result (RemembersPage (other slots.now) k (padded 512 writer.now) last.old last.new) }
    ensures dirties { DirtiesSlot slots.now (D.state disc.old) (D.state disc.new) last.old last.new result }
    ensures only { OnErr result (result ≡ Err DirsFault.Stopped) }
{
    let side = slots.side().other();
    if last.is_remembered(side, k, writer) {
        return Ok(());
    }
    match slots.prepare(disc, k, writer.block()) {
        Ok(()) => {
            last.remember(side, k, writer);
            Ok(())
        }
        Err(_) => Err(DirsFault::Stopped),
    }
}
