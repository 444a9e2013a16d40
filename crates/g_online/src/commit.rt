//! One commit of the directory that is in memory.
ghost use Rattle.std.specs.Prelude.{◌≡◌, OnErr, OnOk, false};
ghost use Rattle.std.specs.Option.{ForSome};
ghost use Rattle.g_disc.specs.Disc.{WritesOnly};
ghost use Rattle.g_dirs.specs.Directory.{AreCopies, directory_of};
ghost use Rattle.g_online.specs.Commit.{CommitStopped, HasCommitted, IsMarked, commit_blocks};
ghost use Rattle.g_online.specs.Invariant.{AreWhole};

use crate::OnlineFault;
use g_base::BlockWriter;
use g_dirs::{CopyTable, Listing, Pages, write_changed};
use g_disc::Disc;
use g_entry::Head;
use g_slots::Slots;
use g_tree::Tree;

/// Commits the directory of these records. It writes the marked blocks of the slot that isn't current, unless their
/// remembered content is already right, and then the gate. `writer` is scratch space for the blocks, whose previous
/// contents don't matter. If a write fails the filestore is no longer live.
pub(crate) fn commit<D: Disc>(
    disc: &mut D,
    slots: &mut Slots,
    pages: &mut Pages,
    live: &mut bool,
    head: &Head,
    tree: &Tree,
    online: &CopyTable,
    writer: &mut BlockWriter,
) -> Result<(), OnlineFault>
    requires copies { AreCopies tree.now.files online.now }
    requires marked { IsMarked (D.state disc.old) slots.old pages.old
        (directory_of head.now tree.now.users tree.now.files online.now) }
    ensures ok { OnOk result (HasCommitted (directory_of head.now tree.now.users tree.now.files online.now)
        (D.state disc.old) (D.state disc.new) slots.old slots.new pages.old pages.new) }
    ensures stopped { OnErr result
        (CommitStopped (directory_of head.now tree.now.users tree.now.files online.now)
        (D.state disc.old) (D.state disc.new) pages.old) }
    ensures counts { WritesOnly (commit_blocks (directory_of head.now tree.now.users tree.now.files online.now)
        slots.old pages.old) (D.state disc.old) (D.state disc.new) result }
    ensures lives { OnOk result (live.new ≡ live.old) }
    ensures dies { OnErr result (live.new ≡ false) }
    ensures whole { ForSome (D.state disc.new).held (AreWhole (D.state disc.new).size) }
    ensures only { OnErr result (result ≡ Err OnlineFault.Stopped) }
{
    // Its clause says that durable blocks are syncable.
    let _size = disc.size();
    let listing = Listing::new(head, tree.users(), tree.files(), online);
    match write_changed(disc, slots, &listing, pages, writer) {
        Ok(()) => {
            let _size = disc.size();
            Ok(())
        }
        Err(_) => {
            let _size = disc.size();
            *live = false;
            Err(OnlineFault::Stopped)
        }
    }
}
