//! The copies of a dump that holds every version: they are prepared before it is written, and noted by one commit after it.
ghost use Rattle.std.specs.Prelude.{◌≡◌, ℕ, IfOk, List, None, map, true};
ghost use Rattle.g_entry.specs.declared.file_rec.TapeCopy.{TapeCopy};
ghost use Rattle.g_tree.specs.Records.{IsRecords};
ghost use Rattle.g_disc_contents.specs.Contents.{copied_rec, recs_in};
ghost use Rattle.g_online.specs.ReadyCopies.{IsAdopting, IsReadyFor, ready_with};

use crate::adopt::noted;
use crate::commit::commit;
use crate::numbers::UserNumbers;
use crate::{Online, OnlineFault};
use g_base::NoMemory;
use g_disc::Disc;
use g_entry::{Head, TapeCopy};
use g_tree::Tree;
use std::alloc::Global;
use std::marker::Model;

/// Users and records of files with their copies on tape, for which all memory is allocated. Contracts see both lists.
#[derive(Drop)]
pub struct Ready {
    tree: Tree,
}

impl Model for Ready {
    ghost use Rattle.g_online.specs.ReadyCopies.{Readied};

    ghost Value = { Readied };

    ghost view = { λ r. record { users = r.tree.users; files = r.tree.files } };
}

impl<D: Disc> Online<D> {
    /// The users, and the records of files with these copies on tape, by stamp, which `adopt_ready` will install. It
    /// allocates everything that is needed for it, and nothing changes.
    pub fn ready_adopt(&self, alloc: Global, copies: &[(u64, TapeCopy)]) -> Result<Ready, NoMemory>
        requires live { self.now.live ≡ true }
        requires rules { IsRecords self.now.contents.users
            (map (copied_rec copies.now) (recs_in self.now.contents)) }
        ensures { IfOk result (λ ready. ready ≡ ready_with copies.now self.now.contents) }
    {
        let tree = match noted(alloc, &self.tree, copies) {
            Ok(tree) => tree,
            Err(_) => return Err(NoMemory),
        };
        Ok(Ready { tree })
    }

    /// Notes these copies by one commit, with the number `last` of their dump and without an intent. No user counts as
    /// changed then, since every version has a copy. It allocates nothing. Only the intent may have changed since the
    /// copies were prepared. After `Stopped` the disc holds the old contents or the new ones, and the filestore accepts no
    /// further call.
    pub fn adopt_ready(&mut self, last: u64, ready: Ready) -> Result<(), OnlineFault>
        requires live { self.old.live ≡ true }
        requires none { self.old.pins ≡ None }
        requires ready { (copies : List (ℕ × TapeCopy)) × IsReadyFor last copies ready self.old }
        ensures { (copies : List (ℕ × TapeCopy)) → IsReadyFor last copies ready self.old
            → IsAdopting last copies self.old self.new result }
    {
        self.head = Head {
            last_dump: last,
            intent: None,
            ..self.head
        };
        self.tree = ready.tree;
        self.changed = UserNumbers::new();
        self.pages.all_changed();
        commit(
            &mut self.disc,
            &mut self.slots,
            &mut self.pages,
            &mut self.live,
            &self.head,
            &self.tree,
            &self.online,
            &mut self.writer,
        )
    }
}
