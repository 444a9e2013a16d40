//! The online filestore: the disc, and what it holds, in memory.
ghost use Rattle.std.specs.Prelude.{◌≡◌, ◌≤◌, true, Contains, Some};
ghost use Rattle.g_base.specs.Fuse.{armed_with};
ghost use Rattle.g_disc_contents.specs.Contents.{File, recs_in};
ghost use Rattle.g_disc_contents.specs.Facts.{IsTied, room_of};
ghost use Rattle.g_online.specs.Room.{FitsDisc};

use crate::numbers::UserNumbers;
use crate::pin_list::PinList;
use g_base::BlockWriter;
use g_blocks::Pool;
use g_dirs::{CopyTable, Pages};
use g_disc::Disc;
use g_entry::Head;
use g_slots::Slots;
use g_tree::Tree;
use std::marker::Model;

/// A disc with its filestore in memory: head, users and files, where the bytes of the online files lie, and which copy
/// blocks are free. Contracts see the facts of an online filestore (docs/DEFINITIONS.md).
///
/// After a change that returned `Stopped` it isn't live: the disc can be taken out of it, and it accepts no other call.
#[derive(Drop)]
pub struct Online<D: Disc> {
    pub(crate) disc: D,
    pub(crate) slots: Slots,
    pub(crate) pages: Pages,
    pub(crate) pool: Pool,
    pub(crate) tree: Tree,
    pub(crate) head: Head,
    pub(crate) online: CopyTable,
    pub(crate) pins: Option<PinList>,
    pub(crate) changed: UserNumbers,
    pub(crate) touched: UserNumbers,
    pub(crate) live: bool,

    // Scratch space in which the blocks of every write are built.
    pub(crate) writer: BlockWriter,
}

impl<D: Disc> Model for Online<D> {
    ghost use Rattle.g_disc_contents.specs.Facts.{OnlineFacts};
    ghost use Rattle.g_online.specs.Invariant.{IsKept, facts_of};

    ghost Value = { OnlineFacts };

    ghost view = { λ o. facts_of (D.state o.disc) (record {
      side = o.slots;
      pages = o.pages;
      pool = o.pool;
      users = o.tree.users;
      files = o.tree.files;
      head = o.head;
      online = o.online;
      pins = o.pins;
      changed = o.changed;
      touched = o.touched;
      live = o.live;
    }) };

    ghost invariant = { λ o. IsKept (D.state o.disc) (record {
      side = o.slots;
      pages = o.pages;
      pool = o.pool;
      users = o.tree.users;
      files = o.tree.files;
      head = o.head;
      online = o.online;
      pins = o.pins;
      changed = o.changed;
      touched = o.touched;
      live = o.live;
    }) };
}

impl<D: Disc> Online<D> {
    /// Users and files.
    pub fn tree(&self) -> &Tree
        requires live { self.now.live ≡ true }
        ensures users { result.now.users ≡ self.now.contents.users }
        ensures files { result.now.files ≡ recs_in self.now.contents }
    {
        &self.tree
    }

    /// The head of the directory.
    pub fn head(&self) -> Head
        requires live { self.now.live ≡ true }
        ensures { result ≡ self.now.contents.head }
    {
        self.head
    }

    /// The number of free copy blocks. The blocks of pinned versions aren't free, even if no file has them any more.
    pub fn room(&self) -> u32
        requires live { self.now.live ≡ true }
        ensures room { result ≡ room_of self.now }
        ensures fits { FitsDisc self.now }
    {
        self.pool.free()
    }

    /// Whether the bytes of the file of this number are on the disc.
    pub fn is_online(&self, number: u16) -> bool
        requires live { self.now.live ≡ true }
        ensures { (f : File) → Contains self.now.contents.files f → f.rec.number ≡ number
            → result ≡ f.online }
    {
        self.online.get(number).is_some()
    }

    /// The users whose directory may differ from the one in the completed dumps, in rising order of number.
    pub fn changed(&self) -> &[u8]
        ensures { result.now ≡ self.now.changed }
    {
        self.changed.as_slice()
    }

    /// Arms the disc, so that its `k`-th next write fails.
    pub fn arm(&mut self, k: u32)
        requires { 1 ≤ k }
        ensures armed { self.new ≡ record self.old {
          disc = record self.old.disc { fuse = Some k; arms = armed_with k self.old.disc.writes self.old.disc.arms };
        } }
        ensures tied { IsTied self.new }
    {
        self.disc.arm(k);
    }

    /// Returns the disc in its current state, also after a failed write.
    pub fn into_disc(self) -> D
        ensures { D.state result ≡ self.disc }
    {
        self.disc
    }
}
