//! The changes of records, which touch no bytes.
ghost use Rattle.std.specs.Prelude.{◌≡◌, ◌<◌, ℕ, List, if◌then◌else◌};
ghost use Rattle.g_dirs.specs.Pages.{KeepsPages, Remembers};
ghost use Rattle.g_disc_contents.specs.Contents.{with_number};
ghost use Rattle.g_online.specs.AllowedChanges.{IsAllowed};
ghost use Rattle.g_online.specs.Outcomes.{IsApplied};
ghost use Rattle.g_online.specs.Invariant.{CoversHead, head_after};

use crate::change::Change;
use crate::commit::commit;
use crate::numbers::UserNumbers;
use crate::{Online, OnlineFault};
use g_base::FIRST_FILE_BLOCK;
use g_dirs::Pages;
use g_disc::Disc;
use g_entry::{FileRec, Head, Intent, UserRec};

impl<D: Disc> Online<D> {
    /// Sets the intent of the head, as `Change::SetIntent` says.
    pub fn set_intent(&mut self, intent: Option<Intent>) -> Result<(), OnlineFault>
        requires allowed { IsAllowed (Change.SetIntent intent) self.old }
        ensures { IsApplied (Change.SetIntent intent) self.old self.new result }
    {
        self.head.intent = intent;
        self.pages.changed(0);
        commit(
            &mut self.disc,
            &mut self.slots,
            &mut self.pages,
            &mut self.live,
            &self.head,
            &self.tree,
            &self.online,
            &mut self.writer,
        )
    }

    /// Replaces the record of a user, as `Change::SetUser` says.
    pub fn set_user(&mut self, user: &UserRec) -> Result<(), OnlineFault>
        requires allowed { IsAllowed (Change.SetUser user.now) self.old }
        ensures { IsApplied (Change.SetUser user.now) self.old self.new result }
    {
        self.head = kept_head(&self.head, self.pins.is_some());
        self.pages.changed(0);
        self.tree.set_user(user.copy());
        self.pages.changed(1 + u32::from(user.number));
        commit(
            &mut self.disc,
            &mut self.slots,
            &mut self.pages,
            &mut self.live,
            &self.head,
            &self.tree,
            &self.online,
            &mut self.writer,
        )
    }

    /// Adds a user after the others, as `Change::AddUser` says.
    pub fn add_user(&mut self, user: &UserRec) -> Result<(), OnlineFault>
        requires allowed { IsAllowed (Change.AddUser user.now) self.old }
        ensures { IsApplied (Change.AddUser user.now) self.old self.new result }
    {
        match self.tree.reserve() {
            Ok(()) => {}
            Err(_) => return Err(OnlineFault::NoMemory),
        }
        let pinned = self.pins.is_some();
        self.head = kept_head(&self.head, pinned);
        self.pages.changed(0);
        self.tree.add_user(user.copy());
        self.pages.changed(1 + u32::from(user.number));
        mark_user_changed(&mut self.changed, &mut self.touched, pinned, user.number);
        commit(
            &mut self.disc,
            &mut self.slots,
            &mut self.pages,
            &mut self.live,
            &self.head,
            &self.tree,
            &self.online,
            &mut self.writer,
        )
    }

    /// Replaces the record of a file, whose version stays the same, as `Change::SetFile` says.
    pub fn set_file(&mut self, rec: FileRec) -> Result<(), OnlineFault>
        requires allowed { IsAllowed (Change.SetFile rec) self.old }
        ensures { IsApplied (Change.SetFile rec) self.old self.new result }
    {
        let number = rec.number;
        let owner = rec.owner;
        match self.tree.reserve() {
            Ok(()) => {}
            Err(_) => return Err(OnlineFault::NoMemory),
        }
        let pinned = self.pins.is_some();
        carry_head(&mut self.head, &mut self.pages, pinned);
        self.tree.put(rec);
        self.pages.changed(FIRST_FILE_BLOCK + u32::from(number));
        mark_user_changed(&mut self.changed, &mut self.touched, pinned, owner);
        commit(
            &mut self.disc,
            &mut self.slots,
            &mut self.pages,
            &mut self.live,
            &self.head,
            &self.tree,
            &self.online,
            &mut self.writer,
        )
    }
}

/// Notes that the directory of this user has changed, for later dumps; and, while versions are pinned, also for the time
/// after they are unpinned.
pub(crate) fn mark_user_changed(
    changed: &mut UserNumbers,
    touched: &mut UserNumbers,
    pinned: bool,
    number: u8,
)
    requires { number < 63 }
    ensures changed { changed.new ≡ with_number number changed.old }
    ensures touched { touched.new ≡ (if pinned then with_number number touched.old else touched.old) }
{
    changed.put(number);
    if pinned {
        touched.put(number);
    }
}

/// The head of the next commit, which has an intent only while versions are pinned.
pub(crate) fn kept_head(head: &Head, pinned: bool) -> Head
    ensures { result ≡ head_after pinned head.now }
{
    if pinned {
        *head
    } else {
        Head {
            intent: None,
            ..*head
        }
    }
}

/// Replaces the head by that of the next commit, which has an intent only while versions are pinned. Its block is marked
/// only if the head changes, so an unchanged head is neither encoded nor compared.
fn carry_head(head: &mut Head, pages: &mut Pages, pinned: bool)
    ensures head { head.new ≡ head_after pinned head.old }
    ensures keeps { KeepsPages pages.old pages.new }
    ensures remembers { (blocks : List (List ℕ)) → Remembers pages.old blocks → Remembers pages.new blocks }
    ensures covers { CoversHead head.old head.new pages.old pages.new }
{
    if pinned {
        return;
    }
    if head.intent.is_none() {
        return;
    }
    head.intent = None;
    pages.changed(0);
}
