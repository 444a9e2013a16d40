//! The commit that closes a dump.
ghost use Rattle.std.specs.Prelude.{◌≡◌, ◌≢◌, [], ◌∷◌, All, AllPairs, IfNone, IfSome, is_some, map, true};
ghost use Rattle.g_tree.specs.Records.{IsRecords};
ghost use Rattle.g_disc_contents.specs.Contents.{copied_rec};
ghost use Rattle.g_online.specs.AllowedChanges.{KeepsRules};
ghost use Rattle.g_online.specs.Change.{closed};
ghost use Rattle.g_online.specs.DumpedVersions.{HasItsNumber, MarksMade, noted_at, noted_in};
ghost use Rattle.g_online.specs.Pins.{IsClosing};

use crate::commit::commit;
use crate::numbers::UserNumbers;
use crate::pinned::Pinned;
use crate::pins::{free_orphaned_pins, pinned_versions};
use crate::{Online, OnlineFault};
use g_base::FIRST_FILE_BLOCK;
use g_dirs::Pages;
use g_disc::Disc;
use g_entry::{FileRec, Head};
use g_tree::Tree;
use std::mem;

impl<D: Disc> Online<D> {
    /// Closes the dump with number `last` by one commit. Pinned versions that some file still has get the tape places that
    /// were noted for them. The head gets the number and has no intent. The pins are removed, and their blocks are free
    /// again unless a file has them. It allocates nothing. Exactly the users touched since the pinning count as changed.
    /// After `Stopped` the disc holds the old contents or the new ones, and the filestore accepts no further call.
    pub fn close_dump(&mut self, last: u64) -> Result<(), OnlineFault>
        requires live { self.old.live ≡ true }
        requires pinned { is_some self.old.pins ≡ true }
        requires rules { KeepsRules (closed last self.old) }
        ensures { IsClosing last self.old self.new result }
    {
        let pins = pinned_versions(&self.pins);
        free_orphaned_pins(&mut self.pool, pins, self.tree.files());
        self.pages.changed(0);
        note_copies(&mut self.tree, &mut self.pages, pins);
        self.head = Head {
            last_dump: last,
            intent: None,
            ..self.head
        };
        self.pins = None;
        self.changed = mem::replace(&mut self.touched, UserNumbers::new());
        commit(
            &mut self.disc,
            &mut self.slots,
            &mut self.pages,
            &mut self.live,
            &self.head,
            &self.tree,
            &self.online,
            &mut self.writer,
        )
    }
}

/// Writes the noted tape places into the records of the files that still have these versions, and marks exactly these
/// records. Each version is looked up by its number.
fn note_copies(tree: &mut Tree, pages: &mut Pages, pins: &[Pinned])
    requires apart { AllPairs (λ p q. p.stamp ≢ q.stamp) pins.now }
    requires numbered { All (λ p. All (HasItsNumber p) tree.old.files) pins.now }
    requires records { IsRecords tree.old.users tree.old.files }
    requires rules { IsRecords tree.old.users (map (copied_rec (noted_in pins.now)) tree.old.files) }
    ensures users { tree.new.users ≡ tree.old.users }
    ensures files { tree.new.files ≡ map (copied_rec (noted_in pins.now)) tree.old.files }
    ensures marks { MarksMade (copied_rec (noted_in pins.now)) tree.old.files pages.old pages.new }
{
    for pin in pins {
        note_copy(tree, pages, pin);
    }
}

/// Does so for one version.
fn note_copy(tree: &mut Tree, pages: &mut Pages, pin: &Pinned)
    requires rules { let p = pin.now in
        IsRecords tree.old.users (map (noted_at (noted_in (p ∷ [])) p.number) tree.old.files) }
    ensures users { tree.new.users ≡ tree.old.users }
    ensures files { let p = pin.now in
        tree.new.files ≡ map (noted_at (noted_in (p ∷ [])) p.number) tree.old.files }
    ensures marks { let p = pin.now in
        MarksMade (noted_at (noted_in (p ∷ [])) p.number) tree.old.files pages.old pages.new }
{
    let Some(file) = tree.file_at(pin.number) else {
        return;
    };
    let Some(noted) = with_copy(file, pin) else {
        return;
    };
    tree.put(noted);
    pages.changed(FIRST_FILE_BLOCK + u32::from(pin.number));
}

/// The record with the tape place that is noted for this version, or none if the file has another version.
fn with_copy(file: &FileRec, pin: &Pinned) -> Option<FileRec>
    ensures some { IfSome result (λ noted. noted ≡ copied_rec (noted_in (pin.now ∷ [])) file.now) }
    ensures none { IfNone result (copied_rec (noted_in (pin.now ∷ [])) file.now ≡ file.now) }
{
    if pin.stamp == file.stamp {
        Some(FileRec {
            tape: Some(pin.copy),
            ..file.copy()
        })
    } else {
        None
    }
}
