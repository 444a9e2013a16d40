//! The tape copies of a completed dump.
ghost use Rattle.std.specs.Prelude.{◌≡◌, IfOk, map};
ghost use Rattle.g_tree.specs.Records.{IsRecords};
ghost use Rattle.g_disc_contents.specs.Contents.{copied_rec, copy_of};
ghost use Rattle.g_online.specs.AllowedChanges.{IsAllowed};
ghost use Rattle.g_online.specs.Outcomes.{IsApplied};

use crate::change::{Change, CopyList};
use crate::commit::commit;
use crate::records::kept_head;
use crate::{Online, OnlineFault};
use g_base::NoMemory;
use g_disc::Disc;
use g_entry::{FileRec, Head, TapeCopy, UserRec};
use g_table::FileTable;
use g_tree::Tree;
use std::alloc::Global;

impl<D: Disc> Online<D> {
    /// Notes these copies on tape, by stamp, and the number of their dump, as `Change::Adopt` says.
    pub fn adopt(&mut self, alloc: Global, last: u64, copies: &CopyList) -> Result<(), OnlineFault>
        requires allowed { IsAllowed (Change.Adopt last copies.now) self.old }
        ensures { IsApplied (Change.Adopt last copies.now) self.old self.new result }
    {
        let tree = match noted(alloc, &self.tree, copies.as_slice()) {
            Ok(tree) => tree,
            Err(_) => return Err(OnlineFault::NoMemory),
        };
        let head = Head {
            last_dump: last,
            ..self.head
        };
        self.head = kept_head(&head, self.pins.is_some());
        self.tree = tree;
        self.pages.all_changed();
        commit(
            &mut self.disc,
            &mut self.slots,
            &mut self.pages,
            &mut self.live,
            &self.head,
            &self.tree,
            &self.online,
            &mut self.writer,
        )
    }
}

/// The tree of the same users, and of the files with these copies.
pub(crate) fn noted(
    alloc: Global,
    tree: &Tree,
    copies: &[(u64, TapeCopy)],
) -> Result<Tree, NoMemory>
    requires { IsRecords tree.now.users (map (copied_rec copies.now) tree.now.files) }
    ensures users { IfOk result (λ t. t.users ≡ tree.now.users) }
    ensures files { IfOk result (λ t. t.files ≡ map (copied_rec copies.now) tree.now.files) }
{
    let users = match copied_users(alloc, tree.users()) {
        Ok(users) => users,
        Err(_) => return Err(NoMemory),
    };
    let files = match copied_files(alloc, tree.files(), copies) {
        Ok(files) => files,
        Err(_) => return Err(NoMemory),
    };
    Tree::from_records(alloc, users, files)
}

/// A copy of the list of users.
fn copied_users(alloc: Global, users: &[UserRec]) -> Result<Vec<UserRec>, NoMemory>
    ensures { IfOk result (λ copied. copied.items ≡ users.now) }
{
    let mut copied = Vec::new(alloc);
    for user in users {
        match copied.push(user.copy()) {
            Ok(()) => {}
            Err(_) => return Err(NoMemory),
        }
    }
    Ok(copied)
}

/// The files with these copies.
fn copied_files(
    alloc: Global,
    files: &FileTable,
    copies: &[(u64, TapeCopy)],
) -> Result<Vec<FileRec>, NoMemory>
    ensures { IfOk result (λ copied. copied.items ≡ map (copied_rec copies.now) files.now) }
{
    let mut copied = Vec::new(alloc);
    for file in files {
        match copied.push(with_tape(file, copies)) {
            Ok(()) => {}
            Err(_) => return Err(NoMemory),
        }
    }
    Ok(copied)
}

/// The file with its copy, if one is noted for its stamp.
fn with_tape(file: &FileRec, copies: &[(u64, TapeCopy)]) -> FileRec
    ensures { result ≡ copied_rec copies.now file.now }
{
    FileRec {
        tape: tape_of(copies, file.stamp, file.tape),
        ..file.copy()
    }
}

/// The first copy of this stamp, or the old copy if there is none.
fn tape_of(copies: &[(u64, TapeCopy)], stamp: u64, old: Option<TapeCopy>) -> Option<TapeCopy>
    ensures { result ≡ copy_of copies.now stamp old }
{
    for copy in copies {
        if copy.0 == stamp {
            return Some(copy.1);
        }
    }
    old
}
