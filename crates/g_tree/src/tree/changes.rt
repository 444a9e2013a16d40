//! Trees from records, and how records change.
ghost use Rattle.std.specs.Prelude.{◌≡◌, ◌⊎◌, ℕ, ◌+◌, ◌<◌, ◌≤◌, true, List, [], ◌∷◌, ◌++◌, OnOk, OnErr, IfOk, IfSome, IfNone, Some, None, length, slice_set, is_some};
ghost use Rattle.std.specs.FinMap as finmap;
ghost use Rattle.g_table.specs.Files.{rec_at};
ghost use Rattle.g_tree.specs.Records.{IsRecords, name_of, name_of_file, full_of, user_row_of, file_row_of, tree_of, by_number, number_of};
ghost use Rattle.g_tree.specs.State.{AreIndexed, AreNewest, AreUsed, IsTopped, room_of, with_file, without_file, without_number};

use crate::counts::{Counts, Standing};
use crate::scan::{full_of, has_same_name};
use crate::tree::Tree;
use g_base::NoMemory;
use g_entry::{BoxedRec, FileRec, UserRec};
use g_name::{Full, Lang, Local};
use g_table::FileTable;
use g_trap::Traps;
use std::alloc::Global;

impl Tree {
    /// The tree of these records.
    pub fn from_records(
        alloc: Global,
        users: Vec<UserRec>,
        files: Vec<FileRec>,
    ) -> Result<Tree, NoMemory>
        requires { IsRecords users.items files.items }
        ensures users { IfOk result (λ t. t.users ≡ users.items) }
        ensures files { IfOk result (λ t. t.files ≡ files.items) }
    {
        let counts = counts_of(alloc, users.as_slice(), files.as_slice())?;
        let files = FileTable::of(alloc, files.as_slice())?;
        Ok(Tree {
            users,
            files,
            counts,
            room: None,
            alloc,
        })
    }

    /// Reserves memory for one more user and one more file. If memory runs out, nothing changes, except that more
    /// memory may be reserved.
    pub fn reserve(&mut self) -> Result<(), NoMemory>
        ensures users { self.new.users ≡ self.old.users }
        ensures files { self.new.files ≡ self.old.files }
        ensures ok { OnOk result (1 ≤ self.new.spare) }
        ensures spare { self.old.spare ≤ self.new.spare }
    {
        self.users.reserve(1)?;
        self.counts.reserve(1)?;
        make_room(self.alloc, &mut self.room)
    }

    /// Appends a user, whose number is the least unused one.
    pub fn add_user(&mut self, user: UserRec)
        requires room { 1 ≤ self.old.spare }
        requires rules { IsRecords (self.old.users ++ user ∷ []) self.old.files }
        ensures users { self.new.users ≡ self.old.users ++ user ∷ [] }
        ensures files { self.new.files ≡ self.old.files }
        ensures spare { self.old.spare ≤ self.new.spare + 1 }
        ensures tree { (bytes : FileRec → List ℕ) (next : ℕ)
            → let t = tree_of self.old.users self.old.files bytes next in
            tree_of self.new.users self.new.files bytes next
            ≡ record t {
              users = finmap.insert t.users user.user
                  (user_row_of self.old.users user);
            } }
    {
        if self.users.push(user).is_err() {
            unreachable!()
        }
    }

    /// Replaces the user of the same number, who has the same name.
    pub fn set_user(&mut self, user: UserRec)
        requires there { user.number < length self.old.users }
        requires name { name_of self.old.users user.number ≡ user.user }
        requires rules { IsRecords (slice_set self.old.users user.number user) self.old.files }
        ensures users { self.new.users ≡ slice_set self.old.users user.number user }
        ensures files { self.new.files ≡ self.old.files }
        ensures spare { self.new.spare ≡ self.old.spare }
        ensures tree { (bytes : FileRec → List ℕ) (next : ℕ)
            → let t = tree_of self.old.users self.old.files bytes next in
            tree_of self.new.users self.new.files bytes next
            ≡ record t {
              users = finmap.insert t.users user.user
                  (user_row_of self.old.users user);
            } }
    {
        let place = user.number as usize;
        self.users[place] = user;
    }

    /// Stores a file at the place of its number, where there may already be one. No other file moves.
    pub fn put(&mut self, file: FileRec)
        requires room { (1 ≤ self.old.spare) ⊎
            (number_of self.old.users self.old.files (full_of self.old.users file)
            ≡ Some file.number) }
        requires rules { IsRecords self.old.users (with_file file self.old.files) }
        ensures users { self.new.users ≡ self.old.users }
        ensures files { self.new.files ≡ with_file file self.old.files }
        ensures spare { self.old.spare ≤ self.new.spare + 1 }
        ensures same_name { number_of self.old.users self.old.files (full_of self.old.users file)
            ≡ Some file.number → self.new.spare ≡ self.old.spare }
        ensures tree { (bytes : FileRec → List ℕ) (next : ℕ)
            → let t = tree_of self.old.users self.old.files bytes next in
            tree_of self.new.users self.new.files bytes next
            ≡ record t {
              files = finmap.insert
                  (without_number self.old.users self.old.files file.number t.files)
                  (full_of self.old.users file) (file_row_of self.old.users bytes file);
            } }
    {
        match self.files.get(file.number) {
            Some(_) => self.replace(file),
            None => {
                self.counts.put(self.users.as_slice(), &file);
                self.counts.take(file.owner, file.len);
                put_new(&mut self.files, &mut self.room, file);
            }
        }
    }

    /// Replaces the file of the same number, for any full name.
    fn replace(&mut self, file: FileRec)
        requires there { is_some (rec_at self.old.files file.number) ≡ true }
        requires room { (1 ≤ self.old.spare) ⊎
            (number_of self.old.users self.old.files (full_of self.old.users file)
            ≡ Some file.number) }
        requires rules { IsRecords self.old.users (with_file file self.old.files) }
        ensures users { self.new.users ≡ self.old.users }
        ensures files { self.new.files ≡ with_file file self.old.files }
        ensures spare { self.old.spare ≤ self.new.spare + 1 }
        ensures same_name { number_of self.old.users self.old.files (full_of self.old.users file)
            ≡ Some file.number → self.new.spare ≡ self.old.spare }
    {
        let Some(old) = self.files.get(file.number) else {
            unreachable!()
        };
        if has_same_name(old, &file) {
            self.renew(file);
        } else {
            let was = full_of(self.users.as_slice(), old);
            self.rename(was, file);
        }
    }

    /// Replaces the file of the same number, which has the same full name.
    fn renew(&mut self, file: FileRec)
        requires name { name_of_file self.old.users self.old.files file.number
            ≡ Some (full_of self.old.users file) }
        requires rules { IsRecords self.old.users (with_file file self.old.files) }
        ensures users { self.new.users ≡ self.old.users }
        ensures files { self.new.files ≡ with_file file self.old.files }
        ensures spare { self.new.spare ≡ self.old.spare }
    {
        let Some(old) = self.files.get(file.number) else {
            unreachable!()
        };
        self.counts.give(old.owner, old.len);
        self.counts.take(file.owner, file.len);
        self.files.set(file);
    }

    /// Replaces the file of the same number, which has a different full name.
    fn rename(&mut self, old: Full, file: FileRec)
        requires was { name_of_file self.old.users self.old.files file.number ≡ Some old }
        requires room { 1 ≤ self.old.spare }
        requires rules { IsRecords self.old.users (with_file file self.old.files) }
        ensures users { self.new.users ≡ self.old.users }
        ensures files { self.new.files ≡ with_file file self.old.files }
        ensures spare { self.old.spare ≤ self.new.spare + 1 }
    {
        let at = Standing {
            users: self.users.as_slice(),
            files: &self.files,
            number: file.number,
        };
        self.counts.take_out(at, old);
        let Some(was) = self.files.get(file.number) else {
            unreachable!()
        };
        self.counts.put(self.users.as_slice(), &file);
        self.counts.give(was.owner, was.len);
        self.counts.take(file.owner, file.len);
        self.files.set(file);
    }

    /// Removes the file of this number.
    pub fn erase(&mut self, number: u16)
        requires { is_some (finmap.get (by_number self.old.files) number) ≡ true }
        ensures users { self.new.users ≡ self.old.users }
        ensures files { self.new.files ≡ without_file number self.old.files }
        ensures records { IsRecords self.new.users self.new.files }
        ensures spare { self.old.spare ≤ self.new.spare }
        ensures tree { (bytes : FileRec → List ℕ) (next : ℕ)
            → let t = tree_of self.old.users self.old.files bytes next in
            tree_of self.new.users self.new.files bytes next
            ≡ record t { files = without_number self.old.users self.old.files number t.files } }
    {
        let Some(file) = self.files.get(number) else {
            unreachable!()
        };
        let full = full_of(self.users.as_slice(), file);
        let at = Standing {
            users: self.users.as_slice(),
            files: &self.files,
            number,
        };
        self.counts.take_out(at, full);
        let Some(boxed) = self.files.take(number) else {
            unreachable!()
        };
        let file = boxed.get();
        self.counts.give(file.owner, file.len);
        keep_room(&mut self.room, boxed);
    }

    /// The least unused number of a file, if there is one below 1,024.
    pub fn free_file(&self) -> Option<u16>
        ensures unused { IfSome result (λ number. (number < 1024)
            × (finmap.get (by_number self.now.files) number ≡ None)) }
        ensures least { IfSome result (λ number. (lower : ℕ) → lower < number
            → is_some (finmap.get (by_number self.now.files) lower) ≡ true) }
        ensures none { IfNone result (length self.now.files ≡ 1024) }
    {
        self.files.free()
    }
}

/// Reserves a box for one more file, if none is reserved. If memory runs out, nothing changes.
fn make_room(alloc: Global, room: &mut Option<BoxedRec>) -> Result<(), NoMemory>
    ensures ok { OnOk result (1 ≤ room_of room.new) }
    ensures kept { room_of room.old ≤ room_of room.new }
{
    if room.is_some() {
        return Ok(());
    }
    *room = Some(BoxedRec::new(alloc, no_file())?);
    Ok(())
}

/// Keeps the box for the next file.
fn keep_room(room: &mut Option<BoxedRec>, boxed: BoxedRec)
    ensures { room_of room.old ≤ room_of room.new }
{
    *room = Some(boxed);
}

/// The content of a box that has no file yet.
fn no_file() -> FileRec {
    let Some(local) = Local::new(b"F") else {
        unreachable!()
    };
    FileRec {
        number: 0,
        owner: 0,
        local,
        generation: 1,
        lang: Lang::spaces(),
        stamp: 0,
        len: 0,
        traps: Traps::fresh(),
        tape: None,
    }
}

/// Stores a file, whose number is below 1,024, at its place, in the reserved box.
fn put_new(files: &mut FileTable, room: &mut Option<BoxedRec>, file: FileRec)
    requires number { file.number < 1024 }
    requires room { 1 ≤ room_of room.old }
    ensures { files.new ≡ with_file file files.old }
{
    let Some(mut boxed) = room.take() else {
        unreachable!()
    };
    boxed.set(file);
    files.put(boxed);
}

/// The data derived from these files, with memory reserved for their names.
fn counts_of(alloc: Global, users: &[UserRec], files: &[FileRec]) -> Result<Counts, NoMemory>
    requires { IsRecords users.now files.now }
    ensures index { IfOk result (λ c. AreIndexed users.now files.now c.names.entries) }
    ensures newest { IfOk result (λ c. AreNewest users.now files.now c.names.entries) }
    ensures topped { IfOk result (λ c. IsTopped c.names.entries) }
    ensures used { IfOk result (λ c. AreUsed files.now c.blocks.items) }
{
    let mut counts = Counts::new(alloc)?;
    counts.reserve(files.len())?;
    for file in files {
        counts.put(users, file);
        counts.take(file.owner, file.len);
    }
    Ok(counts)
}
