//! The plain directory tree in memory, and its calls.
ghost use Rattle.std.specs.Prelude.{◌≡◌, ◌≤◌, ◌^◌, ◌<◌, ◌++◌, ◌&&◌, ◌==◌, true, false, not};
ghost use Rattle.std.specs.Prelude.{OnOk, OnErr, IfOk, is_none, length, unwrap_or, nat_le, codes};
ghost use Rattle.std.specs.Option.{option_copied};
ghost use Rattle.std.specs.FinMap as finmap;
ghost use Rattle.g_name.specs.Order.{same_text};
ghost use Rattle.g_plain.specs.PlainTree as tree;
ghost use Rattle.g_plain.specs.PlainStep as step;
ghost use Rattle.g_plain.specs.Rules.{IsTree, most_of};

use crate::file_entry::FileEntry;
use crate::file_map::FileMap;
use crate::user_entry::UserEntry;
use g_base::{NoMemory, blocks_for};
use g_name::{Full, Path, Text, User};
use g_plain::{BudgetKind, Listing, named};
use g_trap::{Mode, Modes};
use std::alloc::Global;
use std::collections::BTreeMap;
use std::marker::Model;

/// Users, files and the next stamp. Contracts see a tree. The calls rely on the rules of a tree.
#[derive(Drop)]
pub(crate) struct PlainTree {
    users: BTreeMap<User, UserEntry>,
    files: FileMap,
    next: u64,
}

impl Model for PlainTree {
    ghost use Rattle.std.specs.FinMap.{from_entries};
    ghost use Rattle.g_plain.specs.PlainTree.{Tree};
    ghost use Rattle.g_plain.specs.Codes.{tree_code};

    ghost Value = { Tree };

    ghost coded = { tree_code };

    ghost view = { λ t.
        record { users = from_entries t.users.entries; files = t.files; next = t.next } };
}

impl PlainTree {
    /// The tree of a new filestore.
    pub fn formatted(alloc: Global) -> Result<PlainTree, NoMemory>
        ensures { IfOk result (λ t. t ≡ tree.formatted) }
    {
        let mut first = PlainTree::empty(alloc);
        first.add_user(User::master(), first_entry())?;
        first.add_user(User::macros(), first_entry())?;
        Ok(first)
    }

    /// A tree without users and files. It allocates nothing.
    fn empty(alloc: Global) -> PlainTree
        ensures { result ≡ record { users = finmap.empty; files = finmap.empty; next = 1 } }
    {
        PlainTree {
            users: BTreeMap::new(alloc),
            files: FileMap::new(alloc),
            next: 1,
        }
    }

    pub fn has_user(&self, user: &User) -> bool
        ensures { result ≡ tree.has_user self.now user.now }
    {
        self.users.contains_key(user)
    }

    fn user(&self, user: &User) -> Option<&UserEntry>
        ensures { option_copied result ≡ finmap.get self.now.users user.now }
    {
        self.users.get(user)
    }

    /// Whether the caller set the budgets of this user.
    pub fn is_superior(&self, who: &User, user: &User) -> bool
        requires { tree.has_user self.now user.now ≡ true }
        ensures { result ≡ same_text (tree.user_row self.now user.now).superior who.now }
    {
        match self.user(user) {
            Some(entry) => entry.superior == *who,
            None => unreachable!(),
        }
    }

    pub fn space_of(&self, user: &User) -> u32
        requires { tree.has_user self.now user.now ≡ true }
        ensures { result ≡ (tree.user_row self.now user.now).space }
    {
        match self.user(user) {
            Some(entry) => entry.space,
            None => unreachable!(),
        }
    }

    pub fn has_file(&self, full: &Full) -> bool
        ensures { result ≡ tree.has_file self.now full.now }
    {
        self.files.has(full)
    }

    /// The greatest existing generation of what a path names, or 0.
    pub fn newest(&self, who: &User, path: &Path) -> u16
        requires { IsTree self.now }
        ensures newest { result ≡ tree.newest self.now who.now path.now }
        ensures few { result ≤ 4095 }
    {
        self.files.newest(&named(who, path, 0))
    }

    pub fn input_name(&self, who: &User, path: &Path) -> Full
        requires { IsTree self.now }
        ensures { result ≡ tree.input_name self.now who.now path.now }
    {
        let newest = self.newest(who, path);
        named(who, path, path.generation.unwrap_or(newest))
    }

    pub fn output_name(&self, who: &User, path: &Path) -> Full
        requires { IsTree self.now }
        ensures { result ≡ tree.output_name self.now who.now path.now }
    {
        let newest = self.newest(who, path);
        named(who, path, path.generation.unwrap_or(newest + 1))
    }

    /// The modes that the traps of a file give to a user.
    pub fn given_modes(&self, full: &Full, user: &User) -> Modes
        requires { tree.has_file self.now full.now ≡ true }
        ensures { let traps = (tree.file_row self.now full.now).traps in
            result ≡ unwrap_or (finmap.get traps user.now) 0 }
    {
        match self.files.get(full) {
            Some(file) => file.given(user),
            None => unreachable!(),
        }
    }

    /// Whether giving these modes to a user would trap a ninth user besides the file's owner.
    pub fn is_ninth(&self, full: &Full, user: &User, modes: Modes) -> bool
        requires { tree.has_file self.now full.now ≡ true }
        ensures { let traps = (tree.file_row self.now full.now).traps in
            result ≡ (not (modes == 0) && is_none (finmap.get traps user.now)
            && nat_le 9 (finmap.len traps)) }
    {
        match self.files.get(full) {
            Some(file) => !modes.is_empty() && !file.is_trapped(user) && file.trapped() >= 9,
            None => unreachable!(),
        }
    }

    /// The modes that a user has for a file.
    pub fn modes_of(&self, full: &Full, user: &User) -> Modes
        requires { tree.has_file self.now full.now ≡ true }
        ensures { result ≡ tree.modes_of (tree.file_row self.now full.now) full.now user.now }
    {
        let given = self.given_modes(full, user);
        if full.user == User::macros() {
            given.union(Modes::only(Mode::Execute))
        } else {
            given
        }
    }

    /// The length of a file in bytes; 0 if it doesn't exist.
    pub fn len_of(&self, full: &Full) -> u32
        ensures value { result ≡ length (tree.file_row self.now full.now).bytes }
        ensures few { result ≤ 65536 }
    {
        match self.files.get(full) {
            Some(file) => file.len(),
            None => 0,
        }
    }

    /// The number of blocks that the owner has left for a file of this name.
    pub fn space_left(&self, full: &Full) -> u32
        requires tree { IsTree self.now }
        requires owner { tree.has_user self.now full.now.user ≡ true }
        ensures { result ≡ step.space_left self.now full.now }
    {
        let others = self
            .files
            .used(&full.user)
            .saturating_sub(blocks_for(self.len_of(full)));
        self.space_of(&full.user).saturating_sub(others)
    }

    pub fn users(&self) -> usize
        ensures { result ≡ finmap.len self.now.users }
    {
        self.users.len()
    }

    pub fn files(&self) -> usize
        ensures { result ≡ finmap.len self.now.files }
    {
        self.files.len()
    }

    /// Whether no stamp is left for a new version.
    pub fn stamps_spent(&self) -> bool
        ensures { result ≡ nat_le (2 ^ 62) self.now.next }
    {
        self.next >= 4611686018427387904
    }

    /// A new text with the bytes of a file, followed by more.
    pub fn bytes_with(&self, alloc: Global, full: &Full, more: &[u8]) -> Result<Text, NoMemory>
        requires { tree.has_file self.now full.now ≡ true }
        ensures { IfOk result (λ text. text ≡ (tree.file_row self.now full.now).bytes ++ more.now) }
    {
        match self.files.get(full) {
            Some(file) => {
                let mut text = Text::from_slice(alloc, file.bytes())?;
                text.extend(more)?;
                Ok(text)
            }
            None => unreachable!(),
        }
    }

    /// The files of a user with their lengths, in full-name order.
    pub fn listing(&self, alloc: Global, user: &User) -> Result<Listing, NoMemory>
        ensures { let es = finmap.entries self.now.files in
            IfOk result (λ listing. listing ≡ tree.lengths user.now es) }
    {
        self.files.listing(alloc, user)
    }

    /// Sets a user's row. If memory runs out, the tree is unchanged.
    pub fn add_user(&mut self, user: User, entry: UserEntry) -> Result<(), NoMemory>
        ensures ok { OnOk result
            (self.new ≡ record self.old { users = finmap.insert self.old.users user entry }) }
        ensures err { OnErr result (self.new ≡ self.old) }
    {
        self.users.insert(user, entry)?;
        Ok(())
    }

    /// Sets one budget of an existing user.
    pub fn set_budget(&mut self, user: &User, kind: BudgetKind, amount: u64)
        requires there { tree.has_user self.old user.now ≡ true }
        requires limit { amount ≤ most_of kind }
        ensures { let row = step.with_budget (tree.user_row self.old user.now) kind amount in
            self.new ≡ record self.old { users = finmap.insert self.old.users user.now row } }
    {
        match self.users.get_mut(user) {
            Some(entry) => entry.set(kind, amount),
            None => unreachable!(),
        }
    }

    /// Writes a new version of a file, or a new file. If memory runs out, the tree is unchanged.
    pub fn put_version(&mut self, alloc: Global, full: Full, bytes: Text) -> Result<(), NoMemory>
        requires few { length bytes ≤ 65536 }
        requires stamps { self.old.next < 2 ^ 62 }
        ensures ok { OnOk result (self.new ≡ step.with_version self.old full bytes) }
        ensures err { OnErr result (self.new ≡ self.old) }
    {
        if self.files.has(&full) {
            self.files.renew(&full, bytes, self.next);
        } else {
            let mut file = FileEntry::new(alloc, bytes, self.next);
            file.give(full.user.copy(), Modes::all())?;
            self.files.insert(full, file)?;
        }
        self.next += 1;
        Ok(())
    }

    pub fn erase(&mut self, full: &Full)
        ensures { self.new ≡ record self.old { files = finmap.remove self.old.files full.now } }
    {
        self.files.remove(full);
    }

    /// Gives a file a name that no file has. If memory runs out, the tree is unchanged.
    pub fn rename(&mut self, alloc: Global, full: &Full, to: Full) -> Result<(), NoMemory>
        requires there { tree.has_file self.old full.now ≡ true }
        requires free { tree.has_file self.old to ≡ false }
        ensures ok { let others = finmap.remove self.old.files full.now in
            let files = finmap.insert others to (tree.file_row self.old full.now) in
            OnOk result (self.new ≡ record self.old { files = files }) }
        ensures err { OnErr result (self.new ≡ self.old) }
    {
        self.files.rename(alloc, full, to)
    }

    /// Gives a user exactly these modes for a file. If memory runs out, the tree is unchanged.
    pub fn set_traps(&mut self, full: &Full, user: &User, modes: Modes) -> Result<(), NoMemory>
        requires { tree.has_file self.old full.now ≡ true }
        ensures ok { OnOk result (self.new ≡ step.with_traps self.old full.now user.now modes) }
        ensures err { OnErr result (self.new ≡ self.old) }
    {
        self.files.set_traps(full, user, modes)
    }
}

/// The budgets of the first two users.
fn first_entry() -> UserEntry
    ensures { result
        ≡ record { superior = codes "MASTER"; space = 65535; time = 1000000; money = 1000000 } }
{
    UserEntry {
        superior: User::master(),
        space: 65535,
        time: 1000000,
        money: 1000000,
    }
}
