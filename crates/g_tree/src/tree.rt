//! The users and files of a filestore, and queries about them.
ghost use Rattle.std.specs.Prelude.{◌≡◌, ℕ, ◌≤◌, ◌*◌, List, IfOk, IfSome, IfNone, is_some, slice_get, []};
ghost use Rattle.std.specs.Option.{option_copied};
ghost use Rattle.std.specs.FinMap as finmap;
ghost use Rattle.g_plain.specs.PlainTree as tree;
ghost use Rattle.g_tree.specs.Records.{IsRecords, ForTree, HasLengths, name_of, name_of_file, tree_of, users_by_name, by_number, number_of};
ghost use Rattle.g_tree.specs.State.{first_user, first_users};
ghost use Rattle.g_tree.specs.Answers.{IsOutput, IsFileOrNew, newest_of, listed};

mod changes;
mod rights;

use crate::counts::{Counts, versions_of};
use crate::index::Newest;
use crate::sorted::listing_of;
use crate::{NumberList, Output};
use g_base::NoMemory;
use g_entry::{BoxedRec, FileRec, UserRec};
use g_name::{Full, Lang, Path, User};
use g_table::FileTable;
use std::alloc::Global;
use std::marker::Model;

/// Users in order of number, at most 63, and files by number, at most 1,024. A user's number is its position; the first
/// two are `MASTER` and `MACROS`. Contracts see the records, and how many more users and files can be added without
/// allocating. The rules of records are those of docs/FORMATS.md.
#[derive(Drop)]
pub struct Tree {
    users: Vec<UserRec>,
    files: FileTable,
    counts: Counts,

    // A box for the next file, so that adding it doesn't allocate.
    room: Option<BoxedRec>,
    alloc: Global,
}

impl Model for Tree {
    ghost use Rattle.std.specs.Prelude.{◌-◌, min, vec_len};
    ghost use Rattle.std.specs.Vec.{vec_capacity};
    ghost use Rattle.g_tree.specs.State.{TreeState, IsKept, room_of};

    ghost Value = { TreeState };

    ghost view = { λ t. record {
      users = t.users.items;
      files = t.files;
      spare = min (vec_capacity t.users - vec_len t.users)
          (min (t.counts.names.spare - 1) (room_of t.room));
    } };

    ghost invariant = { λ t. IsKept t.users.items t.files t.counts.names.entries
        t.counts.blocks.items };
}

impl Tree {
    /// The users of a new filestore, and no files.
    pub fn new(alloc: Global) -> Result<Tree, NoMemory>
        ensures users { IfOk result (λ t. t.users ≡ first_users) }
        ensures files { IfOk result (λ t. t.files ≡ []) }
        ensures tree { IfOk result (λ t. (bytes : FileRec → List ℕ)
            → tree_of t.users t.files bytes 1 ≡ tree.formatted) }
    {
        let mut users = Vec::new(alloc);
        users.push(first_user(0, User::master()))?;
        users.push(first_user(1, User::macros()))?;
        Tree::from_records(alloc, users, Vec::new(alloc))
    }

    /// The record of the user of this name.
    pub fn user(&self, name: &User) -> Option<UserRec>
        ensures value { result ≡ finmap.get (users_by_name self.now.users) name.now }
        ensures there { ForTree self.now.users self.now.files
            (λ t. is_some result ≡ tree.has_user t name.now) }
        ensures records { IsRecords self.now.users self.now.files }
    {
        match self.find_user(name) {
            Some(user) => Some(user.copy()),
            None => None,
        }
    }

    /// The record of the user of this name, by reference.
    pub(crate) fn find_user(&self, name: &User) -> Option<&UserRec>
        ensures value { option_copied result ≡ finmap.get (users_by_name self.now.users) name.now }
        ensures there { ForTree self.now.users self.now.files
            (λ t. is_some result ≡ tree.has_user t name.now) }
        ensures records { IsRecords self.now.users self.now.files }
    {
        for user in &self.users {
            if user.user == *name {
                return Some(user);
            }
        }
        None
    }

    /// The record of the user of this number.
    pub fn user_at(&self, number: u8) -> Option<UserRec>
        ensures value { result ≡ slice_get self.now.users number }
        ensures records { IsRecords self.now.users self.now.files }
    {
        match self.users.get(number as usize) {
            Some(user) => Some(user.copy()),
            None => None,
        }
    }

    /// The record of the file of this number.
    pub fn file_at(&self, number: u16) -> Option<&FileRec>
        ensures value { option_copied result ≡ finmap.get (by_number self.now.files) number }
        ensures records { IsRecords self.now.users self.now.files }
    {
        self.files.get(number)
    }

    /// All users in order of number.
    pub fn users(&self) -> &[UserRec]
        ensures value { result.now ≡ self.now.users }
        ensures records { IsRecords self.now.users self.now.files }
    {
        self.users.as_slice()
    }

    /// All files in order of number.
    pub fn files(&self) -> &FileTable
        ensures value { result.now ≡ self.now.files }
        ensures records { IsRecords self.now.users self.now.files }
    {
        &self.files
    }

    /// The number of the file that a path names for input. An absent user means the owner of this number. `None` also
    /// if there is no such user.
    pub fn find(&self, owner: u8, path: &Path) -> Option<u16>
        ensures number { ForTree self.now.users self.now.files
            (λ t. result ≡ number_of self.now.users self.now.files
            (tree.input_name t (name_of self.now.users owner) path.now)) }
        ensures there { ForTree self.now.users self.now.files
            (λ t. is_some result ≡ tree.has_file t
            (tree.input_name t (name_of self.now.users owner) path.now)) }
    {
        match self.input_name(owner, path) {
            Some(full) => self.number_of(&full),
            None => None,
        }
    }

    /// The number of the file of this full name, found by one look-up.
    pub fn number_of(&self, full: &Full) -> Option<u16>
        ensures number { result ≡ number_of self.now.users self.now.files full.now }
        ensures named { IfSome result (λ number. name_of_file self.now.users self.now.files number
            ≡ Some full.now) }
        ensures there { ForTree self.now.users self.now.files
            (λ t. is_some result ≡ tree.has_file t full.now) }
        ensures records { IsRecords self.now.users self.now.files }
    {
        self.counts.find(full)
    }

    /// The file that a path names for output. An absent user means the owner of this number. If there is no such user,
    /// there is no such file, so it is a new one with generation 1 or the given one.
    pub fn output(&self, owner: u8, path: &Path) -> Output
        ensures { ForTree self.now.users self.now.files
            (λ t. IsOutput self.now.users self.now.files
            (name_of self.now.users owner) path.now t result) }
    {
        let Some(full) = self.named(owner, path) else {
            let generation = path.generation.unwrap_or(1);
            return Output::Fresh { generation };
        };
        match path.generation {
            Some(generation) => self.output_of(Full { generation, ..full }),
            None => {
                let newest = self.newest_by(&full);
                if newest == 4095 {
                    return Output::NoGeneration;
                }
                self.output_of(Full {
                    generation: newest + 1,
                    ..full
                })
            }
        }
    }

    /// The number of blocks of 512 bytes of the files of the owner of this number.
    pub fn used(&self, owner: u8) -> u32
        ensures used { (bytes : FileRec → List ℕ) (next : ℕ) → HasLengths self.now.files bytes
            → result ≡ tree.used_blocks (tree_of self.now.users self.now.files bytes next)
            (name_of self.now.users owner) }
        ensures few { result ≤ 131072 }
    {
        self.counts.used(owner)
    }

    /// The numbers of the files of the owner of this number, in full-name order.
    pub fn listing(&self, alloc: Global, owner: u8) -> Result<NumberList, NoMemory>
        ensures { IfOk result (λ list. ForTree self.now.users self.now.files
            (λ t. list ≡ listed self.now.users self.now.files (name_of self.now.users owner) t)) }
    {
        listing_of(alloc, owner, &self.files)
    }

    /// The user whom a path names, or the owner of this number. `None` if the path names no user and no user has this
    /// number.
    fn user_of(&self, owner: u8, path: &Path) -> Option<User>
        ensures some { IfSome result (λ user. user
            ≡ tree.owner_of (name_of self.now.users owner) path.now) }
        ensures none { IfNone result (tree.owner_of (name_of self.now.users owner) path.now ≡ []) }
        ensures records { IsRecords self.now.users self.now.files }
    {
        let users = self.users();
        match &path.user {
            Some(name) => Some(name.copy()),
            None => match users.get(owner as usize) {
                Some(user) => Some(user.user.copy()),
                None => None,
            },
        }
    }

    /// The full name of a path with generation 1, under which all versions are found.
    fn named(&self, owner: u8, path: &Path) -> Option<Full>
        ensures some { IfSome result (λ full. full
            ≡ tree.named (name_of self.now.users owner) path.now 1) }
        ensures none { IfNone result (tree.owner_of (name_of self.now.users owner) path.now ≡ []) }
        ensures records { IsRecords self.now.users self.now.files }
    {
        let Some(user) = self.user_of(owner, path) else {
            return None;
        };
        let lang = match &path.lang {
            Some(lang) => lang.copy(),
            None => Lang::spaces(),
        };
        Some(Full {
            user,
            local: path.local.copy(),
            generation: 1,
            lang,
        })
    }

    /// The full name of a path for input.
    fn input_name(&self, owner: u8, path: &Path) -> Option<Full>
        ensures some { IfSome result (λ full. ForTree self.now.users self.now.files
            (λ t. full ≡ tree.input_name t (name_of self.now.users owner) path.now)) }
        ensures none { IfNone result (tree.owner_of (name_of self.now.users owner) path.now ≡ []) }
        ensures records { IsRecords self.now.users self.now.files }
    {
        let Some(full) = self.named(owner, path) else {
            return None;
        };
        match path.generation {
            Some(generation) => Some(Full { generation, ..full }),
            None => {
                let generation = self.newest_by(&full);
                Some(Full { generation, ..full })
            }
        }
    }

    /// The file of this full name, or a new one.
    fn output_of(&self, full: Full) -> Output
        ensures { IsFileOrNew self.now.users self.now.files full result }
    {
        match self.number_of(&full) {
            Some(number) => Output::Replace(number),
            None => Output::Fresh {
                generation: full.generation,
            },
        }
    }

    /// The greatest generation of the files with this user, local name and language, or 0.
    pub fn newest(&self, name: &Full) -> u16
        ensures newest { result ≡ newest_of self.now.users name.now self.now.files }
        ensures few { result ≤ 4095 }
        ensures records { IsRecords self.now.users self.now.files }
    {
        self.newest_by(&versions_of(name))
    }

    /// The greatest generation of the versions of the file whose generation 1 has this name, or 0.
    pub(crate) fn newest_by(&self, first: &Full) -> u16
        requires { first.now.generation ≡ 1 }
        ensures newest { result ≡ newest_of self.now.users first.now self.now.files }
        ensures few { result ≤ 4095 }
        ensures records { IsRecords self.now.users self.now.files }
    {
        self.newest_file(first).generation
    }

    /// The newest version of the file whose generation 1 has this name, found by one look-up.
    pub(crate) fn newest_file(&self, first: &Full) -> Newest
        requires { first.now.generation ≡ 1 }
        ensures newest { result.generation ≡ newest_of self.now.users first.now self.now.files }
        ensures number { result.number ≡ number_of self.now.users self.now.files
            (record first.now { generation = result.generation }) }
        ensures few { result.generation ≤ 4095 }
        ensures records { IsRecords self.now.users self.now.files }
    {
        self.counts.newest(first)
    }
}

/// A user of a new filestore.
fn first_user(number: u8, user: User) -> UserRec
    ensures { result ≡ first_user number user }
{
    UserRec {
        number,
        user,
        superior: 0,
        space: 65535,
        time: 1000000,
        money: 1000000,
    }
}
