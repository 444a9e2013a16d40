//! Decides whether a call is refused, from records: by their numbers, and independent of the bytes of files.
ghost use Rattle.std.specs.Prelude.{◌≡◌, ◌≤◌, ℕ, List, Some, length, is_some, IfOk, true};
ghost use Rattle.std.specs.Result.{result_err};
ghost use Rattle.g_name.specs.declared.full.Full.{Full};
ghost use Rattle.g_entry.specs.declared.file_rec.FileRec.{FileRec};
ghost use Rattle.g_plain.specs.Grants.{file_named, name_in, number_in};
ghost use Rattle.g_plain.specs.PlainTree.{file_row, has_file};
ghost use Rattle.g_plain.specs.PlainStep.{fault_of};
ghost use Rattle.g_tree.specs.Records.{ForTree, HasLengths, IsRecords, name_of_file, number_of, tree_of};
ghost use Rattle.g_tree.specs.AskedRecords.{IsGranted, zeros};

use crate::Tree;
use g_base::blocks_for;
use g_name::{Full, Path, User};
use g_plain::{
    CallName, GrantedName, NamedFile, Questions, StoreCall, StoreFault, granted_name, named,
};
use g_trap::Modes;

/// What a granted call gets: the file that its path names.
#[derive(Drop)]
pub enum Granted {
    /// The call names no file.
    Nothing,
    /// The number and the full name of the file that the path names for input, which exists.
    Input { number: u16, full: Full },
    /// The full name that the path of `Put` gives for output, and the number of the file with that name, if there is
    /// one.
    Output { number: Option<u16>, full: Full },
}

/// Records, and the stamp of the next version.
#[derive(Drop)]
struct Records<'a> {
    tree: &'a Tree,
    next: u64,
}

impl<'a> Records<'a> {
    /// The file with a full name, found by one look-up.
    fn find(&self, full: Full) -> NamedFile
        ensures named { let s = self.now.tree.now in
            result ≡ file_named (number_of s.users s.files) full }
        ensures there { let s = self.now.tree.now in
            is_some result.number
            ≡ has_file (tree_of s.users s.files zeros self.now.next) result.full }
        ensures records { IsRecords self.now.tree.now.users self.now.tree.now.files }
    {
        let number = self.tree.number_of(&full);
        NamedFile { full, number }
    }

    /// The number of an existing file.
    fn number(&self, file: &NamedFile) -> u16
        requires there { let s = self.now.tree.now in
            has_file (tree_of s.users s.files zeros self.now.next) file.now.full ≡ true }
        requires numbered { let s = self.now.tree.now in
            file.now.number ≡ number_of s.users s.files file.now.full }
        ensures { let s = self.now.tree.now in
            name_of_file s.users s.files result ≡ Some file.now.full }
    {
        // This call makes the rules of the records known.
        let _users = self.tree.users();
        match file.number {
            Some(number) => number,
            None => unreachable!(),
        }
    }

    /// The length of a file in bytes; 0 if there is none.
    fn len(&self, file: &NamedFile) -> u32
        requires { let s = self.now.tree.now in
            file.now.number ≡ number_of s.users s.files file.now.full }
        ensures len { let s = self.now.tree.now in
            let t = tree_of s.users s.files zeros self.now.next in
            result ≡ length (file_row t file.now.full).bytes }
        ensures few { result ≤ 65536 }
    {
        // This call makes the rules of the records known.
        let _users = self.tree.users();
        match file.number {
            Some(number) => self.tree.len_of(number),
            None => 0,
        }
    }
}

impl<'a> Questions for Records<'a> {
    ghost use Rattle.g_tree.specs.Records.{number_of, tree_of};
    ghost use Rattle.g_tree.specs.AskedRecords.{zeros};

    ghost tree = { λ s. tree_of s.tree.now.users s.tree.now.files zeros s.next };

    ghost numbers = { λ s. number_of s.tree.now.users s.tree.now.files };

    fn has_user(&self, user: &User) -> bool {
        self.tree.has_user(user)
    }

    fn is_superior(&self, who: &User, user: &User) -> bool {
        let Some(who) = self.tree.user_number(who) else {
            unreachable!()
        };
        let Some(user) = self.tree.user_number(user) else {
            unreachable!()
        };
        self.tree.is_superior(who, user)
    }

    fn users(&self) -> usize {
        self.tree.users().len()
    }

    fn has_file(&self, full: &Full) -> bool {
        self.tree.number_of(full).is_some()
    }

    fn files(&self) -> usize {
        self.tree.files().len()
    }

    fn input(&self, who: &User, path: &Path) -> NamedFile {
        match path.generation {
            Some(generation) => self.find(named(who, path, generation)),
            None => {
                let full = named(who, path, 1);
                let newest = self.tree.newest_file(&full);
                NamedFile {
                    full: Full {
                        generation: newest.generation,
                        ..full
                    },
                    number: newest.number,
                }
            }
        }
    }

    fn output(&self, who: &User, path: &Path) -> NamedFile {
        match path.generation {
            Some(generation) => self.find(named(who, path, generation)),
            None => {
                let full = named(who, path, 1);
                let newest = self.tree.newest_by(&full);
                // No version after the newest exists.
                NamedFile {
                    full: Full {
                        generation: newest + 1,
                        ..full
                    },
                    number: None,
                }
            }
        }
    }

    fn len_of(&self, file: &NamedFile) -> u32 {
        self.len(file)
    }

    fn space_left(&self, file: &NamedFile) -> u32 {
        let Some(owner) = self.tree.find_user(&file.full.user) else {
            unreachable!()
        };
        let used = self.tree.used(owner.number);
        let others = used.saturating_sub(blocks_for(self.len(file)));
        owner.space.saturating_sub(others)
    }

    fn modes_of(&self, file: &NamedFile, user: &User) -> Modes {
        let Some(user) = self.tree.user_number(user) else {
            unreachable!()
        };
        self.tree.modes_of(self.number(file), user)
    }

    fn is_ninth(&self, file: &NamedFile, user: &User, modes: Modes) -> bool {
        let Some(user) = self.tree.user_number(user) else {
            unreachable!()
        };
        self.tree.is_ninth(self.number(file), user, modes)
    }

    fn stamps_spent(&self) -> bool {
        self.next >= 4611686018427387904
    }
}

/// What a call is granted, or why it is refused: the fault of the plain step on the tree that the records represent,
/// for any bytes of these lengths. `next` is the stamp of the next version. The path is looked up once, by the plain
/// step's rules for input and output.
pub fn refusal_of(
    tree: &Tree,
    next: u64,
    who: &User,
    call: &StoreCall,
) -> Result<Granted, StoreFault>
    ensures refused { (bytes : FileRec → List ℕ) → HasLengths tree.now.files bytes
        → result_err result
        ≡ fault_of (tree_of tree.now.users tree.now.files bytes next) who.now call.now }
    ensures granted { IfOk result (λ granted. ForTree tree.now.users tree.now.files
        (λ t. IsGranted tree.now.users tree.now.files (name_in t who.now call.now) granted)) }
{
    // This call makes the rules of the records known.
    let _users = tree.users();
    match granted_name(&Records { tree, next }, who, call) {
        Ok(granted) => Ok(by_number(tree, granted)),
        Err(fault) => Err(fault),
    }
}

/// The file with the name that a call is granted, which exists for input.
fn by_number(tree: &Tree, granted: GrantedName) -> Granted
    requires numbered { granted.number
        ≡ number_in (number_of tree.now.users tree.now.files) granted.name }
    requires there { (full : Full) → granted.name ≡ CallName.Input full
        → ForTree tree.now.users tree.now.files (λ t. has_file t full ≡ true) }
    ensures { IsGranted tree.now.users tree.now.files granted.name result }
{
    let GrantedName { name, number } = granted;
    match name {
        CallName::Nothing => Granted::Nothing,
        CallName::Input(full) => match number {
            Some(number) => Granted::Input { number, full },
            None => unreachable!(),
        },
        CallName::Output(full) => Granted::Output { number, full },
    }
}
