//! Users and their rights, by number.
ghost use Rattle.std.specs.Prelude.{◌≡◌, ◌<◌, ◌≤◌, ◌==◌, ◌&&◌, not, nat_le, true, ℕ, List, IfSome, Some, length, is_some, is_none};
ghost use Rattle.std.specs.FinMap as finmap;
ghost use Rattle.g_name.specs.Order.{same_text};
ghost use Rattle.g_plain.specs.PlainTree as tree;
ghost use Rattle.g_entry.specs.declared.file_rec.FileRec.{FileRec};
ghost use Rattle.g_tree.specs.Records.{IsRecords, ForTree, ForFile, HasLengths, name_of, name_of_file, tree_of, user_number, by_number, number_of};

use crate::scan::full_of;
use crate::tree::Tree;
use g_name::{Full, User};
use g_trap::{Mode, Modes};

impl Tree {
    /// Whether there is a user of this name.
    pub fn has_user(&self, name: &User) -> bool
        ensures { ForTree self.now.users self.now.files (λ t. result ≡ tree.has_user t name.now) }
    {
        self.find_user(name).is_some()
    }

    /// The number of the user of this name.
    pub fn user_number(&self, name: &User) -> Option<u8>
        ensures number { result ≡ user_number self.now.users name.now }
        ensures named { IfSome result (λ number. (number < length self.now.users)
            × (name_of self.now.users number ≡ name.now)) }
        ensures there { ForTree self.now.users self.now.files
            (λ t. is_some result ≡ tree.has_user t name.now) }
    {
        match self.find_user(name) {
            Some(user) => Some(user.number),
            None => None,
        }
    }

    /// The full name of the file of this number.
    pub fn full_name(&self, number: u16) -> Option<Full>
        ensures name { result ≡ name_of_file self.now.users self.now.files number }
        ensures number { IfSome result (λ full. number_of self.now.users self.now.files full
            ≡ Some number) }
        ensures there { ForTree self.now.users self.now.files
            (λ t. IfSome result (λ full. tree.has_file t full ≡ true)) }
    {
        match self.file_at(number) {
            Some(file) => Some(full_of(self.users(), file)),
            None => None,
        }
    }

    /// The modes that the user of this number has for a file. All users may execute the files of `MACROS`.
    pub fn modes_of(&self, file: u16, user: u8) -> Modes
        requires { is_some (finmap.get (by_number self.now.files) file) ≡ true }
        ensures { ForFile self.now.users self.now.files file
            (λ row full. result ≡ tree.modes_of row full (name_of self.now.users user)) }
    {
        match self.file_at(file) {
            Some(file) => {
                let given = file.traps.modes_of(file.owner, user);
                if file.owner == 1 {
                    given.union(Modes::only(Mode::Execute))
                } else {
                    given
                }
            }
            None => unreachable!(),
        }
    }

    /// Whether the user of this number may use a file in this mode.
    pub fn is_allowed(&self, file: u16, user: u8, mode: Mode) -> bool
        requires { is_some (finmap.get (by_number self.now.files) file) ≡ true }
        ensures { ForFile self.now.users self.now.files file
            (λ row full. result ≡ tree.is_allowed row full (name_of self.now.users user) mode) }
    {
        self.modes_of(file, user).contains(mode)
    }

    /// Whether giving these modes to the user of this number would trap a ninth user besides the owner.
    pub fn is_ninth(&self, file: u16, user: u8, modes: Modes) -> bool
        requires { is_some (finmap.get (by_number self.now.files) file) ≡ true }
        ensures { ForFile self.now.users self.now.files file (λ row full.
            let standing = finmap.get row.traps (name_of self.now.users user) in
            result ≡ (not (modes == 0) && is_none standing && nat_le 9 (finmap.len row.traps))) }
    {
        match self.file_at(file) {
            Some(file) => file.traps.copy().go(file.owner, user, modes).is_err(),
            None => unreachable!(),
        }
    }

    /// The length of a file in bytes, at most 65,536.
    pub fn len_of(&self, file: u16) -> u32
        requires { is_some (finmap.get (by_number self.now.files) file) ≡ true }
        ensures len { (bytes : FileRec → List ℕ) (next : ℕ) → HasLengths self.now.files bytes
            → IfSome (name_of_file self.now.users self.now.files file)
            (λ full. result ≡ length (tree.file_row
            (tree_of self.now.users self.now.files bytes next) full).bytes) }
        ensures few { result ≤ 65536 }
    {
        match self.file_at(file) {
            Some(file) => file.len,
            None => unreachable!(),
        }
    }

    /// Whether the user of the number `who` set the budgets of another.
    pub fn is_superior(&self, who: u8, user: u8) -> bool
        requires { user < length self.now.users }
        ensures { ForTree self.now.users self.now.files
            (λ t. result ≡ same_text (tree.user_row t (name_of self.now.users user)).superior
            (name_of self.now.users who)) }
    {
        self.users()[user as usize].superior == who
    }
}
