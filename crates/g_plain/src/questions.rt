//! The queries about a tree that decide whether a call is granted.
ghost use Rattle.std.specs.Prelude.{◌≡◌, ◌≤◌, ◌^◌, ◌&&◌, ◌==◌, not, nat_le, true, length, is_none, is_some};
ghost use Rattle.std.specs.FinMap.{get, len};
ghost use Rattle.g_name.specs.Order.{same_text};
ghost use Rattle.g_plain.specs.PlainTree as plain;
ghost use Rattle.g_plain.specs.PlainStep as step;
ghost use Rattle.g_plain.specs.Grants.{file_named};

use crate::NamedFile;
use g_name::{Full, Path, User};
use g_trap::Modes;

/// Answers queries about a tree of users and files, by name. The tree in memory implements it, and so do numbered
/// records. No query allocates or reads a device.
pub trait Questions {
    ghost use Rattle.std.specs.Prelude.{ℕ, Option};
    ghost use Rattle.g_name.specs.declared.full.Full.{Full};
    ghost use Rattle.g_plain.specs.PlainTree.{Tree};

    // The tree that the queries are about.
    ghost tree: { Self → Tree };

    // The number that the implementation has for the file of a full name.
    ghost numbers: { Self → Full → Option ℕ };

    fn has_user(&self, user: &User) -> bool
        ensures { result ≡ plain.has_user (tree self.now) user.now };

    /// Whether the user `who` set the budgets of another.
    fn is_superior(&self, who: &User, user: &User) -> bool
        requires caller { plain.has_user (tree self.now) who.now ≡ true }
        requires there { plain.has_user (tree self.now) user.now ≡ true }
        ensures { result ≡ same_text (plain.user_row (tree self.now) user.now).superior who.now };

    /// The number of users.
    fn users(&self) -> usize
        ensures { result ≡ len (tree self.now).users };

    fn has_file(&self, full: &Full) -> bool
        ensures { result ≡ plain.has_file (tree self.now) full.now };

    /// The number of files.
    fn files(&self) -> usize
        ensures { result ≡ len (tree self.now).files };

    /// The file that a path names for input, with its number. The other queries take it, so that the name is searched
    /// for only once.
    fn input(&self, who: &User, path: &Path) -> NamedFile
        ensures named { result
            ≡ file_named (numbers self.now) (plain.input_name (tree self.now) who.now path.now) }
        ensures there { is_some result.number ≡ plain.has_file (tree self.now) result.full };

    /// The file that a path names for output, with its number.
    fn output(&self, who: &User, path: &Path) -> NamedFile
        ensures named { result
            ≡ file_named (numbers self.now) (plain.output_name (tree self.now) who.now path.now) }
        ensures there { is_some result.number ≡ plain.has_file (tree self.now) result.full };

    /// The length of a file in bytes.
    fn len_of(&self, file: &NamedFile) -> u32
        requires there { plain.has_file (tree self.now) file.now.full ≡ true }
        requires numbered { file.now.number ≡ numbers self.now file.now.full }
        ensures len { result ≡ length (plain.file_row (tree self.now) file.now.full).bytes }
        ensures few { result ≤ 65536 };

    /// The number of blocks of 512 bytes that the owner has left for a file of this name.
    fn space_left(&self, file: &NamedFile) -> u32
        requires owner { plain.has_user (tree self.now) file.now.full.user ≡ true }
        requires numbered { file.now.number ≡ numbers self.now file.now.full }
        ensures { result ≡ step.space_left (tree self.now) file.now.full };

    /// The modes that a user has for a file.
    fn modes_of(&self, file: &NamedFile, user: &User) -> Modes
        requires file { plain.has_file (tree self.now) file.now.full ≡ true }
        requires user { plain.has_user (tree self.now) user.now ≡ true }
        requires numbered { file.now.number ≡ numbers self.now file.now.full }
        ensures { let row = plain.file_row (tree self.now) file.now.full in
            result ≡ plain.modes_of row file.now.full user.now };

    /// Whether giving these modes to a user would trap a ninth user besides the file's owner.
    fn is_ninth(&self, file: &NamedFile, user: &User, modes: Modes) -> bool
        requires file { plain.has_file (tree self.now) file.now.full ≡ true }
        requires user { plain.has_user (tree self.now) user.now ≡ true }
        requires numbered { file.now.number ≡ numbers self.now file.now.full }
        ensures { let traps = (plain.file_row (tree self.now) file.now.full).traps in
            result ≡ (not (modes == 0) && is_none (get traps user.now) && nat_le 9 (len traps)) };

    /// Whether no stamp is left for a new version.
    fn stamps_spent(&self) -> bool
        ensures { result ≡ nat_le (2 ^ 62) (tree self.now).next };
}
