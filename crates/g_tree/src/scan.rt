//! Functions that scan the records of users and files.
ghost use Rattle.std.specs.Prelude.{◌≡◌, ◌<◌, ◌&&◌, length, All};
ghost use Rattle.g_plain.specs.PlainTree.{is_version_of};
ghost use Rattle.g_tree.specs.Records.{full_of};
ghost use Rattle.g_tree.specs.State.{without_file};
ghost use Rattle.g_tree.specs.Answers.{newest_of};
ghost use Rattle.g_tree.specs.Names.{same_name};

use g_entry::{FileRec, UserRec};
use g_name::Full;
use g_table::FileTable;

/// The full name of a file whose owner exists.
pub fn full_of(users: &[UserRec], file: &FileRec) -> Full
    requires { file.now.owner < length users.now }
    ensures { result ≡ full_of users.now file.now }
{
    Full {
        user: users[file.owner as usize].user.copy(),
        local: file.local.copy(),
        generation: file.generation,
        lang: file.lang.copy(),
    }
}

/// Whether two files have the same full name. It compares no names of users.
pub(crate) fn has_same_name(a: &FileRec, b: &FileRec) -> bool
    ensures { result ≡ same_name a.now b.now }
{
    a.owner == b.owner && a.local == b.local && a.generation == b.generation && a.lang == b.lang
}

/// Whether a file whose owner exists has this full name, apart from the generation.
fn is_version_of(users: &[UserRec], name: &Full, file: &FileRec) -> bool
    requires { file.now.owner < length users.now }
    ensures { result ≡ is_version_of name.now (full_of users.now file.now) }
{
    // Names differ most in their local part.
    name.local == file.local
        && name.lang == file.lang
        && name.user == users[file.owner as usize].user
}

/// The greatest generation of the versions of a file, not counting the file of this number.
pub(crate) fn newest_besides(users: &[UserRec], name: &Full, files: &FileTable, number: u16) -> u16
    requires { All (λ r. r.owner < length users.now) files.now }
    ensures { result ≡ newest_of users.now name.now (without_file number files.now) }
{
    let mut newest = 0;
    for file in files {
        if file.number != number && is_version_of(users, name, file) {
            newest = newest.max(file.generation);
        }
    }
    newest
}
