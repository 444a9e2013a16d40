//! What one commit may change.
ghost use Rattle.std.specs.Prelude.{◌≡◌};

use g_entry::{FileRec, Intent, TapeCopy, UserRec};
use g_name::Text;
use g_tree::NumberList;
use std::marker::Model;

/// Places on tape by stamp. Contracts see a list. It converts from a `Vec` and back without allocating.
#[derive(Drop)]
pub struct CopyList {
    copies: Vec<(u64, TapeCopy)>,
}

impl Model for CopyList {
    ghost use Rattle.std.specs.Prelude.{ℕ, List};
    ghost use Rattle.g_entry.specs.declared.file_rec.TapeCopy.{TapeCopy};

    ghost Value = { List (ℕ × TapeCopy) };

    ghost view = { λ l. l.copies.items };
}

impl CopyList {
    pub fn as_slice(&self) -> &[(u64, TapeCopy)]
        ensures { result.now ≡ self.now }
    {
        self.copies.as_slice()
    }
}

impl From<Vec<(u64, TapeCopy)>> for CopyList {
    ghost from_gives = { λ copies list. list ≡ copies.items };

    fn from(copies: Vec<(u64, TapeCopy)>) -> CopyList {
        CopyList { copies }
    }
}

impl From<CopyList> for Vec<(u64, TapeCopy)> {
    ghost from_gives = { λ list copies. copies.items ≡ list };

    fn from(list: CopyList) -> Vec<(u64, TapeCopy)> {
        list.copies
    }
}

/// A change of the filestore, which reaches the disc completely or not at all. The lists of numbers are file numbers.
#[derive(Drop)]
pub enum Change {
    /// Adds a user after the others.
    AddUser(UserRec),
    /// Replaces the record of an existing user; number and name are unchanged.
    SetUser(UserRec),
    /// Adds a new version, which has the next stamp, under a new number or in place of the file of its number. The files of
    /// `unjam` are taken off the disc first.
    PutFile {
        rec: FileRec,
        bytes: Text,
        unjam: NumberList,
    },
    /// Replaces the record of an existing file; number, owner, stamp, length and copy on tape are unchanged.
    SetFile(FileRec),
    /// Erases the file of this number.
    EraseFile(u16),
    /// Takes these files, which have copies on tape, off the disc.
    Unload(NumberList),
    /// Brings back the bytes of a file that isn't on the disc. The files of `unjam` are taken off first.
    Bring {
        number: u16,
        bytes: Text,
        unjam: NumberList,
    },
    /// Sets the intent of the head.
    SetIntent(Option<Intent>),
    /// Notes the copies of a completed dump, by stamp, and its number.
    Adopt {
        last: u64,
        copies: CopyList,
    },
}
