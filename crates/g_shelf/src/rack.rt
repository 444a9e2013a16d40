//! The dumps of a rack, by reel.
ghost use Rattle.std.specs.Prelude.{◌≡◌};

use g_incr::DumpNote;
use std::marker::Model;

/// The notes of a reel's dumps, in their order. Contracts see a list. Converting from a `Vec` and back allocates
/// nothing.
#[derive(Drop)]
pub struct Notes {
    notes: Vec<DumpNote>,
}

impl Model for Notes {
    ghost use Rattle.std.specs.Prelude.{List};
    ghost use Rattle.g_incr.specs.declared.note.DumpNote.{DumpNote};

    ghost Value = { List DumpNote };

    ghost view = { λ n. n.notes.items };
}

impl Notes {
    /// The notes, first to last.
    pub fn as_slice(&self) -> &[DumpNote]
        ensures { result.now ≡ self.now }
    {
        self.notes.as_slice()
    }
}

impl From<Vec<DumpNote>> for Notes {
    ghost from_gives = { λ notes list. list ≡ notes.items };

    fn from(notes: Vec<DumpNote>) -> Notes {
        Notes { notes }
    }
}

impl From<Notes> for Vec<DumpNote> {
    ghost from_gives = { λ list notes. notes.items ≡ list };

    fn from(list: Notes) -> Vec<DumpNote> {
        list.notes
    }
}

/// The completed dumps of one reel, as `completed` reads them.
#[derive(Drop)]
pub struct Listed {
    pub serial: u32,
    pub notes: Notes,
}
