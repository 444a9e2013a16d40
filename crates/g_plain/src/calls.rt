//! The calls that jobs make to a store, and the replies.
ghost use Rattle.std.specs.Prelude.{◌≡◌, [], ◌∷◌, ◌++◌, OnOk, OnErr};

use g_base::NoMemory;
use g_name::{Full, Local, Path, Text, User};
use g_trap::{Mode, Modes};
use std::alloc::Global;
use std::marker::Model;

/// The kinds of budget of a user.
#[derive(Clone, Copy, PartialEq, Eq, Hash)]
pub enum BudgetKind {
    /// Blocks of 512 bytes, 0 to 65,535.
    Space,
    /// Units of TIME, 0 to 1,000,000,000.
    Time,
    /// Units of MONEY, 0 to 1,000,000,000.
    Money,
}

/// A call of a job. If a path names a file for input, an absent generation means the greatest existing one; for output,
/// one more than that.
#[derive(Drop)]
pub enum StoreCall {
    /// Creates a user below the caller, with these amounts of SPACE (in blocks), TIME and MONEY (in units).
    NewUser {
        user: User,
        space: u32,
        time: u64,
        money: u64,
    },
    /// Sets one budget of a user below the caller.
    Budget {
        user: User,
        kind: BudgetKind,
        amount: u64,
    },
    /// Writes a new version for output: a new file, or other bytes for an existing file, which keeps its traps.
    Put {
        path: Path,
        bytes: Text,
    },
    /// Appends bytes to a file.
    Append {
        path: Path,
        bytes: Text,
    },
    /// Fetches the bytes of a file, to read or to execute it.
    Fetch {
        path: Path,
        mode: Mode,
    },
    /// Removes a file.
    Erase {
        path: Path,
    },
    /// Gives a file another local name.
    Rename {
        path: Path,
        to: Local,
    },
    /// Lists the files of a user.
    List {
        user: User,
    },
    /// Opens modes of a file to a user.
    TrapGo {
        path: Path,
        user: User,
        modes: Modes,
    },
    /// Closes modes of a file to a user.
    TrapStop {
        path: Path,
        user: User,
        modes: Modes,
    },
    /// Asks for the modes that a user has for a file.
    TrapCheck {
        path: Path,
        user: User,
    },
    /// Brings a file's bytes back to the disc.
    Retrieve {
        path: Path,
    },
}

/// Files with their lengths in bytes, in full-name order. Contracts see a list of pairs.
#[derive(Drop)]
pub struct Listing {
    rows: Vec<(Full, u32)>,
}

impl Model for Listing {
    ghost use Rattle.std.specs.Prelude.{ℕ, List};
    ghost use Rattle.g_name.specs.declared.full.Full.{Full};

    ghost Value = { List (Full × ℕ) };

    ghost view = { λ l. l.rows.items };
}

impl Listing {
    /// An empty listing. It allocates nothing.
    pub fn new(alloc: Global) -> Listing
        ensures { result ≡ [] }
    {
        Listing {
            rows: Vec::new(alloc),
        }
    }

    /// Appends a file. If memory runs out, the listing is unchanged.
    pub fn push(&mut self, full: Full, len: u32) -> Result<(), NoMemory>
        ensures ok { OnOk result (self.new ≡ self.old ++ (full, len) ∷ []) }
        ensures err { OnErr result (self.new ≡ self.old) }
    {
        self.rows.push((full, len))?;
        Ok(())
    }

    pub fn rows(&self) -> &[(Full, u32)]
        ensures { result.now ≡ self.now }
    {
        self.rows.as_slice()
    }
}

impl From<Vec<(Full, u32)>> for Listing {
    ghost from_gives = { λ rows listing. listing ≡ rows.items };

    fn from(rows: Vec<(Full, u32)>) -> Listing {
        Listing { rows }
    }
}

impl From<Listing> for Vec<(Full, u32)> {
    ghost from_gives = { λ listing rows. rows.items ≡ listing };

    fn from(listing: Listing) -> Vec<(Full, u32)> {
        listing.rows
    }
}

/// The reply of a store to a call that it grants.
#[derive(Drop)]
pub enum StoreReply {
    Done,
    Made(Full),
    Appended(Full),
    Bytes { full: Full, bytes: Text },
    Erased(Full),
    Renamed(Full),
    Listing(Listing),
    Modes(Modes),
    Retrieved(Full),
}
