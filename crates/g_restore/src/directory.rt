//! The directory that dumps give together.
ghost use Rattle.std.specs.Prelude.{◌≡◌, All, IfErr, IfOk, List, []};
ghost use Rattle.g_incr.specs.Layout.{Dump};
ghost use Rattle.g_restore.specs.KnownDumps.{AreKnown};
ghost use Rattle.g_restore.specs.Gathering.{HasFew};
ghost use Rattle.g_restore.specs.Losses.{AreApart, NamesLost};
ghost use Rattle.g_restore.specs.Steps.{IsFolded, IsOfDumps};

use crate::dumps::Found;
use crate::gather::{gather, greatest};
use crate::places::first_lost;
use g_entry::{FileRec, UserRec};
use g_incr::copied_users;
use g_plain::StoreFault;
use g_tree::full_of;
use std::alloc::Global;

/// The number, the users and the next stamp of the last dump, and the files of all users.
#[derive(Drop)]
pub struct Dumped {
    pub number: u64,
    pub next_stamp: u64,
    pub users: Vec<UserRec>,
    pub files: Vec<FileRec>,
}

/// The directory that these dumps give together: the users of the one of greatest number, and for each user the files of
/// the newest dump that holds them. `NoDump` if there is none; `LostDirectory` and `LostCopy` as for `rebuild`; `NoMemory`.
pub fn fold(alloc: Global, found: &[Found]) -> Result<Dumped, StoreFault>
    requires few { All HasFew found.now }
    ensures none { result ≡ Err StoreFault.NoDump → found.now ≡ [] }
    ensures lost { (dumps : List Dump) → AreKnown found.now dumps → AreApart dumps → NamesLost dumps result }
    ensures ok { IfOk result (λ d. (dumps : List Dump) → AreKnown found.now dumps → IsFolded dumps d) }
    ensures only { IfErr result IsOfDumps }
{
    let at = match greatest(found, None) {
        Some((at, _)) => at,
        None => return Err(StoreFault::NoDump),
    };
    let last = &found[at].dir;
    let users = last.users.as_slice();
    let files = match gather(alloc, found, users, last.note.next_stamp) {
        Ok(files) => files,
        Err(fault) => return Err(fault),
    };
    match first_lost(found, files.as_slice()) {
        Some((place, copy)) => Err(StoreFault::LostCopy(
            full_of(users, &files[place]),
            copy.serial,
        )),
        None => match copied_users(alloc, users) {
            Ok(users) => Ok(Dumped {
                number: last.note.number,
                next_stamp: last.note.next_stamp,
                users,
                files,
            }),
            Err(_) => Err(StoreFault::NoMemory),
        },
    }
}
