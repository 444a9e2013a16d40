//! The records of a dump, from the blocks between its header and its content.
ghost use Rattle.std.specs.Prelude.{◌≡◌, ℕ, ◌+◌, ◌≤◌, [], ◌∷◌, ◌++◌, All, IfNone, IfOk, IfSome, List, OnOk, if◌then◌else◌, length};
ghost use Rattle.g_entry.specs.declared.file_rec.FileRec.{FileRec};
ghost use Rattle.g_entry.specs.declared.user_rec.UserRec.{UserRec};
ghost use Rattle.g_incr.specs.Notes.{IsInLimits};
ghost use Rattle.g_incr.specs.Records.{AreFilesIn, AreUsersIn, HasRecords};

use crate::note::{DumpDir, Header};
use crate::rules::keeps_rules;
use g_base::{Block, NoMemory};
use g_entry::{FileRec, Format, UserRec, decode_file_on_tape, decode_user_held};
use std::alloc::Global;

/// The records in these blocks: first the users, then the files. `None` if and only if they aren't those of a dump with
/// this header on this reel.
pub(crate) fn records_in(
    alloc: Global,
    serial: u32,
    h: &Header,
    blocks: &[Block],
) -> Result<Option<DumpDir>, NoMemory>
    requires limits { IsInLimits h.now.note }
    ensures found { IfOk result (λ o. IfSome o (λ dir. (dir.note ≡ h.now.note)
        × HasRecords serial h.now dir.users.items dir.held.items dir.files.items blocks.now)) }
    ensures none { IfOk result (λ o. IfNone o ((users : List UserRec) (held : List ℕ) (files : List FileRec)
        → HasRecords serial h.now users held files blocks.now → ⊥)) }
{
    let users = usize::from(h.note.users);
    if blocks.len() != users + usize::from(h.note.files) {
        return Ok(None);
    }
    let (front, back) = blocks.split_at(users);
    let (users, held) = match users_in(alloc, h.format, front)? {
        Some(found) => found,
        None => return Ok(None),
    };
    let files = match files_in(alloc, h.format, back)? {
        Some(files) => files,
        None => return Ok(None),
    };
    let dir = DumpDir {
        note: h.note,
        users,
        held,
        files,
    };
    if keeps_rules(alloc, serial, &dir)? {
        Ok(Some(dir))
    } else {
        Ok(None)
    }
}

/// The users with these blocks, and the numbers of the held ones. `None` if and only if a block isn't that of a user.
fn users_in(
    alloc: Global,
    format: Format,
    blocks: &[Block],
) -> Result<Option<(Vec<UserRec>, Vec<u8>)>, NoMemory>
    requires { length blocks.now ≤ 63 }
    ensures found { IfOk result (λ o. IfSome o (λ f. AreUsersIn format f.0.items f.1.items blocks.now)) }
    ensures none { IfOk result (λ o. IfNone o ((users : List UserRec) (held : List ℕ) → AreUsersIn format users held blocks.now → ⊥)) }
{
    let mut users = Vec::with_capacity(alloc, blocks.len())?;
    let mut held = Vec::with_capacity(alloc, blocks.len())?;
    for (number, block) in blocks.iter().enumerate() {
        match decode_user_held(format, block, number as u8) {
            Some((user, is_held)) => match add_user(user, is_held, &mut users, &mut held) {
                Ok(()) => {}
                Err(fault) => return Err(fault),
            },
            None => return Ok(None),
        }
    }
    Ok(Some((users, held)))
}

/// Appends a user, and its number if the user is held.
fn add_user(
    user: UserRec,
    is_held: bool,
    users: &mut Vec<UserRec>,
    held: &mut Vec<u8>,
) -> Result<(), NoMemory>
    ensures users { OnOk result (users.new.items ≡ users.old.items ++ user ∷ []) }
    ensures held { OnOk result (held.new.items ≡ held.old.items ++ (if is_held then user.number ∷ [] else [])) }
{
    if is_held {
        held.push(user.number)?;
    }
    users.push(user)?;
    Ok(())
}

/// The files with these blocks. `None` if and only if a block isn't that of a file.
fn files_in(
    alloc: Global,
    format: Format,
    blocks: &[Block],
) -> Result<Option<Vec<FileRec>>, NoMemory>
    requires { length blocks.now ≤ 1024 }
    ensures found { IfOk result (λ o. IfSome o (λ files. AreFilesIn format files.items blocks.now)) }
    ensures none { IfOk result (λ o. IfNone o ((files : List FileRec) → AreFilesIn format files blocks.now → ⊥)) }
{
    let mut files = Vec::with_capacity(alloc, blocks.len())?;
    for (number, block) in blocks.iter().enumerate() {
        match decode_file_on_tape(format, block, number as u16) {
            Some(file) => match files.push(file) {
                Ok(()) => {}
                Err(_) => return Err(NoMemory),
            },
            None => return Ok(None),
        }
    }
    Ok(Some(files))
}
