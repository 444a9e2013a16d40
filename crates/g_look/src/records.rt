//! The rules between the records of a disc and the dumps.
ghost use Rattle.std.specs.Prelude.{◌≡◌, ◌<◌, All, Contains, IfNone, IfSome, Some, length};
ghost use Rattle.g_base.specs.Block as block;
ghost use Rattle.g_entry.specs.declared.file_rec.FileRec.{FileRec};
ghost use Rattle.g_restore.specs.Places.{AnyHas, IsHeld};
ghost use Rattle.g_look.specs.Recs.{HasOtherLength, HasSameLengths, IsCopyGone, IsLengthOther};

use crate::Broken;
use g_base::blocks_for;
use g_entry::{FileRec, TapeCopy, UserRec};
use g_restore::{Found, any_has};
use g_tree::full_of;

/// Rule 10: a file whose copy isn't content of dumps.
pub(crate) fn no_copy(found: &[Found], users: &[UserRec], files: &[FileRec]) -> Option<Broken>
    requires owners { All (λ r. r.owner < length users.now) files.now }
    ensures some { IfSome result (IsCopyGone found.now users.now files.now) }
    ensures none { IfNone result ((r : FileRec) → Contains files.now r → IsHeld found.now r) }
{
    for file in files {
        match lost_copy(found, file) {
            Some(copy) => return Some(Broken::NoCopy(full_of(users, file), copy)),
            None => {}
        }
    }
    None
}

/// The copy of the file, if it isn't content of dumps.
fn lost_copy(found: &[Found], file: &FileRec) -> Option<TapeCopy>
    ensures copy { IfSome result (λ c. file.now.tape ≡ Some c) }
    ensures lost { IfSome result (λ c. AnyHas found.now c (block.blocks_for file.now.len) → ⊥) }
    ensures none { IfNone result (IsHeld found.now file.now) }
{
    match file.tape {
        Some(copy) => {
            if any_has(found, &copy, blocks_for(file.len)) {
                None
            } else {
                Some(copy)
            }
        }
        None => None,
    }
}

/// Rule 11: a file and the dumped one of the same stamp that have different lengths.
pub(crate) fn other_length(
    users: &[UserRec],
    files: &[FileRec],
    dumped: &[FileRec],
) -> Option<Broken>
    requires owners { All (λ r. r.owner < length users.now) files.now }
    ensures some { IfSome result (IsLengthOther users.now files.now dumped.now) }
    ensures none { IfNone result ((r : FileRec) → Contains files.now r → HasSameLengths dumped.now r) }
{
    for file in files {
        match length_in(dumped, file) {
            Some(dumped) => {
                return Some(Broken::Lengths {
                    full: full_of(users, file),
                    stamp: file.stamp,
                    len: file.len,
                    dumped,
                });
            }
            None => {}
        }
    }
    None
}

/// The length of a dumped record of the file's stamp, if it isn't the file's.
fn length_in(dumped: &[FileRec], file: &FileRec) -> Option<u32>
    ensures some { IfSome result (HasOtherLength dumped.now file.now) }
    ensures none { IfNone result (HasSameLengths dumped.now file.now) }
{
    for of in dumped {
        if of.stamp == file.stamp && of.len != file.len {
            return Some(of.len);
        }
    }
    None
}
