//! Checks whether the bytes of files are still on tape.
ghost use Rattle.std.specs.Prelude.{◌≡◌, ◌↔◌, All, IfNone, IfSome, IsTrue, Some};
ghost use Rattle.g_base.specs.Block.{blocks_for};
ghost use Rattle.g_restore.specs.Places.{AnyHas, HasBlocks, IsFirstNotHeld, IsHeld};

use crate::dumps::Found;
use g_base::blocks_for;
use g_entry::{FileRec, TapeCopy};
use g_shelf::holds;

/// The first of the files whose copy has a block that isn't content of a dump: its position, and the copy.
pub(crate) fn first_lost(found: &[Found], files: &[FileRec]) -> Option<(usize, TapeCopy)>
    ensures some { IfSome result (λ lost. IsFirstNotHeld found.now files.now lost.0 lost.1) }
    ensures none { IfNone result (All (IsHeld found.now) files.now) }
{
    for (i, r) in files.iter().enumerate() {
        match lost_copy(found, r) {
            Some(copy) => return Some((i, copy)),
            None => {}
        }
    }
    None
}

/// The copy of the file, if the file has one and not every block of it is content of one of the dumps.
fn lost_copy(found: &[Found], r: &FileRec) -> Option<TapeCopy>
    ensures copy { IfSome result (λ c. r.now.tape ≡ Some c) }
    ensures lost { IfSome result (λ c. AnyHas found.now c (blocks_for r.now.len) → ⊥) }
    ensures none { IfNone result (IsHeld found.now r.now) }
{
    match r.tape {
        Some(copy) => {
            if any_has(found, &copy, blocks_for(r.len)) {
                None
            } else {
                Some(copy)
            }
        }
        None => None,
    }
}

/// Whether all `blocks` blocks from the copy's first one on are content of one of the dumps, which may be on several
/// reels.
pub fn any_has(found: &[Found], copy: &TapeCopy, blocks: u32) -> bool
    ensures { IsTrue result ↔ AnyHas found.now copy.now blocks }
{
    for one in found {
        if has_blocks(one, copy, blocks) {
            return true;
        }
    }
    false
}

fn has_blocks(one: &Found, copy: &TapeCopy, blocks: u32) -> bool
    ensures { IsTrue result ↔ HasBlocks copy.now blocks one.now }
{
    one.serial == copy.serial && holds(&one.dir.note, copy.first, blocks)
}
