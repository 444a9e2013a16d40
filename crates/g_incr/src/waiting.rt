//! The versions of a plan that wait: those that have bytes and no copy on tape.
ghost use Rattle.std.specs.Prelude.{◌≡◌, ◌+◌, ◌≤◌, All, IfOk, length};
ghost use Rattle.g_entry.specs.FileFields.{IsFile};
ghost use Rattle.g_incr.specs.WaitingFiles.{AreAhead};
ghost use Rattle.g_incr.specs.Plan as plan;

use g_base::{NoMemory, blocks_for};
use g_entry::FileRec;
use std::alloc::Global;

/// The waiting versions ahead of a file: how many they are, and how many blocks they occupy.
#[derive(Clone, Copy)]
pub(crate) struct Ahead {
    pub(crate) versions: u32,
    pub(crate) blocks: u32,
}

/// Whether the version waits.
pub(crate) fn waits(r: &FileRec) -> bool
    ensures { result ≡ plan.waits r.now }
{
    r.len > 0 && r.tape.is_none()
}

/// The waiting versions ahead of each file, and finally those of all files.
pub(crate) fn all_ahead(alloc: Global, files: &[FileRec]) -> Result<Vec<Ahead>, NoMemory>
    requires few { length files.now ≤ 1024 }
    requires each { All IsFile files.now }
    ensures { IfOk result (λ all. AreAhead files.now (length files.now + 1) all.items) }
{
    let mut all = Vec::with_capacity(alloc, files.len() + 1)?;
    let mut ahead = Ahead {
        versions: 0,
        blocks: 0,
    };
    for r in files {
        all.push(ahead)?;
        if waits(r) {
            ahead = Ahead {
                versions: ahead.versions + 1,
                blocks: ahead.blocks + blocks_for(r.len),
            };
        }
    }
    all.push(ahead)?;
    Ok(all)
}
