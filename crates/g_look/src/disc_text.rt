//! The lines of a disc.
ghost use Rattle.std.specs.Prelude.{◌≡◌, ◌≤◌, ◌++◌, IfSome, List, OnOk, Some, length};
ghost use Rattle.std.specs.List.{list_any};
ghost use Rattle.g_incr.specs.Layout.{Dump};
ghost use Rattle.g_dirs.specs.Directory.{copy_at};
ghost use Rattle.g_lines.specs.Lines.{ended, text_of};
ghost use Rattle.g_restore.specs.KnownDumps.{AreKnown};
ghost use Rattle.g_look.specs.MemoryLines.{copy_blocks, counts_text, dirs_text, names_found, state_text, used_by};
ghost use Rattle.g_look.specs.Standing.{IsSound, found_in};
ghost use Rattle.g_look.specs.Text.{disc_front, disc_lines, intent_lines, side_text};

use crate::bytes::copy_at;
use crate::disc::Standing;
use crate::parts::{push_told, push_told_line};
use g_base::NoMemory;
use g_dirs::{Dirs, FileCopy};
use g_entry::{FileRec, Format, Intent};
use g_name::Text;
use g_restore::Found;
use g_slots::Side;

/// Appends the lines of the disc.
pub(crate) fn push_disc(
    text: &mut Text,
    size: u32,
    standing: &Standing,
    found: &[Found],
) -> Result<(), NoMemory>
    requires { IfSome standing.now.dirs (λ f. IsSound size f.1) }
    ensures { OnOk result ((dumps : List Dump) → AreKnown found.now dumps
        → text.new ≡ text.old ++ text_of (disc_lines size standing.now.side dumps (found_in standing.now.dirs))) }
{
    push_front(text, size, standing.side)?;
    match &standing.dirs {
        Some((format, dirs)) => push_dirs(text, size, *format, dirs, found),
        None => text.extend(b" NO FILESTORE\n"),
    }
}

/// Appends the beginning of the disc's first line.
fn push_front(text: &mut Text, size: u32, side: Side) -> Result<(), NoMemory>
    ensures { OnOk result (text.new ≡ text.old ++ disc_front size side) }
{
    push_told(text, b"DISC ", u64::from(size))?;
    text.extend(b" BLOCKS SLOT ")?;
    text.extend(side_text(side))
}

/// The letter of a slot.
fn side_text(side: Side) -> &'static [u8]
    ensures { result.now ≡ side_text side }
{
    match side {
        Side::A => b"A",
        Side::B => b"B",
    }
}

/// Appends the text of a directory after the beginning of the first line.
fn push_dirs(
    text: &mut Text,
    size: u32,
    format: Format,
    dirs: &Dirs,
    found: &[Found],
) -> Result<(), NoMemory>
    requires { IsSound size dirs.now }
    ensures { OnOk result ((dumps : List Dump) → AreKnown found.now dumps
        → text.new ≡ text.old ++ dirs_text size format dumps dirs.now) }
{
    push_told_line(text, b" FORMAT ", u64::from(format.number()))?;
    push_counts(text, size, dirs)?;
    push_told_line(text, b"LAST DUMP ", dirs.head.last_dump)?;
    push_intent(text, &dirs.head.intent, found)
}

/// Appends the line of counts.
fn push_counts(text: &mut Text, size: u32, dirs: &Dirs) -> Result<(), NoMemory>
    requires { IsSound size dirs.now }
    ensures { OnOk result (text.new ≡ text.old ++ counts_text size dirs.now) }
{
    let used = used_blocks(dirs.files.as_slice(), dirs.online.as_slice());
    push_told(text, b"USERS ", dirs.users.len() as u64)?;
    push_told(text, b" FILES ", dirs.files.len() as u64)?;
    push_told(text, b" BLOCKS ", used)?;
    push_told(
        text,
        b" FREE ",
        u64::from(size).saturating_sub(2177).saturating_sub(used),
    )?;
    push_told(text, b" NEXT ", dirs.head.next_stamp)?;
    text.push(b'\n')
}

/// The number of blocks of the files on the disc.
fn used_blocks(files: &[FileRec], online: &[FileCopy]) -> u64
    requires { length files.now ≤ 1024 }
    ensures { result ≡ used_by files.now online.now }
{
    let mut used = 0;
    for file in files {
        used += u64::from(blocks_of(online, file.number));
    }
    used
}

/// The number of blocks of the file of this number on the disc.
fn blocks_of(online: &[FileCopy], number: u16) -> u32
    ensures exact { result ≡ length (copy_blocks (copy_at online.now number)) }
{
    match copy_at(online, number) {
        Some(copy) => copy.blocks.as_slice().len() as u32,
        None => 0,
    }
}

/// Appends the line of an intent, if there is one.
fn push_intent(text: &mut Text, intent: &Option<Intent>, found: &[Found]) -> Result<(), NoMemory>
    ensures { OnOk result ((dumps : List Dump) → AreKnown found.now dumps
        → text.new ≡ text.old ++ text_of (intent_lines dumps intent.now)) }
{
    match intent {
        Some(at) => push_named(text, at, found),
        None => Ok(()),
    }
}

/// Appends the line of an intent.
fn push_named(text: &mut Text, at: &Intent, found: &[Found]) -> Result<(), NoMemory>
    ensures { OnOk result ((dumps : List Dump) → AreKnown found.now dumps
        → text.new ≡ text.old ++ text_of (intent_lines dumps (Some at.now))) }
{
    push_told(text, b"INTENT DUMP ", at.number)?;
    push_told(text, b" TAPE ", u64::from(at.serial))?;
    push_told(text, b" AT ", u64::from(at.place))?;
    push_state(text, is_there(found, at))
}

/// Appends the end of that line.
fn push_state(text: &mut Text, there: bool) -> Result<(), NoMemory>
    ensures { OnOk result (text.new ≡ text.old ++ ended (state_text there)) }
{
    if there {
        text.extend(b" COMPLETED\n")
    } else {
        text.extend(b" NOT COMPLETED\n")
    }
}

/// Whether the dump that the intent names is completed.
fn is_there(found: &[Found], intent: &Intent) -> bool
    ensures { result ≡ list_any (names_found intent.now) found.now }
{
    found.iter().any(|one| {
        one.dir.note.number == intent.number
            && (one.serial == intent.serial && one.dir.note.place == intent.place)
    })
}
