//! The lines of files.
ghost use Rattle.std.specs.Prelude.{◌≡◌, ◌++◌, OnOk};
ghost use Rattle.std.specs.List.{flat_map};
ghost use Rattle.g_monitor.specs.Parts.{modes_text, shown_mode};
ghost use Rattle.g_look.specs.FileLines.{blocks_text, file_front, place_text, taped_text, trap_text};

use crate::parts::{push_copy, push_told};
use crate::rack_text::push_holder;
use g_base::NoMemory;
use g_copy::DiscCopy;
use g_entry::{FileRec, TapeCopy, UserRec};
use g_monitor::push_full;
use g_name::{Full, Text};
use g_trap::{Mode, Modes};

/// Appends the beginning of a file's line: its full name, length, stamp and traps.
pub(crate) fn push_file(
    text: &mut Text,
    full: &Full,
    users: &[UserRec],
    file: &FileRec,
) -> Result<(), NoMemory>
    ensures { OnOk result (text.new ≡ text.old ++ file_front full.now users.now file.now) }
{
    push_full(text, full)?;
    push_told(text, b" LENGTH ", u64::from(file.len))?;
    push_told(text, b" STAMP ", file.stamp)?;
    text.extend(b" TRAPS")?;
    push_trap(text, users, file.owner, file.traps.owner_modes())?;
    push_others(text, users, file.traps.others())
}

/// Appends the other users with their modes.
fn push_others(text: &mut Text, users: &[UserRec], others: &[(u8, Modes)]) -> Result<(), NoMemory>
    ensures { OnOk result (text.new ≡ text.old ++ flat_map (trap_text users.now) others.now) }
{
    for other in others {
        match push_trap(text, users, other.0, other.1) {
            Ok(()) => {}
            Err(fault) => return Err(fault),
        }
    }
    Ok(())
}

/// Appends a user and the user's modes.
fn push_trap(text: &mut Text, users: &[UserRec], number: u8, modes: Modes) -> Result<(), NoMemory>
    ensures { OnOk result (text.new ≡ text.old ++ trap_text users.now (number, modes)) }
{
    push_holder(text, users, number)?;
    text.extend(b" ")?;
    push_modes(text, modes)
}

/// Appends `RWAXE`, with a dot for each mode that is closed.
#[tactic(auto, using(crate::proofs::ShownLemmas::modes_are))]
fn push_modes(text: &mut Text, modes: Modes) -> Result<(), NoMemory>
    ensures { OnOk result (text.new ≡ text.old ++ modes_text modes) }
{
    text.extend(&[
        shown_mode(modes, Mode::Read, b'R'),
        shown_mode(modes, Mode::Write, b'W'),
        shown_mode(modes, Mode::Append, b'A'),
        shown_mode(modes, Mode::Execute, b'X'),
        shown_mode(modes, Mode::Erase, b'E'),
    ])
}

/// The mode's letter, or a dot if the mode is closed.
fn shown_mode(modes: Modes, mode: Mode, letter: u8) -> u8
    ensures { result ≡ shown_mode modes mode letter }
{
    if modes.contains(mode) { letter } else { b'.' }
}

/// Appends the file's blocks on the disc, if it is there.
pub(crate) fn push_blocks(text: &mut Text, copy: &Option<DiscCopy>) -> Result<(), NoMemory>
    ensures { OnOk result (text.new ≡ text.old ++ blocks_text copy.now) }
{
    match copy {
        Some(copy) => {
            text.extend(b" DISC")?;
            push_places(text, copy.blocks.as_slice())
        }
        None => Ok(()),
    }
}

/// Appends block numbers.
fn push_places(text: &mut Text, places: &[u32]) -> Result<(), NoMemory>
    ensures { OnOk result (text.new ≡ text.old ++ flat_map place_text places.now) }
{
    for place in places {
        match push_told(text, b" ", u64::from(*place)) {
            Ok(()) => {}
            Err(fault) => return Err(fault),
        }
    }
    Ok(())
}

/// Appends the file's place on tape, if it has one.
pub(crate) fn push_taped(text: &mut Text, copy: &Option<TapeCopy>) -> Result<(), NoMemory>
    ensures { OnOk result (text.new ≡ text.old ++ taped_text copy.now) }
{
    match copy {
        Some(copy) => push_copy(text, copy),
        None => Ok(()),
    }
}
