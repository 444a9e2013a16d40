//! The lines of reels and dumps.
ghost use Rattle.std.specs.Prelude.{◌≡◌, ◌≤◌, ◌∷◌, ◌++◌, ℕ, All, Contains, List, OnOk, [], codes, filter, length, map};
ghost use Rattle.std.specs.List.{flat_map};
ghost use Rattle.g_tape.specs.Reel.{Reel};
ghost use Rattle.g_incr.specs.Layout.{Dump};
ghost use Rattle.g_lines.specs.Lines.{ended, text_of};
ghost use Rattle.g_store_meaning.specs.Meaning.{told_reels};
ghost use Rattle.g_restore.specs.KnownDumps.{known};
ghost use Rattle.g_look.specs.Heads.{EndsLow, end_upto};
ghost use Rattle.g_look.specs.SeenDumps.{IsSeen};
ghost use Rattle.g_look.specs.MemoryLines.{count_on, known_line, lines_on, tape_text};
ghost use Rattle.g_look.specs.Text.{holder_text, rack_lines, reel_lines};

use crate::head::end_upto;
use crate::parts::push_told;
use g_base::NoMemory;
use g_entry::UserRec;
use g_name::Text;
use g_restore::Found;
use g_tape::Tapes;

/// Appends the lines of the rack: of each reel, followed by those of its dumps.
pub(crate) fn push_rack<T: Tapes>(
    text: &mut Text,
    tapes: &T,
    found: &[Found],
) -> Result<(), NoMemory>
    ensures { OnOk result ((shelf : ℕ → List Dump) → IsSeen (told_reels (T.rack tapes.now)) shelf found.now
        → text.new ≡ text.old ++ text_of (rack_lines shelf (told_reels (T.rack tapes.now)))) }
{
    for i in 0..tapes.reels() {
        let serial = tapes.serial(i);
        match push_reel(text, tapes, serial, found) {
            Ok(()) => {}
            Err(fault) => return Err(fault),
        }
    }
    Ok(())
}

/// Appends the lines of a reel.
fn push_reel<T: Tapes>(
    text: &mut Text,
    tapes: &T,
    serial: u32,
    found: &[Found],
) -> Result<(), NoMemory>
    ensures { OnOk result ((shelf : ℕ → List Dump) → IsSeen (told_reels (T.rack tapes.now)) shelf found.now
        → (r : Reel) → Contains (told_reels (T.rack tapes.now)) r → r.serial ≡ serial
        → text.new ≡ text.old ++ text_of (reel_lines shelf r)) }
{
    let capacity = capacity_of(tapes, serial);
    let len = length_of(tapes, serial);
    let count = count_on(found, serial);
    let end = end_upto(found, serial, u64::MAX);
    push_tape(text, serial, (capacity, len), (count, end))?;
    push_dumps(text, serial, found)
}

/// The capacity in blocks of the reel of this serial, 0 without one.
fn capacity_of<T: Tapes>(tapes: &T, serial: u32) -> u32
    ensures { (r : Reel) → Contains (told_reels (T.rack tapes.now)) r → r.serial ≡ serial → result ≡ r.capacity }
{
    match tapes.capacity(serial) {
        Ok(capacity) => capacity,
        Err(_) => 0,
    }
}

/// The length in blocks of the reel of this serial, 0 without one.
fn length_of<T: Tapes>(tapes: &T, serial: u32) -> u32
    ensures { (r : Reel) → Contains (told_reels (T.rack tapes.now)) r → r.serial ≡ serial → result ≡ r.len }
{
    match tapes.length(serial) {
        Ok(len) => len,
        Err(_) => 0,
    }
}

/// How many dumps the reel has.
fn count_on(found: &[Found], serial: u32) -> u64
    ensures exact { result ≡ count_on serial found.now }
    ensures most { result ≤ length found.now }
{
    let mut count = 0;
    for one in found {
        count += ones(one, serial);
    }
    count
}

/// 1 if the dump is on the reel.
fn ones(one: &Found, serial: u32) -> u64
    ensures exact { result ≡ count_on serial (one.now ∷ []) }
    ensures most { result ≤ 1 }
{
    if one.serial == serial { 1 } else { 0 }
}

/// Appends the line of a reel.
fn push_tape(
    text: &mut Text,
    serial: u32,
    sizes: (u32, u32),
    dumps: (u64, u32),
) -> Result<(), NoMemory>
    ensures { OnOk result (text.new ≡ text.old ++ ended (tape_text serial sizes.0 sizes.1 dumps.0 dumps.1)) }
{
    push_told(text, b"TAPE ", u64::from(serial))?;
    push_told(text, b" CAPACITY ", u64::from(sizes.0))?;
    push_told(text, b" LENGTH ", u64::from(sizes.1))?;
    push_told(text, b" DUMPS ", dumps.0)?;
    push_told(text, b" END ", u64::from(dumps.1))?;
    push_told(text, b" FREE ", u64::from(sizes.0.saturating_sub(dumps.1)))?;
    text.push(b'\n')
}

/// Appends the lines of the reel's dumps.
fn push_dumps(text: &mut Text, serial: u32, found: &[Found]) -> Result<(), NoMemory>
    ensures { OnOk result (text.new ≡ text.old ++ text_of (lines_on serial found.now)) }
{
    for one in found {
        match push_if_on(text, serial, one) {
            Ok(()) => {}
            Err(fault) => return Err(fault),
        }
    }
    Ok(())
}

/// Appends the line of the dump, if it is on the reel.
fn push_if_on(text: &mut Text, serial: u32, one: &Found) -> Result<(), NoMemory>
    ensures { OnOk result (text.new ≡ text.old ++ text_of (lines_on serial (one.now ∷ []))) }
{
    if one.serial == serial {
        push_dump(text, one)
    } else {
        Ok(())
    }
}

/// Appends the line of a dump.
fn push_dump(text: &mut Text, one: &Found) -> Result<(), NoMemory>
    ensures { OnOk result (text.new ≡ text.old ++ ended (known_line (known one.now))) }
{
    let note = &one.dir.note;
    push_told(text, b"DUMP ", note.number)?;
    push_told(text, b" TAPE ", u64::from(one.serial))?;
    push_told(text, b" AT ", u64::from(note.place))?;
    let count = note.count;
    push_told(text, b" BLOCKS ", u64::from(count) + 2)?;
    push_told(text, b" USERS ", u64::from(note.users))?;
    push_told(text, b" FILES ", u64::from(note.files))?;
    let records = u32::from(note.users) + u32::from(note.files);
    push_told(text, b" CONTENT ", u64::from(count.saturating_sub(records)))?;
    push_told(text, b" NEXT ", note.next_stamp)?;
    text.extend(b" HOLDS")?;
    push_holders(text, one.dir.users.as_slice(), one.dir.held.as_slice())?;
    text.push(b'\n')
}

/// Appends the users of these numbers.
fn push_holders(text: &mut Text, users: &[UserRec], held: &[u8]) -> Result<(), NoMemory>
    ensures { OnOk result (text.new ≡ text.old ++ flat_map (holder_text users.now) held.now) }
{
    for number in held {
        match push_holder(text, users, *number) {
            Ok(()) => {}
            Err(fault) => return Err(fault),
        }
    }
    Ok(())
}

/// Appends the user of this number.
pub(crate) fn push_holder(text: &mut Text, users: &[UserRec], number: u8) -> Result<(), NoMemory>
    ensures { OnOk result (text.new ≡ text.old ++ holder_text users.now number) }
{
    text.extend(b" :")?;
    match users.get(number as usize) {
        Some(user) => text.extend(user.user.as_slice()),
        None => Ok(()),
    }
}
