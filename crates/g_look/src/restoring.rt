//! The tree that a restore of the rack would give.
ghost use Rattle.std.specs.Prelude.{◌≡◌, ◌⊎◌, ◌++◌, All, Err, IfErr, IfOk, List, OnOk, false, true};
ghost use Rattle.std.specs.List.{flat_map};
ghost use Rattle.g_incr.specs.Layout.{Dump};
ghost use Rattle.g_lines.specs.Lines.{ended, text_of};
ghost use Rattle.g_monitor.specs.Refusals.{IsPrinted};
ghost use Rattle.g_restore.specs.Gathering.{HasFew};
ghost use Rattle.g_restore.specs.KnownDumps.{AreKnown};
ghost use Rattle.g_tree.specs.Records.{IsRecords};
ghost use Rattle.g_look.specs.FileLines.{dumped_file_line, empty_text};
ghost use Rattle.g_look.specs.Lists.{IsRestorable, dumped_lines, missing_text, refused_text};
ghost use Rattle.g_look.specs.Looks.{OfDumps, ReadsRackByCause};
ghost use Rattle.g_look.specs.Numbers.{all_numbers, dumped_line, lines_at, lines_dumped};

use crate::LookFault;
use crate::file_text::{push_file, push_taped};
use crate::gaps::missing;
use crate::ordered::all_numbers;
use crate::parts::push_told;
use crate::rack::see_rack;
use g_base::NoMemory;
use g_entry::{FileRec, UserRec};
use g_monitor::push_fault;
use g_name::{Full, Text};
use g_plain::StoreFault;
use g_restore::{Dumped, Found, fold};
use g_tape::Tapes;
use g_tree::{Tree, full_of};
use std::alloc::Global;

/// Whether the rack can be restored, the number of a dump that is missing from it, and the text: the files that RESTORE would give and the dump, or
/// its refusal.
#[derive(Drop)]
pub struct Given {
    pub given: bool,
    pub missing: Option<u64>,
    pub text: Text,
}

/// The files that RESTORE would give from this rack: a line for each file, users by number and the files of a user by full name, and
/// `RESTORABLE FROM DUMP n`, then `DUMP m MISSING` if a dump is missing; or the one line of its refusal. All reels have to be mounted; they are only
/// read. `TapeUnread`, `NoMemory`.
pub fn restorable<T: Tapes>(alloc: Global, tapes: &mut T) -> Result<Given, LookFault>
    requires mounted { All (λ r. r.mounted ≡ true) (T.rack tapes.old).reels }
    ensures text { OfDumps (T.rack tapes.old) (λ dumps. IfOk result (λ g. IsRestorable dumps g.given g.missing g.text)) }
    ensures tapes { ReadsRackByCause (result ≡ Err LookFault.TapeUnread) (T.rack tapes.old) (T.rack tapes.new) }
    ensures faults { IfErr result (λ e. (e ≡ LookFault.TapeUnread) ⊎ (e ≡ LookFault.NoMemory)) }
{
    let found = match see_rack(alloc, tapes) {
        Ok(found) => found,
        Err(fault) => return Err(fault),
    };
    given_by(alloc, found.as_slice())
}

/// The files that RESTORE would give from these dumps. `NoMemory`.
fn given_by(alloc: Global, found: &[Found]) -> Result<Given, LookFault>
    requires few { All HasFew found.now }
    requires known { (dumps : List Dump) × AreKnown found.now dumps }
    ensures text { IfOk result (λ g. (dumps : List Dump) → AreKnown found.now dumps → IsRestorable dumps g.given g.missing g.text) }
    ensures faults { IfErr result (λ e. e ≡ LookFault.NoMemory) }
{
    match fold(alloc, found) {
        Ok(dumped) => match missing(alloc, found) {
            Ok(missing) => lines_of(alloc, dumped, missing),
            Err(_) => Err(LookFault::NoMemory),
        },
        Err(StoreFault::NoDump) => refused(alloc, &StoreFault::NoDump),
        Err(StoreFault::LostDirectory(user)) => refused(alloc, &StoreFault::LostDirectory(user)),
        Err(StoreFault::LostCopy(full, serial)) => {
            refused(alloc, &StoreFault::LostCopy(full, serial))
        }
        Err(_) => Err(LookFault::NoMemory),
    }
}

/// The line of a refusal.
fn refused(alloc: Global, fault: &StoreFault) -> Result<Given, LookFault>
    requires printed { IsPrinted fault.now }
    ensures text { IfOk result (λ g. g.text ≡ refused_text fault.now) }
    ensures given { IfOk result (λ g. g.given ≡ false) }
    ensures faults { IfErr result (λ e. e ≡ LookFault.NoMemory) }
{
    match refusal_text(alloc, fault) {
        Ok(text) => Ok(Given {
            given: false,
            missing: None,
            text,
        }),
        Err(_) => Err(LookFault::NoMemory),
    }
}

/// The text of a refusal, with the end of its line.
fn refusal_text(alloc: Global, fault: &StoreFault) -> Result<Text, NoMemory>
    requires printed { IsPrinted fault.now }
    ensures { IfOk result (λ text. text ≡ refused_text fault.now) }
{
    let mut text = Text::new(alloc);
    text.extend(b"REFUSED ")?;
    push_fault(&mut text, fault)?;
    text.push(b'\n')?;
    Ok(text)
}

/// The lines of a dumped directory, and of the dump that is missing.
fn lines_of(alloc: Global, dumped: Dumped, missing: Option<u64>) -> Result<Given, LookFault>
    requires records { IsRecords dumped.users.items dumped.files.items }
    ensures text { IfOk result (λ g. g.text
        ≡ text_of (dumped_lines dumped.users.items dumped.files.items dumped.number) ++ missing_text missing) }
    ensures given { IfOk result (λ g. g.given ≡ true) }
    ensures missing { IfOk result (λ g. g.missing ≡ missing) }
    ensures faults { IfErr result (λ e. e ≡ LookFault.NoMemory) }
{
    let Dumped {
        number,
        next_stamp: _,
        users,
        files,
    } = dumped;
    let tree = match Tree::from_records(alloc, users, files) {
        Ok(tree) => tree,
        Err(_) => return Err(LookFault::NoMemory),
    };
    match tree_text(alloc, &tree, number, missing) {
        Ok(text) => Ok(Given {
            given: true,
            missing,
            text,
        }),
        Err(_) => Err(LookFault::NoMemory),
    }
}

/// The lines of all files, and what follows them.
fn tree_text(
    alloc: Global,
    tree: &Tree,
    number: u64,
    missing: Option<u64>,
) -> Result<Text, NoMemory>
    ensures { IfOk result (λ text. text ≡ text_of (lines_dumped tree.now.users tree.now.files number
        (all_numbers tree.now.users tree.now.files)) ++ missing_text missing) }
{
    let numbers = all_numbers(alloc, tree)?;
    let mut text = Text::new(alloc);
    push_lines(&mut text, tree, numbers.as_slice())?;
    push_told(&mut text, b"RESTORABLE FROM DUMP ", number)?;
    text.push(b'\n')?;
    push_missing(&mut text, missing)?;
    Ok(text)
}

/// Appends the line of a missing dump to the text, if one is missing.
fn push_missing(text: &mut Text, missing: Option<u64>) -> Result<(), NoMemory>
    ensures { OnOk result (text.new ≡ text.old ++ missing_text missing) }
{
    match missing {
        Some(number) => {
            push_told(text, b"DUMP ", number)?;
            text.extend(b" MISSING\n")
        }
        None => Ok(()),
    }
}

/// Appends the lines of the files of these numbers to the text.
fn push_lines(text: &mut Text, tree: &Tree, numbers: &[u16]) -> Result<(), NoMemory>
    ensures { OnOk result (text.new ≡ text.old
        ++ text_of (flat_map (lines_at (dumped_line tree.now.users) tree.now.files) numbers.now)) }
{
    for number in numbers {
        match push_numbered(text, tree, *number) {
            Ok(()) => {}
            Err(fault) => return Err(fault),
        }
    }
    Ok(())
}

/// Appends the line of the file of this number to the text, if there is one.
fn push_numbered(text: &mut Text, tree: &Tree, number: u16) -> Result<(), NoMemory>
    ensures { OnOk result (text.new ≡ text.old
        ++ text_of (lines_at (dumped_line tree.now.users) tree.now.files number)) }
{
    match tree.file_at(number) {
        Some(file) => {
            let full = full_of(tree.users(), file);
            push_line(text, &full, tree.users(), file)
        }
        None => Ok(()),
    }
}

/// Appends the line of a file to the text: an empty one counts as on the disc.
fn push_line(
    text: &mut Text,
    full: &Full,
    users: &[UserRec],
    file: &FileRec,
) -> Result<(), NoMemory>
    ensures { OnOk result (text.new ≡ text.old ++ ended (dumped_file_line full.now users.now file.now)) }
{
    push_file(text, full, users, file)?;
    push_empty(text, file.len)?;
    push_taped(text, &file.tape)?;
    text.push(b'\n')
}

/// Appends to the text that an empty file counts as on the disc, if the file is empty.
fn push_empty(text: &mut Text, len: u32) -> Result<(), NoMemory>
    ensures { OnOk result (text.new ≡ text.old ++ empty_text len) }
{
    if len == 0 {
        text.extend(b" DISC")
    } else {
        Ok(())
    }
}
