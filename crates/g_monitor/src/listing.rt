//! The listings of files and directories.
ghost use Rattle.std.specs.Prelude.{◌≡◌, ◌++◌, map, IfOk, IsTrue, OnOk};
ghost use Rattle.g_lines.specs.Lines.{text_of};
ghost use Rattle.g_monitor.specs.Listing.{shown, shown_line, listed_lines, row_line};

use crate::parts::{push_generation, push_words};
use g_base::NoMemory;
use g_lines::{Lines, push_decimal};
use g_name::{Full, Text};
use std::alloc::Global;

/// The byte that a listing shows: `?` in place of one that can't be printed.
fn shown(byte: u8) -> u8
    ensures { result ≡ shown byte }
{
    if (32..=126).contains(&byte) {
        byte
    } else {
        b'?'
    }
}

/// Appends `| ` and a line of a file, without a byte 10. If memory runs out, a prefix of it may have been appended.
pub fn push_shown(text: &mut Text, line: &[u8]) -> Result<(), NoMemory>
    ensures { OnOk result (text.new ≡ text.old ++ shown_line line.now) }
{
    text.extend(b"| ")?;
    if are_printed(line) {
        return text.extend(line);
    }
    for byte in line {
        text.push(shown(*byte))?;
    }
    Ok(())
}

/// Whether each byte can be printed, so that the line is shown unchanged. Checking all of them takes less time than searching for the first that
/// can't be printed.
fn are_printed(line: &[u8]) -> bool
    ensures { IsTrue result → map shown line.now ≡ line.now }
{
    let mut printed = true;
    for byte in line {
        printed = printed & (shown(*byte) == *byte);
    }
    printed
}

/// Appends a file with its length in bytes, in the form of a directory's listing, without a byte 10. If memory runs out, a prefix of it may have been
/// appended.
pub fn push_row(text: &mut Text, row: &(Full, u32)) -> Result<(), NoMemory>
    ensures { OnOk result (text.new ≡ text.old ++ row_line row.now) }
{
    let (full, len) = row;
    push_words(text, b"| ", full.local.as_slice())?;
    text.extend(b"(")?;
    push_generation(text, full.generation)?;
    text.extend(b"/")?;
    text.extend(full.lang.as_slice())?;
    text.extend(b") ")?;
    push_decimal(text, u64::from(*len))
}

/// Appends the lines of a file, each with its byte 10.
#[tactic(auto, using(crate::proofs::LineLemmas::line_behind))]
pub(crate) fn push_list(text: &mut Text, bytes: &[u8]) -> Result<(), NoMemory>
    ensures { OnOk result (text.new ≡ text.old ++ text_of (listed_lines bytes.now)) }
{
    let mut lines = Lines::new(bytes);
    while let Some(line) = lines.next() {
        push_shown(text, line)?;
        text.push(b'\n')?;
    }
    Ok(())
}

/// Appends the files of a directory, each on its line with its byte 10.
#[tactic(auto, using(crate::proofs::LineLemmas::line_behind))]
pub(crate) fn push_rows(text: &mut Text, rows: &[(Full, u32)]) -> Result<(), NoMemory>
    ensures { OnOk result (text.new ≡ text.old ++ text_of (map row_line rows.now)) }
{
    for row in rows {
        push_row(text, row)?;
        text.push(b'\n')?;
    }
    Ok(())
}

/// The lines of a file as LISTFILE shows them, each after `| ` and with its byte 10 (`docs/MANUAL.md`, "Texts of jobs and refusals").
pub fn list_text(alloc: Global, bytes: &[u8]) -> Result<Text, NoMemory>
    ensures { IfOk result (λ text. text ≡ text_of (listed_lines bytes.now)) }
{
    let mut text = Text::new(alloc);
    push_list(&mut text, bytes)?;
    Ok(text)
}
