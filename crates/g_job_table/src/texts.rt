//! The texts that the operator reads (`docs/DEFINITIONS.md`, "g_run_model").
ghost use Rattle.std.specs.Prelude.{◌≡◌, ◌++◌, IfOk, OnOk, codes};
ghost use Rattle.std.specs.Fmt.{decimal};
ghost use Rattle.g_run_model.specs.Texts.{closing, dump_text, job_text, operator_line, started_text, tape_text};

use g_base::NoMemory;
use g_lines::push_decimal;
use g_monitor::push_number;
use g_name::Text;
use std::alloc::Global;

/// The initial capacity of an event's text: most texts are shorter.
const ROOM: usize = 48;

/// Appends a line for the operator: the count of turns, a space, the event, and the line's byte 10. If memory runs out, a prefix of it may have been
/// appended.
pub fn push_operator_line(text: &mut Text, count: u64, what: &[u8]) -> Result<(), NoMemory>
    ensures { OnOk result (text.new ≡ text.old ++ operator_line count what.now) }
{
    push_decimal(text, count)?;
    text.extend(b" ")?;
    text.extend(what)?;
    text.push(b'\n')
}

/// Words, a number, a space, and an event.
fn numbered(alloc: Global, words: &[u8], number: u64, how: &[u8]) -> Result<Text, NoMemory>
    ensures { IfOk result (λ text. text ≡ ((words.now ++ decimal number) ++ codes " ") ++ how.now) }
{
    let mut text = Text::from(Vec::with_capacity(alloc, ROOM)?);
    push_number(&mut text, words, number)?;
    text.extend(b" ")?;
    text.extend(how)?;
    Ok(text)
}

/// The event of a reel: `TAPE`, its serial, and the event.
pub fn tape_text(alloc: Global, serial: u32, how: &[u8]) -> Result<Text, NoMemory>
    ensures { IfOk result (λ text. text ≡ tape_text serial how.now) }
{
    numbered(alloc, b"TAPE ", u64::from(serial), how)
}

/// The event of a dump: `DUMP`, its number, and the event.
pub fn dump_text(alloc: Global, number: u64, how: &[u8]) -> Result<Text, NoMemory>
    ensures { IfOk result (λ text. text ≡ dump_text number how.now) }
{
    numbered(alloc, b"DUMP ", number, how)
}

/// The event of a job: `JOB`, its number, and the event.
pub fn job_text(alloc: Global, number: u64, how: &[u8]) -> Result<Text, NoMemory>
    ensures { IfOk result (λ text. text ≡ job_text number how.now) }
{
    numbered(alloc, b"JOB ", number, how)
}

/// The system was started, and adopted the dump of this number.
fn adopted_text(alloc: Global, number: u64) -> Result<Text, NoMemory>
    ensures { IfOk result (λ text. text ≡ (codes "STARTED DUMP " ++ decimal number) ++ codes " ADOPTED") }
{
    let mut text = Text::new(alloc);
    push_number(&mut text, b"STARTED DUMP ", number)?;
    text.extend(b" ADOPTED")?;
    Ok(text)
}

/// The system was started, with the number of the dump that was adopted, if one was.
pub fn started_text(alloc: Global, adopted: Option<u64>) -> Result<Text, NoMemory>
    ensures { IfOk result (λ text. text ≡ started_text adopted) }
{
    match adopted {
        Some(number) => adopted_text(alloc, number),
        None => Text::from_slice(alloc, b"STARTED"),
    }
}

/// The last line of the text of a run whose script has a bad line, the `bad`-th, with its byte 10; otherwise empty.
pub fn closing_text(alloc: Global, bad: Option<u64>) -> Result<Text, NoMemory>
    ensures { IfOk result (λ text. text ≡ closing bad) }
{
    let mut text = Text::new(alloc);
    if let Some(line) = bad {
        push_number(&mut text, b"SCRIPT LINE ", line)?;
        text.push(b'\n')?;
    }
    Ok(text)
}
