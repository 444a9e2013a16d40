//! The mark before each line that is printed at a terminal.
ghost use Rattle.std.specs.Prelude.{◌≡◌, ◌++◌, IfOk, OnOk};
ghost use Rattle.g_lines.specs.Lines.{ended};
ghost use Rattle.g_mop.specs.TerminalLines.{mark_of, shown_at};

use g_base::NoMemory;
use g_lines::{Lines, push_decimal};
use g_name::Text;
use std::alloc::Global;

/// The lines of a text as they are printed at this terminal: each with the terminal's mark before it, and its byte 10.
pub fn mark(alloc: Global, terminal: u8, added: &[u8]) -> Result<Text, NoMemory>
    ensures { IfOk result (λ text. text ≡ shown_at terminal added.now) }
{
    let mut text = Text::new(alloc);
    push_mark(&mut text, terminal, added)?;
    Ok(text)
}

/// Appends the same to a text. Without memory the appended part is unspecified.
pub fn push_mark(text: &mut Text, terminal: u8, added: &[u8]) -> Result<(), NoMemory>
    ensures { OnOk result (text.new ≡ text.old ++ shown_at terminal added.now) }
{
    let mut lines = Lines::new(added);
    while let Some(line) = lines.next() {
        push_line(text, terminal, line)?;
    }
    Ok(())
}

/// Appends a line with its mark and its byte 10.
fn push_line(text: &mut Text, terminal: u8, line: &[u8]) -> Result<(), NoMemory>
    ensures { OnOk result (text.new ≡ text.old ++ ended (mark_of terminal ++ line.now)) }
{
    push_mark_of(text, terminal)?;
    text.extend(line)?;
    text.push(b'\n')
}

/// Appends the terminal's mark.
fn push_mark_of(text: &mut Text, terminal: u8) -> Result<(), NoMemory>
    ensures { OnOk result (text.new ≡ text.old ++ mark_of terminal) }
{
    text.push(b'T')?;
    push_decimal(text, u64::from(terminal))?;
    text.push(b' ')
}
