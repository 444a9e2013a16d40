//! The parts of the lines of a look.
ghost use Rattle.std.specs.Prelude.{◌≡◌, ◌++◌, OnOk};
ghost use Rattle.std.specs.Fmt.{decimal};
ghost use Rattle.g_lines.specs.Lines.{ended};
ghost use Rattle.g_look.specs.Text.{at_text, copy_text, lie_text, told};

use crate::{DumpAt, Lie};
use g_base::NoMemory;
use g_entry::TapeCopy;
use g_lines::push_decimal;
use g_name::Text;

/// Appends words and a number.
pub fn push_told(text: &mut Text, words: &[u8], number: u64) -> Result<(), NoMemory>
    ensures { OnOk result (text.new ≡ text.old ++ told words.now number) }
{
    text.extend(words)?;
    push_decimal(text, number)
}

/// Appends words and a number, as a line.
pub(crate) fn push_told_line(text: &mut Text, words: &[u8], number: u64) -> Result<(), NoMemory>
    ensures { OnOk result (text.new ≡ text.old ++ ended (told words.now number)) }
{
    push_told(text, words, number)?;
    text.push(b'\n')
}

/// Appends a place on tape.
pub fn push_copy(text: &mut Text, copy: &TapeCopy) -> Result<(), NoMemory>
    ensures { OnOk result (text.new ≡ text.old ++ copy_text copy.now) }
{
    push_told(text, b" TAPE ", u64::from(copy.serial))?;
    push_told(text, b" AT ", u64::from(copy.first))
}

/// Appends the place of a dump.
pub(crate) fn push_at(text: &mut Text, at: &DumpAt) -> Result<(), NoMemory>
    ensures { OnOk result (text.new ≡ text.old ++ at_text at.now) }
{
    push_told(text, b" TAPE ", u64::from(at.serial))?;
    push_told(text, b" AT ", u64::from(at.place))
}

/// Appends a place of a version.
pub fn push_lie(text: &mut Text, lie: &Lie) -> Result<(), NoMemory>
    ensures { OnOk result (text.new ≡ text.old ++ lie_text lie.now) }
{
    match lie {
        Lie::Disc => text.extend(b" DISC"),
        Lie::Tape(copy) => push_copy(text, copy),
    }
}
