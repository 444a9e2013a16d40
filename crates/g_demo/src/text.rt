//! Lines with numbers, appended to a text.
ghost use Rattle.std.specs.Prelude.{◌≡◌, ◌++◌, OnOk};
ghost use Rattle.std.specs.Fmt.{decimal};
ghost use Rattle.g_demo.specs.Script.{at_turn};
ghost use Rattle.g_lines.specs.Lines.{ended};

use g_base::NoMemory;
use g_lines::push_decimal;
use g_name::Text;

/// Appends a line: words, a number, and more words.
pub(crate) fn push_line(
    text: &mut Text,
    before: &[u8],
    number: u64,
    behind: &[u8],
) -> Result<(), NoMemory>
    ensures { OnOk result (text.new ≡ text.old ++ ended (before.now ++ decimal number ++ behind.now)) }
{
    text.extend(before)?;
    push_decimal(text, number)?;
    text.extend(behind)?;
    text.push(b'\n')
}

/// Appends an operator line: a turn, a space, and the same.
pub(crate) fn push_turn_line(
    text: &mut Text,
    turn: u64,
    before: &[u8],
    number: u64,
    behind: &[u8],
) -> Result<(), NoMemory>
    ensures { OnOk result (text.new ≡ text.old ++ ended (at_turn turn (before.now ++ decimal number ++ behind.now))) }
{
    push_decimal(text, turn)?;
    text.extend(b" ")?;
    push_line(text, before, number, behind)
}
