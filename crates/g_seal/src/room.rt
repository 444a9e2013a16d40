//! How many bytes the lines of a seal may take. A text that outgrows its memory doubles it, so a seal is given what it needs at once.
ghost use Rattle.std.specs.Prelude.{◌≡◌, IfOk, []};

use g_base::NoMemory;
use g_dirs::Dirs;
use g_entry::Format;
use g_name::Text;
use std::alloc::Global;

/// The most bytes of a dump's line on reels that exist: its words, the 64 digits of its sum, and 20, 6, 4 and 4 digits.
const DUMP_LINE: usize = 130;

/// The most bytes of a file's line: its words, its full name, the 64 digits of its sum, and 5, 20, 6 and 4 digits.
const FILE_LINE: usize = 180;

/// The bytes of the last line.
const LAST_LINE: usize = 70;

/// An empty text with memory for the lines of so many dumps, those of the files of what the disc holds, and the last line.
pub(crate) fn text_for(
    alloc: Global,
    dumps: usize,
    held: &Option<(Format, Dirs)>,
) -> Result<Text, NoMemory>
    ensures { IfOk result (λ text. text ≡ []) }
{
    let files = match held {
        Some((_format, dirs)) => dirs.files.len(),
        None => 0,
    };
    let room = DUMP_LINE
        .saturating_mul(dumps)
        .saturating_add(FILE_LINE.saturating_mul(files))
        .saturating_add(LAST_LINE);
    Ok(Text::from(Vec::with_capacity(alloc, room)?))
}

/// The same text without spare memory.
pub(crate) fn fitted(text: Text) -> Text
    ensures { result ≡ text }
{
    let mut bytes = Vec::from(text);
    bytes.shrink_to_fit();
    Text::from(bytes)
}
