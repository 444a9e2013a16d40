//! The memory of a text that grows.
ghost use Rattle.std.specs.Prelude.{◌≡◌, []};

use g_base::NoMemory;
use g_name::Text;
use std::alloc::Global;
use std::mem;

/// Removes the bytes of a text but keeps its memory. Allocates nothing.
pub(crate) fn empty(alloc: Global, text: &mut Text)
    ensures { text.new ≡ [] }
{
    let mut bytes = Vec::from(mem::replace(text, Text::new(alloc)));
    bytes.clear();
    *text = Text::from(bytes);
}

/// Reserves memory for this many bytes at the end of the text, so that it doesn't grow in small steps. The text is unchanged.
pub(crate) fn make_room(alloc: Global, text: &mut Text, more: usize) -> Result<(), NoMemory>
    ensures { text.new ≡ text.old }
{
    let mut bytes = Vec::from(mem::replace(text, Text::new(alloc)));
    let is_made = bytes.reserve(more).is_ok();
    *text = Text::from(bytes);
    if is_made { Ok(()) } else { Err(NoMemory) }
}
