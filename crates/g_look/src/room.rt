//! How many bytes the lines of dumps take. A text that outgrows its memory doubles it, so a text of many lines is given what it needs at once.
ghost use Rattle.std.specs.Prelude.{◌≡◌, ◌≤◌, IfOk, [], length};
ghost use Rattle.std.specs.Fmt.{decimal};

use g_base::NoMemory;
use g_entry::UserRec;
use g_incr::DumpNote;
use g_name::Text;
use g_restore::Found;
use itoa::Buffer;
use std::alloc::Global;

/// The bytes of a dump's line that are neither digits nor users: ten words, and its byte 10.
const WORDS: usize = 59;

/// The bytes of all other lines of a check: those of the disc and of up to 16 reels, and the verdict.
const OTHER_LINES: usize = 4_096;

/// An empty text with memory for the lines of these dumps, and the other lines of a check.
pub(crate) fn text_for(alloc: Global, found: &[Found]) -> Result<Text, NoMemory>
    ensures { IfOk result (λ text. text ≡ []) }
{
    Ok(Text::from(Vec::with_capacity(alloc, room_for(found))?))
}

/// The bytes of the lines of these dumps, and of the other lines of a check.
fn room_for(found: &[Found]) -> usize {
    let mut room = OTHER_LINES;
    for one in found {
        let users = holders_room(one.dir.users.as_slice(), one.dir.held.as_slice());
        room = room
            .saturating_add(numbers_room(one.serial, &one.dir.note))
            .saturating_add(users);
    }
    room
}

/// The bytes of a dump's line without its users.
fn numbers_room(serial: u32, note: &DumpNote) -> usize {
    let place = digits(u64::from(serial)) + digits(u64::from(note.place));
    let counts = 2 * digits(u64::from(note.count) + 2)
        + digits(u64::from(note.users))
        + digits(u64::from(note.files));
    WORDS + place + counts + digits(note.number) + digits(note.next_stamp)
}

/// The bytes of the users of these numbers, each with ` :` before the name.
fn holders_room(users: &[UserRec], held: &[u8]) -> usize {
    let mut room = 0_usize;
    for number in held {
        let name = match users.get(*number as usize) {
            Some(user) => user.user.as_slice().len(),
            None => 0,
        };
        room = room.saturating_add(2).saturating_add(name);
    }
    room
}

/// How many digits a number has.
fn digits(number: u64) -> usize
    ensures digits { result ≡ length (decimal number) }
    ensures most { result ≤ 40 }
{
    Buffer::new().format(number).len()
}
