//! The choice of a reason.
ghost use Rattle.std.specs.Prelude.{◌≡◌, ◌≤◌, ◌↔◌, All, IsTrue, MatchOption};
ghost use Rattle.g_reasons.specs.Reasons.{Begins, BeginsSmall, IsFirst, IsWrong, asked, reasons};
ghost use Rattle.g_typing.specs.Reader.{HasNoTime};

use crate::reason::Reason;
use crate::word::Word;
use g_lines::split_at_byte;
use g_typing::time_of;

/// The maximum length of a line in bytes.
const MOST_LINE: usize = 160;

/// All reasons but the last one, which applies to every line.
const REASONS: [Reason; 22] = [
    Reason::Blank,
    Reason::Return,
    Reason::Tab,
    Reason::Byte,
    Reason::Long,
    Reason::NoTime,
    Reason::NoColon,
    Reason::BadForm(Word::Format),
    Reason::BadForm(Word::Start),
    Reason::BadForm(Word::Restore),
    Reason::BadForm(Word::Shut),
    Reason::BadForm(Word::Mount),
    Reason::BadForm(Word::Unmount),
    Reason::BadForm(Word::Dump),
    Reason::BadForm(Word::Process),
    Reason::BadForm(Word::Migrate),
    Reason::BadForm(Word::Stop),
    Reason::BadForm(Word::Login),
    Reason::BadForm(Word::Type),
    Reason::BadForm(Word::Logout),
    Reason::BadForm(Word::Job),
    Reason::SmallLetter,
];

/// Why a line that isn't one of a script isn't.
pub fn reason_of(line: &[u8]) -> Reason
    ensures { IsFirst reasons result line.now }
{
    match first_of(&REASONS, line) {
        Some(reason) => reason,
        None => Reason::NoWord,
    }
}

/// The first of some reasons that applies to a line.
fn first_of(among: &[Reason], line: &[u8]) -> Option<Reason>
    ensures { MatchOption result (All (λ other. IsWrong other line.now → ⊥) among.now) (λ found. IsFirst among.now found line.now) }
{
    for reason in among {
        if is_wrong(*reason, line) {
            return Some(*reason);
        }
    }
    None
}

/// Whether this applies to a line.
fn is_wrong(reason: Reason, line: &[u8]) -> bool
    ensures { IsTrue result ↔ IsWrong reason line.now }
{
    match reason {
        Reason::Blank => line.is_empty(),
        Reason::Return => line.contains(&b'\r'),
        Reason::Tab => line.contains(&b'\t'),
        Reason::Byte => has_unprinted(line),
        Reason::Long => line.len() > MOST_LINE,
        Reason::NoTime => has_no_time(line),
        Reason::NoColon => lacks_colon(line),
        Reason::BadForm(word) => begins(word, asked_in(line)),
        Reason::SmallLetter => begins_small(asked_in(line)),
        Reason::NoWord => true,
    }
}

/// Whether a line has a byte that isn't printed.
fn has_unprinted(line: &[u8]) -> bool
    ensures { IsTrue result ↔ (All (λ byte. (32 ≤ byte) × (byte ≤ 126)) line.now → ⊥) }
{
    !line.iter().all(|byte| b' ' <= *byte && *byte <= b'~')
}

/// Whether a line doesn't begin with a time.
fn has_no_time(line: &[u8]) -> bool
    ensures { IsTrue result ↔ HasNoTime line.now }
{
    match time_of(line) {
        Some(_parts) => false,
        None => true,
    }
}

/// Whether a JOB or a LOGIN has no colon.
fn lacks_colon(line: &[u8]) -> bool
    ensures { IsTrue result ↔ IsWrong Reason.NoColon line.now }
{
    if line.contains(&b':') {
        return false;
    }
    begins(Word::Job, asked_in(line)) || begins(Word::Login, asked_in(line))
}

/// The text after the first space of a line.
fn asked_in(line: &[u8]) -> &[u8]
    ensures { result.now ≡ asked line.now }
{
    match split_at_byte(line, b' ') {
        Some((_time, text)) => text,
        None => &[],
    }
}

/// Whether a text begins with this word.
fn begins(word: Word, text: &[u8]) -> bool
    ensures { IsTrue result ↔ Begins word text.now }
{
    text.starts_with(word.text())
}

/// Whether a text begins with a small letter.
fn begins_small(text: &[u8]) -> bool
    ensures { IsTrue result ↔ BeginsSmall text.now }
{
    match text.split_first() {
        Some((first, _others)) => first.is_ascii_lowercase(),
        None => false,
    }
}
