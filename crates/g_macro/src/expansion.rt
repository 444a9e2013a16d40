//! Parameters substituted into a line.
ghost use Rattle.std.specs.Prelude.{◌≡◌, ◌++◌, ◌∷◌, ◌≤◌, [], ℕ, List, length, IfOk};
ghost use Rattle.g_macro.specs.Expansion as expansion;
ghost use Rattle.g_macro.specs.Fronts.{Holds, IsFilled};
ghost use Rattle.g_macro.specs.Holding.{takes_input};
ghost use Rattle.g_macro.specs.Levels.{as_taken};

use crate::params::Params;
use arrayvec::ArrayVec;
use g_base::NoMemory;
use g_lang::{is_input_line, is_param_letter};
use g_name::Text;

/// The maximum length of a line in bytes.
const MOST: usize = 240;

/// A line after substitution: its first bytes, up to 240, and whether it is longer.
#[derive(Drop)]
pub(crate) struct Filled {
    pub text: Text,
    pub is_cut: bool,
}

/// The first bytes of a text, up to 240, and whether the text is longer.
#[derive(Drop)]
pub(crate) struct Front {
    pub bytes: ArrayVec<u8, 240>,
    pub is_cut: bool,
}

impl Front {
    fn new() -> Front
        ensures { Holds [] result }
    {
        Front {
            bytes: ArrayVec::new(),
            is_cut: false,
        }
    }

    fn push(&mut self, byte: u8)
        ensures { (text : List ℕ) → Holds text self.old → Holds (text ++ byte ∷ []) self.new }
    {
        if self.bytes.is_full() {
            self.is_cut = true;
        } else {
            self.bytes.push(byte);
        }
    }

    fn extend(&mut self, bytes: &[u8])
        ensures { (text : List ℕ) → Holds text self.old → Holds (text ++ bytes.now) self.new }
    {
        for byte in bytes {
            self.push(*byte);
        }
    }
}

/// A line after substitution, in the memory of a text whose own bytes are dropped. A line without `%` is copied unchanged.
pub(crate) fn fill_in(room: Text, params: &Params, line: &[u8]) -> Result<Filled, NoMemory>
    ensures { IfOk result (IsFilled (expansion.substituted params.now line.now)) }
{
    if line.len() <= MOST && !line.contains(&b'%') {
        let text = refilled(room, line)?;
        return Ok(Filled {
            text,
            is_cut: false,
        });
    }
    expanded(room, params, line)
}

/// The same by way of a `Front`. That is large, so a line without `%` avoids it.
fn expanded(room: Text, params: &Params, line: &[u8]) -> Result<Filled, NoMemory>
    ensures { IfOk result (IsFilled (expansion.substituted params.now line.now)) }
{
    let front = expand(params, line);
    let text = refilled(room, front.bytes.as_slice())?;
    Ok(Filled {
        text,
        is_cut: front.is_cut,
    })
}

/// These bytes in the memory of a text, whose own are dropped.
fn refilled(room: Text, bytes: &[u8]) -> Result<Text, NoMemory>
    ensures { IfOk result (λ text. text ≡ bytes.now) }
{
    let mut all = Vec::from(room);
    all.clear();
    all.extend_from_slice(bytes)?;
    Ok(Text::from(all))
}

/// Whether the verb of a line is INPUT after substitution; a line that is then longer than 240 bytes is no INPUT. Allocates nothing.
pub(crate) fn is_input(params: &Params, line: &[u8]) -> bool
    ensures { result ≡ takes_input (as_taken (expansion.substituted params.now line.now)) }
{
    if line.len() <= MOST && !line.contains(&b'%') {
        return is_input_line(line);
    }
    let front = expand(params, line);
    !front.is_cut && is_input_line(front.bytes.as_slice())
}

/// The first bytes of a line after substitution. Allocates nothing.
fn expand(params: &Params, line: &[u8]) -> Front
    ensures { Holds (expansion.substituted params.now line.now) result }
{
    let mut front = Front::new();
    let mut at = 0usize;
    while at < line.len() {
        let (done, rest) = line.split_at(at);
        at += fill(&mut front, params, done, rest);
    }
    front
}

/// Appends the first piece of the rest of a line after substitution, and returns its length in the line.
fn fill(front: &mut Front, params: &Params, done: &[u8], rest: &[u8]) -> usize
    requires some { 1 ≤ length rest.now }
    ensures some { 1 ≤ result }
    ensures within { result ≤ length rest.now }
    ensures filled { (text : List ℕ) → Holds text front.old
        → Holds (text ++ expansion.first_filled params.now done.now rest.now) front.new }
    ensures taken { result ≡ expansion.first_taken rest.now }
{
    let first = rest[0];
    if first != b'%' || rest.len() < 2 {
        front.push(first);
        return 1;
    }
    let second = rest[1];
    if second == b'%' {
        front.push(b'%');
        return 2;
    }
    if !is_param_letter(second) {
        front.push(first);
        return 1;
    }
    if is_asked(done) {
        front.push(first);
        front.push(second);
    } else {
        front.extend(params.get(second));
    }
    2
}

/// Whether a condition names a parameter here.
fn is_asked(done: &[u8]) -> bool
    ensures { result ≡ expansion.is_asked done.now }
{
    ends_with(done, b"PRESENT(") || ends_with(done, b"ABSENT(") || ends_with(done, b"STRING(")
}

/// Whether the text ends with these bytes.
fn ends_with(text: &[u8], back: &[u8]) -> bool
    ensures { result ≡ expansion.ends_with text.now back.now }
{
    if text.len() < back.len() {
        return false;
    }
    let last = &text[text.len() - back.len()..];
    last == back
}
