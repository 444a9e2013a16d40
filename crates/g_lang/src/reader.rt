//! A reader of lines that takes one byte after another: it finds the place where a text goes wrong, and allocates nothing.
ghost use Rattle.std.specs.Option.{option_map};
ghost use Rattle.std.specs.Prelude.{◌≡◌, ◌^◌, ◌<◌, ◌≤◌, ◌+◌, ◌||◌, ◌∷◌, ◌++◌, [], IfSome, IsTrue, List, Some, codes, drop, length, true, ℕ};
ghost use Rattle.g_lang.specs.Lines as lines;
ghost use Rattle.g_name.specs.Order.{same_text};
ghost use Rattle.g_lang.specs.LineReader as how;
ghost use Rattle.g_lang.specs.Words.{is_label, without_front, word_of};
ghost use Rattle.g_lang.specs.Places.{Goes, Steps, state_of, next_of, depth_of, word_start};

use crate::bytes::{is_digit, is_label, is_param_letter, is_printed, is_word};
use crate::pieces::{behind, split_word, without_front};
use g_name::{extends, is_name_char};

/// What follows a fixed text of a condition.
#[derive(Clone, Copy)]
enum Behind {
    Test,
    Comma,
    Text,
    /// A parameter's letter, with a text to compare or without.
    Letter { equals: bool },
}

/// The reader's place in a line.
#[derive(Clone, Copy)]
enum Place {
    /// In the leading spaces.
    Front,
    /// In a label, after this many of its characters.
    Label(usize),
    /// After a label and a space.
    Gap,
    /// In the first word of a command, which begins at this byte of the text; `inner` if a condition precedes it.
    Word {
        start: usize,
        inner: bool,
    },
    /// Before a condition; `negated` if NOT precedes it.
    Condition {
        negated: bool,
    },
    /// In a fixed text of a condition, the rest of which is stored.
    Fixed {
        byte: u8,
        rest: &'static [u8],
        behind: Behind,
    },
    /// Before a parameter's letter.
    Letter {
        equals: bool,
    },
    /// In a text in brackets.
    Text,
    /// After a condition.
    BeforeComma,
    /// After GOTO and its space.
    BeforeLabel,
    /// In the label of GOTO, after this many of its characters.
    Goto(usize),
    /// In the trailing spaces.
    Back,
    /// In the spaces after a verb.
    VerbGap,
    /// In the parameters, with this many open brackets.
    Params(usize),
}

/// The place where a text goes wrong as a line, if it does: the length of its longest prefix that begins some line.
#[tactic(auto, using(crate::proofs::VerbLemmas::verb_line, crate::proofs::VerbLemmas::behind_short, crate::proofs::VerbLemmas::goto_line))]
pub(crate) fn wrong_place(text: &[u8]) -> Option<usize>
    ensures { result ≡ how.wrong_from how.Front 0 text.now }
{
    // Most lines are a verb with parameters, or a GOTO, with or without a label.
    let line = without_front(text);
    let (word, rest) = split_word(line);
    if is_verb(word) {
        wrong_in_params(rest, text.len() - rest.len())
    } else if is_label(word) {
        wrong_behind_label(text, rest)
    } else if is_goto(line) {
        None
    } else {
        wrong_by_steps(text)
    }
}

/// The same for a text that begins with a label and continues with `command`.
#[tactic(auto, using(crate::proofs::VerbLemmas::labelled_verb, crate::proofs::VerbLemmas::params_short, crate::proofs::VerbLemmas::labelled_goto))]
fn wrong_behind_label(text: &[u8], command: &[u8]) -> Option<usize>
    requires label { is_label (word_of (without_front text.now)) ≡ true }
    requires command { command.now ≡ how.behind_word (without_front text.now) }
    ensures { result ≡ how.wrong_from how.Front 0 text.now }
{
    let (word, params) = split_word(command);
    if is_verb(word) {
        wrong_in_params(params, text.len() - params.len())
    } else if is_goto(command) {
        None
    } else {
        wrong_by_steps(text)
    }
}

/// Whether a command is a GOTO with its label. False doesn't mean that it is none: it may have trailing spaces.
fn is_goto(command: &[u8]) -> bool
    ensures { IsTrue result → (label : List ℕ) × (how.behind (codes "GOTO ") command.now ≡ Some label) × (is_label label ≡ true) }
{
    match behind(b"GOTO ", command) {
        Some(label) => is_label(label),
        None => false,
    }
}

/// The same, byte by byte.
pub(crate) fn wrong_by_steps(text: &[u8]) -> Option<usize>
    ensures { result ≡ how.wrong_from how.Front 0 text.now }
{
    let mut place = Place::Front;
    for (at, byte) in text.iter().enumerate() {
        match place.step(&text[..at], *byte) {
            Some(next) => place = next,
            None => return Some(at),
        }
    }
    if place.may_end(text) {
        None
    } else {
        Some(text.len())
    }
}

/// The place where the parameters of a verb go wrong, counted from their beginning at `from`.
pub(crate) fn wrong_in_params(params: &[u8], from: usize) -> Option<usize>
    requires { from + length params.now < 2 ^ 64 }
    ensures { result ≡ how.wrong_from (how.Params 0) from params.now }
{
    let mut depth = 0usize;
    for (at, byte) in params.iter().enumerate() {
        match depth_at(depth, *byte) {
            Some(next) => depth = next,
            None => return Some(from + at),
        }
    }
    if depth == 0 {
        None
    } else {
        Some(from + params.len())
    }
}

/// Whether a word is a verb.
fn is_verb(word: &[u8]) -> bool
    ensures { result ≡ lines.is_verb word.now }
{
    is_word(word) && !is_keyword(word)
}

/// Whether a word is IF, WHENEVER or GOTO, which take no parameters.
pub(crate) fn is_keyword(word: &[u8]) -> bool
    ensures { result
        ≡ (same_text word.now (codes "IF") || same_text word.now (codes "WHENEVER") || same_text word.now (codes "GOTO")) }
{
    // Most words aren't, and their first byte shows it.
    match word {
        [b'I', ..] => word == b"IF".as_slice(),
        [b'W', ..] => word == b"WHENEVER".as_slice(),
        [b'G', ..] => word == b"GOTO".as_slice(),
        _ => false,
    }
}

impl Place {
    /// The place after the next byte, if some line continues with it.
    fn step(self, before: &[u8], byte: u8) -> Option<Place>
        requires depth { depth_of (state_of before.now self) < 2 ^ 63 }
        requires word { word_start self ≤ length before.now }
        ensures { Steps (how.step byte (state_of before.now self)) (before.now ++ byte ∷ []) result }
    {
        match self {
            Place::Front => in_front(before, byte),
            Place::Label(count) => in_label(count, byte),
            Place::Gap => in_gap(before, byte),
            Place::Word { start, inner } => in_word(start, inner, before, byte),
            Place::Condition { negated } => in_condition(negated, byte),
            Place::Fixed {
                byte: first,
                rest,
                behind,
            } => in_fixed(first, rest, behind, byte),
            Place::Letter { equals } => in_letter(equals, byte),
            Place::Text => in_text(byte),
            Place::BeforeComma => in_comma(before, byte),
            Place::BeforeLabel => in_before_label(byte),
            Place::Goto(count) => in_goto(count, byte),
            Place::Back => in_back(byte),
            Place::VerbGap => in_verb_gap(byte),
            Place::Params(depth) => in_params(depth, byte),
        }
    }

    /// Whether a line may end here, after this text.
    fn may_end(self, text: &[u8]) -> bool
        requires { word_start self ≤ length text.now }
        ensures { result ≡ how.may_end (state_of text.now self) }
    {
        match self {
            Place::Front
            | Place::Label(_)
            | Place::Gap
            | Place::Goto(_)
            | Place::Back
            | Place::VerbGap => true,
            Place::Word { start, inner } => is_whole_verb(&text[start..], inner),
            Place::Params(depth) => depth == 0,
            Place::Condition { .. }
            | Place::Fixed { .. }
            | Place::Letter { .. }
            | Place::Text
            | Place::BeforeComma
            | Place::BeforeLabel => false,
        }
    }
}

fn in_front(before: &[u8], byte: u8) -> Option<Place>
    ensures { Steps (how.step byte how.Front) (before.now ++ byte ∷ []) result }
{
    if byte == b' ' {
        return Some(Place::Front);
    }
    if is_digit(byte) {
        return Some(Place::Label(1));
    }
    in_word(before.len(), false, before, byte)
}

fn in_label(length: usize, byte: u8) -> Option<Place>
    ensures { Goes (how.step byte (how.InLabel length)) result }
{
    if is_name_char(byte) && length < 12 {
        return Some(Place::Label(length + 1));
    }
    if byte == b' ' { Some(Place::Gap) } else { None }
}

fn in_gap(before: &[u8], byte: u8) -> Option<Place>
    ensures { Steps (how.step byte how.Gap) (before.now ++ byte ∷ []) result }
{
    if byte == b' ' {
        return Some(Place::Gap);
    }
    in_word(before.len(), false, before, byte)
}

/// In the word that begins at this byte of the text so far.
fn in_word(start: usize, inner: bool, before: &[u8], byte: u8) -> Option<Place>
    requires { start ≤ length before.now }
    ensures { Steps (how.in_word (drop start before.now) inner byte) (before.now ++ byte ∷ []) result }
{
    let word = &before[start..];
    if extends(word, byte) {
        return Some(Place::Word { start, inner });
    }
    if byte == b' ' && !word.is_empty() {
        behind_word(word, inner)
    } else {
        None
    }
}

fn behind_word(word: &[u8], inner: bool) -> Option<Place>
    ensures { Goes (how.state_behind_word word.now inner) result }
{
    if word == b"IF".as_slice() || word == b"WHENEVER".as_slice() {
        return Some(Place::Condition { negated: false });
    }
    if word == b"GOTO".as_slice() {
        return Some(Place::BeforeLabel);
    }
    if word == b"INPUT".as_slice() && inner {
        return None;
    }
    Some(Place::VerbGap)
}

/// Whether the word is a verb that may be used without parameters.
fn is_whole_verb(word: &[u8], inner: bool) -> bool
    ensures { result ≡ how.may_end (how.Word word.now inner) }
{
    let keyword = is_keyword(word);
    let input_inside = word == b"INPUT".as_slice() && inner;
    !word.is_empty() && !keyword && !input_inside
}

fn in_condition(negated: bool, byte: u8) -> Option<Place>
    ensures { Goes (how.test_from negated byte) result }
{
    match byte {
        b'N' if !negated => Some(fixed(b"OT ", Behind::Test)),
        b'C' => Some(fixed(b"OMMAND ERROR", Behind::Comma)),
        b'F' => Some(fixed(b"AILED", Behind::Comma)),
        b'H' => Some(fixed(b"ALTED(", Behind::Text)),
        b'D' => Some(fixed(b"ELETED(", Behind::Text)),
        b'P' => Some(fixed(b"RESENT(%", Behind::Letter { equals: false })),
        b'A' => Some(fixed(b"BSENT(%", Behind::Letter { equals: false })),
        b'S' => Some(fixed(b"TRING(%", Behind::Letter { equals: true })),
        _ => None,
    }
}

/// In a fixed text, or after it if it is empty.
fn fixed(text: &'static [u8], behind: Behind) -> Place
    ensures state { (before : List ℕ) → state_of before result ≡ how.fixed text.now (next_of behind) }
    ensures word { word_start result ≡ 0 }
{
    match text.split_first() {
        Some((byte, rest)) => Place::Fixed {
            byte: *byte,
            rest,
            behind,
        },
        None => behind_fixed(behind),
    }
}

fn behind_fixed(behind: Behind) -> Place
    ensures state { (text : List ℕ) → state_of text result ≡ how.behind_fixed (next_of behind) }
    ensures word { word_start result ≡ 0 }
{
    match behind {
        Behind::Test => Place::Condition { negated: true },
        Behind::Comma => Place::BeforeComma,
        Behind::Text => Place::Text,
        Behind::Letter { equals } => Place::Letter { equals },
    }
}

fn in_fixed(first: u8, rest: &'static [u8], behind: Behind, byte: u8) -> Option<Place>
    ensures { Goes (how.step byte (how.Fixed first rest.now (next_of behind))) result }
{
    if byte == first {
        Some(fixed(rest, behind))
    } else {
        None
    }
}

fn in_letter(equals: bool, byte: u8) -> Option<Place>
    ensures { Goes (how.step byte (how.Letter equals)) result }
{
    if !is_param_letter(byte) {
        return None;
    }
    if equals {
        Some(fixed(b")=(", Behind::Text))
    } else {
        Some(fixed(b")", Behind::Comma))
    }
}

fn in_text(byte: u8) -> Option<Place>
    ensures { Goes (how.step byte how.InText) result }
{
    if byte == b')' {
        return Some(Place::BeforeComma);
    }
    if is_printed(byte) && byte != b'(' {
        Some(Place::Text)
    } else {
        None
    }
}

fn in_comma(before: &[u8], byte: u8) -> Option<Place>
    ensures { Steps (how.step byte how.BeforeComma) (before.now ++ byte ∷ []) result }
{
    if byte != b',' {
        return None;
    }
    Some(Place::Word {
        start: before.len() + 1,
        inner: true,
    })
}

fn in_before_label(byte: u8) -> Option<Place>
    ensures { Goes (how.step byte how.ALabel) result }
{
    if is_digit(byte) {
        Some(Place::Goto(1))
    } else {
        None
    }
}

fn in_goto(count: usize, byte: u8) -> Option<Place>
    ensures { Goes (how.step byte (how.InGoto count)) result }
{
    if is_name_char(byte) && count < 12 {
        return Some(Place::Goto(count + 1));
    }
    in_back(byte)
}

fn in_back(byte: u8) -> Option<Place>
    ensures { Goes (how.step byte how.Back) result }
{
    if byte == b' ' {
        Some(Place::Back)
    } else {
        None
    }
}

fn in_verb_gap(byte: u8) -> Option<Place>
    ensures { Goes (how.step byte how.VerbGap) result }
{
    if byte == b' ' {
        return Some(Place::VerbGap);
    }
    in_params(0, byte)
}

fn in_params(depth: usize, byte: u8) -> Option<Place>
    requires { depth < 2 ^ 63 }
    ensures { Goes (how.in_params depth byte) result }
{
    match depth_at(depth, byte) {
        Some(next) => Some(Place::Params(next)),
        None => None,
    }
}

/// The number of open brackets after the next byte of parameters, if they can continue with it.
fn depth_at(depth: usize, byte: u8) -> Option<usize>
    requires { depth < 2 ^ 63 }
    ensures depth { how.in_params depth byte ≡ option_map how.Params result }
    ensures most { IfSome result (λ next. next ≤ depth + 1) }
{
    match byte {
        b'(' => Some(depth + 1),
        b')' if depth == 0 => None,
        b')' => Some(depth - 1),
        _ if is_printed(byte) => Some(depth),
        _ => None,
    }
}
