//! A reader of paths that consumes one byte at a time.
ghost use Rattle.std.specs.Prelude.{◌≡◌, ◌↔◌, ◌&&◌, true, if◌then◌else◌, Some, None, IsSome, IfSome};
ghost use Rattle.std.specs.Bool.{OnTrue, OnFalse};
ghost use Rattle.g_name.specs.Grammar.{is_digit, is_word};
ghost use Rattle.g_name.specs.Names.{path_name};
ghost use Rattle.g_name.specs.Reading as reading;
ghost use Rattle.g_name.specs.ReadingText.{IsReading};
ghost use Rattle.g_name.specs.Words.{may_be_word};

use crate::grammar::{extends, is_name_char};
use crate::short::Short;
use crate::{Lang, Local, Path, User};

/// The part of a path's text that a reader is in.
#[derive(Clone, Copy, PartialEq, Eq)]
enum Part {
    /// After the colon.
    User,
    /// At the beginning, or after the dot.
    Local,
    /// After the opening bracket.
    Generation,
    /// After the slash.
    Lang,
    /// After the closing bracket, without a slash before it.
    Closed,
    /// After the closing bracket, with a slash before it.
    LangClosed,
}

/// The parts of a path that have been read. A part that isn't reached yet is empty, or 0.
#[derive(Drop)]
pub struct PathReader {
    part: Part,
    user: Short<16>,
    local: Short<16>,
    generation: u16,
    lang: Short<4>,
}

impl PathReader {
    /// A reader at the first byte.
    pub fn new() -> PathReader
        ensures { result ≡ reading.start }
    {
        PathReader {
            part: Part::Local,
            user: Short::new(),
            local: Short::new(),
            generation: 0,
            lang: Short::new(),
        }
    }

    /// Consumes the next byte, if some path continues with it.
    pub fn take(&mut self, byte: u8) -> bool
        ensures taken { OnTrue result (reading.step byte self.old ≡ Some self.new) }
        ensures refused { OnFalse result (reading.step byte self.old ≡ None) }
    {
        match self.part {
            Part::User => self.take_user(byte),
            Part::Local => self.take_local(byte),
            Part::Generation => self.take_generation(byte),
            Part::Lang => self.take_lang(byte),
            Part::Closed | Part::LangClosed => false,
        }
    }

    fn take_user(&mut self, byte: u8) -> bool
        ensures taken { OnTrue result (reading.step_user byte self.old ≡ Some self.new) }
        ensures refused { OnFalse result (reading.step_user byte self.old ≡ None) }
    {
        if extends(self.user.as_slice(), byte) {
            self.user.push(byte);
            true
        } else if byte == b'.' && !self.user.is_empty() {
            self.part = Part::Local;
            true
        } else {
            false
        }
    }

    fn take_local(&mut self, byte: u8) -> bool
        ensures taken { OnTrue result (reading.step_local byte self.old ≡ Some self.new) }
        ensures refused { OnFalse result (reading.step_local byte self.old ≡ None) }
    {
        if extends(self.local.as_slice(), byte) {
            self.local.push(byte);
            true
        } else if byte == b':' && self.user.is_empty() && self.local.is_empty() {
            self.part = Part::User;
            true
        } else if byte == b'(' && !self.local.is_empty() {
            self.part = Part::Generation;
            true
        } else {
            false
        }
    }

    fn take_generation(&mut self, byte: u8) -> bool
        ensures taken { OnTrue result (reading.step_generation byte self.old ≡ Some self.new) }
        ensures refused { OnFalse result (reading.step_generation byte self.old ≡ None) }
    {
        if let Some(generation) = with_digit(self.generation, byte) {
            self.generation = generation;
            true
        } else if byte == b'/' {
            self.part = Part::Lang;
            true
        } else if byte == b')' && self.generation != 0 {
            self.part = Part::Closed;
            true
        } else {
            false
        }
    }

    fn take_lang(&mut self, byte: u8) -> bool
        ensures taken { OnTrue result (reading.step_lang byte self.old ≡ Some self.new) }
        ensures refused { OnFalse result (reading.step_lang byte self.old ≡ None) }
    {
        if is_name_char(byte) && !self.lang.is_full() {
            self.lang.push(byte);
            true
        } else if byte == b')' {
            self.part = Part::LangClosed;
            true
        } else {
            false
        }
    }

    /// The path that was read, if a path may end here.
    pub fn path(self) -> Option<Path>
        requires { IsReading self }
        ensures whole { IsSome result ↔ (reading.is_whole self ≡ true) }
        ensures value { IfSome result (λ p. path_name p ≡ reading.name_read self) }
    {
        match self.part {
            Part::Local if self.local.is_empty() => None,
            Part::Local | Part::Closed => Some(self.named(false)),
            Part::LangClosed => Some(self.named(true)),
            Part::User | Part::Generation | Part::Lang => None,
        }
    }

    /// The path of the parts that were read.
    fn named(self, has_lang: bool) -> Path
        requires parts { IsReading self }
        requires local { is_word self.local ≡ true }
        ensures user { result.user ≡ reading.user_read self.user }
        ensures local { result.local ≡ self.local }
        ensures generation { result.generation ≡ reading.generation_read self.generation }
        ensures lang { result.lang ≡ (if has_lang then Some self.lang else None) }
    {
        let lang = Lang::from_characters(self.lang);
        Path {
            user: user_of(self.user),
            local: Local::from_word(self.local),
            generation: generation_of(self.generation),
            lang: has_lang.then_some(lang),
        }
    }
}

/// The user, if one was read after the colon.
fn user_of(word: Short<16>) -> Option<User>
    requires { may_be_word word ≡ true }
    ensures { result ≡ reading.user_read word }
{
    if word.is_empty() {
        None
    } else {
        Some(User::from_word(word))
    }
}

/// The generation that was read, if there was one.
fn generation_of(read: u16) -> Option<u16>
    ensures { result ≡ reading.generation_read read }
{
    (read != 0).then_some(read)
}

/// The generation with one more digit, if the byte is a digit and the result is a valid generation.
fn with_digit(generation: u16, byte: u8) -> Option<u16>
    ensures digit { IsSome result ↔ ((is_digit byte && reading.is_generation (reading.with_digit generation byte)) ≡ true) }
    ensures value { IfSome result (λ g. g ≡ reading.with_digit generation byte) }
{
    if !byte.is_ascii_digit() {
        return None;
    }
    let longer = 10 * u32::from(generation) + u32::from(byte - b'0');
    if (1..=4095).contains(&longer) {
        u16::try_from(longer).ok()
    } else {
        None
    }
}
