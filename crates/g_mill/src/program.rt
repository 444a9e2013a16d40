//! A program with its words, and the parts of its steps.

ghost use Rattle.std.specs.Prelude.{◌≡◌, ℕ, ◌+◌, ◌%◌, ◌^◌, ◌<◌, ◌≤◌, Some, None, false, length, vec_len, slice_get, slice_set};
ghost use Rattle.g_mill.specs.Machine.{size, word_at, words_for, characters, following, preceding, going_to, onward, copied, result_at};

use arrayvec::ArrayVec;
use g_word::{Word, byte_of};
use std::marker::Model;

/// The words of the longest program, and one more than the greatest address.
pub(crate) const LIMIT: u16 = 0x8000;

/// The same for addresses in the arithmetic of orders.
pub(crate) const ADDRESSES: u32 = 0x8000;

/// A program of 32 to 32,768 words. Contracts see its words, the address of its next order and its overflow.
#[derive(Drop)]
pub struct Program {
    words: Vec<Word>,
    next: u16,
    overflow: bool,
}

impl Model for Program {
    ghost use Rattle.std.specs.Prelude.{◌<◌, ◌≤◌, ◌^◌, vec_len};
    ghost use Rattle.g_mill.specs.Machine.{Machine};

    ghost Value = { Machine };

    ghost view = { λ p. record { words = p.words.items; next = p.next; overflow = p.overflow } };

    ghost invariant = { λ p. (32 ≤ vec_len p.words) × (vec_len p.words ≤ 2 ^ 15)
        × (p.next < 2 ^ 15) };
}

impl Program {
    /// A program of these words, at its address 0 with overflow clear.
    pub(crate) fn new(words: Vec<Word>) -> Program
        requires least { 32 ≤ vec_len words }
        requires most { vec_len words ≤ 2 ^ 15 }
        ensures { result ≡ record { words = words.items; next = 0; overflow = false } }
    {
        Program {
            words,
            next: 0,
            overflow: false,
        }
    }

    /// How many words it has.
    pub fn size(&self) -> u32
        ensures value { result ≡ size self.now }
        ensures least { 32 ≤ result }
        ensures most { result ≤ 2 ^ 15 }
    {
        self.words.len() as u32
    }

    /// The word at an address, or `None` if the program has none there.
    #[inline(always)]
    pub fn word(&self, address: u16) -> Option<Word>
        ensures { result ≡ slice_get self.now.words address }
    {
        self.words.get(usize::from(address)).copied()
    }

    /// The same for an address of an order.
    #[inline(always)]
    pub(crate) fn operand_at(&self, address: u32) -> Option<Word>
        ensures { result ≡ slice_get self.now.words address }
    {
        self.words.get(address as usize).copied()
    }

    /// The word at an address that the program has.
    pub fn word_in(&self, address: u16) -> Word
        requires { address < size self.now }
        ensures { result ≡ word_at self.now address }
    {
        self.words[usize::from(address)]
    }

    /// The bytes of the characters that begin at an address, four in each word.
    pub fn characters<const N: usize>(&self, from: u16, count: u8) -> ArrayVec<u8, N>
        requires room { count ≤ N }
        requires in_range { from ≤ 2 ^ 15 }
        requires within { from + words_for count ≤ size self.now }
        ensures length { length result.items ≡ count }
        ensures bytes { result.items ≡ characters self.now.words from count }
    {
        let mut bytes = ArrayVec::new();
        for i in 0..count {
            let word = self.word_in(from + u16::from(i / 4));
            bytes.push(byte_of(word.char_at(i % 4)));
        }
        bytes
    }

    /// Sets the word at an address of the program.
    pub fn set_word(&mut self, address: u16, word: Word)
        requires { address < size self.old }
        ensures { self.new ≡ record self.old { words = slice_set self.old.words address word } }
    {
        self.words[usize::from(address)] = word;
    }

    /// The address of the next order.
    #[inline(always)]
    pub fn next(&self) -> u16
        ensures value { result ≡ self.now.next }
        ensures in_range { result < 2 ^ 15 }
    {
        self.next
    }

    /// Whether overflow is set.
    #[inline(always)]
    pub fn overflow(&self) -> bool
        ensures { result ≡ self.now.overflow }
    {
        self.overflow
    }

    /// Starts the program at one of its ten entries, with overflow clear.
    pub fn enter(&mut self, entry: u8)
        requires { entry ≤ 9 }
        ensures { self.new ≡ record self.old { next = 20 + entry; overflow = false } }
    {
        self.next = 20 + u16::from(entry);
        self.overflow = false;
    }

    /// Sets the next address back by one, for an order that was executed and then refused.
    pub fn step_back(&mut self)
        ensures { self.new ≡ going_to self.old (preceding self.old.next) }
    {
        self.next = (self.next + (LIMIT - 1)) % LIMIT;
    }

    /// Writes a word to an address as the result of an order, and sets overflow if it was out of range.
    #[inline(always)]
    pub(crate) fn put(&mut self, address: u32, word: Word, overflow: bool)
        requires { address < size self.old }
        ensures { self.new ≡ result_at self.old address word overflow }
    {
        self.words[address as usize] = word;
        if overflow {
            self.overflow = true;
        }
    }

    /// Writes a word to an accumulator as the result of an order, and sets overflow if it was out of range.
    #[inline(always)]
    pub(crate) fn put_accumulator(&mut self, x: u32, word: Word, overflow: bool)
        requires { x < 8 }
        ensures { self.new ≡ result_at self.old x word overflow }
    {
        let is_within = x < self.size();
        prove!(is_within);
        self.put(x, word, overflow);
    }

    /// Sets the next address.
    #[inline(always)]
    pub(crate) fn go(&mut self, address: u32)
        requires { address < 2 ^ 15 }
        ensures { self.new ≡ going_to self.old address }
    {
        self.next = address as u16;
    }

    /// Continues after the order that was executed.
    #[inline(always)]
    pub(crate) fn go_on(&mut self)
        ensures { self.new ≡ onward self.old }
    {
        self.go(following(u32::from(self.next)));
    }

    /// Sets or clears overflow.
    #[inline(always)]
    pub(crate) fn set_overflow(&mut self, overflow: bool)
        ensures { self.new ≡ record self.old { overflow = overflow } }
    {
        self.overflow = overflow;
    }

    /// An accumulator.
    #[inline(always)]
    pub(crate) fn accumulator(&self, x: u32) -> Word
        requires { x < 8 }
        ensures { result ≡ word_at self.now x }
    {
        self.words[x as usize]
    }

    /// Copies words one after another, the first first.
    pub(crate) fn copy_words(&mut self, from: u32, to: u32, count: u32)
        requires from_within { from + count ≤ size self.old }
        requires to_within { to + count ≤ size self.old }
        ensures { self.new ≡ record self.old { words = copied count self.old.words from to } }
    {
        let (from, to) = (from as usize, to as usize);
        copy_words(self.words.as_mut_slice(), from, to, count as usize);
    }
}

/// Copies words one after another, the first first.
fn copy_words(words: &mut [Word], from: usize, to: usize, count: usize)
    requires from_within { from + count ≤ length words.old }
    requires to_within { to + count ≤ length words.old }
    ensures { words.new ≡ copied count words.old from to }
{
    for i in 0..count {
        words[to + i] = words[from + i];
    }
}

/// The next address, modulo 2^15.
#[inline(always)]
pub(crate) fn following(address: u32) -> u32
    requires { address < 2 ^ 15 }
    ensures value { result ≡ following address }
    ensures in_range { result < 2 ^ 15 }
{
    (address + 1) % ADDRESSES
}
