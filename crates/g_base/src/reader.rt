//! Reads the fields of a block in order.
ghost use Rattle.std.specs.Prelude.{◌≡◌, ℕ, ◌^◌, ◌<◌, ◌≤◌, List, ◌∷◌, ◌++◌, length, drop};
ghost use Rattle.g_base.specs.Fields.{number};

use byteorder::{BigEndian, ByteOrder};
use std::marker::Model;

/// A reader over bytes. Contracts see the bytes that are still unread.
#[derive(Drop)]
pub struct BlockReader<'a> {
    rest: &'a [u8],
}

impl<'a> Model for BlockReader<'a> {
    ghost use Rattle.std.specs.Prelude.{ℕ, List};

    ghost Value = { List ℕ };

    ghost view = { λ r. r.rest.now };
}

impl<'a> BlockReader<'a> {
    /// A reader at the first byte.
    pub fn new(bytes: &'a [u8]) -> Self
        ensures { result ≡ bytes.now }
    {
        BlockReader { rest: bytes }
    }

    /// Reads one byte.
    pub fn take_u8(&mut self) -> u8
        requires { 1 ≤ length self.old }
        ensures { self.old ≡ result ∷ self.new }
    {
        let x = self.rest[0];
        self.rest = &self.rest[1..];
        x
    }

    /// Reads the next `count` bytes.
    pub fn take_bytes(&mut self, count: usize) -> &'a [u8]
        requires { count ≤ length self.old }
        ensures all { self.old ≡ result.now ++ self.new }
        ensures count { length result.now ≡ count }
    {
        let (taken, rest) = self.rest.split_at(count);
        self.rest = rest;
        taken
    }

    /// Reads a big-endian number of two bytes.
    pub fn take_u16(&mut self) -> u16
        requires { 2 ≤ length self.old }
        ensures left { self.new ≡ drop 2 self.old }
        ensures again { (x : ℕ) (rest : List ℕ) → x < 2 ^ 16 → self.old ≡ number 2 x ++ rest
            → (result ≡ x) × (self.new ≡ rest) }
    {
        BigEndian::read_u16(self.take_bytes(2))
    }

    /// Reads a big-endian number of three bytes.
    pub fn take_u24(&mut self) -> u32
        requires { 3 ≤ length self.old }
        ensures left { self.new ≡ drop 3 self.old }
        ensures again { (x : ℕ) (rest : List ℕ) → x < 2 ^ 24 → self.old ≡ number 3 x ++ rest
            → (result ≡ x) × (self.new ≡ rest) }
    {
        BigEndian::read_u24(self.take_bytes(3))
    }

    /// Reads a big-endian number of four bytes.
    pub fn take_u32(&mut self) -> u32
        requires { 4 ≤ length self.old }
        ensures left { self.new ≡ drop 4 self.old }
        ensures again { (x : ℕ) (rest : List ℕ) → x < 2 ^ 32 → self.old ≡ number 4 x ++ rest
            → (result ≡ x) × (self.new ≡ rest) }
    {
        BigEndian::read_u32(self.take_bytes(4))
    }

    /// Reads a big-endian number of eight bytes.
    pub fn take_u64(&mut self) -> u64
        requires { 8 ≤ length self.old }
        ensures left { self.new ≡ drop 8 self.old }
        ensures again { (x : ℕ) (rest : List ℕ) → x < 2 ^ 64 → self.old ≡ number 8 x ++ rest
            → (result ≡ x) × (self.new ≡ rest) }
    {
        BigEndian::read_u64(self.take_bytes(8))
    }
}
