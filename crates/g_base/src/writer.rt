//! Writes the fields of a block in order.
ghost use Rattle.std.specs.Prelude.{◌≡◌, ◌+◌, ◌^◌, ◌<◌, ◌≤◌, [], ◌∷◌, ◌++◌, length, replicate};
ghost use Rattle.g_base.specs.Fields.{number, padded};

use crate::block::Block;
use byteorder::{BigEndian, ByteOrder};
use std::marker::Model;

/// A block under construction. Contracts see the bytes that were written so far; the others are zero.
#[derive(Drop)]
pub struct BlockWriter {
    block: Block,
    at: usize,
}

impl Model for BlockWriter {
    ghost use Rattle.std.specs.Prelude.{ℕ, List, take};
    ghost use Rattle.g_base.specs.Fields.{IsPartWritten};

    ghost Value = { List ℕ };

    ghost view = { λ w. take w.at w.block };

    ghost invariant = { λ w. IsPartWritten w.at w.block };
}

impl BlockWriter {
    /// A writer at the first byte of a block of zeros.
    pub fn new() -> Self
        ensures { result ≡ [] }
    {
        BlockWriter {
            block: [0; 512],
            at: 0,
        }
    }

    /// Writes one byte.
    pub fn put_u8(&mut self, x: u8)
        requires { length self.old < 512 }
        ensures { self.new ≡ self.old ++ x ∷ [] }
    {
        self.block[self.at] = x;
        self.at += 1;
    }

    /// Writes the bytes.
    pub fn put_bytes(&mut self, bytes: &[u8])
        requires { length self.old + length bytes.now ≤ 512 }
        ensures { self.new ≡ self.old ++ bytes.now }
    {
        let end = self.at + bytes.len();
        self.block[self.at..end].copy_from_slice(bytes);
        self.at = end;
    }

    /// Skips `count` bytes, which are already zero.
    pub fn put_zeros(&mut self, count: usize)
        requires { length self.old + count ≤ 512 }
        ensures { self.new ≡ self.old ++ replicate count 0 }
    {
        self.at += count;
    }

    /// Writes a field of `width` bytes: the bytes, padded with zeros.
    #[tactic(auto, unfolding(crate::specs::Fields::padded))]
    pub fn put_padded(&mut self, width: usize, bytes: &[u8])
        requires fits { length bytes.now ≤ width }
        requires room { length self.old + width ≤ 512 }
        ensures { self.new ≡ self.old ++ padded width bytes.now }
    {
        self.put_bytes(bytes);
        self.put_zeros(width - bytes.len());
    }

    /// Writes a big-endian number of two bytes.
    #[tactic(auto, unfolding(crate::specs::Fields::number))]
    pub fn put_u16(&mut self, x: u16)
        requires { length self.old + 2 ≤ 512 }
        ensures { self.new ≡ self.old ++ number 2 x }
    {
        let mut bytes = [0; 2];
        BigEndian::write_u16(&mut bytes, x);
        self.put_bytes(&bytes);
    }

    /// Writes a big-endian number of three bytes.
    #[tactic(auto, unfolding(crate::specs::Fields::number))]
    pub fn put_u24(&mut self, x: u32)
        requires fits { x < 2 ^ 24 }
        requires room { length self.old + 3 ≤ 512 }
        ensures { self.new ≡ self.old ++ number 3 x }
    {
        let mut bytes = [0; 3];
        BigEndian::write_u24(&mut bytes, x);
        self.put_bytes(&bytes);
    }

    /// Writes a big-endian number of four bytes.
    #[tactic(auto, unfolding(crate::specs::Fields::number))]
    pub fn put_u32(&mut self, x: u32)
        requires { length self.old + 4 ≤ 512 }
        ensures { self.new ≡ self.old ++ number 4 x }
    {
        let mut bytes = [0; 4];
        BigEndian::write_u32(&mut bytes, x);
        self.put_bytes(&bytes);
    }

    /// Writes a big-endian number of eight bytes.
    #[tactic(auto, unfolding(crate::specs::Fields::number))]
    pub fn put_u64(&mut self, x: u64)
        requires { length self.old + 8 ≤ 512 }
        ensures { self.new ≡ self.old ++ number 8 x }
    {
        let mut bytes = [0; 8];
        BigEndian::write_u64(&mut bytes, x);
        self.put_bytes(&bytes);
    }

    /// The bytes that were written so far.
    pub fn as_slice(&self) -> &[u8]
        ensures value { result.now ≡ self.now }
        ensures fits { length self.now ≤ 512 }
    {
        &self.block[..self.at]
    }

    /// The block: the bytes that were written, padded with zeros.
    pub fn finish(self) -> Block
        ensures { result ≡ padded 512 self }
    {
        self.block
    }

    /// The same by reference, so that no block is moved.
    pub fn block(&self) -> &Block
        ensures { result.now ≡ padded 512 self.now }
    {
        &self.block
    }

    /// Begins another block in the memory of this one.
    pub fn restart(&mut self)
        ensures { self.new ≡ [] }
    {
        // The bytes from `at` on are already zero.
        self.block[..self.at].fill(0);
        self.at = 0;
    }
}
