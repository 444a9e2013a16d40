//! A range of neighbouring blocks of a file in memory: those that aren't written yet, or those that were read ahead.
ghost use Rattle.std.specs.Prelude.{◌≡◌, ◌⊎◌, ◌+◌, ◌-◌, ◌*◌, ◌^◌, ◌<◌, ◌≤◌, [], ◌++◌, length, take, true, false, IfOk};
ghost use Rattle.std.specs.Option.{ForSome};
ghost use Rattle.g_files.specs.Bytes.{part};
ghost use Rattle.g_files.specs.Window.{window};

use crate::raw::RawFile;
use g_base::Block;
use std::alloc::Global;
use std::io;
use std::marker::Model;

/// The most blocks of a window.
pub(crate) const MOST: u32 = 64;

/// The blocks of a file from `first` on, `count` of them and at most 64.
#[derive(Drop)]
pub(crate) struct Window {
    bytes: Vec<u8>,
    first: u32,
    count: u32,
}

impl Model for Window {
    ghost use Rattle.std.specs.Prelude.{◌≡◌, ◌≤◌, ◌*◌, length, take};
    ghost use Rattle.g_files.specs.Window.{Window};

    ghost Value = { Window };

    ghost view = { λ w. record { at = 512 * w.first; bytes = take (512 * w.count) w.bytes.items } };

    ghost invariant = { λ w. (length w.bytes.items ≡ 32768) × (w.count ≤ 64) };
}

impl Window {
    /// No block, and the memory for 64.
    pub fn new(alloc: Global) -> io::Result<Window>
        ensures { IfOk result (λ w. w ≡ window 0 []) }
    {
        Ok(Window {
            bytes: vec![in alloc; 0; 32_768]?,
            first: 0,
            count: 0,
        })
    }

    /// Copies block k to `into` if the window has it, and returns whether it has.
    pub fn copy(&self, k: u32, into: &mut Block) -> bool
        ensures within { result ≡ true → (self.now.at ≤ 512 * k) × (512 * k + 512 ≤ self.now.at + length self.now.bytes) }
        ensures copied { result ≡ true → into.new ≡ part (512 * k - self.now.at) 512 self.now.bytes }
        ensures outside { result ≡ false → (512 * k + 512 ≤ self.now.at) ⊎ (self.now.at + length self.now.bytes ≤ 512 * k) }
    {
        if k < self.first || k - self.first >= self.count {
            return false;
        }
        let at = 512 * (k - self.first) as usize;
        copy_block(&self.bytes, at, into);
        true
    }

    /// Whether it has no block.
    pub fn is_empty(&self) -> bool
        ensures { result ≡ true → self.now.bytes ≡ [] }
    {
        self.count == 0
    }

    /// Whether block k follows the last one; if the window is empty, whether the window starts at block k.
    pub fn is_next(&self, k: u32) -> bool
        ensures { result ≡ true → 512 * k ≡ self.now.at + length self.now.bytes }
    {
        k >= self.first && k - self.first == self.count
    }

    /// Whether it has 64 blocks.
    pub fn is_full(&self) -> bool
        ensures { result ≡ false → length self.now.bytes < 32768 }
    {
        self.count >= MOST
    }

    /// Drops all blocks. The window starts at block k now.
    pub fn restart(&mut self, k: u32)
        ensures { self.new ≡ window (512 * k) [] }
    {
        self.first = k;
        self.count = 0;
    }

    /// Appends a block.
    pub fn push(&mut self, block: &Block)
        requires { length self.old.bytes < 32768 }
        ensures { self.new ≡ window self.old.at (self.old.bytes ++ block.now) }
    {
        put_block(&mut self.bytes, self.count, block);
        self.count += 1;
    }

    /// The position of its first byte in the file.
    pub fn at(&self) -> u64
        ensures value { result ≡ self.now.at }
        ensures below { result < 2 ^ 41 }
    {
        512 * u64::from(self.first)
    }

    /// The bytes of its blocks.
    pub fn bytes(&self) -> &[u8]
        ensures value { result.now ≡ self.now.bytes }
        ensures few { length result.now ≤ 32768 }
    {
        &self.bytes[..512 * self.count as usize]
    }

    /// Drops block k and those that follow it.
    pub fn truncate(&mut self, k: u32)
        ensures { self.new ≡ window self.old.at (take (512 * k - self.old.at) self.old.bytes) }
    {
        let before = k.saturating_sub(self.first);
        self.count = self.count.min(before);
    }

    /// Replaces all blocks by those of the file from block k on: the whole blocks that one read of `wanted` blocks returns,
    /// and none if it fails.
    pub fn fetch<F: RawFile>(&mut self, file: &mut F, k: u32, wanted: u32)
        requires few { wanted ≤ 64 }
        ensures at { self.new.at ≡ 512 * k }
        ensures given { ForSome (F.content file.old) (λ bytes. self.new.bytes ≡ part self.new.at (length self.new.bytes) bytes) }
        ensures same { F.content file.new ≡ F.content file.old }
        ensures as_durable { F.durability file.new ≡ F.durability file.old }
    {
        self.first = k;
        self.count = read_blocks(file, &mut self.bytes, wanted, k);
    }
}

/// Copies the block that starts at byte `at`.
fn copy_block(bytes: &[u8], at: usize, into: &mut Block)
    requires { at + 512 ≤ length bytes.now }
    ensures { into.new ≡ part at 512 bytes.now }
{
    into.copy_from_slice(&bytes[at..at + 512]);
}

/// Writes a block at its place among these bytes.
fn put_block(bytes: &mut [u8], place: u32, block: &Block)
    requires room { length bytes.old ≡ 32768 }
    requires place { place < 64 }
    ensures room { length bytes.new ≡ 32768 }
    ensures front { take (512 * place + 512) bytes.new ≡ take (512 * place) bytes.old ++ block.now }
{
    let at = 512 * place as usize;
    bytes[at..at + 512].copy_from_slice(block);
}

/// Reads `wanted` blocks from block k on by one call, and returns how many whole ones it gave, 0 if it failed.
fn read_blocks<F: RawFile>(file: &mut F, bytes: &mut [u8], wanted: u32, k: u32) -> u32
    requires room { length bytes.old ≡ 32768 }
    requires few { wanted ≤ 64 }
    ensures room { length bytes.new ≡ 32768 }
    ensures few { result ≤ 64 }
    ensures given { ForSome (F.content file.old) (λ held. take (512 * result) bytes.new ≡ part (512 * k) (512 * result) held) }
    ensures same { F.content file.new ≡ F.content file.old }
    ensures as_durable { F.durability file.new ≡ F.durability file.old }
{
    match file.read_at(&mut bytes[..512 * wanted as usize], 512 * u64::from(k)) {
        Ok(count) => (count / 512) as u32,
        Err(_) => 0,
    }
}
