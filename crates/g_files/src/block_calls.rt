//! Calls on the blocks of a file: its last block is written, the file is cut at a block, and blocks are rewritten unchanged.
ghost use Rattle.std.specs.Prelude.{◌≡◌, ◌⊎◌, ◌+◌, ◌*◌, ◌<◌, ◌≤◌, ℕ, List, OnOk, is_ok, length, take, true};
ghost use Rattle.std.specs.Option.{ForSome};
ghost use Rattle.g_base.specs.ToldContent.{Changes};
ghost use Rattle.g_files.specs.Bytes.{AreBytes, part};
ghost use Rattle.g_files.specs.Growth.{Appends, Grows, Rewrites};
ghost use Rattle.g_files.specs.Durability.{SetsLength};
ghost use Rattle.g_files.specs.Faults.{FailsByFault};
ghost use Rattle.g_files.specs.Front.{IsCut, KeepsFront};

use crate::raw::RawFile;
use crate::whole::{read_whole, write_whole};
use g_base::Block;
use std::io;

/// The first byte of block k.
pub(crate) fn start_of(k: u32) -> u64
    ensures { result ≡ 512 * k }
{
    512 * u64::from(k)
}

/// Whether the file has at least n blocks; false if the system doesn't say.
pub(crate) fn has_blocks<F: RawFile>(file: &mut F, n: u32) -> bool
    ensures enough { result ≡ true → ForSome (F.content file.old) (λ bytes. 512 * n ≤ length bytes) }
    ensures bytes { ForSome (F.content file.old) AreBytes }
    ensures same { F.content file.new ≡ F.content file.old }
    ensures as_durable { F.durability file.new ≡ F.durability file.old }
{
    match file.len() {
        Ok(bytes) => start_of(n) <= bytes,
        Err(_) => false,
    }
}

/// Cuts the file at block k. If this fails, what the file has from there on may be cut anywhere.
pub(crate) fn cut_at<F: RawFile>(file: &mut F, k: u32) -> io::Result<()>
    requires long { ForSome (F.content file.old) (λ bytes. 512 * k ≤ length bytes) }
    ensures cut { Changes (IsCut (512 * k)) (F.content file.old) (F.content file.new) }
    ensures done { OnOk result (ForSome (F.content file.new) (λ bytes. length bytes ≡ 512 * k)) }
    ensures durability { SetsLength (512 * k) (F.content file.old) (F.content file.new) (F.durability file.old) (F.durability file.new) result }
    ensures cause { FailsByFault result (F.faults file.old) (F.faults file.new) }
{
    file.set_len(start_of(k))
}

/// Writes block k at the end of a file of k blocks. One call does it, since a block lies within a page and the system writes that
/// whole or not at all. If the system wrote less, the file is cut at block k, extended by a block and that is filled, so that a kill
/// at any of these calls leaves whole blocks.
pub(crate) fn put_last<F: RawFile>(file: &mut F, k: u32, block: &Block) -> io::Result<()>
    requires long { ForSome (F.content file.old) (λ bytes. 512 * k ≤ length bytes) }
    requires ends { ForSome (F.content file.old) (λ bytes. length bytes < 512 * k + 512) }
    requires room { k < 65536 }
    ensures front { Changes (KeepsFront (512 * k)) (F.content file.old) (F.content file.new) }
    ensures whole { OnOk result (ForSome (F.content file.new) (λ bytes. length bytes ≡ 512 * k + 512)) }
    ensures last { OnOk result (ForSome (F.content file.new) (λ bytes. part (512 * k) 512 bytes ≡ block.now)) }
    ensures durability { Appends k (F.durability file.old) (F.durability file.new) (is_ok result ≡ true) }
{
    if put_once(file, k, block) {
        return Ok(());
    }
    extend(file, k)?;
    fill(file, k, block)
}

/// Writes block k at the end of a file of k blocks by one call, and returns whether that wrote all of it.
fn put_once<F: RawFile>(file: &mut F, k: u32, block: &Block) -> bool
    requires long { ForSome (F.content file.old) (λ bytes. 512 * k ≤ length bytes) }
    requires ends { ForSome (F.content file.old) (λ bytes. length bytes < 512 * k + 512) }
    ensures front { Changes (KeepsFront (512 * k)) (F.content file.old) (F.content file.new) }
    ensures whole { result ≡ true → ForSome (F.content file.new) (λ bytes. length bytes ≡ 512 * k + 512) }
    ensures last { result ≡ true → ForSome (F.content file.new) (λ bytes. part (512 * k) 512 bytes ≡ block.now) }
    ensures durability { Appends k (F.durability file.old) (F.durability file.new) (result ≡ true) }
{
    match file.write_at(block, start_of(k)) {
        Ok(count) => count == 512,
        Err(_) => false,
    }
}

/// Cuts the file at block k, and extends it by a block.
fn extend<F: RawFile>(file: &mut F, k: u32) -> io::Result<()>
    requires long { ForSome (F.content file.old) (λ bytes. 512 * k ≤ length bytes) }
    requires room { k < 65536 }
    ensures front { Changes (KeepsFront (512 * k)) (F.content file.old) (F.content file.new) }
    ensures whole { OnOk result (ForSome (F.content file.new) (λ bytes. length bytes ≡ 512 * k + 512)) }
    ensures grows { Grows k (F.durability file.old).remnants (F.durability file.new).remnants }
    ensures syncable { (j : ℕ) → j < 512 * k → (F.durability file.old).syncable j ≡ true → (F.durability file.new).syncable j ≡ true }
    ensures sized { OnOk result ((F.durability file.new).sized ≡ true) }
{
    file.set_len(start_of(k))?;
    file.set_len(start_of(k + 1))
}

/// Writes block k, which is the last one of the file.
fn fill<F: RawFile>(file: &mut F, k: u32, block: &Block) -> io::Result<()>
    requires whole { ForSome (F.content file.old) (λ bytes. length bytes ≡ 512 * k + 512) }
    ensures front { Changes (KeepsFront (512 * k)) (F.content file.old) (F.content file.new) }
    ensures whole { OnOk result (ForSome (F.content file.new) (λ bytes. length bytes ≡ 512 * k + 512)) }
    ensures last { OnOk result (ForSome (F.content file.new) (λ bytes. part (512 * k) 512 bytes ≡ block.now)) }
    ensures durability { Appends k (F.durability file.old) (F.durability file.new) (is_ok result ≡ true) }
{
    write_whole(file, block, start_of(k))
}

/// Rewrites the blocks from `from` up to `to` with the bytes that are read there.
pub(crate) fn rewrite<F: RawFile>(file: &mut F, from: u32, to: u32) -> io::Result<()>
    requires long { ForSome (F.content file.old) (λ bytes. 512 * to ≤ length bytes) }
    ensures same { F.content file.new ≡ F.content file.old }
    ensures durability { Rewrites from to (F.durability file.old) (F.durability file.new) (is_ok result ≡ true) }
{
    for k in from..to {
        rewrite_block(file, k)?;
    }
    Ok(())
}

/// Reads block k and writes it unchanged.
fn rewrite_block<F: RawFile>(file: &mut F, k: u32) -> io::Result<()>
    requires long { ForSome (F.content file.old) (λ bytes. 512 * k + 512 ≤ length bytes) }
    ensures same { F.content file.new ≡ F.content file.old }
    ensures durability { Rewrites k (k + 1) (F.durability file.old) (F.durability file.new) (is_ok result ≡ true) }
{
    let mut block = [0; 512];
    read_block(file, k, &mut block)?;
    write_again(file, k, &block)
}

/// Reads block k.
pub(crate) fn read_block<F: RawFile>(file: &mut F, k: u32, into: &mut Block) -> io::Result<()>
    ensures block { OnOk result (ForSome (F.content file.old) (λ bytes. into.new ≡ part (512 * k) 512 bytes)) }
    ensures same { F.content file.new ≡ F.content file.old }
    ensures as_durable { F.durability file.new ≡ F.durability file.old }
{
    read_whole(file, into, start_of(k))
}

/// Writes block k as it is.
fn write_again<F: RawFile>(file: &mut F, k: u32, block: &Block) -> io::Result<()>
    requires long { ForSome (F.content file.old) (λ bytes. 512 * k + 512 ≤ length bytes) }
    requires block { ForSome (F.content file.old) (λ bytes. block.now ≡ part (512 * k) 512 bytes) }
    ensures same { F.content file.new ≡ F.content file.old }
    ensures durability { Rewrites k (k + 1) (F.durability file.old) (F.durability file.new) (is_ok result ≡ true) }
{
    write_whole(file, block, start_of(k))
}

/// Cuts the file at block k, after a write of that block failed. Returns how many blocks the file has then: if it can't be cut, it may
/// have block k.
pub(crate) fn drop_last<F: RawFile>(file: &mut F, k: u32) -> u32
    requires room { k < 65536 }
    requires long { ForSome (F.content file.old) (λ bytes. 512 * k ≤ length bytes) }
    requires bytes { ForSome (F.content file.old) (λ bytes. AreBytes (take (512 * k) bytes)) }
    ensures count { (result ≡ k) ⊎ (result ≡ k + 1) }
    ensures long { ForSome (F.content file.new) (λ bytes. 512 * result ≤ length bytes) }
    ensures bytes { ForSome (F.content file.new) AreBytes }
    ensures front { Changes (KeepsFront (512 * k)) (F.content file.old) (F.content file.new) }
    ensures grows { Grows k (F.durability file.old).remnants (F.durability file.new).remnants }
{
    if cut_at(file, k).is_ok() {
        return k;
    }
    if has_blocks(file, k + 1) { k + 1 } else { k }
}
