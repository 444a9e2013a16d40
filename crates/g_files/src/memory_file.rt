//! A file in memory, whose bytes are observable and durable at once. Its calls can be made short, and one of them can be made to fail.
ghost use Rattle.std.specs.Prelude.{◌≡◌, ◌<◌, ◌≤◌, IfOk, OnErr, OnOk, Some, false, length, replicate, take, true};
ghost use Rattle.g_base.specs.Counts.{Rose};
ghost use Rattle.g_files.specs.Bytes.{AreBytes, padded, put};
ghost use Rattle.g_files.specs.Durability.{stored};

use crate::raw::{RawFile, count_fault};
use g_base::raised;
use std::alloc::Global;
use std::io::{self, Error, ErrorKind};

/// A file in memory.
#[derive(Drop)]
pub struct MemoryFile {
    bytes: Vec<u8>,
    /// The most bytes that one call reads or writes.
    most: usize,
    /// Which call fails, where 1 is the next one; none fails if it is 0.
    fault: u32,
    /// How many bytes a write that fails writes.
    torn: usize,
    /// How many calls failed.
    faults: u64,
    ghost each: { AreBytes bytes.items },
    ghost moves: { 0 < most },
}

impl MemoryFile {
    ghost use Rattle.g_files.specs.MemoryFile.{bytes_of, faults_of};

    /// A file of `len` zeros. Its calls aren't short, and fail only if memory runs out.
    pub fn zeros(alloc: Global, len: usize) -> io::Result<MemoryFile>
        ensures { IfOk result (λ file. bytes_of file ≡ replicate len 0) }
    {
        Ok(MemoryFile {
            bytes: vec![in alloc; 0; len]?,
            most: usize::MAX,
            fault: 0,
            torn: 0,
            faults: 0,
        })
    }

    /// From now on a call reads or writes at most `most` bytes.
    pub fn shorten(&mut self, most: usize)
        requires { 0 < most }
        ensures { bytes_of self.new ≡ bytes_of self.old }
    {
        self.most = most;
    }

    /// Makes the k-th call from now on fail, where 1 is the next one. If it is a write, it writes at most the first `torn` bytes.
    pub fn fail(&mut self, k: u32, torn: usize)
        ensures { bytes_of self.new ≡ bytes_of self.old }
    {
        self.fault = k;
        self.torn = torn;
    }

    /// Counts a call, and returns whether it fails.
    fn fires(&mut self) -> bool
        ensures bytes { bytes_of self.new ≡ bytes_of self.old }
        ensures fault { result ≡ true → Rose (faults_of self.old) (faults_of self.new) }
        ensures none { result ≡ false → faults_of self.new ≡ faults_of self.old }
    {
        let fires = self.fault == 1;
        self.fault = self.fault.saturating_sub(1);
        if fires {
            self.faults = raised(self.faults);
        }
        fires
    }
}

impl RawFile for MemoryFile {
    ghost use Rattle.g_files.specs.StoredSectors.{stored_read, stored_whole};

    ghost content = { λ f. Some f.bytes.items };

    ghost durability = { λ f. stored f.bytes.items };

    ghost faults = { λ f. f.faults };

    ghost remnants = { λ f. stored_whole f.bytes.items f.each };

    ghost read_left = { λ f. stored_read f.bytes.items f.each };

    fn len(&mut self) -> io::Result<u64> {
        if self.fires() {
            return Err(Error::from(ErrorKind::Other));
        }
        Ok(self.bytes.len() as u64)
    }

    fn read_at(&mut self, into: &mut [u8], at: u64) -> io::Result<usize> {
        if self.fires() {
            return Err(Error::from(ErrorKind::Other));
        }
        let len = self.bytes.len();
        if at >= len as u64 {
            return Ok(0);
        }
        let at = at as usize;
        let count = into.len().min(len - at).min(self.most);
        into[..count].copy_from_slice(&self.bytes[at..at + count]);
        Ok(count)
    }

    fn write_at(&mut self, from: &[u8], at: u64) -> io::Result<usize> {
        let few = from.len().min(self.most);
        if !self.fires() {
            let written = write_bytes(&mut self.bytes, &from[..few], at as usize);
            count_fault(&mut self.faults, &written);
            return written;
        }
        let few = few.min(self.torn);
        let _torn = write_bytes(&mut self.bytes, &from[..few], at as usize);
        Err(Error::from(ErrorKind::Other))
    }

    fn set_len(&mut self, len: u64) -> io::Result<()> {
        if self.fires() {
            return Err(Error::from(ErrorKind::Other));
        }
        let set = resize(&mut self.bytes, len as usize);
        count_fault(&mut self.faults, &set);
        set
    }

    fn sync(&mut self) -> io::Result<()> {
        if self.fires() {
            return Err(Error::from(ErrorKind::Other));
        }
        Ok(())
    }
}

/// Writes these bytes at position `at`, either up to the end or from the end on, and returns how many.
fn write_bytes(bytes: &mut Vec<u8>, from: &[u8], at: usize) -> io::Result<usize>
    requires { at ≤ length bytes.old.items }
    ensures count { IfOk result (λ n. n ≤ length from.now) }
    ensures some { IfOk result (λ n. 0 < length from.now → 0 < n) }
    ensures written { IfOk result (λ n. bytes.new.items ≡ put at (take n from.now) bytes.old.items) }
    ensures kept { OnErr result (bytes.new.items ≡ bytes.old.items) }
{
    let len = bytes.len();
    if at >= len {
        return match bytes.extend_from_slice(from) {
            Ok(()) => Ok(from.len()),
            Err(_) => Err(Error::from(ErrorKind::OutOfMemory)),
        };
    }
    let count = from.len().min(len - at);
    bytes[at..at + count].copy_from_slice(&from[..count]);
    Ok(count)
}

/// Cuts the bytes to a length, or appends zeros.
fn resize(bytes: &mut Vec<u8>, len: usize) -> io::Result<()>
    ensures cut { OnOk result (bytes.new.items ≡ padded len bytes.old.items) }
    ensures kept { OnErr result (bytes.new.items ≡ bytes.old.items) }
{
    if len <= bytes.len() {
        bytes.truncate(len);
        return Ok(());
    }
    let more = len - bytes.len();
    if bytes.reserve(more).is_err() {
        return Err(Error::from(ErrorKind::OutOfMemory));
    }
    match bytes.resize(len, 0) {
        Ok(()) => Ok(()),
        Err(_) => Err(Error::from(ErrorKind::OutOfMemory)),
    }
}
