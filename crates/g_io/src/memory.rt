//! A source and a sink in memory, for tests. They expose their bytes, and chosen calls fail.
ghost use Rattle.std.specs.Prelude.{◌≡◌, ℕ, ◌+◌, ◌-◌, ◌<◌, ◌≤◌, ◌⊎◌, ◌↔◌, List, [], ◌++◌, length, drop, Some, min, take, IfOk, OnOk, OnErr, IsErr, Contains, vec_len, vec_capacity};
ghost use Rattle.g_base.specs.Counts.{one_more};
ghost use Rattle.g_io.specs.Streams.{Takes, with_more, HasPutPart, CountsFault};
ghost use Rattle.g_io.specs.Memory.{SourceView, SinkView};

use crate::stream::{Sink, Source};
use g_base::{NoMemory, ReadFailed, WriteFailed, raised};
use std::alloc::Global;
use std::marker::Model;

/// A source that reads from memory.
#[derive(Drop)]
pub struct MemorySource {
    bytes: Vec<u8>,
    at: usize,
    fail: Vec<u64>,
    calls: u64,
    faults: u64,
}

impl Model for MemorySource {
    ghost Value = { SourceView };

    ghost view = { λ s. record { left = drop s.at s.bytes.items; fail = s.fail.items; calls = s.calls; faults = s.faults } };

    ghost invariant = { λ s. s.at ≤ vec_len s.bytes };
}

impl MemorySource {
    /// A source of these bytes. Exactly the calls of `take` whose numbers, counted from 1, are in `fail` fail.
    pub fn new(bytes: Vec<u8>, fail: Vec<u64>) -> MemorySource
        ensures { result ≡ record { left = bytes.items; fail = fail.items; calls = 0; faults = 0 } }
    {
        MemorySource {
            bytes,
            at: 0,
            fail,
            calls: 0,
            faults: 0,
        }
    }
}

/// Copies as much of the front of `from` as fits to the front of `into` and returns the number of bytes.
fn copy_front(from: &[u8], into: &mut [u8]) -> usize
    ensures count { result ≡ min (length from.now) (length into.old) }
    ensures copied { into.new ≡ take result from.now ++ drop result into.old }
{
    let count = from.len().min(into.len());
    into[..count].copy_from_slice(&from[..count]);
    count
}

impl Source for MemorySource {
    ghost left = { λ s. Some s.left };

    ghost faults = { λ s. s.faults };

    fn take(&mut self, into: &mut [u8]) -> Result<usize, ReadFailed>
        requires { 0 < length into.old }
        ensures taken { IfOk result (λ n. Takes (Some self.old.left) n into.old into.new (Some self.new.left)) }
        ensures within { IfOk result (λ n. n ≤ length into.old) }
        ensures same { OnErr result (self.new.left ≡ self.old.left) }
        ensures cause { CountsFault result self.old.faults self.new.faults }
        ensures failed { IsErr result ↔ Contains self.old.fail (one_more self.old.calls) }
        ensures counted { (self.new.calls ≡ one_more self.old.calls) × (self.new.fail ≡ self.old.fail) }
    {
        self.calls = raised(self.calls);
        if self.fail.contains(&self.calls) {
            self.faults = raised(self.faults);
            return Err(ReadFailed);
        }
        let count = copy_front(&self.bytes[self.at..], into);
        self.at += count;
        Ok(count)
    }
}

/// A sink that appends to memory.
#[derive(Drop)]
pub struct MemorySink {
    text: Vec<u8>,
    room: usize,
    fail: Vec<u64>,
    calls: u64,
    faults: u64,
}

impl Model for MemorySink {
    ghost Value = { SinkView };

    ghost view = { λ s. record { text = s.text.items; room = s.room; fail = s.fail.items; calls = s.calls; faults = s.faults } };

    ghost invariant = { λ s. (vec_len s.text ≤ s.room) × (s.room ≤ vec_capacity s.text) };
}

impl MemorySink {
    /// An empty sink with a capacity of `room` bytes, allocated at once. The calls of `put` that fail are those whose
    /// numbers, counted from 1, are in `fail`, and those whose piece exceeds the remaining capacity.
    pub fn new(alloc: Global, room: usize, fail: Vec<u64>) -> Result<MemorySink, NoMemory>
        ensures { IfOk result (λ s. s ≡ record { text = []; room = room; fail = fail.items; calls = 0; faults = 0 }) }
    {
        let text = Vec::with_capacity(alloc, room)?;
        Ok(MemorySink {
            text,
            room,
            fail,
            calls: 0,
            faults: 0,
        })
    }

    /// The bytes that were written.
    pub fn text(&self) -> &[u8]
        ensures { result.now ≡ self.now.text }
    {
        self.text.as_slice()
    }
}

impl Sink for MemorySink {
    ghost written = { λ s. Some s.text };

    ghost faults = { λ s. s.faults };

    /// As the trait states; in addition, a failing call appends nothing.
    fn put(&mut self, piece: &[u8]) -> Result<(), WriteFailed>
        ensures put { OnOk result (Some self.new.text ≡ with_more (Some self.old.text) piece.now) }
        ensures part { OnErr result (HasPutPart (Some self.old.text) piece.now (Some self.new.text)) }
        ensures nothing { OnErr result (self.new.text ≡ self.old.text) }
        ensures cause { CountsFault result self.old.faults self.new.faults }
        ensures failed { IsErr result ↔ (Contains self.old.fail (one_more self.old.calls) ⊎ (self.old.room < length self.old.text + length piece.now)) }
        ensures counted { (self.new.calls ≡ one_more self.old.calls) × (self.new.fail ≡ self.old.fail) × (self.new.room ≡ self.old.room) }
    {
        self.calls = raised(self.calls);
        if self.fail.contains(&self.calls) || self.room - self.text.len() < piece.len() {
            self.faults = raised(self.faults);
            return Err(WriteFailed);
        }
        match self.text.extend_from_slice(piece) {
            Ok(()) => Ok(()),
            Err(_) => unreachable!(),
        }
    }
}
