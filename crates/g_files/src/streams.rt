//! A source and a sink on streams of the system, by single calls.
ghost use Rattle.std.specs.Prelude.{◌≡◌, ◌<◌, ◌≤◌, ℕ, IfErr, IfOk, List, OnErr, OnOk, Option, length, take};
ghost use Rattle.std.specs.IoError.{error_kind};
ghost use Rattle.std.specs.Option.{ForSome};
ghost use Rattle.g_io.specs.Streams.{HasPutPart, Takes, with_more};

use crate::whole::is_interrupted;
use g_base::{ReadFailed, WriteFailed, raised};
use g_io::{Sink, Source};
use std::io::{self, Error, ErrorKind};

/// A stream to read from; its method is one system call.
pub trait RawInput {
    /// The bytes that are left, if they are observable.
    ghost left: { Self → Option (List ℕ) };

    /// Moves some bytes from the front of what is left to the front of `into`, and returns how many: 0 only if nothing is left.
    /// An error leaves everything; a call that a signal interrupted doesn't change the buffer either.
    fn read(&mut self, into: &mut [u8]) -> io::Result<usize>
        requires { 0 < length into.old }
        ensures count { IfOk result (λ n. n ≤ length into.new) }
        ensures taken { IfOk result (λ n. Takes (left self.old) n into.old into.new (left self.new)) }
        ensures same { OnErr result (left self.new ≡ left self.old) }
        ensures interrupted { IfErr result (λ e. error_kind e ≡ ErrorKind.Interrupted → ForSome (left self.old) (λ _. into.new ≡ into.old)) };
}

/// A stream to write to; its method is one system call.
pub trait RawOutput {
    /// The bytes that were written, if they are observable.
    ghost written: { Self → Option (List ℕ) };

    /// Appends some of these bytes, and returns how many. An error appends nothing.
    fn write(&mut self, piece: &[u8]) -> io::Result<usize>
        ensures count { IfOk result (λ n. n ≤ length piece.now) }
        ensures put { IfOk result (λ n. written self.new ≡ with_more (written self.old) (take n piece.now)) }
        ensures same { OnErr result (written self.new ≡ written self.old) };
}

/// A source on a stream. A read that a signal interrupted is repeated.
#[derive(Drop)]
pub struct StdSource<I: RawInput + Drop> {
    input: I,
    faults: u64,
}

impl<I: RawInput + Drop> StdSource<I> {
    pub fn new(input: I) -> Self {
        StdSource { input, faults: 0 }
    }
}

impl<I: RawInput + Drop> Source for StdSource<I> {
    ghost left = { λ s. I.left s.input };

    ghost faults = { λ s. s.faults };

    fn take(&mut self, into: &mut [u8]) -> Result<usize, ReadFailed> {
        match read_some(&mut self.input, into) {
            Ok(count) => Ok(count),
            Err(_) => {
                self.faults = raised(self.faults);
                Err(ReadFailed)
            }
        }
    }
}

/// Reads some bytes. A read that a signal interrupted is repeated.
fn read_some<I: RawInput>(input: &mut I, into: &mut [u8]) -> io::Result<usize>
    requires { 0 < length into.old }
    ensures count { IfOk result (λ n. n ≤ length into.old) }
    ensures taken { IfOk result (λ n. Takes (I.left input.old) n into.old into.new (I.left input.new)) }
    ensures same { OnErr result (I.left input.new ≡ I.left input.old) }
{
    for _call in 0..u64::MAX {
        match input.read(into) {
            Ok(count) => return Ok(count),
            Err(fault) if is_interrupted(&fault) => {}
            Err(fault) => return Err(fault),
        }
    }
    Err(Error::from(ErrorKind::Interrupted))
}

/// A sink on a stream.
#[derive(Drop)]
pub struct StdSink<O: RawOutput + Drop> {
    output: O,
    faults: u64,
}

impl<O: RawOutput + Drop> StdSink<O> {
    pub fn new(output: O) -> Self {
        StdSink { output, faults: 0 }
    }
}

impl<O: RawOutput + Drop> Sink for StdSink<O> {
    ghost written = { λ s. O.written s.output };

    ghost faults = { λ s. s.faults };

    fn put(&mut self, piece: &[u8]) -> Result<(), WriteFailed> {
        match put_whole(&mut self.output, piece) {
            Ok(()) => Ok(()),
            Err(_) => {
                self.faults = raised(self.faults);
                Err(WriteFailed)
            }
        }
    }
}

/// Appends the piece, by as many calls as it takes; after an error, a prefix of it is appended.
fn put_whole<O: RawOutput>(output: &mut O, piece: &[u8]) -> io::Result<()>
    ensures put { OnOk result (O.written output.new ≡ with_more (O.written output.old) piece.now) }
    ensures part { OnErr result (HasPutPart (O.written output.old) piece.now (O.written output.new)) }
{
    let mut done = 0;
    for _call in 0..u64::MAX {
        if done >= piece.len() {
            return Ok(());
        }
        match output.write(&piece[done..]) {
            Ok(0) => return Err(Error::from(ErrorKind::WriteZero)),
            Ok(count) => done += count,
            Err(fault) if is_interrupted(&fault) => {}
            Err(fault) => return Err(fault),
        }
    }
    Err(Error::from(ErrorKind::Interrupted))
}
