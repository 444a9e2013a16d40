//! The two errors of a device, a source or a sink.
use std::error::Error;
use std::fmt;

/// A read failed. Returned only if the count of read faults rose.
#[derive(Clone, Copy, Debug, PartialEq, Eq)]
pub struct ReadFailed;

impl fmt::Display for ReadFailed {
    fn fmt<W: fmt::Write>(&self, f: &mut fmt::Formatter<W>) -> fmt::Result {
        write!(f, "a read failed")
    }
}

impl Error for ReadFailed {}

/// A write failed: what it should have replaced is unchanged or torn. Returned only if the count of write faults rose.
#[derive(Clone, Copy, Debug, PartialEq, Eq)]
pub struct WriteFailed;

impl fmt::Display for WriteFailed {
    fn fmt<W: fmt::Write>(&self, f: &mut fmt::Formatter<W>) -> fmt::Result {
        write!(f, "a write failed")
    }
}

impl Error for WriteFailed {}
