//! Files and streams of the operating system: each method is one system call. Their bytes aren't observable; if the answers are those
//! of plain files and streams, everything proved of those whose bytes are observable applies to them. No clause says anything about
//! their durability either: it is a property of bytes that are observable. A file counts its failed calls.
ghost use Rattle.std.specs.Prelude.{◌<◌, ◌≤◌, IfOk, None, length};
ghost use Rattle.g_files.specs.Durability.{all_durable};
ghost use Rattle.g_files.specs.StoredSectors.{none_read, none_whole};

use crate::names::{FileId, id_of};
use g_files::{RawFile, RawInput, RawOutput, count_fault};
use std::fs::File;
use std::io::{self, Error, ErrorKind, Read, Write};
use std::os::unix::fs::FileExt;

/// An open file of the system.
#[derive(Drop)]
pub struct HostFile {
    file: File,
    /// How many of the calls below failed.
    faults: u64,
}

impl HostFile {
    pub(crate) fn new(file: File) -> HostFile {
        HostFile { file, faults: 0 }
    }

    /// Waits until the file and what the system notes of it have reached the device.
    pub(crate) fn sync_all(&self) -> io::Result<()> {
        self.file.sync_all()
    }

    /// Which file it is.
    pub(crate) fn id(&self) -> io::Result<FileId> {
        id_of(&self.file)
    }
}

impl RawFile for HostFile {
    ghost content = { λ f. None };

    ghost durability = { λ f. all_durable };

    ghost faults = { λ f. f.faults };

    ghost remnants = { λ f. none_whole };

    ghost read_left = { λ f. none_read };

    fn len(&mut self) -> io::Result<u64> {
        let len = plain_len(&self.file);
        count_fault(&mut self.faults, &len);
        len
    }

    fn read_at(&mut self, into: &mut [u8], at: u64) -> io::Result<usize> {
        let read = self.file.read_at(into, at);
        count_fault(&mut self.faults, &read);
        read
    }

    fn write_at(&mut self, from: &[u8], at: u64) -> io::Result<usize> {
        let written = some_written(self.file.write_at(from, at), from);
        count_fault(&mut self.faults, &written);
        written
    }

    fn set_len(&mut self, len: u64) -> io::Result<()> {
        let set = self.file.set_len(len);
        count_fault(&mut self.faults, &set);
        set
    }

    fn sync(&mut self) -> io::Result<()> {
        let synced = self.file.sync_data();
        count_fault(&mut self.faults, &synced);
        synced
    }
}

/// The length of a plain file; `InvalidData` if it is none, since anything else has no length.
fn plain_len(file: &File) -> io::Result<u64> {
    let about = file.metadata()?;
    if !about.is_file() {
        return Err(Error::from(ErrorKind::InvalidData));
    }
    Ok(about.len())
}

/// The answer of a write; `WriteZero` if it wrote nothing of some bytes.
fn some_written(written: io::Result<usize>, from: &[u8]) -> io::Result<usize>
    requires { IfOk written (λ n. n ≤ length from.now) }
    ensures count { IfOk result (λ n. n ≤ length from.now) }
    ensures some { IfOk result (λ n. 0 < length from.now → 0 < n) }
{
    match written {
        Ok(0) if !from.is_empty() => Err(Error::from(ErrorKind::WriteZero)),
        Ok(count) => Ok(count),
        Err(fault) => Err(fault),
    }
}

/// A stream of the system to read from.
#[derive(Drop)]
pub struct HostInput<R: Read + Drop> {
    reader: R,
}

impl<R: Read + Drop> HostInput<R> {
    pub fn new(reader: R) -> Self {
        HostInput { reader }
    }
}

impl<R: Read + Drop> RawInput for HostInput<R> {
    ghost left = { λ s. None };

    fn read(&mut self, into: &mut [u8]) -> io::Result<usize> {
        self.reader.read(into)
    }
}

/// A stream of the system to write to.
#[derive(Drop)]
pub struct HostOutput<W: Write + Drop> {
    writer: W,
}

impl<W: Write + Drop> HostOutput<W> {
    pub fn new(writer: W) -> Self {
        HostOutput { writer }
    }
}

impl<W: Write + Drop> RawOutput for HostOutput<W> {
    ghost written = { λ s. None };

    fn write(&mut self, piece: &[u8]) -> io::Result<usize> {
        self.writer.write(piece)
    }
}
