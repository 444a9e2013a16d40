//! Reads and writes of whole ranges, by as many system calls as they take.
ghost use Rattle.std.specs.Prelude.{◌≡◌, ◌+◌, ◌^◌, ◌<◌, ◌≤◌, ◌↔◌, length, IsTrue, OnOk};
ghost use Rattle.std.specs.Option.{ForSome};
ghost use Rattle.std.specs.IoError.{error_kind};
ghost use Rattle.g_base.specs.ToldContent.{Changes};
ghost use Rattle.g_files.specs.Bytes.{AreBytes, part};
ghost use Rattle.g_files.specs.Calls.{HasWrittenAll};
ghost use Rattle.g_files.specs.Durability.{HasSyncable, WritesDurability};
ghost use Rattle.g_files.specs.Faults.{FailsByFault};

use crate::raw::RawFile;
use std::io::{self, Error, ErrorKind};

/// Fills the buffer from position `at` on. A read that a signal interrupted is repeated. `UnexpectedEof` if the file ends
/// within the range.
pub(crate) fn read_whole<F: RawFile>(file: &mut F, into: &mut [u8], at: u64) -> io::Result<()>
    requires fits { at + length into.old < 2 ^ 63 }
    ensures given { OnOk result (ForSome (F.content file.old) (λ bytes. into.new ≡ part at (length into.old) bytes)) }
    ensures same { F.content file.new ≡ F.content file.old }
    ensures as_durable { F.durability file.new ≡ F.durability file.old }
{
    let mut done = 0;
    for _call in 0..u64::MAX {
        if done >= into.len() {
            return Ok(());
        }
        match file.read_at(&mut into[done..], at + done as u64) {
            Ok(0) => return Err(Error::from(ErrorKind::UnexpectedEof)),
            Ok(count) => done += count,
            Err(fault) if is_interrupted(&fault) => {}
            Err(fault) => return Err(fault),
        }
    }
    Err(Error::from(ErrorKind::Interrupted))
}

/// Writes all of these bytes at position `at`. A write that a signal interrupted is repeated. After an error, each byte of
/// the range is the old one or the one to be written.
pub(crate) fn write_whole<F: RawFile>(file: &mut F, from: &[u8], at: u64) -> io::Result<()>
    requires fits { at + length from.now < 2 ^ 63 }
    requires within { ForSome (F.content file.old) (λ bytes. at ≤ length bytes) }
    requires bytes { AreBytes from.now }
    ensures written { Changes (HasWrittenAll at from.now result) (F.content file.old) (F.content file.new) }
    ensures durability { WritesDurability at from.now (F.content file.old) (F.durability file.old) (F.durability file.new) result }
    ensures syncable { OnOk result (HasSyncable at (length from.now) (F.durability file.new)) }
    ensures cause { FailsByFault result (F.faults file.old) (F.faults file.new) }
{
    let mut done = 0;
    for _call in 0..u64::MAX {
        if done >= from.len() {
            return Ok(());
        }
        match file.write_at(&from[done..], at + done as u64) {
            Ok(0) => return Err(Error::from(ErrorKind::WriteZero)),
            Ok(count) => done += count,
            Err(fault) if is_interrupted(&fault) => {}
            Err(fault) => return Err(fault),
        }
    }
    Err(Error::from(ErrorKind::Interrupted))
}

/// Whether a signal interrupted the call, which then did nothing.
pub(crate) fn is_interrupted(fault: &Error) -> bool
    ensures { IsTrue result ↔ (error_kind fault.now ≡ ErrorKind.Interrupted) }
{
    fault.kind() == ErrorKind::Interrupted
}
