//! An open file, accessed by single system calls.
ghost use Rattle.std.specs.Prelude.{◌≡◌, ℕ, ◌<◌, ◌≤◌, All, List, Option, length, IfOk, IfErr, OnOk};
ghost use Rattle.std.specs.Option.{ForSome};
ghost use Rattle.std.specs.IoError.{error_kind};
ghost use Rattle.g_base.specs.ToldContent.{Changes};
ghost use Rattle.g_files.specs.Bytes.{AreBytes};
ghost use Rattle.g_files.specs.Calls.{HasCut, HasRead, HasWritten};
ghost use Rattle.g_files.specs.Durability.{Durability, AreSectorsSynced, DurableAreSyncable, HasSyncable, SetsLength, SyncsDurability, WritesDurability};
ghost use Rattle.g_files.specs.Sectors.{IsWhole, LeavesRead};
ghost use Rattle.g_io.specs.Streams.{CountsFault};

use g_base::raised;
use std::io::{self, ErrorKind};

/// An open file; each method is one system call. If its bytes are observable, the calls behave as on a plain file that no
/// other process writes. If they aren't, the contract says nothing about the answers.
pub trait RawFile {
    /// The bytes of the file, if they are observable.
    ghost content: { Self → Option (List ℕ) };

    /// Which of its bytes survive a power loss; and, if its length changes, what a power loss may leave of it.
    ghost durability: { Self → Durability };

    /// How many of its calls failed. The count saturates.
    ghost faults: { Self → ℕ };

    /// The length in bytes.
    fn len(&mut self) -> io::Result<u64>
        ensures size { IfOk result (λ n. ForSome (content self.old) (λ bytes. length bytes ≡ n)) }
        ensures bytes { ForSome (content self.old) AreBytes }
        ensures sound { DurableAreSyncable (durability self.old) }
        ensures same { content self.new ≡ content self.old }
        ensures as_durable { durability self.new ≡ durability self.old }
        ensures cause { CountsFault result (faults self.old) (faults self.new) };

    /// Reads some bytes from position `at` on, and returns how many. It returns 0 only at the end of the file.
    fn read_at(&mut self, into: &mut [u8], at: u64) -> io::Result<usize>
        ensures count { IfOk result (λ n. n ≤ length into.new) }
        ensures given { IfOk result (λ n. ForSome (content self.old) (HasRead at n (length into.new) into.new)) }
        ensures same { content self.new ≡ content self.old }
        ensures as_durable { durability self.new ≡ durability self.old }
        ensures cause { CountsFault result (faults self.old) (faults self.new) };

    /// Writes some of these bytes at position `at`, at least one if there are any, and returns how many. After an error, each byte
    /// of the range is the old one or the one to be written. A call that a signal interrupted wrote nothing.
    fn write_at(&mut self, from: &[u8], at: u64) -> io::Result<usize>
        requires within { ForSome (content self.old) (λ bytes. at ≤ length bytes) }
        requires bytes { AreBytes from.now }
        ensures count { IfOk result (λ n. n ≤ length from.now) }
        ensures some { IfOk result (λ n. 0 < length from.now → 0 < n) }
        ensures written { Changes (HasWritten at from.now result) (content self.old) (content self.new) }
        ensures durability { WritesDurability at from.now (content self.old) (durability self.old) (durability self.new) result }
        ensures syncable { IfOk result (λ n. HasSyncable at n (durability self.new)) }
        ensures interrupted { IfErr result (λ e. error_kind e ≡ ErrorKind.Interrupted → content self.new ≡ content self.old) }
        ensures as_durable { IfErr result (λ e. error_kind e ≡ ErrorKind.Interrupted → durability self.new ≡ durability self.old) }
        ensures cause { CountsFault result (faults self.old) (faults self.new) };

    /// Sets the length: cuts off what follows, or appends zeros. After an error the length is the old one or the new one.
    fn set_len(&mut self, len: u64) -> io::Result<()>
        ensures cut { Changes (HasCut len result) (content self.old) (content self.new) }
        ensures durability { SetsLength len (content self.old) (content self.new) (durability self.old) (durability self.new) result }
        ensures cause { CountsFault result (faults self.old) (faults self.new) };

    /// Waits until all writes have reached the device.
    fn sync(&mut self) -> io::Result<()>
        ensures same { content self.new ≡ content self.old }
        ensures durability { SyncsDurability (durability self.old) (durability self.new) result }
        ensures synced { OnOk result (ForSome (content self.old) (λ bytes. AreSectorsSynced bytes (durability self.old) (durability self.new))) }
        ensures cause { CountsFault result (faults self.old) (faults self.new) };

    ghost remnants: { (file : Self) → All IsWhole (durability file).remnants };

    ghost read_left: { (file : Self) → LeavesRead (content file) (durability file).remnants };
}

/// Raises a count of failed calls if this call failed.
pub fn count_fault<T>(faults: &mut u64, call: &io::Result<T>)
    ensures { CountsFault call.now faults.old faults.new }
{
    if call.is_err() {
        *faults = raised(*faults);
    }
}
