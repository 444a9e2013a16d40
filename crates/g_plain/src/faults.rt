//! The faults of a store, with their numbers.
ghost use Rattle.std.specs.Prelude.{◌≡◌};
ghost use Rattle.g_plain.specs.Faults.{fault_number};
ghost use Rattle.g_plain.specs.declared.faults.StoreFault.TheVariants as fault;

use g_base;
use g_name::{Full, User};
use g_trap::Mode;
use std::alloc::{AllocError, AllocFailed};

/// Why a store refuses a call or an event. Serials of reels are numbers, and so are `need`, `left` and `room`, in
/// blocks.
#[derive(Debug, Drop)]
pub enum StoreFault {
    /// The user who is named doesn't exist.
    NoUser,
    /// No file has the name for input.
    NoFile,
    /// The new user exists already, or a file with the new name.
    Exists,
    /// The caller doesn't have the mode that is needed.
    Trapped(Mode),
    /// A path for output has no generation, and generation 4,095 exists.
    NoGeneration,
    /// The new version needs more blocks than its owner has left.
    OverSpace { need: u32, left: u32 },
    /// The new version would have this many bytes, more than 65,536.
    TooLong(u64),
    /// A new file would be the 1,025th.
    DirectoryFull,
    /// A new user would be the 64th.
    UsersFull,
    /// A ninth user besides the owner would be trapped.
    TrapsFull,
    /// The file's bytes are only on this reel, which isn't mounted.
    WaitTape(u32),
    /// The completed dumps of this reel don't hold the place of the file's copy.
    NoCopy(Full, u32),
    /// The disc has fewer free blocks than are needed.
    DiscFull { need: u32, room: u32 },
    DiscReadFault,
    TapeReadFault,
    /// A write of a device failed. The store accepts no further calls.
    Stopped,
    NoMemory,
    /// The caller isn't one of those who may make the call.
    NotOwner,
    /// The next stamp, or the next dump's number, would be 2^62.
    CountersSpent,
    /// There is no running system.
    NotStarted,
    NotMounted,
    /// The reel has fewer blocks left after its completed dumps than are needed.
    TapeFull { need: u32, room: u32 },
    /// The dump of this number is open.
    DumpOpen(u64),
    /// The rack has no reel with this serial.
    NoTape,
    /// The disc holds no directory.
    NoFilestore,
    /// No reel has a completed dump.
    NoDump,
    /// This reel is the first of the rack that isn't mounted.
    RackNotMounted(u32),
    /// A dump was being written to this reel, which isn't mounted.
    MountFirst(u32),
    /// The reel holds the open dump.
    TapeBusy,
    /// The dump names a place of the file's copy on this reel that no completed dump holds.
    LostCopy(Full, u32),
    /// The file is on disc and has no tape copy.
    NotDumped,
    /// The file is offline.
    Offline,
    /// The system is running.
    Running,
    /// This reel is the first one in the rack that has a block.
    RackNotEmpty(u32),
    /// No completed dump holds this user's directory, or it breaks the rules of a directory.
    LostDirectory(User),
    /// The reel has a completed dump.
    ReelNotFree(u32),
}

impl From<AllocError> for StoreFault {
    ghost from_gives = { λ _ e. e ≡ fault.NoMemory };

    fn from(_e: AllocError) -> StoreFault {
        StoreFault::NoMemory
    }
}

impl<T: Drop> From<AllocFailed<T>> for StoreFault {
    ghost from_gives = { λ _ e. e ≡ fault.NoMemory };

    fn from(_e: AllocFailed<T>) -> StoreFault {
        StoreFault::NoMemory
    }
}

impl From<g_base::NoMemory> for StoreFault {
    ghost from_gives = { λ _ e. e ≡ fault.NoMemory };

    fn from(_e: g_base::NoMemory) -> StoreFault {
        StoreFault::NoMemory
    }
}

impl StoreFault {
    /// The number of the fault, 1 to 36, as texts and the manual show it.
    pub fn number(&self) -> u8
        ensures { result ≡ fault_number self.now }
    {
        match self {
            StoreFault::NoUser => 1,
            StoreFault::NoFile => 2,
            StoreFault::Exists => 3,
            StoreFault::Trapped(_) => 4,
            StoreFault::NoGeneration => 5,
            StoreFault::OverSpace { .. } => 6,
            StoreFault::TooLong(_) => 7,
            StoreFault::DirectoryFull => 8,
            StoreFault::UsersFull => 9,
            StoreFault::TrapsFull => 10,
            StoreFault::WaitTape(_) => 11,
            StoreFault::NoCopy(..) => 12,
            StoreFault::DiscFull { .. } => 13,
            StoreFault::DiscReadFault => 14,
            StoreFault::TapeReadFault => 15,
            StoreFault::Stopped => 16,
            StoreFault::NoMemory => 17,
            StoreFault::NotOwner => 18,
            StoreFault::CountersSpent => 19,
            StoreFault::NotStarted => 20,
            StoreFault::NotMounted => 21,
            StoreFault::TapeFull { .. } => 22,
            StoreFault::DumpOpen(_) => 23,
            StoreFault::NoTape => 24,
            StoreFault::NoFilestore => 25,
            StoreFault::NoDump => 26,
            StoreFault::RackNotMounted(_) => 27,
            StoreFault::MountFirst(_) => 28,
            StoreFault::TapeBusy => 29,
            StoreFault::LostCopy(..) => 30,
            StoreFault::NotDumped => 31,
            StoreFault::Offline => 32,
            StoreFault::Running => 33,
            StoreFault::RackNotEmpty(_) => 34,
            StoreFault::LostDirectory(_) => 35,
            StoreFault::ReelNotFree(_) => 36,
        }
    }
}
