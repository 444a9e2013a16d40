//! The events of a system, and their answers.

/// An event of a system. Users, paths and files are given by their names; a file's bytes are one letter, repeated.
#[derive(Clone, Copy)]
pub(crate) enum Event<'a> {
    Format,
    Start,
    Restore,
    Shut,
    /// A device is armed, or asked for a number.
    Device(Device, u32),
    /// A step of the open dump.
    Step,
    /// Steps of the open dump until it is completed.
    Finish,
    Migrate(&'a str),
    /// The first block of the copy of a file, given by its position among the files, in the dump of reel 1 that begins at
    /// this block.
    Noted(u32, usize),
    /// What the store reports about itself.
    Told,
    /// A block of the disc is written, with these fields.
    Write(u32, &'a str),
    /// Whether a block of the disc has these fields and is zero otherwise.
    Holds(u32, &'a str),
    /// A block with these fields is appended to a reel.
    Reel(u32, &'a str),
    /// A call of a user.
    Ask(&'a str, Ask<'a>),
}

/// What a device is armed with, or asked for, with a number.
#[derive(Clone, Copy)]
pub(crate) enum Device {
    Mount,
    Unmount,
    /// The disc's write of this number from here on fails.
    StopDisc,
    /// The tapes' write of this number from here on fails.
    StopTape,
    /// The disc's read of this number fails, counted from the creation of the disc.
    Unread,
    /// The same for the tapes.
    UnreadTape,
    /// The reel of this serial can't be made durable from now on; with number 0 every reel can.
    Insecure,
    /// A dump is opened on the reel.
    Open,
    /// All versions are consolidated on the reel, and the other reels released.
    Process,
    /// How many blocks the reel has.
    Length,
}

/// A call of a user.
#[derive(Clone, Copy)]
pub(crate) enum Ask<'a> {
    /// A user with this many blocks of SPACE.
    NewUser(&'a str, u16),
    /// Another MONEY.
    Budget(&'a str, u16),
    /// How many files a user has.
    List(&'a str),
    /// A call on a file, by its path.
    OnFile(&'a str, OnFile<'a>),
}

/// A call on a file.
#[derive(Clone, Copy)]
pub(crate) enum OnFile<'a> {
    Put(u8, usize),
    Append(u8, usize),
    Fetch,
    Retrieve,
    Erase,
    Rename(&'a str),
    /// A call about a user, with the sum of the modes' bits.
    Trap(Trapping, &'a str, u8),
}

/// A user gets access to a file, loses it, or the access is queried.
#[derive(Clone, Copy)]
pub(crate) enum Trapping {
    Go,
    Stop,
    Check,
}

/// The answer to an event that isn't refused.
#[derive(Clone, Copy, Debug)]
pub(crate) enum Answer {
    Done,
    /// A block has other fields.
    Differs,
    /// The number of a dump.
    Dump(u64),
    /// The number of a dump, and the number of its steps.
    Completed(u64, u32),
    /// A number of blocks, or the first of them.
    Blocks(u32),
    /// The number of files.
    Files(usize),
    /// The sum of the bits of modes.
    Modes(u8),
    /// The number of bytes, and the last of them, or 0 if there is none.
    Bytes(usize, char),
    Facts(Facts),
}

/// What a store reports: the number of its users, the TIME of MASTER and the MONEY of MACROS, the number of the open dump,
/// and whether reel 2 is mounted.
#[derive(Clone, Copy, Debug)]
pub(crate) struct Facts {
    pub(crate) users: usize,
    pub(crate) time: Option<u64>,
    pub(crate) money: Option<u64>,
    pub(crate) dump: Option<u64>,
    pub(crate) mounted: bool,
}
