//! The limits of the filestore: of users and files, a disc and its parts, reels, accounts, increasing numbers and
//! scripts. docs/FORMATS.md has the layout that they are part of.
ghost use Rattle.std.specs.Prelude.{◌≡◌};
ghost use Rattle.g_base.specs.Limits as limit;

/// The maximum number of users of a filestore.
pub const MAX_USERS: usize = 63;

/// The maximum number of files of a filestore.
pub const MAX_FILES: usize = 1_024;

/// The maximum size of a file, in bytes.
pub const MAX_FILE_BYTES: u32 = 65_536;

/// The maximum size of a file, in blocks.
pub const MAX_FILE_BLOCKS: usize = 128;

/// The last generation number of a name. The first is 1.
pub const MAX_GENERATION: u16 = 4_095;

/// The maximum number of trapped users of a file, not counting its owner.
pub const MAX_TRAPPED: usize = 8;

/// The index of the first block of a slot that holds a file's record. The blocks before it hold the head and the users.
pub const FIRST_FILE_BLOCK: u32 = 64;

/// The number of blocks of a slot.
pub const SLOT_BLOCKS: u32 = 1_088;

/// The first block after the gate and the two slots.
pub const FIRST_COPY_BLOCK: u32 = 2_177;

/// The maximum number of blocks of a disc: a block number has twenty bits.
pub const MAX_DISC_BLOCKS: u32 = 1_048_576;

/// The maximum number of reels of a rack.
pub const MAX_REELS: usize = 16;

/// The last serial of a reel. The first is 1.
pub const MAX_SERIAL: u32 = 999_999;

/// The maximum SPACE of a user, in blocks.
pub const MAX_SPACE: u32 = 65_535;

/// The maximum TIME and MONEY of a user, in units of each.
pub const MAX_BALANCE: u64 = 1_000_000_000;

/// The maximum TIME that a job may request, and that it may be charged at once.
pub const MAX_ALLOWANCE: u64 = 1_000_000;

/// The upper limit, exclusive, of version stamps and of dump numbers.
pub const STAMP_END: u64 = 4_611_686_018_427_387_904;

/// The maximum size of a script, in bytes.
pub const MAX_SCRIPT_BYTES: usize = 16_777_216;

/// Each constant has the value that the definitions give it.
pub fn limits_are_those_defined()
    ensures users { MAX_USERS ≡ limit.max_users }
    ensures files { MAX_FILES ≡ limit.max_files }
    ensures file_bytes { MAX_FILE_BYTES ≡ limit.max_file_bytes }
    ensures file_blocks { MAX_FILE_BLOCKS ≡ limit.max_file_blocks }
    ensures generation { MAX_GENERATION ≡ limit.max_generation }
    ensures trapped { MAX_TRAPPED ≡ limit.max_trapped }
    ensures first_file_block { FIRST_FILE_BLOCK ≡ limit.first_file_block }
    ensures slot_blocks { SLOT_BLOCKS ≡ limit.slot_blocks }
    ensures first_copy_block { FIRST_COPY_BLOCK ≡ limit.first_copy_block }
    ensures disc_blocks { MAX_DISC_BLOCKS ≡ limit.max_disc_blocks }
    ensures reels { MAX_REELS ≡ limit.max_reels }
    ensures serial { MAX_SERIAL ≡ limit.max_serial }
    ensures space { MAX_SPACE ≡ limit.max_space }
    ensures balance { MAX_BALANCE ≡ limit.max_balance }
    ensures allowance { MAX_ALLOWANCE ≡ limit.max_allowance }
    ensures stamp_end { STAMP_END ≡ limit.stamp_end }
    ensures script_bytes { MAX_SCRIPT_BYTES ≡ limit.max_script_bytes }
{}
