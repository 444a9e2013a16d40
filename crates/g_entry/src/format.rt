//! The two formats of blocks, and the block of an unused number.
ghost use Rattle.std.specs.Prelude.{◌≡◌, replicate};
ghost use Rattle.g_entry.specs.Formats.{format_number};

use g_base::Block;

/// A format of records (docs/FORMATS.md). The first has no MONEY, and two bytes for a block number; the second has three.
#[derive(Clone, Copy, PartialEq, Eq)]
pub enum Format {
    One,
    Two,
}

impl Format {
    /// The number of the format in a head.
    pub fn number(self) -> u16
        ensures { result ≡ format_number self }
    {
        match self {
            Format::One => 1,
            Format::Two => 2,
        }
    }
}

/// The block of a number that belongs to no user and no file.
pub fn empty_block() -> Block
    ensures { result ≡ replicate 512 0 }
{
    [0; 512]
}
