//! Laws about what survives a power loss. They have no code; their clauses hold for every disc and every rack on files.
ghost use Rattle.g_files.specs.FileDisc.{BlocksAreTheirBytes};
ghost use Rattle.g_files.specs.FileTapes.{ListsWhatIsRead, rack_of};

use crate::file_tapes::FileTapes;
use crate::raw::RawFile;

/// A block is as durable as its bytes.
pub fn blocks_are_their_bytes()
    ensures { BlocksAreTheirBytes }
{}

/// A power loss may leave each reel as reads see it, and no remnant is longer than it may be.
pub fn risks_list_what_is_read<F: RawFile + Drop, L: Drop>(rack: &FileTapes<F, L>)
    ensures { ListsWhatIsRead (rack_of rack.now) }
{}
