//! Shared by all layers: the limits of the filestore, blocks and lists of their numbers, saturating counts, the fuse of
//! a device, the content that a device exposes, out of memory, the fields of blocks, and ordered lists of items.
#![tactic(auto)]

mod block;
mod block_list;
mod counter;
mod distinct;
mod fault;
mod fuse;
mod items;
mod limits;
mod memory;
mod reader;
mod writer;

pub use block::{Block, blocks_for};
pub use block_list::BlockList;
pub use counter::raised;
pub use distinct::are_distinct;
pub use fault::{ReadFailed, WriteFailed};
pub use fuse::{Armings, Fuse};
pub use items::Items;
pub use limits::{
    FIRST_COPY_BLOCK, FIRST_FILE_BLOCK, MAX_ALLOWANCE, MAX_BALANCE, MAX_DISC_BLOCKS,
    MAX_FILE_BLOCKS, MAX_FILE_BYTES, MAX_FILES, MAX_GENERATION, MAX_REELS, MAX_SCRIPT_BYTES,
    MAX_SERIAL, MAX_SPACE, MAX_TRAPPED, MAX_USERS, SLOT_BLOCKS, STAMP_END,
    limits_are_those_defined,
};
pub use memory::NoMemory;
pub use reader::BlockReader;
pub use writer::BlockWriter;
