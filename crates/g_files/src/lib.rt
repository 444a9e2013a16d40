//! Discs on files, and sources and sinks on streams, down to single system calls.
#![tactic(auto)]

mod ahead;
mod blank;
mod block_calls;
mod block_file;
mod file_disc;
mod file_reel;
mod file_tapes;
mod image;
mod laws;
mod memory_file;
mod raw;
mod reach;
mod reels;
mod streams;
mod whole;
mod window;

pub use ahead::ReadAhead;
pub use blank::make_blank;
pub use file_disc::FileDisc;
pub use file_reel::FileReel;
pub use file_tapes::FileTapes;
pub use image::Origin;
pub use laws::{blocks_are_their_bytes, risks_list_what_is_read};
pub use memory_file::MemoryFile;
pub use raw::{RawFile, count_fault};
pub use reels::push_reel;
pub use streams::{RawInput, RawOutput, StdSink, StdSource};
