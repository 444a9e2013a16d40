//! The devices of a real machine: the image of a disc, the rack of tapes in a folder, two such racks as one, standard input
//! and output as source and sink, and the words of the command line.
#![tactic(auto)]

mod alike;
mod claim;
mod console;
mod host;
mod image;
mod looking;
mod names;
mod new_rack;
mod pair;
mod pair_fault;
mod rack;
mod streams;
mod words;

pub use console::{StdConsole, are_terminals};
pub use host::{HostFile, HostInput, HostOutput};
pub use image::open_image;
pub use looking::look_at;
pub use names::is_there;
pub use pair::open_duplex;
pub use pair_fault::PairFault;
pub use rack::{HostTapes, look_at_rack, open_rack};
pub use streams::placeholders;
pub use words::{texts_of, words_of};
