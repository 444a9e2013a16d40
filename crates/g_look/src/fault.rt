//! The faults of a look.
use thiserror::Error;

/// Why a look has no result. No fault changes what disc or reels hold.
#[derive(Clone, Copy, Debug, PartialEq, Eq, Error)]
pub enum LookFault {
    /// A block of the disc couldn't be read, and its count of failed reads rose.
    #[error("the disc could not be read")]
    DiscUnread,
    /// A block of a reel couldn't be read, and the rack's count of failed reads rose.
    #[error("a tape could not be read")]
    TapeUnread,
    /// The disc holds no filestore.
    #[error("no filestore")]
    NoFilestore,
    /// No user has this name.
    #[error("no such user")]
    NoUser,
    /// No file has this name.
    #[error("no such file")]
    NoFile,
    /// No device holds the bytes of the file.
    #[error("the copy is not held")]
    NoCopy,
    /// Memory ran out.
    #[error("out of memory")]
    NoMemory,
}
