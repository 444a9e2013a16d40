//! Numbers of files, as a list.
use g_base::Items;

/// Numbers of files. Contracts see a list.
pub type NumberList = Items<u16>;
