//! Places of standard streams that were closed.

use std::fs::File;

/// Files that take the places of the standard streams that were closed, as long as they live: nothing can be read from them, and
/// nothing written to them. Where one is missing, an image or a reel would take its place, and is refused (`claim`).
pub fn placeholders(rt: &HostRuntime) -> (Option<File>, Option<File>, Option<File>) {
    (placeholder(rt), placeholder(rt), placeholder(rt))
}

/// One of them.
fn placeholder(rt: &HostRuntime) -> Option<File> {
    File::open(rt, "/dev/null").ok()
}
