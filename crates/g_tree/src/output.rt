//! What a path for output names.

/// The file that a path names for output: an existing one, by its number; a new one with this generation; or none, if
/// the path has no generation and 4,095 exists.
#[derive(Clone, Copy, PartialEq, Eq)]
pub enum Output {
    Replace(u16),
    Fresh { generation: u16 },
    NoGeneration,
}
