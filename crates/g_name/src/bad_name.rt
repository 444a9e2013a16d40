//! The error of texts that aren't names.

/// The text isn't in the grammar of names. `place` counts bytes: it is the length of the text's longest prefix that begins some name.
#[derive(Clone, Copy, Debug, PartialEq, Eq)]
pub struct BadName {
    pub place: usize,
}
