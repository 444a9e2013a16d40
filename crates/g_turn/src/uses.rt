//! What a file's bytes are fetched for.
use g_name::Path;
use g_peri::Unit;

/// What a file's bytes are fetched for.
#[derive(Drop)]
pub(crate) enum Use {
    /// They are written to this path.
    Put(Path),
    /// They are appended to this file.
    Append(Path),
    /// They are a source, whose program's file is written to this path.
    Assemble(Path),
    /// Their lines are printed.
    List,
    /// They are a program.
    Load,
    /// Their lines are loaded into a card reader, which is assigned to this file.
    Assign { unit: Unit, file: Path },
}
