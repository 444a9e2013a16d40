//! A text that only proofs read. It allocates nothing, and its methods do nothing at run time.
ghost use Rattle.std.specs.Prelude.{◌≡◌, List, ℕ, [], ◌++◌};
ghost use Rattle.std.specs.Borrow.{ftrue};

use std::marker::Model;

/// All bytes passed so far, in order.
#[derive(Drop)]
pub(crate) struct Told {
    ghost text: { List ℕ },
}

impl Model for Told {
    ghost also_owns = { λ _. ftrue };
}

impl Told {
    /// No bytes.
    pub(crate) fn new() -> Told
        ensures { result.text ≡ [] }
    {
        Told {}
    }

    /// These bytes, followed by those of the piece.
    pub(crate) fn then(&self, _piece: &[u8]) -> Told
        ensures { result.text ≡ self.now.text ++ _piece.now }
    {
        Told {}
    }
}
