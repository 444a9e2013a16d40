//! The users whose directories a dump holds.
ghost use Rattle.std.specs.Prelude.{◌≡◌};
ghost use Rattle.g_incr.specs.Layout.{holds};

/// Whether the user of this number is held.
pub(crate) fn is_held(held: &[u8], number: u8) -> bool
    ensures { result ≡ holds held.now number }
{
    held.contains(&number)
}
