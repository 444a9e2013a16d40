//! Whether the blocks of a file are durable.

ghost use Rattle.std.specs.Prelude.{◌≡◌, ◌↔◌, true};
ghost use Rattle.g_files.specs.declared.reach.Reach.TheVariants.{Failed, Unknown};

/// How far the blocks of a reel are known to have come.
#[derive(Clone, Copy, PartialEq, Eq)]
pub(crate) enum Reach {
    /// Nothing is known. What an earlier run wrote may not be on the device, and a sync that failed then may have dropped it.
    Unknown,
    /// This run wrote something, and the next sync makes all of it durable.
    Behind,
    /// A write, a cut or a sync failed. The system may have dropped what it didn't bring to the device, and then no later sync does.
    Failed,
    /// Everything is durable.
    There,
}

impl Reach {
    /// Whether a write, a cut or a sync failed since the blocks were last durable.
    pub fn is_failed(&self) -> bool
        ensures { (result ≡ true) ↔ (self.now ≡ Failed) }
    {
        matches!(self, Reach::Failed)
    }

    /// Whether nothing is known.
    pub fn is_unknown(&self) -> bool
        ensures { (result ≡ true) ↔ (self.now ≡ Unknown) }
    {
        matches!(self, Reach::Unknown)
    }
}
