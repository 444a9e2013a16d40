//! The two reels of a serial, and their standing.
ghost use Rattle.std.specs.Prelude.{◌≡◌};
ghost use Rattle.g_duplex.specs.Twins as twins;

/// One of the two reels of a serial.
#[derive(Clone, Copy, Default, PartialEq, Eq)]
pub enum Twin {
    /// The reel of the first rack.
    #[default]
    First,
    /// The reel of the second rack.
    Second,
}

/// The standing of the two reels of a serial.
#[derive(Clone, Copy, Default, PartialEq, Eq)]
pub enum Standing {
    /// Both hold the same blocks.
    #[default]
    Level,
    /// A write of the leading twin failed, at this block or above: they hold the same blocks below it.
    Apart(u32),
    /// This twin is lost: it is neither read nor written, until it is rebuilt.
    Lost(Twin),
}

impl Standing {
    /// The leading twin: the first, or the second if the first is lost.
    pub fn leader(self) -> Twin
        ensures { result ≡ twins.leader self }
    {
        match self {
            Standing::Lost(Twin::First) => Twin::Second,
            _ => Twin::First,
        }
    }

    /// Whether a twin is lost.
    pub fn is_lost(self) -> bool
        ensures { result ≡ twins.is_lost self }
    {
        match self {
            Standing::Lost(_) => true,
            _ => false,
        }
    }

    /// Whether each twin that isn't lost is mounted, given whether the first and the second are.
    pub(crate) fn is_up(self, first: bool, second: bool) -> bool
        ensures { result ≡ twins.are_up self first second }
    {
        match self {
            Standing::Lost(Twin::First) => second,
            Standing::Lost(Twin::Second) => first,
            _ => first && second,
        }
    }

    /// Whether the other twin may be read for block k if the leading one fails.
    pub(crate) fn may_help(self, k: u32) -> bool
        ensures { result ≡ twins.may_help k self }
    {
        match self {
            Standing::Level => true,
            Standing::Apart(least) => k < least,
            Standing::Lost(_) => false,
        }
    }

    /// The standing after the leading twin's write of block k failed.
    pub(crate) fn after_failure(self, k: u32) -> Standing
        ensures { result ≡ twins.after_failure k self }
    {
        match self {
            Standing::Level => Standing::Apart(k),
            Standing::Apart(least) => Standing::Apart(least.min(k)),
            Standing::Lost(twin) => Standing::Lost(twin),
        }
    }

    /// The standing after both completed a write of block k, which repairs what failed there or above.
    pub(crate) fn after_both(self, k: u32) -> Standing
        ensures { result ≡ twins.after_both k self }
    {
        match self {
            Standing::Apart(least) if least < k => self,
            Standing::Lost(_) => self,
            _ => Standing::Level,
        }
    }
}
