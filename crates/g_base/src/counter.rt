//! Counters that saturate at the end of their type.
ghost use Rattle.std.specs.Prelude.{◌≡◌};
ghost use Rattle.g_base.specs.Counts.{one_more};

/// The count plus one, saturating at 2^64 - 1.
pub fn raised(count: u64) -> u64
    ensures { result ≡ one_more count }
{
    count.saturating_add(1)
}
