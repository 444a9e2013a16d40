//! Whether two blocks are the same.
ghost use Rattle.std.specs.Prelude.{◌≡◌, ◌↔◌, IsTrue, length};

/// Whether two texts of equal length, such as two blocks, are the same. It reads all bytes: without an early exit a
/// compiler compares many at a time.
pub fn is_same(one: &[u8], other: &[u8]) -> bool
    requires { length one.now ≡ length other.now }
    ensures { IsTrue result ↔ (one.now ≡ other.now) }
{
    let mut same = true;
    for i in 0..one.len() {
        same = still_same(same, one[i], other[i]);
    }
    same
}

/// Whether the bytes so far and these two were the same.
fn still_same(same: bool, one: u8, other: u8) -> bool
    ensures { IsTrue result ↔ (IsTrue same × (one ≡ other)) }
{
    same & (one == other)
}
