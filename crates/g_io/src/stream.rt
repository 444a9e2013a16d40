//! The traits of byte streams. Clauses about bytes hold if the object exposes them: in memory it always does, a real
//! file or terminal never does. Fault counts are always exposed.
ghost use Rattle.std.specs.Prelude.{◌≡◌, ℕ, ◌<◌, ◌≤◌, List, Option, length, IfOk, OnOk, OnErr};
ghost use Rattle.g_io.specs.Streams.{Takes, with_more, HasPutPart, CountsFault};

use g_base::{ReadFailed, WriteFailed};

/// A source of bytes.
pub trait Source {
    ghost left: { Self → Option (List ℕ) };

    ghost faults: { Self → ℕ };

    /// Moves some bytes from the front of the unread data to the front of `into`, which isn't empty, and returns their
    /// number. It returns 0 if and only if no data is left. A failing call consumes nothing.
    fn take(&mut self, into: &mut [u8]) -> Result<usize, ReadFailed>
        requires { 0 < length into.old }
        ensures taken { IfOk result (λ n. Takes (left self.old) n into.old into.new (left self.new)) }
        ensures within { IfOk result (λ n. n ≤ length into.old) }
        ensures same { OnErr result (left self.new ≡ left self.old) }
        ensures cause { CountsFault result (faults self.old) (faults self.new) };
}

/// A sink for bytes.
pub trait Sink {
    ghost written: { Self → Option (List ℕ) };

    ghost faults: { Self → ℕ };

    /// Appends the piece. A failing call may append a prefix of it.
    fn put(&mut self, piece: &[u8]) -> Result<(), WriteFailed>
        ensures put { OnOk result (written self.new ≡ with_more (written self.old) piece.now) }
        ensures part { OnErr result (HasPutPart (written self.old) piece.now (written self.new)) }
        ensures cause { CountsFault result (faults self.old) (faults self.new) };
}
