//! The disc, as its users see it.
ghost use Rattle.std.specs.Prelude.{◌≡◌, ◌<◌, ◌≤◌, All, Some, length};
ghost use Rattle.std.specs.Option.{ForSome};
ghost use Rattle.g_base.specs.Block.{IsBlock};
ghost use Rattle.g_base.specs.Fuse.{armed_with};
ghost use Rattle.g_disc.specs.Disc.{DiscState, DurableAreSyncable, IsFused, Reads, Secures, Writes};

use g_base::{Block, ReadFailed, WriteFailed};

/// Numbered blocks of 512 bytes. A disc counts its failed reads, its failed writes, its writes, and
/// how often it was armed and with which number last; each count saturates at 2^64 - 1. The blocks of a disc in
/// memory are observable. A power loss preserves the durable blocks and may leave anything in the others
/// (`g_disc/specs/Durable.antt: MayLeave`).
pub trait Disc {
    ghost state: { Self → DiscState };

    /// The number of blocks, which never changes. At each moment the fuse is the number last armed, less the writes
    /// since then.
    fn size(&self) -> u32
        ensures size { result ≡ (state self.now).size }
        ensures blocks { ForSome (state self.now).held
            (λ blocks. (length blocks ≡ result) × All IsBlock blocks) }
        ensures fused { IsFused (state self.now) }
        ensures syncable { DurableAreSyncable (state self.now) };

    /// Reads block k. On `ReadFailed` the contents of `into` are unspecified.
    fn read(&mut self, k: u32, into: &mut Block) -> Result<(), ReadFailed>
        requires { k < (state self.old).size }
        ensures { Reads k into.new (state self.old) (state self.new) result };

    /// Makes the gate, block 0, durable as reads see it. On `ReadFailed` the device failed; a power loss may then leave the gate
    /// that was written last, the one before it, or any bytes.
    fn secure(&mut self) -> Result<(), ReadFailed>
        requires { 0 < (state self.old).size }
        ensures { Secures (state self.old) (state self.new) result };

    /// Writes block k. On `WriteFailed` block k is unchanged or any 512 bytes. A write of the gate is a commit: all blocks written
    /// before are durable before it, and it is durable on `Ok`.
    fn write(&mut self, k: u32, from: &Block) -> Result<(), WriteFailed>
        requires { k < (state self.old).size }
        ensures { Writes k from.now (state self.old) (state self.new) result };

    /// Sets the fuse, so that the k-th next write fails. It replaces an earlier fuse; a fuse fires once.
    fn arm(&mut self, k: u32)
        requires { 1 ≤ k }
        ensures { state self.new
            ≡ record (state self.old)
            { fuse = Some k; arms = armed_with k (state self.old).writes (state self.old).arms } };
}
