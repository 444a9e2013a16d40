//! The rack of reels, as everything that stores data on it sees it.
ghost use Rattle.std.specs.Prelude.{◌≡◌, ◌<◌, ◌≤◌, Some, true, false, length, map, slice_get};
ghost use Rattle.g_base.specs.Fuse.{armed_with};
ghost use Rattle.g_tape.specs.Laws.{ReadsOnlyRead};
ghost use Rattle.g_tape.specs.Durable.{SecuresDurably, WritesDurably};
ghost use Rattle.g_tape.specs.Rack.{Rack, AreReels, IsFused, reel, is_mounted, told_of, refuses_mount, refuses_unmount, Mounting, Reading, Writing, Securing};

use crate::fault::TapeFault;
use g_base::Block;

/// Reels in a rack. A reel is a sequence of blocks of 512 bytes, written in order. A rack counts its failed reads, its
/// failed writes and how often it was armed, and records the last number that it was armed with; each count saturates at
/// 2^64 - 1. A rack in memory exposes what its reels hold and how often each block was read; one on files exposes the blocks
/// if the bytes of its files are observable. A serial is from 1 to 999,999, a capacity from 2 to 65,536 blocks.
pub trait Tapes {
    ghost rack: { Self → Rack };

    /// The number of reels in the rack.
    fn reels(&self) -> usize
        ensures { result ≡ length (rack self.now).reels };

    /// The serial of the i-th reel. Serials are strictly increasing.
    fn serial(&self, i: usize) -> u32
        requires { i < length (rack self.now).reels }
        ensures { slice_get (map (λ r. r.serial) (rack self.now).reels) i ≡ Some result };

    /// Whether the rack has the reel and it is mounted.
    fn mounted(&self, serial: u32) -> bool
        ensures { result ≡ is_mounted (reel serial (rack self.now).reels) };

    /// The number of blocks that the reel can hold. `NoTape`.
    fn capacity(&self, serial: u32) -> Result<u32, TapeFault>
        ensures { result ≡ told_of (λ r. r.capacity) (reel serial (rack self.now).reels) };

    /// The number of blocks that the reel holds. `NoTape`.
    fn length(&self, serial: u32) -> Result<u32, TapeFault>
        ensures { result ≡ told_of (λ r. r.len) (reel serial (rack self.now).reels) };

    /// Mounts the reel. A reel that is already mounted remains so. `NoTape`.
    fn mount(&mut self, serial: u32) -> Result<(), TapeFault>
        ensures { Mounting refuses_mount true serial (rack self.old) result (rack self.new) };

    /// Unmounts the reel. `NoTape`, `NotMounted`.
    fn unmount(&mut self, serial: u32) -> Result<(), TapeFault>
        ensures { Mounting refuses_unmount false serial (rack self.old) result (rack self.new) };

    /// Reads block k of the reel. On any error the contents of `into` are unspecified. `NoTape`, `NotMounted`, `End`,
    /// `ReadFailed`.
    fn read(&mut self, serial: u32, k: u32, into: &mut Block) -> Result<(), TapeFault>
        ensures { Reading serial k (rack self.old) result into.new (rack self.new) };

    /// Writes block k of the reel, which ends there. If k is 0 or the block begins as a dump's header or its mark does, the reel is
    /// durable up to it when this returns `Ok`, provided that the device still had the blocks before it (docs/FORMATS.md,
    /// "Durability"). `NoTape`, `NotMounted`, `End`; `WriteFailed`: the reel is unchanged, cut before block k, or ends with block k and
    /// any bytes in it.
    fn write(&mut self, serial: u32, k: u32, from: &Block) -> Result<(), TapeFault>
        ensures written { Writing serial k from.now (rack self.old) result (rack self.new) }
        ensures durable { WritesDurably serial k from.now (rack self.old) result (rack self.new) };

    /// Makes the reel durable, mounted or not. After `Ok` it is durable if the device still had its blocks (docs/FORMATS.md,
    /// "Durability"). Whether it fails or not, a power loss may leave nothing that it couldn't have left before. Reads, writes and
    /// mounts see no difference, and the fuse doesn't burn. `NoTape`; `ReadFailed` if the device fails.
    fn secure(&mut self, serial: u32) -> Result<(), TapeFault>
        ensures secured { Securing serial (rack self.old) result (rack self.new) }
        ensures durable { SecuresDurably serial (rack self.old) result (rack self.new) };

    /// Sets the fuse: the k-th next write that isn't refused fails. It replaces an earlier fuse. A fuse that has fired
    /// is spent.
    fn arm(&mut self, k: u32)
        requires { 1 ≤ k }
        ensures { rack self.new ≡ record (rack self.old)
            { fuse = Some k; arms = armed_with k (rack self.old).write_faults (rack self.old).arms } };

    ghost well_formed: { (tapes : Self) → AreReels (rack tapes).reels };

    ghost fused: { (tapes : Self) → IsFused (rack tapes) };
}

/// The laws of reads: a read, successful or not, changes only read counts; a successful one counts its block, if the rack exposes read
/// counts; and after any number of reads each reel holds the same blocks. `secure` is such a read, or nothing.
pub fn reads_only_read()
    ensures { ReadsOnlyRead }
{}
