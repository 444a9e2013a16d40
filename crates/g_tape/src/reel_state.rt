//! The state that every reel has, independent of where its blocks are stored: serial, capacity, length, whether it is
//! mounted, and the refusals that follow from these.
ghost use Rattle.std.specs.Prelude.{◌≡◌, ◌+◌, Some, None};
ghost use Rattle.g_tape.specs.Rack.{refuses_unmount, refuses_read, refuses_write};
ghost use Rattle.g_tape.specs.Reel.{untold_reel, with_mounted};

use crate::fault::TapeFault;
use std::marker::Model;

/// A reel without its blocks. Contracts see it as a reel whose content isn't exposed.
#[derive(Drop)]
pub struct ReelState {
    serial: u32,
    capacity: u32,
    len: u32,
    mounted: bool,
}

impl Model for ReelState {
    ghost use Rattle.g_tape.specs.Reel.{Reel, untold_reel, with_mounted};

    ghost Value = { Reel };

    ghost view = { λ r. with_mounted r.mounted (untold_reel r.serial r.capacity r.len) };
}

impl ReelState {
    /// An unmounted reel that holds `len` blocks. Capacity and length are in blocks.
    pub fn new(serial: u32, capacity: u32, len: u32) -> ReelState
        ensures { result ≡ untold_reel serial capacity len }
    {
        ReelState {
            serial,
            capacity,
            len,
            mounted: false,
        }
    }

    /// The serial of the reel.
    pub fn serial(&self) -> u32
        ensures { result ≡ self.now.serial }
    {
        self.serial
    }

    /// The number of blocks that it can hold.
    pub fn capacity(&self) -> u32
        ensures { result ≡ self.now.capacity }
    {
        self.capacity
    }

    /// The number of blocks that it holds.
    pub fn len(&self) -> u32
        ensures { result ≡ self.now.len }
    {
        self.len
    }

    /// Whether it is mounted.
    pub fn is_mounted(&self) -> bool
        ensures { result ≡ self.now.mounted }
    {
        self.mounted
    }

    /// Why an unmount is refused, if it is: `NotMounted`.
    pub fn refuses_unmount(&self) -> Option<TapeFault>
        ensures { result ≡ refuses_unmount (Some self.now) }
    {
        if self.mounted {
            None
        } else {
            Some(TapeFault::NotMounted)
        }
    }

    /// Why a read of block k is refused, if it is: `NotMounted`, or `End` if the reel has no block k.
    pub fn refuses_read(&self, k: u32) -> Option<TapeFault>
        ensures { result ≡ refuses_read k (Some self.now) }
    {
        if !self.mounted {
            Some(TapeFault::NotMounted)
        } else if k < self.len {
            None
        } else {
            Some(TapeFault::End)
        }
    }

    /// Why a write of block k is refused, if it is: `NotMounted`, or `End` if the block before it is missing or the
    /// reel is full.
    pub fn refuses_write(&self, k: u32) -> Option<TapeFault>
        ensures { result ≡ refuses_write k (Some self.now) }
    {
        if !self.mounted {
            Some(TapeFault::NotMounted)
        } else if self.len < k || !(k < self.capacity) {
            Some(TapeFault::End)
        } else {
            None
        }
    }

    /// Sets whether it is mounted.
    pub fn set_mounted(&mut self, mounted: bool)
        ensures { self.new ≡ with_mounted mounted self.old }
    {
        self.mounted = mounted;
    }

    /// Makes the reel end with block k, which replaces the blocks from k on.
    pub fn end_with(&mut self, k: u32)
        requires { refuses_write k (Some self.old) ≡ None }
        ensures { self.new ≡ record self.old { len = k + 1 } }
    {
        prove!(k < self.capacity);
        self.len = k + 1;
    }

    /// Truncates the reel to k blocks.
    pub fn cut_at(&mut self, k: u32)
        ensures { self.new ≡ record self.old { len = k } }
    {
        self.len = k;
    }
}
