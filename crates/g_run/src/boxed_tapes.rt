//! A rack in a box.
use g_base::Block;
use g_tape::{TapeFault, Tapes};

/// A rack in a box, for the same reason as the disc of `BoxedDisc`: a rack in memory holds what its next failing write will leave, and is large.
#[derive(Drop)]
pub struct BoxedTapes<T: Tapes> {
    pub tapes: Box<T>,
}

impl<T: Tapes> Tapes for BoxedTapes<T> {
    ghost rack = { λ b. T.rack b.tapes.value };

    fn reels(&self) -> usize {
        self.tapes.reels()
    }

    fn serial(&self, i: usize) -> u32 {
        self.tapes.serial(i)
    }

    fn mounted(&self, serial: u32) -> bool {
        self.tapes.mounted(serial)
    }

    fn capacity(&self, serial: u32) -> Result<u32, TapeFault> {
        self.tapes.capacity(serial)
    }

    fn length(&self, serial: u32) -> Result<u32, TapeFault> {
        self.tapes.length(serial)
    }

    fn mount(&mut self, serial: u32) -> Result<(), TapeFault> {
        self.tapes.mount(serial)
    }

    fn unmount(&mut self, serial: u32) -> Result<(), TapeFault> {
        self.tapes.unmount(serial)
    }

    fn read(&mut self, serial: u32, k: u32, into: &mut Block) -> Result<(), TapeFault> {
        self.tapes.read(serial, k, into)
    }

    fn write(&mut self, serial: u32, k: u32, from: &Block) -> Result<(), TapeFault> {
        self.tapes.write(serial, k, from)
    }

    fn secure(&mut self, serial: u32) -> Result<(), TapeFault> {
        self.tapes.secure(serial)
    }

    fn arm(&mut self, k: u32) {
        self.tapes.arm(k);
    }

    ghost well_formed = { λ b. T.well_formed b.tapes.value };

    ghost fused = { λ b. T.fused b.tapes.value };
}
