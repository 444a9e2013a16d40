//! A disc in a box.
use g_base::{Block, ReadFailed, WriteFailed};
use g_disc::Disc;

/// A disc in a box. A system that is down holds its devices themselves and is passed on by value, so that only a pointer moves.
#[derive(Drop)]
pub struct BoxedDisc<D: Disc> {
    pub disc: Box<D>,
}

impl<D: Disc> Disc for BoxedDisc<D> {
    ghost state = { λ b. D.state b.disc.value };

    fn size(&self) -> u32 {
        self.disc.size()
    }

    fn read(&mut self, k: u32, into: &mut Block) -> Result<(), ReadFailed> {
        self.disc.read(k, into)
    }

    fn secure(&mut self) -> Result<(), ReadFailed> {
        self.disc.secure()
    }

    fn write(&mut self, k: u32, from: &Block) -> Result<(), WriteFailed> {
        self.disc.write(k, from)
    }

    fn arm(&mut self, k: u32) {
        self.disc.arm(k);
    }
}
