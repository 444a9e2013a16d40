//! The power of both devices: at which of their calls something goes wrong, and the numbers by which a loss is drawn.
use g_base::NoMemory;
use std::alloc::{AllocFailed, Global};
use std::cell::Cell;
use std::rc::Rc;

/// What goes wrong at the chosen call.
#[derive(Clone, Copy)]
pub enum Fault {
    /// Power is lost, or the process is killed: this call fails, and so does each later one.
    Off,
    /// This call fails. If it syncs, a sync fails and drops what it should have made durable.
    Once,
}

/// How a call on a device ends.
#[derive(Clone, Copy)]
pub(crate) enum Fate {
    Done,
    /// It is the chosen one.
    Faulty,
    /// Power was lost before it.
    Dead,
}

/// Counts the calls that change a device, over both devices. A read changes nothing, so power lost at a read leaves what it may
/// leave at the next of these calls.
#[derive(Drop)]
pub struct Power {
    calls: Cell<u32>,
    chosen: Cell<u32>,
    fault: Cell<Fault>,
    is_off: Cell<bool>,
    dice: Cell<u32>,
}

/// The power that disc, tapes and their user share.
pub type Shared = Rc<Power>;

impl Power {
    pub fn new(alloc: Global) -> Result<Shared, NoMemory> {
        let power = Power {
            calls: Cell::new(0),
            chosen: Cell::new(0),
            fault: Cell::new(Fault::Off),
            is_off: Cell::new(false),
            dice: Cell::new(0),
        };
        match Rc::new(alloc, power) {
            Ok(shared) => Ok(shared),
            Err(AllocFailed { .. }) => Err(NoMemory),
        }
    }

    /// Power is on again, and goes wrong at this call from now on, counted from 1; never if it is 0.
    pub fn choose(&self, fault: Fault, call: u32) {
        self.calls.set(0);
        self.chosen.set(call);
        self.fault.set(fault);
        self.is_off.set(false);
    }

    /// The numbers that are drawn from now on.
    pub fn seed(&self, seed: u32) {
        self.dice
            .set(seed.wrapping_mul(2_654_435_761).wrapping_add(7));
    }

    /// How many calls there were since the last choice.
    pub fn calls(&self) -> u32 {
        self.calls.get()
    }

    pub(crate) fn is_off(&self) -> bool {
        self.is_off.get()
    }

    /// Whether a sync that fails drops what it should have made durable.
    pub(crate) fn drops(&self) -> bool {
        matches!(self.fault.get(), Fault::Once)
    }

    /// A call that changes a device.
    pub(crate) fn call(&self) -> Fate {
        if self.is_off.get() {
            return Fate::Dead;
        }
        self.calls.set(self.calls.get().wrapping_add(1));
        if self.calls.get() != self.chosen.get() {
            return Fate::Done;
        }
        self.is_off.set(!self.drops());
        Fate::Faulty
    }

    /// A number below this one, 0 below 0.
    pub(crate) fn roll(&self, below: u8) -> u8 {
        let next = self
            .dice
            .get()
            .wrapping_mul(1_664_525)
            .wrapping_add(1_013_904_223);
        self.dice.set(next);
        let [top, ..] = next.to_be_bytes();
        match top.checked_rem(below) {
            Some(left) => left,
            None => 0,
        }
    }
}
