//! A system that is up or down, and what happens to it.
use crate::asking::asked;
use crate::down::{comes_up, turned};
use crate::events::{Answer, Device, Event};
use crate::operating::operated;
use crate::rows::Outcome;
use g_base::NoMemory;
use g_disc::MemoryDisc;
use g_known::KnownReels;
use g_plain::StoreFault;
use g_store::{Refused, Store};
use g_tape::MemoryTapes;
use std::alloc::{AllocFailed, Global};

/// A store, or the devices of one that is down. Each is boxed, since checking a function that owns one takes a minute.
#[derive(Drop)]
pub(crate) struct System {
    up: Box<Option<Store<MemoryDisc, MemoryTapes>>>,
    down: Box<Option<Devices>>,
}

/// The devices of a system that is down.
#[derive(Drop)]
pub(crate) struct Devices {
    pub(crate) disc: MemoryDisc,
    pub(crate) tapes: KnownReels<MemoryTapes>,
}

impl System {
    /// A system without devices.
    pub(crate) fn new(alloc: Global) -> Result<System, NoMemory> {
        Ok(System {
            up: no_store(alloc)?,
            down: no_devices(alloc)?,
        })
    }

    /// It is down, on these devices.
    pub(crate) fn lie_on(&mut self, disc: MemoryDisc, tapes: KnownReels<MemoryTapes>) {
        *self.down = Some(Devices { disc, tapes });
    }

    /// The store that is up.
    pub(crate) fn store(&mut self) -> Option<&mut Store<MemoryDisc, MemoryTapes>> {
        (*self.up).as_mut()
    }

    fn come_up(&mut self, store: Store<MemoryDisc, MemoryTapes>) {
        *self.up = Some(store);
    }

    /// Runs an event. One that the system can't accept in its state, up or down, is refused by `Running` or `NotStarted`.
    pub(crate) fn happens(&mut self, alloc: Global, event: &Event) -> Outcome {
        match event {
            Event::Format | Event::Start | Event::Restore => self.opened(alloc, event),
            Event::Shut => self.shut(),
            Event::Device(Device::UnreadTape, call) => self.turn_tapes(
                alloc,
                TapeCall::Read,
                *call,
            ),
            Event::Device(Device::Insecure, number) => self.turn_tapes(
                alloc,
                TapeCall::Secure,
                *number,
            ),
            _ => match &mut *self.up {
                Some(store) => {
                    let answer = happens_up(alloc, store, event);
                    self.settle();
                    answer
                }
                None => match &mut *self.down {
                    Some(devices) => turned(alloc, devices, event),
                    None => Err(StoreFault::NotStarted),
                },
            },
        }
    }

    /// Brings a system up that is down, if the event does.
    fn opened(&mut self, alloc: Global, event: &Event) -> Outcome {
        match (*self.down).take() {
            Some(devices) => match comes_up(alloc, devices, event) {
                Ok((store, answer)) => {
                    self.come_up(store);
                    Ok(answer)
                }
                Err(refused) => self.stays_down(refused),
            },
            None => Err(StoreFault::Running),
        }
    }

    fn stays_down(&mut self, refused: Refused<MemoryDisc, MemoryTapes>) -> Outcome {
        let Refused { fault, disc, tapes } = refused;
        self.lie_on(disc, tapes);
        Err(fault)
    }

    fn shut(&mut self) -> Outcome {
        match (*self.up).take() {
            Some(store) => {
                let (disc, tapes) = store.into_devices();
                self.lie_on(disc, tapes);
                Ok(Answer::Done)
            }
            None => Err(StoreFault::NotStarted),
        }
    }

    /// The tapes of a system that is down fail from now on: at the read of this number, or at every attempt to make the
    /// reel of this serial durable.
    fn turn_tapes(&mut self, alloc: Global, fails: TapeCall, number: u32) -> Outcome {
        let Some(Devices { disc, tapes }) = (*self.down).take() else {
            return Err(StoreFault::NotStarted);
        };
        let mut tapes = tapes.into_tapes();
        match fails {
            TapeCall::Read => tapes.fail_reads([u64::from(number)].to_vec(alloc)?),
            TapeCall::Secure => tapes.set_insecure([number].to_vec(alloc)?),
        }
        self.lie_on(disc, KnownReels::new(alloc, tapes));
        Ok(Answer::Done)
    }

    /// A store that is spent is down.
    fn settle(&mut self) {
        let is_spent = match &*self.up {
            Some(store) => store.spent(),
            None => false,
        };
        if is_spent {
            let _down = self.shut();
        }
    }
}

/// What the tapes fail at.
#[derive(Drop)]
enum TapeCall {
    /// A read, by its number since the rack was made.
    Read,
    /// Making a reel durable, by its serial.
    Secure,
}

/// A box for a store, allocated before there is one.
fn no_store(alloc: Global) -> Result<Box<Option<Store<MemoryDisc, MemoryTapes>>>, NoMemory> {
    match Box::new(alloc, None) {
        Ok(place) => Ok(place),
        Err(AllocFailed { .. }) => Err(NoMemory),
    }
}

/// The same for devices.
fn no_devices(alloc: Global) -> Result<Box<Option<Devices>>, NoMemory> {
    match Box::new(alloc, None) {
        Ok(place) => Ok(place),
        Err(AllocFailed { .. }) => Err(NoMemory),
    }
}

/// Runs an event on a store that is up.
fn happens_up(alloc: Global, store: &mut Store<MemoryDisc, MemoryTapes>, event: &Event) -> Outcome {
    if store.spent() {
        return Err(StoreFault::NotStarted);
    }
    match event {
        Event::Ask(who, ask) => asked(alloc, store, who, ask),
        _ => operated(alloc, store, event),
    }
}
