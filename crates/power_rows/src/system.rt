//! A system on devices that lose power, up or down.
use crate::lines::{Outcome, Said, Words, ask, call_of};
use crate::operating::{bring_up, operate};
use g_base::NoMemory;
use g_known::KnownReels;
use g_plain::StoreFault;
use g_power::{CutDisc, CutTapes, losses};
use g_store::{Refused, Store};
use g_tape::Tapes;
use std::alloc::{AllocFailed, Global};

/// A store, or the devices of one that is down. Each is boxed, since checking a function that owns one takes a minute.
#[derive(Drop)]
pub(crate) struct System {
    up: Box<Option<Store<CutDisc, CutTapes>>>,
    down: Box<Option<Devices>>,
}

/// The devices of a system that is down.
#[derive(Drop)]
pub(crate) struct Devices {
    pub(crate) disc: CutDisc,
    pub(crate) tapes: KnownReels<CutTapes>,
}

impl System {
    /// A system without devices.
    pub(crate) fn new(alloc: Global) -> Result<System, NoMemory> {
        Ok(System {
            up: no_store(alloc)?,
            down: no_devices(alloc)?,
        })
    }

    /// It is down, on these devices.
    pub(crate) fn put_down(&mut self, disc: CutDisc, tapes: KnownReels<CutTapes>) {
        *self.down = Some(Devices { disc, tapes });
    }

    /// The store that is up.
    pub(crate) fn store(&mut self) -> Option<&mut Store<CutDisc, CutTapes>> {
        (*self.up).as_mut()
    }

    /// Runs an event. One that the system can't accept in its state, up or down, is refused.
    pub(crate) fn run(&mut self, alloc: Global, words: &Words) -> Outcome {
        if words.verb == "format" || words.verb == "start" || words.verb == "restore" {
            return self.open(alloc, words.verb);
        }
        if words.verb == "shut" {
            self.shut();
            return Ok(Said::Done);
        }
        match &mut *self.up {
            Some(store) => run_up(alloc, store, words),
            None => Err(StoreFault::NotStarted),
        }
    }

    /// Brings a system up that is down, if the event does.
    fn open(&mut self, alloc: Global, verb: &str) -> Outcome {
        match (*self.down).take() {
            Some(devices) => match bring_up(alloc, devices, verb) {
                Ok((store, said)) => {
                    *self.up = Some(store);
                    Ok(said)
                }
                Err(refused) => self.stay_down(refused),
            },
            None => Err(StoreFault::Running),
        }
    }

    fn stay_down(&mut self, refused: Refused<CutDisc, CutTapes>) -> Outcome {
        let Refused { fault, disc, tapes } = refused;
        self.put_down(disc, tapes);
        Err(fault)
    }

    /// The system is down, on devices as they are.
    pub(crate) fn shut(&mut self) {
        if let Some(store) = (*self.up).take() {
            let (disc, tapes) = store.into_devices();
            self.put_down(disc, tapes);
        }
    }

    /// All reels of a system that is down are mounted. A rack has at most 16, with serials from 1 on.
    pub(crate) fn mount(&mut self) {
        if let Some(devices) = &mut *self.down {
            for serial in 1..=16 {
                let _mounted = devices.tapes.mount(serial);
            }
        }
    }

    /// Another process opens the devices. It sees what was written.
    pub(crate) fn reopen(&mut self, alloc: Global) -> Result<(), NoMemory> {
        self.shut();
        if let Some(Devices { disc, tapes }) = (*self.down).take() {
            let tapes = tapes.into_tapes().reopened(alloc, None)?;
            self.put_down(disc, KnownReels::new(alloc, tapes));
        }
        Ok(())
    }

    /// Power is lost, and another process opens the devices.
    pub(crate) fn lose(&mut self, alloc: Global, seed: u32) -> Result<(), NoMemory> {
        self.shut();
        if let Some(Devices { mut disc, tapes }) = (*self.down).take() {
            let (of_disc, of_tapes) = losses(seed);
            disc.lose(of_disc);
            let tapes = tapes.into_tapes().reopened(alloc, Some(of_tapes))?;
            self.put_down(disc, KnownReels::new(alloc, tapes));
        }
        Ok(())
    }
}

/// A box for a store, allocated before there is one.
fn no_store(alloc: Global) -> Result<Box<Option<Store<CutDisc, CutTapes>>>, NoMemory> {
    match Box::new(alloc, None) {
        Ok(place) => Ok(place),
        Err(AllocFailed { .. }) => Err(NoMemory),
    }
}

/// The same for devices.
fn no_devices(alloc: Global) -> Result<Box<Option<Devices>>, NoMemory> {
    match Box::new(alloc, None) {
        Ok(place) => Ok(place),
        Err(AllocFailed { .. }) => Err(NoMemory),
    }
}

/// Runs an event on a store that is up.
fn run_up(alloc: Global, store: &mut Store<CutDisc, CutTapes>, words: &Words) -> Outcome {
    match call_of(alloc, words)? {
        Some(call) => {
            let _reply = ask(alloc, store, &call)?;
            Ok(Said::Done)
        }
        None => operate(alloc, store, words),
    }
}
