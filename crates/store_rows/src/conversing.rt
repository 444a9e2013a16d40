//! A sequence of some hundred random calls, dumps, migrations and starts, compared with a plain store.
use crate::asking::asked;
use crate::events::{Ask, Device, Event, OnFile};
use crate::rows::{Wrong, play, told};
use crate::setting::Setting;
use crate::system::System;
use g_plain_store::PlainStore;
use std::alloc::Global;

/// Pseudo-random numbers, each computed from its predecessor.
#[derive(Clone, Copy)]
struct Dice {
    state: u32,
}

impl Dice {
    /// A number below this one, 0 below 0.
    fn roll(&mut self, below: u8) -> u8 {
        self.state = self
            .state
            .wrapping_mul(1_664_525)
            .wrapping_add(1_013_904_223);
        let [top, ..] = self.state.to_be_bytes();
        match top.checked_rem(below) {
            Some(left) => left,
            None => 0,
        }
    }
}

/// One of four files, or a version of one of two.
fn path(roll: u8) -> &'static str {
    match roll {
        0 => ":MASTER.A",
        1 => ":MASTER.B",
        2 => ":MASTER.C",
        3 => ":MASTER.D",
        4 => ":MASTER.E(1/)",
        _ => ":MASTER.F(1/)",
    }
}

/// A call of MASTER.
fn drawn_call(dice: &mut Dice) -> Ask<'static> {
    let name = path(dice.roll(6));
    let letter = dice.roll(200);
    let len = usize::from(dice.roll(250)).wrapping_mul(7);
    let what = match dice.roll(9) {
        0..=3 => OnFile::Put(letter, len),
        4 => OnFile::Append(letter, len),
        5 => OnFile::Erase,
        6 => return Ask::List("MASTER"),
        _ => OnFile::Fetch,
    };
    Ask::OnFile(name, what)
}

/// What an operator does.
fn drawn_event(dice: &mut Dice) -> Event<'static> {
    match dice.roll(40) {
        0..=2 => Event::Device(Device::Open, 1),
        3..=4 => Event::Device(Device::Open, 2),
        5..=14 => Event::Migrate(path(dice.roll(6))),
        15 => Event::Shut,
        16 => Event::Device(Device::Process, 1),
        17 => Event::Device(Device::Process, 2),
        _ => Event::Step,
    }
}

/// Does what the operator does, for any outcome, and starts the system if it is down.
fn operate(alloc: Global, system: &mut System, dice: &mut Dice) {
    for _ in 0..6 {
        let _answer = system.happens(alloc, &drawn_event(dice));
        if system.store().is_none() {
            let _answer = system.happens(alloc, &Event::Start);
        }
    }
}

/// A call to which both stores must give the same answer.
fn ask_both(
    rt: &HostRuntime,
    system: &mut System,
    plain: &mut PlainStore,
    ask: Ask<'static>,
) -> Result<(), Wrong> {
    let wanted = told(rt.alloc(), &asked(rt.alloc(), plain, "MASTER", &ask))?;
    let seen = system.happens(rt.alloc(), &Event::Ask("MASTER", ask));
    let seen = told(rt.alloc(), &seen)?;
    compare(rt, seen.as_str(), wanted.as_str())
}

/// Prints the two answers if they differ.
fn compare(rt: &HostRuntime, seen: &str, wanted: &str) -> Result<(), Wrong> {
    if seen == wanted {
        return Ok(());
    }
    println!(rt; "{seen} and not {wanted}")?;
    Err(Wrong("another answer"))
}

/// Dumps everything at the end and restores all of it.
fn restore(rt: &HostRuntime, system: &mut System, plain: &mut PlainStore) -> Result<(), Wrong> {
    for event in [
        Event::Finish,
        Event::Device(Device::Open, 1),
        Event::Finish,
        Event::Shut,
        Event::Restore,
    ] {
        let _answer = system.happens(rt.alloc(), &event);
    }
    ask_both(rt, system, plain, Ask::List("MASTER"))?;
    for roll in 0..6 {
        ask_both(rt, system, plain, Ask::OnFile(path(roll), OnFile::Fetch))?;
    }
    Ok(())
}

/// The system answers as the plain store does, also after the restore.
fn converse(rt: &HostRuntime) -> Result<(), Wrong> {
    let mut plain = PlainStore::new(rt.alloc())?;
    converse_beside(rt, &mut plain)
}

fn converse_beside(rt: &HostRuntime, plain: &mut PlainStore) -> Result<(), Wrong> {
    let mut system = Setting::parse("as_a_plain_store reels=2")?.system(rt.alloc())?;
    converse_on(rt, &mut system, plain)
}

fn converse_on(rt: &HostRuntime, system: &mut System, plain: &mut PlainStore) -> Result<(), Wrong> {
    play(rt, system, "format\nmount 1\nmount 2")?;
    let mut dice = Dice { state: 7 };
    for _ in 0..150 {
        let ask = drawn_call(&mut dice);
        ask_both(rt, system, plain, ask)?;
        operate(rt.alloc(), system, &mut dice);
    }
    restore(rt, system, plain)
}

/// Prints the result of the comparison.
pub(crate) fn run(rt: &HostRuntime) -> Result<(), Wrong> {
    match converse(rt) {
        Ok(()) => println!(rt; "as_a_plain_store as it should be")?,
        Err(why) => println!(rt; "as_a_plain_store differs: {}", why.0)?,
    }
    Ok(())
}
