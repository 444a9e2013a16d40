//! The histories of a row, and what is printed of them.
use crate::histories::{End, History, run as run_history};
use crate::rows::{Row, Wanted, Wrong};
use g_power::{Power, Shared};
use std::alloc::Global;

/// How many seeds each call is tried with.
const SEEDS: u32 = 8;

/// Runs all histories of a row, and prints a line.
pub(crate) fn run(rt: &HostRuntime, text: &str) -> Result<(), Wrong> {
    let row = Row::parse(text)?;
    let power = Power::new(rt.alloc())?;
    let wanted = match row.wanted(rt.alloc(), &power) {
        Ok(wanted) => wanted,
        Err(why) => {
            println!(rt; "{} differs: {why:?}", row.name)?;
            return Ok(());
        }
    };
    let mut tries = Tries {
        rt,
        row: &row,
        power: &power,
        wanted: &wanted,
        count: 0,
        wrong: 0,
    };
    for call in 1..=wanted.calls.saturating_add(1) {
        tries.at(call)?;
    }
    println!(rt;
        "{} {} calls, {} histories, {} differ",
        row.name, wanted.calls, tries.count, tries.wrong
    )?;
    Ok(())
}

/// The histories that were tried.
#[derive(Drop)]
struct Tries<'a> {
    rt: &'a HostRuntime,
    row: &'a Row<'a>,
    power: &'a Shared,
    wanted: &'a Wanted,
    count: u32,
    wrong: u32,
}

impl Tries<'_> {
    /// The event is interrupted at this call.
    fn at(&mut self, call: u32) -> Result<(), Wrong> {
        if !is_tried(call, self.wanted.calls) {
            return Ok(());
        }
        for seed in 0..SEEDS {
            self.with(call, seed)?;
        }
        Ok(())
    }

    fn with(&mut self, call: u32, seed: u32) -> Result<(), Wrong> {
        let _starts = self.one(End::Lost, call, seed)?;
        let starts = self.one(End::Killed(0), call, seed)?;
        let _starts = self.one(End::Failed(0), call, seed)?;
        let start = start_of(seed, starts);
        let _starts = self.one(End::Killed(start), call, seed)?;
        let _starts = self.one(End::Failed(start), call, seed)?;
        Ok(())
    }

    /// One history, and how many calls its START made.
    fn one(&mut self, end: End, call: u32, seed: u32) -> Result<u32, Wrong> {
        self.count = self.count.wrapping_add(1);
        let history = History { end, call, seed };
        match run_history(self.rt.alloc(), self.row, self.power, self.wanted, &history) {
            Ok(starts) => Ok(starts),
            Err(why) => {
                self.wrong = self.wrong.wrapping_add(1);
                if self.wrong < 20 {
                    println!(self.rt;
                        "{} {end:?} call {call} seed {seed}: {why:?}",
                        self.row.name
                    )?;
                }
                Ok(0)
            }
        }
    }
}

/// Whether power is lost at this call, of this many: at each of the first and the last ones, and at every 31st between. Those
/// between write a slot that isn't current, block by block.
fn is_tried(call: u32, calls: u32) -> bool {
    call <= 24 || call.saturating_add(12) > calls || call % 31 == 0
}

/// The call at which a START of this many is interrupted: one of the first four or the last four, or the one after the last.
fn start_of(seed: u32, starts: u32) -> u32 {
    let last = starts.saturating_add(1);
    if seed < 4 {
        last.min(seed.saturating_add(1))
    } else {
        last.saturating_sub(seed - 4).max(1)
    }
}
