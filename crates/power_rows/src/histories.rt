//! Histories: an event is interrupted, and what is left is started and restored.
use crate::lines::{Outcome, Said, Words};
use crate::operating::migrate;
use crate::rows::{Row, Wanted, Wrong};
use crate::system::System;
use crate::trees::{NAMES, tree_of};
use g_plain::StoreFault;
use g_power::{Fault, Shared};
use std::alloc::Global;

/// How an event ends.
#[derive(Clone, Copy, Debug)]
pub(crate) enum End {
    /// Power is lost.
    Lost,
    /// The process is killed, and another one starts. It loses power at this call of its START, unless it is 0.
    Killed(u32),
    /// A device fails, and drops what it should have made durable. The process, or another one, starts again. It loses power at
    /// this call of its START, unless it is 0.
    Failed(u32),
}

/// A history: the event ends at this call, in this way, with numbers drawn from the seed.
#[derive(Clone, Copy)]
pub(crate) struct History {
    pub(crate) end: End,
    pub(crate) call: u32,
    pub(crate) seed: u32,
}

/// What run in a history, and what is known of it.
#[derive(Drop)]
pub(crate) struct Tried<'a> {
    alloc: Global,
    power: &'a Shared,
    wanted: &'a Wanted,
    seed: u32,
    /// Whether the event was acknowledged.
    is_done: bool,
    /// The last dump that was said to be completed, 0 if there is none.
    last: u64,
}

/// Runs a history, and returns how many calls its last START made.
pub(crate) fn run(
    alloc: Global,
    row: &Row,
    power: &Shared,
    wanted: &Wanted,
    history: &History,
) -> Result<u32, Wrong> {
    let mut system = row.system(alloc, power)?;
    power.seed(history.seed);
    let fault = match history.end {
        End::Failed(_) => Fault::Once,
        _ => Fault::Off,
    };
    power.choose(fault, history.call);
    let is_done = system.run(alloc, &Words::of(row.event)).is_ok();
    let last = if is_done {
        wanted.last
    } else {
        wanted.last_before
    };
    let mut tried = Tried {
        alloc,
        power,
        wanted,
        seed: history.seed,
        is_done,
        last,
    };
    tried.end(&mut system, history.end)?;
    tried.recover(&mut system)
}

impl Tried<'_> {
    /// The event has ended so.
    fn end(&mut self, system: &mut System, end: End) -> Result<(), Wrong> {
        match end {
            End::Lost => {
                system.lose(self.alloc, self.seed)?;
                Ok(())
            }
            End::Killed(call) => {
                system.reopen(self.alloc)?;
                self.interrupt(system, call)
            }
            End::Failed(call) => {
                if self.seed % 2 == 0 {
                    system.reopen(self.alloc)?;
                } else {
                    system.shut();
                }
                self.interrupt(system, call)
            }
        }
    }

    /// Power is lost at this call of a START, unless it is 0.
    fn interrupt(&mut self, system: &mut System, call: u32) -> Result<(), Wrong> {
        if call > 0 {
            let outcome = self.start(system, call);
            self.adopt(&outcome)?;
            system.lose(self.alloc, self.seed)?;
        }
        Ok(())
    }

    /// A START, with all reels mounted. Power is lost at this call, unless it is 0.
    fn start(&self, system: &mut System, call: u32) -> Outcome {
        system.mount();
        self.power.choose(Fault::Off, call);
        system.run(self.alloc, &Words::of("start"))
    }

    /// If a START adopted a dump, it is completed from now on.
    fn adopt(&mut self, outcome: &Outcome) -> Result<(), Wrong> {
        if let Ok(Said::Completed(number)) = outcome {
            if *number != self.wanted.last && *number != self.last {
                return Err(Wrong::Lost("another dump was adopted"));
            }
            self.last = *number;
        }
        Ok(())
    }

    /// A START gives the tree. It isn't lost by another power loss, after all files were taken off the disc that can be. Then a
    /// RESTORE gives the tree of the last completed dump.
    fn recover(&mut self, system: &mut System) -> Result<u32, Wrong> {
        let outcome = self.start(system, 0);
        if matches!(outcome, Err(StoreFault::NoFilestore)) && self.may_be_blank() {
            return Ok(0);
        }
        self.adopt(&outcome)?;
        let _said = outcome?;
        let calls = self.power.calls();
        let tree = self.tree(system)?;
        self.check_tree(&tree)?;
        self.migrate_all(system);
        system.lose(self.alloc, self.seed.wrapping_add(1))?;
        if !matches!(self.start(system, 0)?, Said::Done) {
            return Err(Wrong::Lost("a dump was adopted after a START"));
        }
        if self.tree(system)? != tree {
            return Err(Wrong::Lost("another tree after a second power loss"));
        }
        self.restore(system)?;
        Ok(calls)
    }

    /// Whether the disc may have no filestore.
    fn may_be_blank(&self) -> bool {
        self.wanted.before.is_empty() && !self.is_done
    }

    /// The tree of a system that is up.
    fn tree(&self, system: &mut System) -> Result<Vec<u8>, Wrong> {
        match system.store() {
            Some(store) => Ok(tree_of(self.alloc, store)?),
            None => Err(Wrong::Lost("no store")),
        }
    }

    fn check_tree(&self, tree: &Vec<u8>) -> Result<(), Wrong> {
        if *tree == self.wanted.after || !self.is_done && *tree == self.wanted.before {
            Ok(())
        } else {
            Err(Wrong::Lost("another tree"))
        }
    }

    /// Takes all files off the disc that have a copy in a completed dump.
    fn migrate_all(&self, system: &mut System) {
        if let Some(store) = system.store() {
            for name in &NAMES {
                let _outcome = migrate(self.alloc, store, name);
            }
        }
    }

    fn restore(&self, system: &mut System) -> Result<(), Wrong> {
        system.shut();
        system.mount();
        match system.run(self.alloc, &Words::of("restore")) {
            Ok(Said::Completed(number)) => {
                let tree = self.tree(system)?;
                self.check_restored(number, &tree)
            }
            Ok(_) => Err(Wrong::Lost("no dump was restored")),
            Err(StoreFault::NoDump) if self.last == 0 => Ok(()),
            Err(fault) => Err(Wrong::Refused(fault)),
        }
    }

    /// A RESTORE gave this tree, from the dump of this number.
    fn check_restored(&self, number: u64, tree: &Vec<u8>) -> Result<(), Wrong> {
        if number != self.last && (self.is_done || number != self.wanted.last) {
            return Err(Wrong::Lost("another dump was restored"));
        }
        for (dump, wanted) in &self.wanted.dumps {
            if *dump == number && *wanted == *tree {
                return Ok(());
            }
        }
        Err(Wrong::Lost("another tree was restored"))
    }
}
