//! Rows, separated by blank lines: devices, the events before, and the event that is interrupted.
use crate::lines::{Outcome, Said, Words, ask, call_of};
use crate::system::System;
use crate::trees::tree_of;
use g_base::NoMemory;
use g_known::KnownReels;
use g_plain::StoreFault;
use g_plain_store::PlainStore;
use g_power::{CutDisc, CutTapes, Fault, Shared};
use std::alloc::{AllocError, AllocFailed, Global};
use std::io;
use std::num::ParseIntError;

/// What is wrong with a row, or with what it finds.
#[derive(Debug, Drop)]
pub(crate) enum Wrong {
    /// The row can't be read.
    Row(&'static str),
    /// An event was refused.
    Refused(StoreFault),
    /// Another tree, or another dump.
    Lost(&'static str),
}

impl From<ParseIntError> for Wrong {
    fn from(_wrong: ParseIntError) -> Wrong {
        Wrong::Row("no number")
    }
}

impl From<AllocError> for Wrong {
    fn from(_none: AllocError) -> Wrong {
        Wrong::Row("no memory")
    }
}

impl<T: Drop> From<AllocFailed<T>> for Wrong {
    fn from(_none: AllocFailed<T>) -> Wrong {
        Wrong::Row("no memory")
    }
}

impl From<NoMemory> for Wrong {
    fn from(_none: NoMemory) -> Wrong {
        Wrong::Row("no memory")
    }
}

impl From<io::Error> for Wrong {
    fn from(_failed: io::Error) -> Wrong {
        Wrong::Row("no output")
    }
}

impl From<StoreFault> for Wrong {
    fn from(fault: StoreFault) -> Wrong {
        Wrong::Refused(fault)
    }
}

/// A row. Its last line is the event that is interrupted.
#[derive(Clone, Copy)]
pub(crate) struct Row<'a> {
    pub(crate) name: &'a str,
    blocks: u32,
    reels: u32,
    capacity: u32,
    before: &'a str,
    pub(crate) event: &'a str,
}

impl<'a> Row<'a> {
    /// Reads a row: `name blocks reels capacity` in its first line.
    pub(crate) fn parse(text: &'a str) -> Result<Row<'a>, Wrong> {
        let Some((head, lines)) = text.split_once('\n') else {
            return Err(Wrong::Row("no events"));
        };
        let Some((before, event)) = lines.trim_end().rsplit_once('\n') else {
            return Err(Wrong::Row("no event"));
        };
        let words = Words::of(head);
        Ok(Row {
            name: words.verb,
            blocks: words.first.parse()?,
            reels: words.second.parse()?,
            capacity: words.third.parse()?,
            before,
            event,
        })
    }

    /// Whether there is a filestore before the event.
    fn has_filestore(&self) -> bool {
        self.before.lines().any(|line| line == "format")
    }

    /// Its devices.
    fn devices(&self, alloc: Global, power: &Shared) -> Result<System, Wrong> {
        let mut system = System::new(alloc)?;
        let disc = CutDisc::new(alloc, power.clone()?, self.blocks)?;
        let tapes = CutTapes::new(alloc, power.clone()?, self.reels, self.capacity)?;
        system.put_down(disc, KnownReels::new(alloc, tapes));
        Ok(system)
    }

    /// The system before the event.
    pub(crate) fn system(&self, alloc: Global, power: &Shared) -> Result<System, Wrong> {
        power.choose(Fault::Off, 0);
        let mut system = self.devices(alloc, power)?;
        for line in self.before.lines() {
            system.run(alloc, &Words::of(line))?;
        }
        Ok(system)
    }

    /// What the row expects, and how many calls its event makes.
    pub(crate) fn wanted(&self, alloc: Global, power: &Shared) -> Result<Wanted, Wrong> {
        let mut plain = PlainStore::new(alloc)?;
        let mut wanted = Wanted::new(alloc);
        power.choose(Fault::Off, 0);
        let mut system = self.devices(alloc, power)?;
        for line in self.before.lines() {
            wanted.run(alloc, &mut system, &mut plain, line)?;
        }
        if self.has_filestore() {
            wanted.before = tree_of(alloc, &mut plain)?;
        }
        wanted.last_before = wanted.last;
        power.choose(Fault::Off, 0);
        wanted.run(alloc, &mut system, &mut plain, self.event)?;
        wanted.calls = power.calls();
        wanted.after = tree_of(alloc, &mut plain)?;
        Ok(wanted)
    }
}

/// What may be found after an event was interrupted.
#[derive(Drop)]
pub(crate) struct Wanted {
    /// The trees before and after the event.
    pub(crate) before: Vec<u8>,
    pub(crate) after: Vec<u8>,
    /// The tree at the opening of each dump, by its number.
    pub(crate) dumps: Vec<(u64, Vec<u8>)>,
    /// The last completed dump before and after the event, 0 if there is none.
    pub(crate) last_before: u64,
    pub(crate) last: u64,
    /// How many calls the event makes.
    pub(crate) calls: u32,
}

impl Wanted {
    fn new(alloc: Global) -> Wanted {
        Wanted {
            before: Vec::new(alloc),
            after: Vec::new(alloc),
            dumps: Vec::new(alloc),
            last_before: 0,
            last: 0,
            calls: 0,
        }
    }

    /// An event, on the system and on the plain tree.
    fn run(
        &mut self,
        alloc: Global,
        system: &mut System,
        plain: &mut PlainStore,
        line: &str,
    ) -> Result<(), Wrong> {
        let words = Words::of(line);
        let said = system.run(alloc, &words)?;
        match call_of(alloc, &words)? {
            Some(call) => {
                let _reply = ask(alloc, plain, &call)?;
            }
            None => {}
        }
        self.note(alloc, plain, &words, said)
    }

    fn note(
        &mut self,
        alloc: Global,
        plain: &mut PlainStore,
        words: &Words,
        said: Said,
    ) -> Result<(), Wrong> {
        match said {
            Said::Done => {}
            Said::Opened(number) => self.dumps.push((number, tree_of(alloc, plain)?))?,
            Said::Completed(number) => {
                if words.verb == "process" {
                    self.dumps.push((number, tree_of(alloc, plain)?))?;
                }
                self.last = number;
            }
        }
        Ok(())
    }
}
