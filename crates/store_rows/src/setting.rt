//! The devices that a row begins with.
use crate::rows::Wrong;
use crate::system::System;
use g_disc::{Leave, MemoryDisc};
use g_known::KnownReels;
use g_tape::{MemoryTapes, TapeLeave};
use std::alloc::Global;

/// The name of a row, and how its devices differ from a blank disc of 4,096 blocks and one empty reel of 8,192 whose failed
/// writes leave the old content.
#[derive(Clone, Copy)]
pub(crate) struct Setting<'a> {
    pub(crate) name: &'a str,
    blocks: u32,
    reels: u32,
    capacity: u32,
    leave: &'a str,
    tape_leave: &'a str,
    /// The names of the initial events, separated by commas.
    pub(crate) on: &'a str,
}

impl<'a> Setting<'a> {
    /// Reads a row's first line: its name, and settings `key=value`.
    pub(crate) fn parse(line: &'a str) -> Result<Setting<'a>, Wrong> {
        let mut words = line.split_whitespace();
        let Some(name) = words.next() else {
            return Err(Wrong("no row"));
        };
        let mut setting = Setting {
            name,
            blocks: 4_096,
            reels: 1,
            capacity: 8_192,
            leave: "old",
            tape_leave: "old",
            on: "",
        };
        for word in words {
            let Some((key, value)) = word.split_once('=') else {
                return Err(Wrong("no setting"));
            };
            setting.set(key, value)?;
        }
        Ok(setting)
    }

    fn set(&mut self, key: &str, value: &'a str) -> Result<(), Wrong> {
        if key == "leave" {
            self.leave = value;
        } else if key == "tape_leave" {
            self.tape_leave = value;
        } else if key == "on" {
            self.on = value;
        } else if key == "disc" {
            self.blocks = value.parse()?;
        } else if key == "reels" {
            self.reels = value.parse()?;
        } else if key == "capacity" {
            self.capacity = value.parse()?;
        } else {
            return Err(Wrong("no setting"));
        }
        Ok(())
    }

    /// The devices, without a filestore that is up.
    pub(crate) fn system(&self, alloc: Global) -> Result<System, Wrong> {
        let mut tapes = self.tapes(alloc)?;
        tapes.set_leave(tape_leave_of(self.tape_leave)?);
        let leave = leave_of(self.leave)?;
        let mut disc = MemoryDisc::new(alloc, self.blocks)?;
        disc.set_leave(leave);
        let mut system = System::new(alloc)?;
        system.lie_on(disc, KnownReels::new(alloc, tapes));
        Ok(system)
    }

    fn tapes(&self, alloc: Global) -> Result<MemoryTapes, Wrong> {
        let capacity = self.capacity;
        if capacity < 2 || capacity > 65_536 {
            return Err(Wrong("no reel has so many blocks"));
        }
        let reels = if self.reels == 3 {
            match vec![in alloc; (1, capacity), (2, capacity), (3, capacity)] {
                Ok(reels) => reels,
                Err(_) => return Err(Wrong("no memory")),
            }
        } else if self.reels == 2 {
            match vec![in alloc; (1, capacity), (2, capacity)] {
                Ok(reels) => reels,
                Err(_) => return Err(Wrong("no memory")),
            }
        } else {
            match vec![in alloc; (1, capacity)] {
                Ok(reels) => reels,
                Err(_) => return Err(Wrong("no memory")),
            }
        };
        Ok(MemoryTapes::new(alloc, reels)?)
    }
}

/// What failed writes of the disc leave: `old`, `half`, `whole`, or a block of one byte.
fn leave_of(word: &str) -> Result<Leave, Wrong> {
    if word == "old" {
        Ok(Leave::Old)
    } else if word == "half" {
        Ok(Leave::Half)
    } else if word == "whole" {
        Ok(Leave::Whole)
    } else {
        Ok(Leave::These([word.parse()?; 512]))
    }
}

/// The same for the tapes: `old`, `cut`, `half` or `whole`.
fn tape_leave_of(word: &str) -> Result<TapeLeave, Wrong> {
    if word == "old" {
        Ok(TapeLeave::Old)
    } else if word == "cut" {
        Ok(TapeLeave::Cut)
    } else if word == "half" {
        Ok(TapeLeave::Half)
    } else if word == "whole" {
        Ok(TapeLeave::Whole)
    } else {
        Err(Wrong("nothing is left so"))
    }
}
