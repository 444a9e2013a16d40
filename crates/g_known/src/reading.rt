//! Reads the dumps of a reel that follow the known ones.
ghost use Rattle.std.specs.Prelude.{◌≡◌, ◌≤◌, ◌^◌, OnOk};
ghost use Rattle.g_incr.specs.Reading.{ReadsReel};
ghost use Rattle.g_known.specs.ReelNotes.{GoesOn, IsKnown, IsNoted, number_in};

use crate::lists::{NotedReel, end};
use g_incr::{DumpNote, ShelfFault};
use g_shelf::next_dump;
use g_tape::Tapes;
use std::alloc::Global;

impl NotedReel {
    /// Appends the notes of the dumps that follow those of the list, up to the last completed one. Only the records of one dump
    /// at a time are in memory, and no content is read. After a failure the list has the notes of the dumps that were read before
    /// it. `NoTape`, `NotMounted`, `ReadFault`, `NoMemory`; the reel's content is unchanged.
    pub(crate) fn read_on<T: Tapes>(
        &mut self,
        alloc: Global,
        tapes: &mut T,
    ) -> Result<(), ShelfFault>
        requires known { IsKnown (T.rack tapes.old) self.old.serial self.old.notes.items }
        ensures reads { ReadsReel self.old.serial result (T.rack tapes.old) (T.rack tapes.new) }
        ensures serial { self.new.serial ≡ self.old.serial }
        ensures more { GoesOn self.old.notes.items self.new.notes.items }
        ensures known { IsKnown (T.rack tapes.new) self.old.serial self.new.notes.items }
        ensures noted { OnOk result (IsNoted self.old.serial (T.rack tapes.old) self.new.notes.items) }
    {
        let serial = self.serial;
        let mut at = end(self.notes.as_slice()) as u32;
        let mut least = least_behind(self.notes.as_slice());
        loop {
            // A `match`, since the proof names its arms (`in-Ok`, `in-Err`).
            match next_dump(alloc, tapes, serial, at, least) {
                Ok(Some(dir)) => {
                    at = dir.note.place + dir.note.count + 2;
                    least = dir.note.number + 1;
                    match self.notes.push(dir.note) {
                        Ok(()) => {}
                        Err(_) => return Err(ShelfFault::NoMemory),
                    }
                }
                Ok(None) => return Ok(()),
                Err(fault) => return Err(fault),
            }
        }
    }
}

/// The least number that a dump after those of these notes may have.
fn least_behind(notes: &[DumpNote]) -> u64
    requires { number_in 0 notes.now ≤ 2 ^ 62 }
    ensures { result ≡ number_in 0 notes.now }
{
    match notes.last() {
        Some(note) => note.number + 1,
        None => 0,
    }
}
