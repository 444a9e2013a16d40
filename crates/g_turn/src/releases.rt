//! The release of units: by RELEASE, by DELETE and at the job's end.
ghost use Rattle.std.specs.Prelude.{◌≡◌, ◌≤◌, ◌<◌, ◌+◌, ℕ, None, false, drop, length, MatchOption, OnErr, OnOk};
ghost use Rattle.g_turn.specs.Releases as releases;
ghost use Rattle.g_turn.specs.Outcomes as said;
ghost use Rattle.g_turn.specs.Steps.{RanWell};
ghost use Rattle.g_peri.specs.JobUnits as held;
ghost use Rattle.g_plain.specs.Programs.{RanInPart};

use crate::asker::Asker;
use crate::stop::Stop;
use crate::work::Work;
use g_base::NoMemory;
use g_monitor::{CommandError, JobLine};
use g_name::{Path, Text};
use g_peri::{Kind, Unit};
use g_plain::Filestore;

/// How many card readers there are.
const READERS: u8 = 8;

/// How many printers and punches there are.
const WRITERS: u8 = 16;

/// The printer or the punch at a place among both.
fn writer_at(place: u8) -> Unit
    requires { place < 16 }
    ensures place { held.place_of result.kind result.number ≡ place }
    ensures kind { held.is_reader result.kind ≡ false }
{
    if place < 8 {
        Unit {
            kind: Kind::Lp,
            number: place,
        }
    } else {
        Unit {
            kind: Kind::Tp,
            number: place - 8,
        }
    }
}

impl Work {
    /// RELEASE: the output of a printer or a punch is written to its file.
    pub(crate) fn release<S: Filestore>(
        &mut self,
        store: &mut S,
        asker: &Asker<'_>,
        unit: Unit,
    ) -> Result<(), NoMemory>
        requires running { S.is_spent store.old ≡ false }
        requires few { self.old.blocks ≤ 4096 }
        ensures ok { OnOk result (RanWell S.answers S.is_spent S.can_wait asker.now.who.now store.old
            (releases.release asker.now.room unit self.old) self.new store.new) }
        ensures err { OnErr result (RanInPart S.answers asker.now.who.now store.old
            (releases.release asker.now.room unit self.old) store.new) }
        ensures live { OnOk result (said.is_over self.new ≡ false → S.is_spent store.new ≡ false) }
        ensures same_waits { (s : ℕ) → S.can_wait store.new s ≡ S.can_wait store.old s }
        ensures blocks { OnOk result (self.new.blocks ≤ self.old.blocks + 128) }
    {
        match self.units.release(unit) {
            Ok(output) => self.give_back(store, asker, output),
            Err(_) => self.in_error(asker.alloc, asker.room, CommandError::NotAssigned),
        }
    }

    /// Writes the output that a unit returns, if it has one.
    fn give_back<S: Filestore>(
        &mut self,
        store: &mut S,
        asker: &Asker<'_>,
        output: Option<(Path, Text)>,
    ) -> Result<(), NoMemory>
        requires running { S.is_spent store.old ≡ false }
        requires few { self.old.blocks ≤ 4096 }
        ensures ok { OnOk result (RanWell S.answers S.is_spent S.can_wait asker.now.who.now store.old
            (releases.given_back asker.now.room output self.old) self.new store.new) }
        ensures err { OnErr result (RanInPart S.answers asker.now.who.now store.old
            (releases.given_back asker.now.room output self.old) store.new) }
        ensures live { OnOk result (said.is_over self.new ≡ false → S.is_spent store.new ≡ false) }
        ensures same_waits { (s : ℕ) → S.can_wait store.new s ≡ S.can_wait store.old s }
        ensures blocks { OnOk result (self.new.blocks ≤ self.old.blocks + 128) }
    {
        match output {
            Some((path, bytes)) => self.put(store, asker, true, (path, bytes)),
            None => {
                self.done();
                self.say_job_line(asker.alloc, asker.room, JobLine::Released)
            }
        }
    }

    /// Releases the card reader of this number.
    fn release_reader(&mut self, number: u8)
        requires { number < 8 }
        ensures ok { self.new ≡ said.with_units
            (held.with_reader self.old.desk.units number None) self.old }
        ensures sizes { (length self.old.desk.units.readers ≡ 8)
            × (length self.old.desk.units.writers ≡ 16) }
    {
        let unit = Unit {
            kind: Kind::Cr,
            number,
        };
        if self.units.assigned(unit) {
            let _nothing = self.units.release(unit);
        }
    }

    /// Releases all card readers.
    fn release_readers(&mut self)
        ensures ok { self.new ≡ releases.without_readers self.old }
        ensures sizes { length self.new.desk.units.writers ≡ 16 }
    {
        for number in 0..READERS {
            self.release_reader(number);
        }
    }

    /// Takes the output of the printer or the punch at a place, if it is assigned.
    fn take_output(&mut self, place: u8) -> Option<(Path, Text)>
        requires { place < 16 }
        ensures output { result ≡ held.at_place self.old.desk.units.writers place }
        ensures work { MatchOption result (self.new ≡ self.old) (λ _. self.new ≡ said.with_units
            (held.with_writer self.old.desk.units place None) self.old) }
    {
        match self.units.release(writer_at(place)) {
            Ok(output) => output,
            Err(_) => None,
        }
    }

    /// Releases the printer or the punch at a place, if it is assigned, and writes its output.
    fn release_place<S: Filestore>(
        &mut self,
        store: &mut S,
        asker: &Asker<'_>,
        place: u8,
    ) -> Result<(), NoMemory>
        requires running { S.is_spent store.old ≡ false }
        requires few { self.old.blocks ≤ 4096 }
        requires place { place < 16 }
        ensures ok { OnOk result (RanWell S.answers S.is_spent S.can_wait asker.now.who.now store.old
            (releases.release_one asker.now.room place (held.at_place self.old.desk.units.writers place)
            self.old) self.new store.new) }
        ensures err { OnErr result (RanInPart S.answers asker.now.who.now store.old
            (releases.release_one asker.now.room place (held.at_place self.old.desk.units.writers place)
            self.old) store.new) }
        ensures live { OnOk result (said.is_over self.new ≡ false → S.is_spent store.new ≡ false) }
        ensures same_waits { (s : ℕ) → S.can_wait store.new s ≡ S.can_wait store.old s }
        ensures blocks { OnOk result (self.new.blocks ≤ self.old.blocks + 128) }
    {
        match self.take_output(place) {
            Some((path, bytes)) => self.put(store, asker, false, (path, bytes)),
            None => Ok(()),
        }
    }

    /// Releases all units: readers, printers and punches, each in order of number. For a job that assigned none, which most don't, it checks none.
    fn release_all<S: Filestore>(
        &mut self,
        store: &mut S,
        asker: &Asker<'_>,
    ) -> Result<(), NoMemory>
        requires running { S.is_spent store.old ≡ false }
        requires open { said.is_over self.old ≡ false }
        requires few { self.old.blocks ≤ 2048 }
        ensures ok { OnOk result (RanWell S.answers S.is_spent S.can_wait asker.now.who.now store.old
            (releases.release_all asker.now.room self.old) self.new store.new) }
        ensures err { OnErr result (RanInPart S.answers asker.now.who.now store.old
            (releases.release_all asker.now.room self.old) store.new) }
        ensures live { OnOk result (said.is_over self.new ≡ false → S.is_spent store.new ≡ false) }
        ensures same_waits { (s : ℕ) → S.can_wait store.new s ≡ S.can_wait store.old s }
        ensures blocks { OnOk result (self.new.blocks ≤ self.old.blocks + 2048) }
    {
        if self.units.are_unused() {
            return Ok(());
        }
        self.release_readers();
        for place in 0..WRITERS {
            match self.release_place(store, asker, place) {
                Ok(()) => {}
                Err(NoMemory) => return Err(NoMemory),
            }
            if self.is_over() {
                return Ok(());
            }
        }
        Ok(())
    }

    /// Ends the job after the release of its units.
    pub(crate) fn end_job<S: Filestore>(
        &mut self,
        store: &mut S,
        asker: &Asker<'_>,
    ) -> Result<(), NoMemory>
        requires running { S.is_spent store.old ≡ false }
        requires open { said.is_over self.old ≡ false }
        requires few { self.old.blocks ≤ 2048 }
        ensures ok { OnOk result (RanWell S.answers S.is_spent S.can_wait asker.now.who.now store.old
            (releases.end_job asker.now.room self.old) self.new store.new) }
        ensures err { OnErr result (RanInPart S.answers asker.now.who.now store.old
            (releases.end_job asker.now.room self.old) store.new) }
        ensures live { OnOk result (said.is_over self.new ≡ false → S.is_spent store.new ≡ false) }
        ensures same_waits { (s : ℕ) → S.can_wait store.new s ≡ S.can_wait store.old s }
        ensures blocks { OnOk result (self.new.blocks ≤ self.old.blocks + 2048) }
    {
        self.done();
        match self.release_all(store, asker) {
            Ok(()) => {
                if self.is_over() {
                    return Ok(());
                }
                self.stop_at(Stop::Done);
                Ok(())
            }
            Err(NoMemory) => Err(NoMemory),
        }
    }

    /// DELETE: the program is dropped, the units are released, and then DELETED is printed. Without a program nothing is released.
    pub(crate) fn delete<S: Filestore>(
        &mut self,
        store: &mut S,
        asker: &Asker<'_>,
    ) -> Result<(), NoMemory>
        requires running { S.is_spent store.old ≡ false }
        requires open { said.is_over self.old ≡ false }
        requires few { self.old.blocks ≤ 2048 }
        ensures ok { OnOk result (RanWell S.answers S.is_spent S.can_wait asker.now.who.now store.old
            (releases.delete asker.now.room self.old.desk.program self.old) self.new store.new) }
        ensures err { OnErr result (RanInPart S.answers asker.now.who.now store.old
            (releases.delete asker.now.room self.old.desk.program self.old) store.new) }
        ensures live { OnOk result (said.is_over self.new ≡ false → S.is_spent store.new ≡ false) }
        ensures same_waits { (s : ℕ) → S.can_wait store.new s ≡ S.can_wait store.old s }
        ensures blocks { OnOk result (self.new.blocks ≤ self.old.blocks + 2048) }
    {
        if self.program.is_none() {
            self.in_error(asker.alloc, asker.room, CommandError::NoProgram)
        } else {
            self.drop_program(store, asker)
        }
    }

    /// There is no program.
    fn forget_program(&mut self)
        ensures { self.new ≡ releases.dropped self.old }
    {
        self.program = None;
        self.halted = false;
    }

    /// Drops the program, releases the units, and prints DELETED.
    fn drop_program<S: Filestore>(
        &mut self,
        store: &mut S,
        asker: &Asker<'_>,
    ) -> Result<(), NoMemory>
        requires running { S.is_spent store.old ≡ false }
        requires open { said.is_over self.old ≡ false }
        requires few { self.old.blocks ≤ 2048 }
        ensures ok { OnOk result (RanWell S.answers S.is_spent S.can_wait asker.now.who.now store.old
            (releases.drop_program asker.now.room self.old) self.new store.new) }
        ensures err { OnErr result (RanInPart S.answers asker.now.who.now store.old
            (releases.drop_program asker.now.room self.old) store.new) }
        ensures live { OnOk result (said.is_over self.new ≡ false → S.is_spent store.new ≡ false) }
        ensures same_waits { (s : ℕ) → S.can_wait store.new s ≡ S.can_wait store.old s }
        ensures blocks { OnOk result (self.new.blocks ≤ self.old.blocks + 2048) }
    {
        self.forget_program();
        self.done();
        match self.release_all(store, asker) {
            Ok(()) => {
                if self.is_over() {
                    return Ok(());
                }
                self.say_job_line(asker.alloc, asker.room, JobLine::Deleted)
            }
            Err(NoMemory) => Err(NoMemory),
        }
    }
}
