//! The units of a job, assigned and released, and the transfers of its program.

ghost use Rattle.std.specs.Prelude.{◌≡◌, ◌↔◌, ◌+◌, ◌++◌, ◌∷◌, [], ◌^◌, ◌<◌, ◌≤◌, true, false, drop, length, replicate, Some, None, IsOk, IfOk, IfErr, OnOk, OnErr, MatchResult};
ghost use Rattle.std.specs.Option.{option_map};
ghost use Rattle.g_mill.specs.Lines.{lines};
ghost use Rattle.g_mill.specs.Machine.{Machine, size, words_for};
ghost use Rattle.g_peri.specs.Layout.{trimmed};
ghost use Rattle.g_peri.specs.Transfer.{answered, read_by, written_by, has_room, puts, Transfers};
ghost use Rattle.g_mill.specs.Machine as machine;
ghost use Rattle.g_peri.specs.Transfer as transfer;
ghost use Rattle.g_peri.specs.JobUnits as held;

use crate::control::{Control, read_control};
use crate::deck::Deck;
use crate::layout::{put_line, trimmed_len};
use crate::unit::{Kind, Unit};
use crate::writers::{Writers, vacant};
use arrayvec::ArrayVec;
use g_base::{MAX_FILE_BYTES, NoMemory};
use g_mill::Program;
use g_name::{Path, Text};
use g_word::Word;
use std::alloc::Global;
use std::marker::Model;
use thiserror::Error;

/// The maximum length of an output in bytes; an output becomes a file.
const LIMIT: usize = MAX_FILE_BYTES as usize;

/// Why a unit isn't assigned or released.
#[derive(Clone, Copy, Debug, PartialEq, Eq, Error)]
pub enum UnitFault {
    #[error("the unit is assigned already")]
    InUse,
    #[error("the unit isn't assigned")]
    NotAssigned,
}

/// Why a transfer isn't done.
#[derive(Clone, Copy, Debug, PartialEq, Eq, Error)]
pub enum PeriFault {
    #[error("the transfer is illegal")]
    Illegal,
    #[error("out of memory")]
    NoMemory,
}

/// The 24 units of a job. Contracts see what each of them holds.
#[derive(Drop)]
pub struct Units {
    readers: Vec<Option<Deck>>,
    writers: Writers,
    /// No unit was assigned yet, so that the end of a job needn't check each.
    is_unused: bool,
    alloc: Global,
}

impl Model for Units {
    ghost use Rattle.std.specs.Prelude.{◌≡◌, vec_len, length, true, All};
    ghost use Rattle.std.specs.Coded.{codes};
    ghost use Rattle.g_name.specs.contracts.path.Path as path;
    ghost use Rattle.g_peri.specs.JobUnits.{Held, IsShort, vacant};

    ghost Value = { Held };

    ghost coded = { Prim.hlevel (codes, path.the_row.coded) };

    ghost view = { λ u. record { readers = u.readers.items; writers = u.writers } };

    ghost invariant = { λ u. (vec_len u.readers ≡ 8) × (length u.writers ≡ 16) × All IsShort u.writers
        × (u.is_unused ≡ true → record { readers = u.readers.items; writers = u.writers } ≡ vacant) };
}

impl Units {
    /// The units of a job, none assigned.
    pub fn new(alloc: Global) -> Result<Units, NoMemory>
        ensures { IfOk result (λ u. u ≡ held.vacant) }
    {
        let readers = vacant(alloc, 8)?;
        let writers = Writers::new(alloc)?;
        Ok(Units {
            readers,
            writers,
            is_unused: true,
            alloc,
        })
    }

    /// Whether no unit was assigned since they were created; once one was, they count as used. Checks no unit.
    pub fn are_unused(&self) -> bool
        ensures { result ≡ true → self.now ≡ held.vacant }
    {
        self.is_unused
    }

    /// Whether a unit is assigned.
    pub fn assigned(&self, unit: Unit) -> bool
        ensures value { result ≡ held.is_assigned self.now unit }
        ensures sizes { (length self.now.readers ≡ 8) × (length self.now.writers ≡ 16) }
    {
        match unit.kind {
            Kind::Cr => self.readers[usize::from(unit.number)].is_some(),
            Kind::Lp | Kind::Tp => self.writers.get(unit.place()).is_some(),
        }
    }

    /// Loads a text into a card reader, whose lines a program then reads. The path isn't stored, since a card reader has no output.
    pub fn assign_input(&mut self, unit: Unit, _path: Path, bytes: Text) -> Result<(), UnitFault>
        requires { held.is_reader unit.kind ≡ true }
        ensures exact { IsOk result ↔ (held.is_assigned self.old unit ≡ false) }
        ensures in_use { IfErr result (λ e. e ≡ UnitFault.InUse) }
        ensures ok { OnOk result
            (self.new ≡ held.with_reader self.old unit.number (Some (lines bytes))) }
        ensures err { OnErr result (self.new ≡ self.old) }
    {
        if self.assigned(unit) {
            return Err(UnitFault::InUse);
        }
        self.is_unused = false;
        self.readers[usize::from(unit.number)] = Some(Deck::new(bytes));
        Ok(())
    }

    /// Assigns a printer or a punch; its output is for the path.
    pub fn assign_output(&mut self, unit: Unit, path: Path) -> Result<(), UnitFault>
        requires { held.is_reader unit.kind ≡ false }
        ensures exact { IsOk result ↔ (held.is_assigned self.old unit ≡ false) }
        ensures in_use { IfErr result (λ e. e ≡ UnitFault.InUse) }
        ensures ok { OnOk result
            (self.new ≡ held.with_writer self.old (held.place_of unit.kind unit.number)
            (Some (path, []))) }
        ensures err { OnErr result (self.new ≡ self.old) }
    {
        if self.assigned(unit) {
            return Err(UnitFault::InUse);
        }
        let text = Text::new(self.alloc);
        self.is_unused = false;
        self.writers.set(unit.place(), Some((path, text)));
        Ok(())
    }

    /// Takes what a unit holds: path and bytes of an output, and nothing of a card reader.
    pub fn release(&mut self, unit: Unit) -> Result<Option<(Path, Text)>, UnitFault>
        ensures exact { IsOk result ↔ (held.is_assigned self.old unit ≡ true) }
        ensures refused { IfErr result (λ e. e ≡ UnitFault.NotAssigned) }
        ensures output { IfOk result (λ output. output ≡ held.output_of self.old unit) }
        ensures short { IfOk result held.IsShort }
        ensures ok { OnOk result (self.new ≡ held.released self.old unit) }
        ensures err { OnErr result (self.new ≡ self.old) }
    {
        if !self.assigned(unit) {
            return Err(UnitFault::NotAssigned);
        }
        self.is_unused = false;
        match unit.kind {
            Kind::Cr => {
                self.readers[usize::from(unit.number)] = None;
                Ok(None)
            }
            Kind::Lp | Kind::Tp => Ok(self.writers.take(unit.place())),
        }
    }

    /// Makes the transfer that a program requests by a control area; the reply is written last. An illegal one changes nothing, except that the
    /// program's next address is that of the order again, as it wasn't executed. If memory runs out, nothing changes.
    pub fn peri(&mut self, program: &mut Program, area: u16) -> Result<(), PeriFault>
        ensures { Transfers result self.old program.old self.new program.new area }
    {
        let Some(control) = read_control(program, area) else {
            program.step_back();
            return Err(PeriFault::Illegal);
        };
        match self.answer(program, &control) {
            Ok(reply) => {
                program.set_word(area + 1, Word::from(reply));
                Ok(())
            }
            Err(NoMemory) => Err(PeriFault::NoMemory),
        }
    }

    /// Makes a transfer except for writing the reply, and returns the reply.
    fn answer(&mut self, program: &mut Program, control: &Control) -> Result<u16, NoMemory>
        requires { control.now.from + words_for control.now.count ≤ size program.old }
        ensures size { size program.new ≡ size program.old }
        ensures answered { MatchResult result
            (λ reply. (self.new, program.new, reply) ≡ answered self.old program.old control.now)
            (λ _. (self.new ≡ self.old) × (program.new ≡ program.old)) }
        ensures no_memory { IfErr result (λ _. puts self.old program.old control.now ≡ true) }
    {
        if control.unit.is_reader() {
            Ok(self.read(program, control))
        } else {
            self.write(program, control)
        }
    }

    /// Reads the next line of a card reader into the program, and returns the reply.
    fn read(&mut self, program: &mut Program, control: &Control) -> u16
        requires reader { control.now.unit < 8 }
        requires within { control.now.from + words_for control.now.count ≤ size program.old }
        ensures size { size program.new ≡ size program.old }
        ensures read { (self.new, program.new, result) ≡ read_by
            (held.at_place self.old.readers control.now.unit) self.old program.old control.now }
    {
        let place = control.unit.place();
        let Some(deck) = &self.readers[place] else {
            return 2;
        };
        let Some(line) = deck.next_line() else {
            return 1;
        };
        put_line(program, control.from, control.count, line);
        let is_longer = line.len() > usize::from(control.count);
        self.pass(place);
        if is_longer { 3 } else { 0 }
    }

    /// Takes the next line of a card reader.
    fn pass(&mut self, place: usize)
        requires { place < 8 }
        ensures { self.new ≡ held.with_reader self.old place
            (option_map (drop 1) (held.at_place self.old.readers place)) }
    {
        self.is_unused = false;
        if let Some(deck) = &mut self.readers[place] {
            deck.pass();
        }
    }

    /// Writes the characters of a program to a printer or a punch, and returns the reply.
    fn write(&mut self, program: &Program, control: &Control) -> Result<u16, NoMemory>
        requires writer { 8 ≤ control.now.unit }
        requires within { control.now.from + words_for control.now.count ≤ size program.now }
        ensures answered { MatchResult result
            (λ reply. (self.new, program.now, reply) ≡ answered self.old program.now control.now)
            (λ _. self.new ≡ self.old) }
        ensures no_memory { IfErr result (λ _. puts self.old program.now control.now ≡ true) }
    {
        let place = control.unit.place();
        self.append(place, added(program, control, place).as_slice())
    }

    /// Appends bytes to an output that has room for them, and returns the reply.
    fn append(&mut self, place: usize, bytes: &[u8]) -> Result<u16, NoMemory>
        requires { place < 16 }
        ensures written { (program : Machine) → MatchResult result
            (λ reply. (self.new, program, reply) ≡ written_by
            (held.at_place self.old.writers place) place bytes.now self.old program)
            (λ _. self.new ≡ self.old) }
        ensures no_memory { IfErr result
            (λ _. has_room (held.at_place self.old.writers place) bytes.now ≡ true) }
    {
        let Some((_path, text)) = self.writers.get(place) else {
            return Ok(2);
        };
        if bytes.len() > LIMIT - text.as_slice().len() {
            return Ok(4);
        }
        self.extend(place, bytes)?;
        Ok(0)
    }

    /// Appends bytes to an output.
    fn extend(&mut self, place: usize, bytes: &[u8]) -> Result<(), NoMemory>
        requires place { place < 16 }
        requires room { has_room (held.at_place self.old.writers place) bytes.now ≡ true }
        ensures ok { OnOk result
            (self.new ≡ held.with_writer self.old place
            (option_map (λ o. (o.0, o.1 ++ bytes.now)) (held.at_place self.old.writers place))) }
        ensures err { OnErr result (self.new ≡ self.old) }
    {
        self.is_unused = false;
        self.writers.extend(place, bytes)
    }
}

/// The bytes that a program adds to an output.
fn added(program: &Program, control: &Control, place: usize) -> ArrayVec<u8, 161>
    requires { control.now.from + words_for control.now.count ≤ size program.now }
    ensures { result.items ≡ transfer.added place
        (machine.characters program.now.words control.now.from control.now.count) }
{
    let mut bytes = program.characters(control.from, control.count);
    if place >= 8 {
        return bytes;
    }
    end_line(&mut bytes);
    bytes
}

/// Makes characters a line of a printer: without the spaces at their end, and with a byte 10.
fn end_line(bytes: &mut ArrayVec<u8, 161>)
    requires { length bytes.old.items ≤ 160 }
    ensures { bytes.new.items ≡ trimmed bytes.old.items ++ 10 ∷ [] }
{
    let end = trimmed_len(bytes.as_slice());
    bytes.truncate(end);
    bytes.push(b'\n');
}
