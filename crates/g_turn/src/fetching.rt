//! Fetching files, and the use of their bytes.
ghost use Rattle.std.specs.Prelude.{◌≡◌, ◌≤◌, ◌+◌, ℕ, None, true, false, length, OnErr, OnOk};
ghost use Rattle.g_turn.specs.Outcomes as said;
ghost use Rattle.g_turn.specs.Steps.{RanWell};
ghost use Rattle.g_turn.specs.Uses as uses;
ghost use Rattle.g_turn.specs.Values.{use_of};
ghost use Rattle.g_name.specs.declared.path.Path.{Path};
ghost use Rattle.g_peri.specs.JobUnits as held;
ghost use Rattle.g_plain.specs.Programs.{RanInPart};
ghost use Rattle.g_plan.specs.Assembly.{assembled};
ghost use Rattle.g_trap.specs.declared.mode_set.Mode.{Mode};

use crate::asker::Asker;
use crate::asking::ask_any;
use crate::uses::Use;
use crate::work::Work;
use g_base::NoMemory;
use g_mill::{LoadFault, Program, load};
use g_monitor::{CommandError, JobLine};
use g_name::{Full, Path, Text};
use g_peri::{Kind, Unit};
use g_plain::{Filestore, StoreCall, StoreFault, StoreReply};
use g_plan::{PlanFault, assemble};
use g_trap::Mode;
use std::alloc::Global;

impl Work {
    /// Fetches the file of a path in a mode, and uses its bytes.
    pub(crate) fn fetch<S: Filestore>(
        &mut self,
        store: &mut S,
        asker: &Asker<'_>,
        file: (Path, Mode),
        use_for: Use,
    ) -> Result<(), NoMemory>
        requires running { S.is_spent store.old ≡ false }
        requires open { said.is_over self.old ≡ false }
        requires few { self.old.blocks ≤ 2048 }
        requires free { uses.IsFree (use_of use_for) self.old.desk.units }
        ensures ok { OnOk result (RanWell S.answers S.is_spent S.can_wait asker.now.who.now store.old
            (uses.fetch asker.now.room file.0 file.1 (use_of use_for) self.old) self.new store.new) }
        ensures err { OnErr result (RanInPart S.answers asker.now.who.now store.old
            (uses.fetch asker.now.room file.0 file.1 (use_of use_for) self.old) store.new) }
        ensures live { OnOk result (said.is_over self.new ≡ false → S.is_spent store.new ≡ false) }
        ensures same_waits { (s : ℕ) → S.can_wait store.new s ≡ S.can_wait store.old s }
        ensures blocks { OnOk result (self.new.blocks ≤ self.old.blocks + 256) }
    {
        let (path, mode) = file;
        let call = StoreCall::Fetch { path, mode };
        match ask_any(asker.alloc, store, asker.who, &call) {
            Ok(reply) => match reply {
                StoreReply::Bytes { full, bytes } => {
                    match self.use_fetched(store, asker, use_for, (full, bytes)) {
                        Ok(()) => Ok(()),
                        Err(NoMemory) => Err(NoMemory),
                    }
                }
                _ => Ok(()),
            },
            Err(StoreFault::NoMemory) => Err(NoMemory),
            Err(fault) => match self.refuse(asker.alloc, asker.room, &fault) {
                Ok(()) => Ok(()),
                Err(NoMemory) => Err(NoMemory),
            },
        }
    }

    /// Uses bytes that were fetched from a file; their blocks count.
    fn use_fetched<S: Filestore>(
        &mut self,
        store: &mut S,
        asker: &Asker<'_>,
        use_for: Use,
        fetched: (Full, Text),
    ) -> Result<(), NoMemory>
        requires running { S.is_spent store.old ≡ false }
        requires open { said.is_over self.old ≡ false }
        requires few { self.old.blocks ≤ 2048 }
        requires free { uses.IsFree (use_of use_for) self.old.desk.units }
        requires short { length fetched.1 ≤ 65536 }
        ensures ok { (path : Path) (m : Mode) → OnOk result
            (RanWell S.answers S.is_spent S.can_wait asker.now.who.now store.old
            (uses.use_bytes asker.now.room path m (use_of use_for) fetched.0 fetched.1
            (said.with_bytes (length fetched.1) self.old)) self.new store.new) }
        ensures err { (path : Path) (m : Mode) → OnErr result
            (RanInPart S.answers asker.now.who.now store.old
            (uses.use_bytes asker.now.room path m (use_of use_for) fetched.0 fetched.1
            (said.with_bytes (length fetched.1) self.old)) store.new) }
        ensures live { OnOk result (said.is_over self.new ≡ false → S.is_spent store.new ≡ false) }
        ensures same_waits { (s : ℕ) → S.can_wait store.new s ≡ S.can_wait store.old s }
        ensures blocks { OnOk result (self.new.blocks ≤ self.old.blocks + 256) }
    {
        let (full, bytes) = fetched;
        self.count_bytes(bytes.as_slice().len());
        match use_for {
            Use::Put(to) => self.put(store, asker, true, (to, bytes)),
            Use::Append(to) => self.append(store, asker, to, bytes),
            Use::Assemble(to) => self.assemble_bytes(store, asker, to, bytes.as_slice()),
            Use::List => self.list_bytes(asker.alloc, asker.room, &full, bytes.as_slice()),
            Use::Load => self.load_bytes(asker.alloc, asker.room, bytes.as_slice()),
            Use::Assign { unit, file } => self.assign_reader(asker, unit, file, bytes),
        }
    }

    /// PLAN, with the bytes of the source: writes the program's file; for a bad source nothing is written.
    fn assemble_bytes<S: Filestore>(
        &mut self,
        store: &mut S,
        asker: &Asker<'_>,
        to: Path,
        bytes: &[u8],
    ) -> Result<(), NoMemory>
        requires running { S.is_spent store.old ≡ false }
        requires few { self.old.blocks ≤ 4096 }
        ensures ok { OnOk result (RanWell S.answers S.is_spent S.can_wait asker.now.who.now store.old
            (uses.put_or_bad asker.now.room to (assembled bytes.now) self.old) self.new store.new) }
        ensures err { OnErr result (RanInPart S.answers asker.now.who.now store.old
            (uses.put_or_bad asker.now.room to (assembled bytes.now) self.old) store.new) }
        ensures live { OnOk result (said.is_over self.new ≡ false → S.is_spent store.new ≡ false) }
        ensures same_waits { (s : ℕ) → S.can_wait store.new s ≡ S.can_wait store.old s }
        ensures blocks { OnOk result (self.new.blocks ≤ self.old.blocks + 128) }
    {
        match assemble(asker.alloc, bytes) {
            Ok(file) => self.put(store, asker, true, (to, file)),
            Err(PlanFault::BadPlan(line)) => {
                self.in_error(asker.alloc, asker.room, CommandError::BadPlan(line))
            }
            Err(PlanFault::NoMemory) => Err(NoMemory),
        }
    }

    /// LOAD, with the bytes of the file: a bad file leaves the program unchanged.
    fn load_bytes(&mut self, alloc: Global, room: usize, bytes: &[u8]) -> Result<(), NoMemory>
        ensures ok { OnOk result (self.new ≡ uses.loaded room bytes.now self.old) }
        ensures blocks { OnOk result (self.new.blocks ≡ self.old.blocks) }
    {
        match load(alloc, bytes) {
            Ok(program) => self.take_program(alloc, room, program),
            Err(LoadFault::BadProgram(line)) => {
                self.in_error(alloc, room, CommandError::BadProgram(line))
            }
            Err(LoadFault::NoMemory) => Err(NoMemory),
        }
    }

    /// Replaces the program.
    fn take_program(&mut self, alloc: Global, room: usize, program: Program) -> Result<(), NoMemory>
        ensures ok { OnOk result (self.new ≡ uses.loaded_by room None program self.old) }
        ensures blocks { OnOk result (self.new.blocks ≡ self.old.blocks) }
    {
        let size = program.size();
        self.program = Some(program);
        self.halted = false;
        self.done();
        self.say_job_line(alloc, room, JobLine::Loaded(size))?;
        Ok(())
    }

    /// Loads the lines of a file into a card reader.
    fn assign_reader(
        &mut self,
        asker: &Asker<'_>,
        unit: Unit,
        file: Path,
        bytes: Text,
    ) -> Result<(), NoMemory>
        requires reader { held.is_reader unit.kind ≡ true }
        requires free { held.is_assigned self.old.desk.units unit ≡ false }
        ensures ok { OnOk result (self.new ≡ uses.assigned asker.now.room unit bytes self.old) }
        ensures blocks { OnOk result (self.new.blocks ≡ self.old.blocks) }
    {
        let is_done = self.units.assign_input(unit, file, bytes).is_ok();
        prove!(is_done);
        self.done();
        self.say_job_line(asker.alloc, asker.room, JobLine::Assigned)?;
        Ok(())
    }

    /// Stores the path of a printer's or a punch's output.
    fn keep_output(
        &mut self,
        alloc: Global,
        room: usize,
        unit: Unit,
        file: Path,
    ) -> Result<(), NoMemory>
        requires writer { held.is_reader unit.kind ≡ false }
        requires free { held.is_assigned self.old.desk.units unit ≡ false }
        ensures ok { OnOk result (self.new ≡ uses.output_kept room unit file self.old) }
        ensures blocks { OnOk result (self.new.blocks ≡ self.old.blocks) }
    {
        let is_done = self.units.assign_output(unit, file).is_ok();
        prove!(is_done);
        self.done();
        self.say_job_line(alloc, room, JobLine::Assigned)?;
        Ok(())
    }

    /// ASSIGN: of a card reader with the lines of a file, of a printer or a punch with the path of its output.
    pub(crate) fn assign<S: Filestore>(
        &mut self,
        store: &mut S,
        asker: &Asker<'_>,
        unit: Unit,
        file: Path,
    ) -> Result<(), NoMemory>
        requires running { S.is_spent store.old ≡ false }
        requires open { said.is_over self.old ≡ false }
        requires few { self.old.blocks ≤ 2048 }
        ensures ok { OnOk result (RanWell S.answers S.is_spent S.can_wait asker.now.who.now store.old
            (uses.assign asker.now.room unit file self.old) self.new store.new) }
        ensures err { OnErr result (RanInPart S.answers asker.now.who.now store.old
            (uses.assign asker.now.room unit file self.old) store.new) }
        ensures live { OnOk result (said.is_over self.new ≡ false → S.is_spent store.new ≡ false) }
        ensures same_waits { (s : ℕ) → S.can_wait store.new s ≡ S.can_wait store.old s }
        ensures blocks { OnOk result (self.new.blocks ≤ self.old.blocks + 256) }
    {
        if self.units.assigned(unit) {
            self.in_error(asker.alloc, asker.room, CommandError::InUse)
        } else if is_reader(unit.kind) {
            let path = file.copy();
            let use_for = Use::Assign { unit, file };
            self.fetch(store, asker, (path, Mode::Read), use_for)
        } else {
            self.keep_output(asker.alloc, asker.room, unit, file)
        }
    }
}

/// Whether units of this kind are card readers.
fn is_reader(kind: Kind) -> bool
    ensures { result ≡ held.is_reader kind }
{
    match kind {
        Kind::Cr => true,
        Kind::Lp | Kind::Tp => false,
    }
}
