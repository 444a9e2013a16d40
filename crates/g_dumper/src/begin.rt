//! The opening of a dump.
ghost use Rattle.std.specs.Prelude.{◌≡◌, ◌⊎◌, ◌-◌, ◌++◌, Err, IfErr, IfOk, None, OnOk, true};
ghost use Rattle.std.specs.Option.{ForSome};
ghost use Rattle.g_disc.specs.Disc.{Causes};
ghost use Rattle.g_tape.specs.Rack.{reel};
ghost use Rattle.g_tape.specs.Reads.{OnlyReads};
ghost use Rattle.g_disc_contents.specs.Facts.{IsTied};
ghost use Rattle.g_incr.specs.Plan as plan;
ghost use Rattle.g_store_meaning.specs.Meaning.{files_of};
ghost use Rattle.g_dumper.specs.Beginning.{Begins, HasOpened, LeftByRefusal, RefusesOpening, StoppedAtIntent, StoppedOpening, held_of, plan_of};
ghost use Rattle.g_dumper.specs.Invariant.{KeepsStore, behind_opening, up_with};

use crate::dump::Dump;
use g_base::NoMemory;
use g_disc::Disc;
use g_entry::{FileRec, Intent};
use g_incr::Writer;
use g_known::KnownReels;
use g_online::{Online, OnlineFault};
use g_plain::StoreFault;
use g_table::FileTable;
use g_tape::Tapes;
use std::alloc::Global;

/// The greatest number that a dump may have.
pub const LAST_NUMBER: u64 = 4_611_686_018_427_387_903;

impl Dump {
    /// Opens a dump on the reel, after its completed dumps. It will hold all users with their current records, the files of
    /// the changed ones, and the bytes of the versions that have no copy on tape; these wait from now on. One commit notes
    /// the intent on the disc. The refusals, in this order: `CountersSpent`, `NoTape`, `NotMounted`, `TapeReadFault`,
    /// `TapeFull`, `Stopped`; and `NoMemory`. After any of them except `Stopped` nothing waits and nothing has changed.
    pub fn begin<D: Disc, T: Tapes>(
        alloc: Global,
        online: &mut Online<D>,
        tapes: &mut KnownReels<T>,
        serial: u32,
    ) -> Result<Dump, StoreFault>
        requires live { online.old.live ≡ true }
        requires pins { online.old.pins ≡ None }
        requires tied { IsTied online.old }
        ensures ok { IfOk result (λ d. Begins serial online.old (T.rack tapes.old) d online.new (T.rack tapes.new)) }
        ensures refused { RefusesOpening serial online.old (T.rack tapes.old) (T.rack tapes.new) result }
        ensures left { IfErr result (λ e. LeftByRefusal e online.old online.new) }
        ensures stopped { result ≡ Err StoreFault.Stopped → StoppedOpening serial online.old online.new (T.rack tapes.old) }
        ensures reads { OnlyReads (T.rack tapes.old) (T.rack tapes.new) }
        ensures causes { Causes ⊥ (result ≡ Err StoreFault.Stopped) online.old.disc online.new.disc }
        ensures tied { IsTied online.new }
        ensures keeps { KeepsStore (up_with online.old (T.rack tapes.old) None)
            (behind_opening result online.new (T.rack tapes.new)) }
    {
        begin_dump(alloc, online, tapes, serial)
    }
}

/// What `Dump::begin` does, without the clauses about invariants.
fn begin_dump<D: Disc, T: Tapes>(
    alloc: Global,
    online: &mut Online<D>,
    tapes: &mut KnownReels<T>,
    serial: u32,
) -> Result<Dump, StoreFault>
    requires live { online.old.live ≡ true }
    requires pins { online.old.pins ≡ None }
    requires tied { IsTied online.old }
    ensures ok { IfOk result (λ d. Begins serial online.old (T.rack tapes.old) d online.new (T.rack tapes.new)) }
    ensures refused { RefusesOpening serial online.old (T.rack tapes.old) (T.rack tapes.new) result }
    ensures left { IfErr result (λ e. LeftByRefusal e online.old online.new) }
    ensures stopped { result ≡ Err StoreFault.Stopped → StoppedOpening serial online.old online.new (T.rack tapes.old) }
    ensures reads { OnlyReads (T.rack tapes.old) (T.rack tapes.new) }
    ensures causes { Causes ⊥ (result ≡ Err StoreFault.Stopped) online.old.disc online.new.disc }
    ensures tied { IsTied online.new }
{
    if online.head().last_dump == LAST_NUMBER {
        return Err(StoreFault::CountersSpent);
    }
    let place = match tapes.end_of(alloc, serial) {
        Ok(place) => place,
        Err(fault) => return Err(fault.into()),
    };
    let (writer, first) = match planned(alloc, online, serial, place) {
        Ok(planned) => planned,
        Err(_) => return Err(StoreFault::NoMemory),
    };
    let need = writer.needs();
    let room = room_behind(tapes, serial, place);
    if need > room {
        return Err(StoreFault::TapeFull { need, room });
    }
    open(alloc, online, writer, serial, place, first)
}

/// The writer of what the filestore holds now, and the block of the reel where the content of the dump will begin.
fn planned<D: Disc>(
    alloc: Global,
    online: &Online<D>,
    serial: u32,
    place: u32,
) -> Result<(Writer, u32), NoMemory>
    requires live { online.now.live ≡ true }
    requires rules { plan.IsPlan (plan_of serial place online.now) }
    ensures writer { IfOk result (λ p. p.0 ≡ plan_of serial place online.now) }
    ensures first { IfOk result (λ p. p.1 ≡ plan.first_content (plan_of serial place online.now)) }
{
    let head = online.head();
    let users = online.tree().users();
    let held = online.changed();
    let files = match held_files(alloc, online.tree().files(), held) {
        Ok(files) => files,
        Err(_) => return Err(NoMemory),
    };
    let first = place + 1 + users.len() as u32 + files.len() as u32;
    let number = head.last_dump + 1;
    match Writer::new(
        alloc,
        serial,
        number,
        place,
        head.next_stamp,
        users,
        held,
        files,
    ) {
        Ok(writer) => Ok((writer, first)),
        Err(_) => Err(NoMemory),
    }
}

/// Pins the versions that wait and notes the intent. After a refusal no version waits.
fn open<D: Disc>(
    alloc: Global,
    online: &mut Online<D>,
    writer: Writer,
    serial: u32,
    place: u32,
    first: u32,
) -> Result<Dump, StoreFault>
    requires live { online.old.live ≡ true }
    requires pins { online.old.pins ≡ None }
    requires tied { IsTied online.old }
    requires plan { writer ≡ plan_of serial place online.old }
    requires rules { plan.IsPlan writer }
    requires first { first ≡ plan.first_content writer }
    ensures ok { IfOk result (λ d. (d ≡ record { plan = plan_of serial place online.old; done = 0 })
        × HasOpened (plan_of serial place online.old) online.old online.new) }
    ensures left { IfErr result (λ e. LeftByRefusal e online.old online.new) }
    ensures stopped { result ≡ Err StoreFault.Stopped
        → StoppedAtIntent (plan_of serial place online.old) online.old online.new }
    ensures causes { Causes ⊥ (result ≡ Err StoreFault.Stopped) online.old.disc online.new.disc }
    ensures tied { IsTied online.new }
    ensures only { IfErr result (λ e. (e ≡ StoreFault.Stopped) ⊎ (e ≡ StoreFault.NoMemory)) }
{
    let number = online.head().last_dump + 1;
    match online.pin(alloc, serial, first) {
        Ok(()) => {}
        Err(_) => return Err(StoreFault::NoMemory),
    }
    let intent = Intent {
        serial,
        place,
        number,
    };
    match online.set_intent(Some(intent)) {
        Ok(()) => Ok(Dump {
            writer,
            serial,
            place,
            number,
            done: 0,
        }),
        Err(OnlineFault::Stopped) => Err(StoreFault::Stopped),
        Err(_) => {
            online.unpin();
            Err(StoreFault::NoMemory)
        }
    }
}

/// The files of these users, one user after another, as `Writer::new` takes them.
pub fn held_files(alloc: Global, files: &FileTable, held: &[u8]) -> Result<Vec<FileRec>, NoMemory>
    ensures { IfOk result (λ all. all.items ≡ held_of held.now files.now) }
{
    let mut all = Vec::new(alloc);
    for owner in held {
        match add_files_of(*owner, files, &mut all) {
            Ok(()) => {}
            Err(fault) => return Err(fault),
        }
    }
    Ok(all)
}

/// Appends the files of this user.
fn add_files_of(owner: u8, files: &FileTable, all: &mut Vec<FileRec>) -> Result<(), NoMemory>
    ensures { OnOk result (all.new.items ≡ all.old.items ++ files_of owner files.now) }
{
    for file in files {
        if file.owner == owner {
            match all.push(file.copy()) {
                Ok(()) => {}
                Err(_) => return Err(NoMemory),
            }
        }
    }
    Ok(())
}

/// The number of blocks for which the reel has room from this block on.
fn room_behind<T: Tapes>(tapes: &T, serial: u32, place: u32) -> u32
    ensures { ForSome (reel serial (T.rack tapes.now).reels) (λ r. result ≡ r.capacity - place) }
{
    match tapes.capacity(serial) {
        Ok(capacity) => capacity.saturating_sub(place),
        Err(_) => 0,
    }
}
