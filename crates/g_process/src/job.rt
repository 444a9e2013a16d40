//! The job, which is prepared before anything is written.
ghost use Rattle.std.specs.Prelude.{◌≡◌, IfOk, true};
ghost use Rattle.std.specs.Option.{ForSome};
ghost use Rattle.g_tape.specs.Rack.{Rack, reel};
ghost use Rattle.g_disc_contents.specs.Facts.{IsTied};
ghost use Rattle.g_incr.specs.Plan as plan;
ghost use Rattle.g_process.specs.ProcessPlan.{living, process_plan};
ghost use Rattle.g_process.specs.Preparation.{IsCatalogued, IsJob, PlansJob};

use crate::living::{bare, copies_from, every_user, filled, living};
use crate::shelves::{first_lost, is_free};
use g_base::NoMemory;
use g_disc::Disc;
use g_entry::FileRec;
use g_incr::Writer;
use g_online::{Online, Ready};
use g_plain::StoreFault;
use g_shelf::Listed;
use g_tape::Tapes;
use std::alloc::Global;

/// The dump to be written, the versions whose bytes it takes, what its commit installs, and the dumps of all reels.
#[derive(Drop)]
pub(crate) struct Job {
    pub(crate) serial: u32,
    pub(crate) number: u64,
    pub(crate) writer: Writer,
    pub(crate) versions: Vec<FileRec>,
    pub(crate) ready: Ready,
    pub(crate) lists: Vec<Listed>,
}

/// The job, from the catalogues of the rack. `ReelNotFree`, `NoCopy`, `TapeFull`, `NoMemory`.
pub(crate) fn planned<D: Disc, T: Tapes>(
    alloc: Global,
    online: &Online<D>,
    tapes: &T,
    serial: u32,
    lists: Vec<Listed>,
) -> Result<Job, StoreFault>
    requires live { online.now.live ≡ true }
    requires tied { IsTied online.now }
    requires catalogue { (before : Rack) × IsCatalogued serial online.now before (T.rack tapes.now) lists.items }
    ensures { (before : Rack) → IsCatalogued serial online.now before (T.rack tapes.now) lists.items
        → PlansJob serial online.now before (T.rack tapes.now) result }
{
    if !is_free(lists.as_slice(), serial) {
        return Err(StoreFault::ReelNotFree(serial));
    }
    let files = match living(alloc, online) {
        Ok(files) => files,
        Err(_) => return Err(StoreFault::NoMemory),
    };
    if let Some(fault) = first_lost(online, lists.as_slice(), files.as_slice()) {
        return Err(fault);
    }
    let writer = match writer_of(alloc, online, serial, files.as_slice()) {
        Ok(writer) => writer,
        Err(_) => return Err(StoreFault::NoMemory),
    };
    let need = writer.needs();
    let room = room_on(tapes, serial);
    if need > room {
        return Err(StoreFault::TapeFull { need, room });
    }
    match made_ready(alloc, online, serial, lists, writer, files.as_slice()) {
        Ok(job) => Ok(job),
        Err(_) => Err(StoreFault::NoMemory),
    }
}

/// The capacity of the reel in blocks.
fn room_on<T: Tapes>(tapes: &T, serial: u32) -> u32
    ensures { ForSome (reel serial (T.rack tapes.now).reels) (λ r. result ≡ r.capacity) }
{
    match tapes.capacity(serial) {
        Ok(capacity) => capacity,
        Err(_) => 0,
    }
}

/// The writer of a dump of all users and of all these files, at block 0, as if none had a copy on tape.
fn writer_of<D: Disc>(
    alloc: Global,
    online: &Online<D>,
    serial: u32,
    files: &[FileRec],
) -> Result<Writer, NoMemory>
    requires live { online.now.live ≡ true }
    requires files { files.now ≡ living online.now.contents }
    requires rules { plan.IsPlan (process_plan serial online.now) }
    ensures { IfOk result (λ w. w ≡ process_plan serial online.now) }
{
    let head = online.head();
    let users = online.tree().users();
    let held = match every_user(alloc, users) {
        Ok(held) => held,
        Err(_) => return Err(NoMemory),
    };
    let files = match bare(alloc, files) {
        Ok(files) => files,
        Err(_) => return Err(NoMemory),
    };
    Writer::new(
        alloc,
        serial,
        head.last_dump + 1,
        0,
        head.next_stamp,
        users,
        held.as_slice(),
        files,
    )
}

/// The job of this writer, with the records that its commit installs.
fn made_ready<D: Disc>(
    alloc: Global,
    online: &Online<D>,
    serial: u32,
    lists: Vec<Listed>,
    writer: Writer,
    files: &[FileRec],
) -> Result<Job, NoMemory>
    requires live { online.now.live ≡ true }
    requires tied { IsTied online.now }
    requires files { files.now ≡ living online.now.contents }
    requires rules { plan.IsPlan (process_plan serial online.now) }
    ensures { IfOk result (λ job. IsJob serial online.now writer lists.items job) }
{
    let users = online.tree().users();
    let number = online.head().last_dump + 1;
    let first = 1 + users.len() as u32 + files.len() as u32;
    let versions = match filled(alloc, files) {
        Ok(versions) => versions,
        Err(_) => return Err(NoMemory),
    };
    let copies = match copies_from(alloc, serial, first, versions.as_slice()) {
        Ok(copies) => copies,
        Err(_) => return Err(NoMemory),
    };
    let ready = match online.ready_adopt(alloc, copies.as_slice()) {
        Ok(ready) => ready,
        Err(_) => return Err(NoMemory),
    };
    Ok(Job {
        serial,
        number,
        writer,
        versions,
        ready,
        lists,
    })
}
