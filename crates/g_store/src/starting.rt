//! A store is started from what its disc holds.
ghost use Rattle.std.specs.Prelude.{◌≡◌, ◌⊎◌, ◌<◌, ◌≤◌, ◌^◌, ◌++◌, All, IfErr, IfNone, IfOk, IfSome, None, OnOk, true};
ghost use Rattle.std.specs.List.{list_any};
ghost use Rattle.g_base.specs.Counts.{Rose};
ghost use Rattle.g_entry.specs.FileFields.{IsFile};
ghost use Rattle.g_tape.specs.Rack.{is_mounted, reel};
ghost use Rattle.g_tape.specs.Reads.{OnlyReads};
ghost use Rattle.g_disc_contents.specs.Facts.{IsTied};
ghost use Rattle.g_store_meaning.specs.Surviving.{DumpsMadeSafe, DumpsMadeSafeBy};
ghost use Rattle.g_store.specs.Making.{Begun, RefusesStart};
ghost use Rattle.g_store.specs.Starting.{Adopts, HasNamed, IsIntent, NamesNone, TakesOver, copies_named, copy_named, has_empty, names};

use crate::making::Refused;
use crate::store::Store;
use g_base::NoMemory;
use g_disc::Disc;
use g_entry::{FileRec, Intent, TapeCopy};
use g_incr::{DumpDir, DumpNote, read_dump};
use g_known::KnownReels;
use g_online::{CopyList, Online, OnlineFault};
use g_plain::StoreFault;
use g_table::FileTable;
use g_tape::{Tapes, secure_all};
use std::alloc::Global;

/// Starts the store that the disc holds. If the disc has an intent, the system went down while a dump was open. If that
/// dump is one of the completed dumps of its reel, its copies and its number are adopted by one commit, and the number is
/// returned. Otherwise nothing is written, and the next commit drops the intent (docs/DEFINITIONS.md). The reel of the
/// intent must be mounted. All reels are made durable before one of them is read. A refusal returns both devices:
///
/// - `NoFilestore`: the disc holds none. `DiscReadFault`: a block of it couldn't be read. `MountFirst`: the serial of the
///   intent's reel, which isn't mounted. `TapeReadFault`: a reel couldn't be made durable, or a read of the intent's reel
///   failed. After these and `NoMemory` the disc is unchanged.
/// - `Stopped`: a write failed, and the disc represents what it represented before, or that with the dump adopted.
pub fn start<D: Disc, T: Tapes>(
    alloc: Global,
    disc: D,
    mut tapes: KnownReels<T>,
) -> Result<(Store<D, T>, Option<u64>), Refused<D, T>>
    requires low { 2177 < (D.state disc).size }
    requires high { (D.state disc).size ≤ 1_048_576 }
    ensures ok { IfOk result (λ p. Begun (D.state disc) (T.rack tapes) p.1 p.0) }
    ensures refused { IfErr result (λ e. RefusesStart (D.state disc) (T.rack tapes) e.fault (D.state e.disc) (T.rack e.tapes)) }
    // The dumps survive a power loss before the disc may name one of them.
    ensures durable { IfOk result (λ p. DumpsMadeSafe (T.rack tapes) p.0.rack) }
    ensures durable_stopped { IfErr result (λ e. e.fault ≡ StoreFault.Stopped → DumpsMadeSafe (T.rack tapes) (T.rack e.tapes)) }
{
    let mut online = match Online::load(alloc, disc) {
        Ok(online) => online,
        Err((fault, disc)) => {
            return Err(Refused {
                fault: fault.into(),
                disc,
                tapes,
            });
        }
    };
    match take_over(alloc, &mut online, &mut tapes) {
        Ok(number) => Ok((
            Store {
                online,
                tapes,
                dump: None,
                spent: false,
            },
            number,
        )),
        Err(fault) => Err(Refused {
            fault,
            disc: online.into_disc(),
            tapes,
        }),
    }
}

/// Makes the rack durable, so that no dump is adopted that a power loss could still destroy. Then adopts the dump that the
/// disc's intent names, if it is a completed one, and returns its number.
fn take_over<D: Disc, T: Tapes>(
    alloc: Global,
    online: &mut Online<D>,
    tapes: &mut KnownReels<T>,
) -> Result<Option<u64>, StoreFault>
    requires live { online.old.live ≡ true }
    requires pins { online.old.pins ≡ None }
    requires tied { IsTied online.old }
    ensures takes { TakesOver online.old (T.rack tapes.old) result online.new (T.rack tapes.new) }
    ensures durable { DumpsMadeSafeBy result (T.rack tapes.old) (T.rack tapes.new) }
{
    let intent = online.head().intent;
    if let Some(named) = intent {
        if !tapes.mounted(named.serial) {
            return Err(StoreFault::MountFirst(named.serial));
        }
    }
    match secure_all(tapes) {
        Ok(()) => {}
        Err(_) => return Err(StoreFault::TapeReadFault),
    }
    match intent {
        Some(named) => take_named(alloc, online, tapes, &named),
        None => Ok(None),
    }
}

/// Adopts the dump of the disc's intent, from a reel that is mounted and durable.
fn take_named<D: Disc, T: Tapes>(
    alloc: Global,
    online: &mut Online<D>,
    tapes: &mut KnownReels<T>,
    intent: &Intent,
) -> Result<Option<u64>, StoreFault>
    requires live { online.old.live ≡ true }
    requires pins { online.old.pins ≡ None }
    requires tied { IsTied online.old }
    requires named { IsIntent online.old (T.rack tapes.old) true intent.now }
    ensures { TakesOver online.old (T.rack tapes.old) result online.new (T.rack tapes.new) }
{
    let dir = match find_named(alloc, tapes, intent) {
        Ok(Some(dir)) => dir,
        Ok(None) => return Ok(None),
        Err(fault) => return Err(fault),
    };
    match adopt(alloc, online, intent.number, dir.files.as_slice()) {
        Ok(()) => Ok(Some(intent.number)),
        Err(fault) => Err(fault),
    }
}

/// The records of the dump that the intent names, if it is one of the completed dumps of its reel.
fn find_named<T: Tapes>(
    alloc: Global,
    tapes: &mut KnownReels<T>,
    intent: &Intent,
) -> Result<Option<DumpDir>, StoreFault>
    requires { is_mounted (reel intent.now.serial (T.rack tapes.old).reels) ≡ true }
    ensures some { IfOk result (λ found. IfSome found (λ dir. HasNamed intent.now (T.rack tapes.old) dir.files.items)) }
    ensures none { IfOk result (λ found. IfNone found (NamesNone intent.now (T.rack tapes.old))) }
    ensures only { IfErr result (λ e. (e ≡ StoreFault.TapeReadFault) ⊎ (e ≡ StoreFault.NoMemory)) }
    ensures reads { OnlyReads (T.rack tapes.old) (T.rack tapes.new) }
    ensures kept { (result ≡ Err StoreFault.TapeReadFault → ⊥) → (T.rack tapes.new).read_faults ≡ (T.rack tapes.old).read_faults }
    ensures rose { result ≡ Err StoreFault.TapeReadFault → Rose (T.rack tapes.old).read_faults (T.rack tapes.new).read_faults }
{
    let notes = match tapes.notes(alloc, intent.serial) {
        Ok(notes) => notes,
        Err(fault) => return Err(fault.into()),
    };
    if !has_named(notes.as_slice(), intent) {
        return Ok(None);
    }
    match read_dump(alloc, tapes, intent.serial, intent.place) {
        Ok(found) => Ok(found),
        Err(fault) => Err(fault.into()),
    }
}

/// Whether the intent names one of these dumps.
fn has_named(notes: &[DumpNote], intent: &Intent) -> bool
    ensures { result ≡ list_any (names intent.now) notes.now }
{
    notes.iter().any(|note| note.place == intent.place && note.number == intent.number)
}

/// Adopts the dump of this number and of these files, by one commit: `Stopped`, `NoMemory`.
fn adopt<D: Disc>(
    alloc: Global,
    online: &mut Online<D>,
    number: u64,
    dumped: &[FileRec],
) -> Result<(), StoreFault>
    requires live { online.old.live ≡ true }
    requires pins { online.old.pins ≡ None }
    requires tied { IsTied online.old }
    requires below { number < 2 ^ 62 }
    requires each { All IsFile dumped.now }
    ensures { Adopts number dumped.now online.old result online.new }
{
    let copies = match copies_named(alloc, online.tree().files(), dumped) {
        Ok(copies) => copies,
        Err(_) => return Err(StoreFault::NoMemory),
    };
    match online.adopt(alloc, number, &copies) {
        Ok(()) => Ok(()),
        Err(OnlineFault::Stopped) => Err(StoreFault::Stopped),
        Err(_) => Err(StoreFault::NoMemory),
    }
}

/// The copies on tape that a dump's records name, except those whose stamp an empty file has.
fn copies_named(alloc: Global, files: &FileTable, dumped: &[FileRec]) -> Result<CopyList, NoMemory>
    ensures { IfOk result (λ copies. copies ≡ copies_named files.now dumped.now) }
{
    let mut copies = Vec::new(alloc);
    for file in dumped {
        match put_copy(files, file, &mut copies) {
            Ok(()) => {}
            Err(_) => return Err(NoMemory),
        }
    }
    Ok(CopyList::from(copies))
}

/// Appends the copy that this record names.
fn put_copy(
    files: &FileTable,
    file: &FileRec,
    copies: &mut Vec<(u64, TapeCopy)>,
) -> Result<(), NoMemory>
    ensures { OnOk result (copies.new.items ≡ copies.old.items ++ copy_named files.now file.now) }
{
    if has_empty(files, file.stamp) {
        return Ok(());
    }
    match file.tape {
        Some(copy) => match copies.push((file.stamp, copy)) {
            Ok(()) => Ok(()),
            Err(_) => Err(NoMemory),
        },
        None => Ok(()),
    }
}

/// Whether an empty file has this stamp.
fn has_empty(files: &FileTable, stamp: u64) -> bool
    ensures { result ≡ has_empty files.now stamp }
{
    files
        .iter()
        .any(|file| file.stamp == stamp && file.len == 0)
}
