//! The check against a seal.
ghost use Rattle.std.specs.Prelude.{◌≡◌, ◌⊎◌, ◌<◌, All, true};
ghost use Rattle.g_store_meaning.specs.Meaning.{told_reels};
ghost use Rattle.g_store_meaning.specs.Reading.{AllTold};
ghost use Rattle.g_seal.specs.Entries.{AreEntries};
ghost use Rattle.g_seal.specs.SealText.{sealed_text};
ghost use Rattle.g_seal.specs.Sealing.{IsSealed};
ghost use Rattle.g_look_program.specs.Exit.{IsExit, IsOfLook};
ghost use Rattle.g_look_program.specs.Telling as told;

use crate::Status;
use crate::answer::{IMAGE, NO_IMAGE, RACK, second_rack};
use crate::both_racks::{Racks, look_against_both};
use crate::mount::mount_all;
use crate::tell::{put, tell_check, tell_refused, tell_report};
use g_devices::look_at;
use g_disc::Disc;
use g_io::Sink;
use g_known::KnownReels;
use g_look::check;
use g_seal::{Seal, SealFault, Twins, parse_seal, rotten};
use g_tape::Tapes;
use std::alloc::Global;
use std::fs::File;
use std::io::{self, Error, ErrorKind, Read};

/// A seal, and what a second rack has of it.
#[derive(Drop)]
pub struct Against<'a> {
    pub seal: Seal,
    pub twins: &'a Twins,
}

/// Checks image and rack against the seal in this file, which is read and parsed first. Returns 8 if it isn't a seal, and 7 if image or rack can't
/// be used.
pub(crate) fn against_file<K: Sink>(rt: &HostRuntime, path: &str, out: &mut K) -> u8
    ensures { (result ≡ 7) ⊎ IsExit IsOfLook result }
{
    match seal_in(rt, path) {
        Ok(Ok(seal)) => against_files(rt, seal, out),
        Ok(Err(fault)) => tell_refused(rt.alloc(), out, fault).code(),
        Err(fault) => {
            if fault.kind() == ErrorKind::OutOfMemory {
                Status::NoMemory.code()
            } else {
                put(out, b"SEAL NOT READ\n", Status::NoSeal).code()
            }
        }
    }
}

/// The seal in a plain file, or why its text isn't one. Only the seal remains in memory.
fn seal_in(rt: &HostRuntime, path: &str) -> io::Result<Result<Seal, SealFault>> {
    let bytes = read_file(rt, path)?;
    Ok(parse_seal(rt.alloc(), bytes.as_slice()))
}

/// The bytes of a plain file.
fn read_file(rt: &HostRuntime, path: &str) -> io::Result<Vec<u8>> {
    let mut file = File::open(rt, path)?;
    if !file.metadata()?.is_file() {
        return Err(Error::from(ErrorKind::InvalidData));
    }
    let mut bytes = Vec::new(rt.alloc());
    file.read_to_end(&mut bytes)?;
    Ok(bytes)
}

/// Checks image and rack against a seal, and a second rack, if there is one. Returns 7 if they can't be used.
fn against_files<K: Sink>(rt: &HostRuntime, seal: Seal, out: &mut K) -> u8
    ensures { (result ≡ 7) ⊎ IsExit IsOfLook result }
{
    let (mut disc, tapes) = match look_at(rt, IMAGE, RACK) {
        Ok(devices) => devices,
        Err(fault) if fault.kind() == ErrorKind::OutOfMemory => return Status::NoMemory.code(),
        Err(_) => return NO_IMAGE,
    };
    let mut first = KnownReels::new(rt.alloc(), tapes);
    if !mount_all(&mut first) {
        return NO_IMAGE;
    }
    let alloc = rt.alloc();
    let mut second = match second_rack(rt) {
        Ok(Some(second)) => second,
        Ok(None) => {
            let twins = Twins::none(alloc);
            let against = Against {
                seal,
                twins: &twins,
            };
            return look_against(alloc, against, out, &mut disc, &mut first).code();
        }
        Err(code) => return code,
    };
    if !mount_all(&mut second) {
        return NO_IMAGE;
    }
    let mut racks = Racks { first, second };
    look_against_both(alloc, seal, out, &mut disc, &mut racks).code()
}

/// Checks disc and rack, and reports which bytes have changed since this seal: the text of a check is printed, and the report after it. The report is made
/// first, so that seal and dumps needn't be in memory together. All reels have to be mounted. Disc and rack are only read.
pub fn look_against<K: Sink, D: Disc, T: Tapes>(
    alloc: Global,
    against: Against,
    out: &mut K,
    disc: &mut D,
    tapes: &mut T,
) -> Status
    requires size { 2177 < (D.state disc.old).size }
    requires mounted { All (λ r. r.mounted ≡ true) (T.rack tapes.old).reels }
    ensures report { AllTold (D.state disc.old).held (told_reels (T.rack tapes.old)) → told.EndsReport result
        (D.state disc.old).size (D.state disc.old).held (told_reels (T.rack tapes.old))
        against.entry.twins.now against.entry.seal.dumps.items against.entry.seal.files.items
        (record { before = K.written out.old; after = K.written out.new; faults_before = K.faults out.old; faults_after = K.faults out.new }) }

    // Against the text of their own seal, disc and rack get what a check prints, and its status.
    ensures own { AllTold (D.state disc.old).held (told_reels (T.rack tapes.old)) → AreEntries against.entry.seal.dumps.items against.entry.seal.files.items
        → IsSealed (D.state disc.old).held (told_reels (T.rack tapes.old)) (sealed_text against.entry.seal.dumps.items against.entry.seal.files.items)
        → told.EndsCheck result (D.state disc.old).size (D.state disc.old).held (told_reels (T.rack tapes.old))
        (record { before = K.written out.old; after = K.written out.new; faults_before = K.faults out.old; faults_after = K.faults out.new }) }
    ensures look { IsOfLook result }
    ensures sink { told.SinkCause result
        (record { before = K.written out.old; after = K.written out.new; faults_before = K.faults out.old; faults_after = K.faults out.new }) }
    ensures devices { told.Looked result (D.state disc.old) (D.state disc.new) (T.rack tapes.old) (T.rack tapes.new) }
{
    let report = match rotten(alloc, disc, tapes, &against.seal, against.twins) {
        Ok(report) => report,
        Err(fault) => return tell_check(out, Err(fault)),
    };
    drop(against);
    match check(alloc, disc, tapes) {
        Ok(checked) => tell_report(out, checked, &report),
        Err(fault) => tell_check(out, Err(fault)),
    }
}
