//! The actions of the program, by its words.
ghost use Rattle.std.specs.Prelude.{◌≡◌, ◌⊎◌, ◌<◌, ℕ, IfErr, List, Option, All, true};
ghost use Rattle.std.specs.Option.{ForSome};
ghost use Rattle.g_name.specs.declared.path.Path.{Path};
ghost use Rattle.g_incr.specs.Layout.{Dump};
ghost use Rattle.g_store_meaning.specs.Meaning.{told_reels};
ghost use Rattle.g_shelf.specs.CompletedDumps.{AreShelved};
ghost use Rattle.g_store_meaning.specs.Reading.{AllTold, ReelsTold};
ghost use Rattle.g_look.specs.Looks.{OfDumps};
ghost use Rattle.g_look_program.specs.Exit.{IsExit, IsOfLook, IsOfWords};
ghost use Rattle.g_look_program.specs.Telling as told;
ghost use Rattle.g_look_program.specs.Words.{AskNothing, texts_of};

use crate::against::against_file;
use crate::mount::mount_all;
use crate::tell::{put, tell, tell_bytes, tell_check, tell_restorable, tell_seal};
use crate::twins::tell_twins;
use crate::{Asked, Status, asked_by};
use g_devices::{HostOutput, HostTapes, is_there, look_at};
use g_disc::Disc;
use g_files::StdSink;
use g_io::Sink;
use g_known::KnownReels;
use g_look::{check, dumps, list, restorable, show};
use g_seal::seal;
use g_tape::Tapes;
use std::alloc::Global;
use std::io::{self, ErrorKind};

/// The exit status if the image or the rack can't be used.
pub(crate) const NO_IMAGE: u8 = 7;

/// The disc's image, in the working folder.
pub(crate) const IMAGE: &str = "george.disc";

/// The folder of the reels' images, also there.
pub(crate) const RACK: &str = "george.tapes";

/// The folder of the twins of these reels, if there are any.
const SECOND: &str = "george.tapes2";

/// Prints what the words request, and returns the exit status. The words are checked before any file is opened.
pub fn answer(rt: &HostRuntime, words: &[&str]) -> u8
    ensures { (AskNothing (texts_of words.now) × IsExit IsOfWords result) ⊎ (result ≡ 7) ⊎ IsExit IsOfLook result }
{
    let mut out = StdSink::new(HostOutput::new(io::writer(rt)));
    if let ["check", path] = words {
        return against_file(rt, path, &mut out);
    }
    match asked_by(words) {
        Some(asked) => on_files(rt, &asked, &mut out),
        None => put(&mut out, b"WORDS NOT KNOWN\n", Status::Words).code(),
    }
}

/// Looks at image and rack. A check also compares the rack with a second one, if there is one. Returns 7 if they can't be used.
fn on_files<K: Sink>(rt: &HostRuntime, asked: &Asked, out: &mut K) -> u8
    ensures { (result ≡ 7) ⊎ IsExit IsOfLook result }
{
    let (mut disc, tapes) = match look_at(rt, IMAGE, RACK) {
        Ok(devices) => devices,
        Err(fault) if fault.kind() == ErrorKind::OutOfMemory => return Status::NoMemory.code(),
        Err(_) => return NO_IMAGE,
    };
    let mut tapes = KnownReels::new(rt.alloc(), tapes);
    if !mount_all(&mut tapes) {
        return NO_IMAGE;
    }
    let status = look(rt.alloc(), asked, out, &mut disc, &mut tapes);
    match (asked, status) {
        (Asked::Check, Status::Done | Status::No | Status::Nothing) => {}
        _ => return status.code(),
    }
    let mut second = match second_rack(rt) {
        Ok(Some(second)) => second,
        Ok(None) => return status.code(),
        Err(code) => return code,
    };
    if !mount_all(&mut second) {
        return NO_IMAGE;
    }
    tell_twins(rt.alloc(), out, &mut tapes, &mut second, status).code()
}

/// The second rack, if there is one. The error is the exit status: 7 if the rack can't be used, or that of memory that ran out.
pub(crate) fn second_rack(rt: &HostRuntime) -> Result<Option<KnownReels<HostTapes>>, u8>
    ensures { IfErr result (λ code. (code ≡ 7) ⊎ IsExit IsOfLook code) }
{
    match is_there(rt, SECOND) {
        Ok(true) => {}
        Ok(false) => return Ok(None),
        Err(_) => return Err(NO_IMAGE),
    }
    match look_at(rt, IMAGE, SECOND) {
        Ok((_disc, second)) => Ok(Some(KnownReels::new(rt.alloc(), second))),
        Err(fault) if fault.kind() == ErrorKind::OutOfMemory => Err(Status::NoMemory.code()),
        Err(_) => Err(NO_IMAGE),
    }
}

/// Prints what is requested of any disc and rack; all reels have to be mounted. Both are only read.
pub fn look<K: Sink, D: Disc, T: Tapes>(
    alloc: Global,
    asked: &Asked,
    out: &mut K,
    disc: &mut D,
    tapes: &mut KnownReels<T>,
) -> Status
    requires size { 2177 < (D.state disc.old).size }
    requires mounted { All (λ r. r.mounted ≡ true) (T.rack tapes.old).reels }
    ensures check { asked.now ≡ Asked.Check → AllTold (D.state disc.old).held (told_reels (T.rack tapes.old)) → told.EndsCheck result
        (D.state disc.old).size (D.state disc.old).held (told_reels (T.rack tapes.old))
        (record { before = K.written out.old; after = K.written out.new; faults_before = K.faults out.old; faults_after = K.faults out.new }) }
    ensures dumps { asked.now ≡ Asked.Dumps → ReelsTold (told_reels (T.rack tapes.old)) → (shelf : ℕ → List Dump) → AreShelved shelf (told_reels (T.rack tapes.old))
        → told.EndsDumps result shelf (told_reels (T.rack tapes.old))
        (record { before = K.written out.old; after = K.written out.new; faults_before = K.faults out.old; faults_after = K.faults out.new }) }
    ensures list { (user : Option (List ℕ)) → asked.now ≡ Asked.List user → ForSome (D.state disc.old).held (λ blocks. told.EndsList result blocks user
        (record { before = K.written out.old; after = K.written out.new; faults_before = K.faults out.old; faults_after = K.faults out.new })) }
    ensures show { (path : Path) → asked.now ≡ Asked.Show path → ForSome (D.state disc.old).held (λ blocks. OfDumps (T.rack tapes.old) (λ dumps. told.EndsShow result blocks dumps path
        (record { before = K.written out.old; after = K.written out.new; faults_before = K.faults out.old; faults_after = K.faults out.new }))) }
    ensures restorable { asked.now ≡ Asked.Restorable → OfDumps (T.rack tapes.old) (λ dumps. told.EndsGiven result dumps
        (record { before = K.written out.old; after = K.written out.new; faults_before = K.faults out.old; faults_after = K.faults out.new })) }
    ensures seal { asked.now ≡ Asked.Seal → AllTold (D.state disc.old).held (told_reels (T.rack tapes.old)) → told.EndsSeal result
        (D.state disc.old).held (told_reels (T.rack tapes.old))
        (record { before = K.written out.old; after = K.written out.new; faults_before = K.faults out.old; faults_after = K.faults out.new }) }
    ensures look { IsOfLook result }
    ensures sink { told.SinkCause result
        (record { before = K.written out.old; after = K.written out.new; faults_before = K.faults out.old; faults_after = K.faults out.new }) }
    ensures devices { told.Looked result (D.state disc.old) (D.state disc.new) (T.rack tapes.old) (T.rack tapes.new) }
{
    match asked {
        Asked::Check => tell_check(out, check(alloc, disc, tapes)),
        Asked::Dumps => tell(out, dumps(alloc, tapes)),
        Asked::List(user) => tell(out, list(alloc, disc, user.as_ref())),
        Asked::Show(path) => tell_bytes(out, show(alloc, disc, tapes, path)),
        Asked::Restorable => tell_restorable(out, restorable(alloc, tapes)),
        Asked::Seal => tell_seal(out, seal(alloc, disc, tapes)),
    }
}
