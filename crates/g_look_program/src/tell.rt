//! The text that is printed for a result, and the status.
ghost use Rattle.std.specs.Prelude.{◌≡◌};
ghost use Rattle.g_look_program.specs.Exit.{IsOfLook};
ghost use Rattle.g_look_program.specs.Telling as told;

use crate::Status;
use g_io::Sink;
use g_look::{Checked, Given, LookFault, push_told};
use g_name::Text;
use g_seal::{SealFault, Sealed};
use std::alloc::Global;

/// Prints the text of a check, whatever the check found.
pub(crate) fn tell_check<K: Sink>(out: &mut K, found: Result<Checked, LookFault>) -> Status
    ensures { told.TellsCheck found result
        (record { before = K.written out.old; after = K.written out.new; faults_before = K.faults out.old; faults_after = K.faults out.new }) }
{
    match found {
        Ok(checked) => put(out, checked.text.as_slice(), verdict(&checked)),
        Err(fault) => tell_fault(out, fault),
    }
}

/// Prints the text of a check, and the report of a check against a seal after it. The status is the check's if the report is empty.
pub(crate) fn tell_report<K: Sink>(out: &mut K, checked: Checked, report: &Text) -> Status
    ensures { told.TellsReport checked report.now result
        (record { before = K.written out.old; after = K.written out.new; faults_before = K.faults out.old; faults_after = K.faults out.new }) }
{
    if report.as_slice().is_empty() {
        return tell_check(out, Ok(checked));
    }
    // A text that outgrows its memory doubles it, so this one gets what it needs at once.
    let mut text = Vec::from(checked.text);
    match text.reserve_exact(report.as_slice().len()) {
        Ok(()) => {}
        Err(_) => return Status::NoMemory,
    }
    match text.extend_from_slice(report.as_slice()) {
        Ok(()) => put(out, text.as_slice(), Status::No),
        Err(_) => Status::NoMemory,
    }
}

/// The status of a check.
fn verdict(checked: &Checked) -> Status
    ensures { result ≡ told.verdict checked.now.verdict.broken checked.now.verdict.missing checked.now.filestore }
{
    if checked.verdict.broken.is_some() || checked.verdict.missing.is_some() {
        return Status::No;
    }
    if checked.filestore {
        Status::Done
    } else {
        Status::Nothing
    }
}

/// Prints a seal, or why there is none.
pub(crate) fn tell_seal<K: Sink>(out: &mut K, found: Result<Sealed, LookFault>) -> Status
    ensures { told.TellsSeal found result
        (record { before = K.written out.old; after = K.written out.new; faults_before = K.faults out.old; faults_after = K.faults out.new }) }
{
    match found {
        Ok(sealed) => put(out, sealed.text.as_slice(), seal_status(sealed.filestore)),
        Err(fault) => tell_fault(out, fault),
    }
}

/// The status of a seal.
fn seal_status(filestore: bool) -> Status
    ensures { result ≡ told.seal_status filestore }
{
    if filestore {
        Status::Done
    } else {
        Status::Nothing
    }
}

/// Prints what a restore would give, or its refusal.
pub(crate) fn tell_restorable<K: Sink>(out: &mut K, found: Result<Given, LookFault>) -> Status
    ensures { told.TellsGiven found result
        (record { before = K.written out.old; after = K.written out.new; faults_before = K.faults out.old; faults_after = K.faults out.new }) }
{
    match found {
        Ok(given) => put(out, given.text.as_slice(), outcome(&given)),
        Err(fault) => tell_fault(out, fault),
    }
}

/// The status of what a restore would give.
fn outcome(given: &Given) -> Status
    ensures { result ≡ told.outcome given.now.given given.now.missing }
{
    if given.given && given.missing.is_none() {
        Status::Done
    } else {
        Status::No
    }
}

/// Prints a text.
pub(crate) fn tell<K: Sink>(out: &mut K, found: Result<Text, LookFault>) -> Status
    ensures { told.Tells found result
        (record { before = K.written out.old; after = K.written out.new; faults_before = K.faults out.old; faults_after = K.faults out.new }) }
{
    match found {
        Ok(text) => put(out, text.as_slice(), Status::Done),
        Err(fault) => tell_fault(out, fault),
    }
}

/// Prints the bytes of a file, and in no case anything else.
pub(crate) fn tell_bytes<K: Sink>(out: &mut K, found: Result<Text, LookFault>) -> Status
    ensures { told.TellsBytes found result
        (record { before = K.written out.old; after = K.written out.new; faults_before = K.faults out.old; faults_after = K.faults out.new }) }
{
    match found {
        Ok(bytes) => put(out, bytes.as_slice(), Status::Done),
        Err(fault) => status_of(fault),
    }
}

/// Prints why there is no text.
fn tell_fault<K: Sink>(out: &mut K, fault: LookFault) -> Status
    ensures { told.TellsFault fault result
        (record { before = K.written out.old; after = K.written out.new; faults_before = K.faults out.old; faults_after = K.faults out.new }) }
{
    match fault {
        LookFault::DiscUnread => put(out, b"DISC READ\n", Status::Unread),
        LookFault::TapeUnread => put(out, b"TAPE READ\n", Status::Unread),
        LookFault::NoFilestore => put(out, b"NO FILESTORE\n", Status::No),
        LookFault::NoUser => put(out, b"NO USER\n", Status::No),
        LookFault::NoFile => Status::No,
        LookFault::NoCopy => put(out, b"NO COPY\n", Status::No),
        LookFault::NoMemory => Status::NoMemory,
    }
}

/// Prints why a text isn't a seal.
pub(crate) fn tell_refused<K: Sink>(alloc: Global, out: &mut K, fault: SealFault) -> Status
    ensures tells { told.TellsRefusal fault result
        (record { before = K.written out.old; after = K.written out.new; faults_before = K.faults out.old; faults_after = K.faults out.new }) }
    ensures look { IsOfLook result }
{
    match fault {
        SealFault::NotEnded => put(out, b"SEAL NOT ENDED\n", Status::NoSeal),
        SealFault::WithoutSum => put(out, b"SEAL WITHOUT SUM\n", Status::NoSeal),
        SealFault::OtherSum => put(out, b"SEAL WITH OTHER SUM\n", Status::NoSeal),
        SealFault::Line(k) => tell_line(alloc, out, k),
        SealFault::NoMemory => Status::NoMemory,
    }
}

/// Prints which line of a seal is unknown.
fn tell_line<K: Sink>(alloc: Global, out: &mut K, k: u64) -> Status
    ensures tells { told.TellsLine k result
        (record { before = K.written out.old; after = K.written out.new; faults_before = K.faults out.old; faults_after = K.faults out.new }) }
    ensures look { IsOfLook result }
{
    let mut text = Text::new(alloc);
    if push_told(&mut text, b"SEAL LINE ", k).is_err() || text.push(b'\n').is_err() {
        return Status::NoMemory;
    }
    put(out, text.as_slice(), Status::NoSeal)
}

/// The status of a look that prints nothing.
fn status_of(fault: LookFault) -> Status
    ensures { result ≡ told.status_of fault }
{
    match fault {
        LookFault::DiscUnread => Status::Unread,
        LookFault::TapeUnread => Status::Unread,
        LookFault::NoFilestore => Status::No,
        LookFault::NoUser => Status::No,
        LookFault::NoFile => Status::No,
        LookFault::NoCopy => Status::No,
        LookFault::NoMemory => Status::NoMemory,
    }
}

/// Prints a text, and ends with this status unless the sink fails.
pub(crate) fn put<K: Sink>(out: &mut K, text: &[u8], status: Status) -> Status
    ensures { told.Puts status text.now result
        (record { before = K.written out.old; after = K.written out.new; faults_before = K.faults out.old; faults_after = K.faults out.new }) }
{
    match out.put(text) {
        Ok(()) => status,
        Err(_) => Status::OutputFault,
    }
}
