//! The line of a rule that is broken.
ghost use Rattle.std.specs.Prelude.{◌≡◌, ◌++◌, OnOk};
ghost use Rattle.g_look.specs.declared.broken.Broken.{Broken};
ghost use Rattle.g_look.specs.Text.{broken_line, verdict_line};

use crate::parts::{push_at, push_copy, push_lie, push_told};
use crate::{Broken, DumpAt, Lie, Verdict};
use g_base::NoMemory;
use g_entry::TapeCopy;
use g_monitor::push_full;
use g_name::{Full, Text};

/// Appends the verdict's line to the text, without a byte 10.
pub(crate) fn push_verdict(text: &mut Text, holds: bool, verdict: &Verdict) -> Result<(), NoMemory>
    ensures { OnOk result (text.new ≡ text.old ++ verdict_line holds verdict.now.broken verdict.now.missing) }
{
    match &verdict.broken {
        Some(broken) => push_broken(text, broken),
        None => push_unbroken(text, holds, verdict.missing),
    }
}

/// Appends the line of a missing dump, or otherwise that disc and rack belong together, without a byte 10.
fn push_unbroken(text: &mut Text, holds: bool, missing: Option<u64>) -> Result<(), NoMemory>
    ensures { OnOk result (text.new ≡ text.old ++ verdict_line holds None missing) }
{
    match missing {
        Some(number) => {
            push_told(text, b"BROKEN 13 DUMP ", number)?;
            text.extend(b" MISSING")
        }
        None => {
            if holds {
                text.extend(b"BELONGS")
            } else {
                text.extend(b"BELONGS, DISC HOLDS NOTHING")
            }
        }
    }
}

/// Appends the line of a rule that is broken to the text, without a byte 10.
pub(crate) fn push_broken(text: &mut Text, broken: &Broken) -> Result<(), NoMemory>
    ensures { OnOk result (text.new ≡ text.old ++ broken_line broken.now) }
{
    match broken {
        Broken::Twice(a, b) => push_twice(text, a, b),
        Broken::Falls(a, b) => push_falls(text, a, b),
        Broken::LostDirectory(user) => {
            text.extend(b"BROKEN 3 LOST DIRECTORY :")?;
            text.extend(user.as_slice())
        }
        Broken::LostCopy(full, serial) => {
            text.extend(b"BROKEN 4 LOST COPY ")?;
            push_full(text, full)?;
            push_told(text, b" ", u64::from(*serial))
        }
        Broken::TooNew(a, last) => push_too_new(text, a, *last),
        Broken::LastMissing(last) => push_told(text, b"BROKEN 6 LAST DUMP ", *last),
        Broken::TooFar(a, next) => push_too_far(text, a, *next),
        Broken::NoReel(serial) => push_told(text, b"BROKEN 8 INTENT TAPE ", u64::from(*serial)),
        Broken::Misplaced { serial, place, end } => push_misplaced(text, *serial, *place, *end),
        Broken::NoCopy(full, copy) => push_no_copy(text, full, copy),
        Broken::Lengths {
            full,
            stamp,
            len,
            dumped,
        } => push_lengths(text, full, *stamp, *len, *dumped),
        Broken::Bytes {
            full,
            stamp,
            one,
            other,
        } => push_bytes(text, full, *stamp, one, other),
    }
}

fn push_twice(text: &mut Text, a: &DumpAt, b: &DumpAt) -> Result<(), NoMemory>
    ensures { OnOk result (text.new ≡ text.old ++ broken_line (Broken.Twice a.now b.now)) }
{
    push_told(text, b"BROKEN 1 DUMP ", a.number)?;
    text.extend(b" TWICE")?;
    push_at(text, a)?;
    push_at(text, b)
}

fn push_falls(text: &mut Text, a: &DumpAt, b: &DumpAt) -> Result<(), NoMemory>
    ensures { OnOk result (text.new ≡ text.old ++ broken_line (Broken.Falls a.now b.now)) }
{
    push_told(text, b"BROKEN 2 DUMP ", a.number)?;
    push_told(text, b" NEXT ", a.next_stamp)?;
    push_told(text, b" DUMP ", b.number)?;
    push_told(text, b" NEXT ", b.next_stamp)
}

fn push_too_new(text: &mut Text, a: &DumpAt, last: u64) -> Result<(), NoMemory>
    ensures { OnOk result (text.new ≡ text.old ++ broken_line (Broken.TooNew a.now last)) }
{
    push_told(text, b"BROKEN 5 DUMP ", a.number)?;
    push_at(text, a)?;
    push_told(text, b" LAST DUMP ", last)
}

fn push_too_far(text: &mut Text, a: &DumpAt, next: u64) -> Result<(), NoMemory>
    ensures { OnOk result (text.new ≡ text.old ++ broken_line (Broken.TooFar a.now next)) }
{
    push_told(text, b"BROKEN 7 DUMP ", a.number)?;
    push_at(text, a)?;
    push_told(text, b" NEXT ", a.next_stamp)?;
    push_told(text, b" DISC NEXT ", next)
}

fn push_misplaced(text: &mut Text, serial: u32, place: u32, end: u32) -> Result<(), NoMemory>
    ensures { OnOk result (text.new ≡ text.old ++ broken_line (Broken.Misplaced serial place end)) }
{
    push_told(text, b"BROKEN 9 INTENT TAPE ", u64::from(serial))?;
    push_told(text, b" AT ", u64::from(place))?;
    push_told(text, b" END ", u64::from(end))
}

fn push_no_copy(text: &mut Text, full: &Full, copy: &TapeCopy) -> Result<(), NoMemory>
    ensures { OnOk result (text.new ≡ text.old ++ broken_line (Broken.NoCopy full.now copy.now)) }
{
    text.extend(b"BROKEN 10 NO COPY ")?;
    push_full(text, full)?;
    push_copy(text, copy)
}

fn push_lengths(
    text: &mut Text,
    full: &Full,
    stamp: u64,
    len: u32,
    dumped: u32,
) -> Result<(), NoMemory>
    ensures { OnOk result (text.new ≡ text.old ++ broken_line (Broken.Lengths full.now stamp len dumped)) }
{
    text.extend(b"BROKEN 11 LENGTH ")?;
    push_full(text, full)?;
    push_told(text, b" STAMP ", stamp)?;
    push_told(text, b" LENGTH ", u64::from(len))?;
    push_told(text, b" DUMPED ", u64::from(dumped))
}

fn push_bytes(
    text: &mut Text,
    full: &Full,
    stamp: u64,
    one: &Lie,
    other: &Lie,
) -> Result<(), NoMemory>
    ensures { OnOk result (text.new ≡ text.old ++ broken_line (Broken.Bytes full.now stamp one.now other.now)) }
{
    text.extend(b"BROKEN 12 BYTES ")?;
    push_full(text, full)?;
    push_told(text, b" STAMP ", stamp)?;
    push_lie(text, one)?;
    push_lie(text, other)
}
