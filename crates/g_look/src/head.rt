//! The rules between the head of a directory and the dumps.
ghost use Rattle.std.specs.Prelude.{◌≡◌, ◌↔◌, ◌<◌, ◌≤◌, ℕ, All, Contains, IfNone, IfSome, IsTrue, List};
ghost use Rattle.g_entry.specs.HeadFields.{IsHead};
ghost use Rattle.g_store_meaning.specs.Meaning.{told_reels};
ghost use Rattle.g_incr.specs.Layout.{Dump};
ghost use Rattle.g_restore.specs.declared.dumps.Found.{Found};
ghost use Rattle.g_look.specs.Heads.{EndsLow, HasNumber, HeadFits, IsFirstOfHead, IsIntentBroken, IsIntentPlaced, IsKnown, IsNamed, IsNew, IsOff, IsTooFar, IsTooNew, end_upto, end_with, found_ends};
ghost use Rattle.g_look.specs.SeenDumps.{IsSeen};

use crate::Broken;
use crate::pairs::at_of;
use g_entry::{Head, Intent};
use g_restore::Found;
use g_tape::Tapes;

/// Which of the rules 5 to 9 is broken first.
pub(crate) fn judge_head<T: Tapes>(found: &[Found], head: &Head, tapes: &T) -> Option<Broken>
    requires { IsHead head.now }
    ensures some { IfSome result (λ b. (shelf : ℕ → List Dump) → IsSeen (told_reels (T.rack tapes.now)) shelf found.now
        → IsFirstOfHead shelf (told_reels (T.rack tapes.now)) head.now b) }
    ensures none { IfNone result ((shelf : ℕ → List Dump) → IsSeen (told_reels (T.rack tapes.now)) shelf found.now
        → HeadFits shelf (told_reels (T.rack tapes.now)) head.now) }
{
    match too_new(found, head) {
        Some(broken) => return Some(broken),
        None => {}
    }
    match missing_last(found, head.last_dump) {
        Some(last) => return Some(Broken::LastMissing(last)),
        None => {}
    }
    match too_far(found, head.next_stamp) {
        Some(broken) => return Some(broken),
        None => {}
    }
    match &head.intent {
        Some(intent) => judge_intent(found, intent, head.last_dump, tapes),
        None => None,
    }
}

/// Rule 5: a dump that is newer than the last one, and isn't the one that the intent names.
fn too_new(found: &[Found], head: &Head) -> Option<Broken>
    ensures some { IfSome result (IsTooNew found.now head.now) }
    ensures none { IfNone result ((f : Found) → Contains found.now f → IsKnown head.now f) }
{
    for one in found {
        if is_new(one, head) {
            return Some(Broken::TooNew(at_of(one), head.last_dump));
        }
    }
    None
}

/// Whether the dump is newer than the last one, and isn't the one that the intent names.
fn is_new(one: &Found, head: &Head) -> bool
    ensures new { IsTrue result → IsNew head.now one.now }
    ensures known { (IsTrue result → ⊥) → IsKnown head.now one.now }
{
    head.last_dump < one.dir.note.number && !is_intended(one, &head.intent)
}

/// Whether the intent names the dump.
pub(crate) fn is_intended(one: &Found, intent: &Option<Intent>) -> bool
    ensures { IsTrue result ↔ IsNamed intent.now one.now }
{
    match intent {
        Some(intent) => {
            intent.serial == one.serial
                && intent.place == one.dir.note.place
                && intent.number == one.dir.note.number
        }
        None => false,
    }
}

/// Rule 6: the number of the last dump, if there was one and no dump has its number.
fn missing_last(found: &[Found], last: u64) -> Option<u64>
    ensures some { IfSome result (λ n. (n ≡ last) × (0 < last) × (HasNumber found.now last → ⊥)) }
    ensures none { IfNone result (0 < last → HasNumber found.now last) }
{
    if last == 0 || has_number(found, last) {
        None
    } else {
        Some(last)
    }
}

/// Whether one of the dumps has this number.
fn has_number(found: &[Found], number: u64) -> bool
    ensures { IsTrue result ↔ HasNumber found.now number }
{
    for one in found {
        if is_numbered(one, number) {
            return true;
        }
    }
    false
}

/// Whether the dump has this number.
fn is_numbered(one: &Found, number: u64) -> bool
    ensures { IsTrue result ↔ (one.now.dir.note.number ≡ number) }
{
    one.dir.note.number == number
}

/// Rule 7: a dump with a greater next stamp than the disc.
fn too_far(found: &[Found], next: u64) -> Option<Broken>
    ensures some { IfSome result (IsTooFar found.now next) }
    ensures none { IfNone result ((f : Found) → Contains found.now f → f.dir.note.next_stamp ≤ next) }
{
    for one in found {
        if is_past(one, next) {
            return Some(Broken::TooFar(at_of(one), next));
        }
    }
    None
}

/// Whether the dump has a greater next stamp.
fn is_past(one: &Found, next: u64) -> bool
    ensures { IsTrue result ↔ (next < one.now.dir.note.next_stamp) }
{
    next < one.dir.note.next_stamp
}

/// Rules 8 and 9: the reel of the intent is in the rack, and its place is the end of the reel's dumps up to the last one.
fn judge_intent<T: Tapes>(found: &[Found], intent: &Intent, last: u64, tapes: &T) -> Option<Broken>
    ensures some { IfSome result (λ b. All EndsLow found.now → IsIntentBroken found.now (told_reels (T.rack tapes.now)) intent.now last b) }
    ensures none { IfNone result (All EndsLow found.now → IsIntentPlaced found.now (told_reels (T.rack tapes.now)) intent.now last) }
{
    match tapes.length(intent.serial) {
        Ok(_) => {}
        Err(_) => return Some(Broken::NoReel(intent.serial)),
    }
    misplaced(intent, end_upto(found, intent.serial, last))
}

/// Rule 9: the intent's place isn't this end.
fn misplaced(intent: &Intent, end: u32) -> Option<Broken>
    ensures some { IfSome result (IsOff intent.now end) }
    ensures none { IfNone result (intent.now.place ≡ end) }
{
    if intent.place == end {
        None
    } else {
        Some(Broken::Misplaced {
            serial: intent.serial,
            place: intent.place,
            end,
        })
    }
}

/// The block after the dumps of the reel up to the one of this number.
pub(crate) fn end_upto(found: &[Found], serial: u32, last: u64) -> u32
    ensures { All EndsLow found.now → result ≡ end_upto serial last 0 found.now }
{
    let mut end = 0;
    for one in found {
        end = end_with(end, one, serial, last);
    }
    end
}

/// The block after the dump, if it is on the reel and isn't later than the one of this number; otherwise `end`.
fn end_with(end: u32, one: &Found, serial: u32, last: u64) -> u32
    ensures { EndsLow one.now → result ≡ end_with serial last end one.now }
{
    if one.serial == serial && one.dir.note.number <= last {
        end_of(one)
    } else {
        end
    }
}

/// The block after the dump. The sum has 64 bits, since nothing bounds it for a reel that doesn't expose its blocks.
pub(crate) fn end_of(one: &Found) -> u32
    ensures { EndsLow one.now → result ≡ found_ends one.now }
{
    let end = u64::from(one.dir.note.place) + u64::from(one.dir.note.count) + 2;
    if end < 4_294_967_296 {
        end as u32
    } else {
        4_294_967_295
    }
}
