//! The rules about pairs of dumps. In rising order of number it is enough to compare neighbours.
ghost use Rattle.std.specs.Prelude.{◌≡◌, IfNone, IfOk, IfSome, IsPermutation, IsTrue, map};
ghost use Rattle.std.specs.List.Sorted.{IsNonDecreasingBy};
ghost use Rattle.g_look.specs.SeenDumps.{HaveNoTwins, IsFalling, IsTwice, IsTwin, NoneFalls, SamePlace, at_found};

use crate::{Broken, DumpAt};
use g_base::NoMemory;
use g_restore::Found;
use std::alloc::Global;

/// The numbers by which these dumps are printed, in rising order; those of the same number stay in their order. `NoMemory`.
pub(crate) fn by_number(alloc: Global, found: &[Found]) -> Result<Vec<DumpAt>, NoMemory>
    ensures same { IfOk result (λ dumps. IsPermutation (map at_found found.now) dumps.items) }
    ensures order { IfOk result (λ dumps. IsNonDecreasingBy (λ d. d.number) dumps.items) }
{
    let mut dumps = all_at(alloc, found)?;
    dumps.sort_by_key(|dump| dump.number)?;
    Ok(dumps)
}

/// The numbers by which each of these dumps is printed, in their order.
fn all_at(alloc: Global, found: &[Found]) -> Result<Vec<DumpAt>, NoMemory>
    ensures { IfOk result (λ dumps. dumps.items ≡ map at_found found.now) }
{
    let mut dumps = Vec::new(alloc);
    for one in found {
        dumps.push(at_of(one))?;
    }
    Ok(dumps)
}

/// Rule 1: two dumps of the same number, at two places. They are neighbours.
pub(crate) fn twice(dumps: &[DumpAt]) -> Option<Broken>
    requires { IsNonDecreasingBy (λ d. d.number) dumps.now }
    ensures some { IfSome result (IsTwice dumps.now) }
    ensures none { IfNone result (HaveNoTwins dumps.now) }
{
    for i in 1..dumps.len() {
        let (one, next) = (dumps[i - 1], dumps[i]);
        if is_twin(&one, &next) {
            return Some(Broken::Twice(one, next));
        }
    }
    None
}

/// Whether the other dump has the number of this one and is at another place.
fn is_twin(one: &DumpAt, other: &DumpAt) -> bool
    ensures twin { IsTrue result → IsTwin one.now other.now }
    ensures apart { (IsTrue result → ⊥) → other.now.number ≡ one.now.number → SamePlace one.now other.now }
{
    one.number == other.number && !(one.serial == other.serial && one.place == other.place)
}

/// Rule 2: two dumps, the later of which has the lower next stamp. They are neighbours.
pub(crate) fn falling(dumps: &[DumpAt]) -> Option<Broken>
    requires { IsNonDecreasingBy (λ d. d.number) dumps.now }
    ensures some { IfSome result (IsFalling dumps.now) }
    ensures none { IfNone result (NoneFalls dumps.now) }
{
    for i in 1..dumps.len() {
        let (one, next) = (dumps[i - 1], dumps[i]);
        if next.next_stamp < one.next_stamp {
            return Some(Broken::Falls(one, next));
        }
    }
    None
}

/// The numbers by which a dump is printed.
pub(crate) fn at_of(one: &Found) -> DumpAt
    ensures { result ≡ at_found one.now }
{
    DumpAt {
        number: one.dir.note.number,
        serial: one.serial,
        place: one.dir.note.place,
        next_stamp: one.dir.note.next_stamp,
    }
}
