//! A number that two racks have given to two dumps.
ghost use Rattle.std.specs.Prelude.{◌≡◌, ◌↔◌, ◌==◌, ℕ, IfNone, IfOk, IfSome, IsTrue, None, OnOk, Some, cond};
ghost use Rattle.std.specs.Option.{ForSome, option_or};
ghost use Rattle.std.specs.Ordering.{nat_cmp};
ghost use Rattle.std.specs.BTreeMap.{get};
ghost use Rattle.g_forks.specs.Forks.{HasNoFork, IsFork, LieAlike, first_of};

use crate::Held;
use g_base::NoMemory;
use std::alloc::Global;
use std::collections::BTreeMap;

/// Two dumps of one number, one in each rack, that don't lie alike.
#[derive(Clone, Copy, PartialEq, Eq, Drop)]
pub struct Fork {
    pub first: Held,
    pub second: Held,
}

/// The first dump of the second rack whose number the first rack has given to another dump, and that one. Twins of one history never differ
/// so: numbers rise from dump to dump, and a twin is the same dump at the same place. If a rack has a number twice, its first dump counts.
/// `NoMemory`.
pub fn find_fork(alloc: Global, first: &[Held], second: &[Held]) -> Result<Option<Fork>, NoMemory>
    ensures some { IfOk result (λ fork. IfSome fork (λ f. IsFork first.now second.now f)) }
    ensures none { IfOk result (λ fork. IfNone fork (HasNoFork first.now second.now)) }
{
    let numbers = by_number(alloc, first)?;
    for held in second {
        if let Some(other) = other_of(&numbers, held) {
            return Ok(Some(Fork {
                first: other,
                second: *held,
            }));
        }
    }
    Ok(None)
}

/// The first of these dumps of each number. `NoMemory`.
fn by_number(alloc: Global, dumps: &[Held]) -> Result<BTreeMap<u64, Held>, NoMemory>
    ensures { IfOk result (λ numbers. (n : ℕ) → get nat_cmp numbers n ≡ first_of n dumps.now) }
{
    let mut numbers = BTreeMap::new(alloc);
    for dump in dumps {
        match add(&mut numbers, *dump) {
            Ok(()) => {}
            Err(fault) => return Err(fault),
        }
    }
    Ok(numbers)
}

/// Adds a dump, unless there is one of its number. `NoMemory`.
fn add(numbers: &mut BTreeMap<u64, Held>, dump: Held) -> Result<(), NoMemory>
    ensures { OnOk result ((n : ℕ) → get nat_cmp numbers.new n ≡ option_or (get nat_cmp numbers.old n) (cond (dump.number == n) (Some dump) None)) }
{
    if numbers.contains_key(&dump.number) {
        return Ok(());
    }
    numbers.insert(dump.number, dump)?;
    Ok(())
}

/// The dump that has the number of this one and isn't its twin.
fn other_of(numbers: &BTreeMap<u64, Held>, held: &Held) -> Option<Held>
    ensures some { IfSome result (λ other. (get nat_cmp numbers.now held.now.number ≡ Some other) × (LieAlike other held.now → ⊥)) }
    ensures none { IfNone result (ForSome (get nat_cmp numbers.now held.now.number) (λ other. LieAlike other held.now)) }
{
    match numbers.get(&held.number) {
        Some(other) => {
            if lie_alike(other, held) {
                None
            } else {
                Some(*other)
            }
        }
        None => None,
    }
}

/// Whether two dumps of one number are twins: on reels of one serial, at one block, of one length.
fn lie_alike(one: &Held, other: &Held) -> bool
    ensures { IsTrue result ↔ LieAlike one.now other.now }
{
    one.serial == other.serial && one.place == other.place && one.count == other.count
}
