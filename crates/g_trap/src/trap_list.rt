//! The traps of one file.
ghost use Rattle.std.specs.Prelude.{◌≡◌, ◌-◌, ◌==◌, true, not, ◌&&◌, bit_and, bit_or, [], nat_lt, ◌↔◌};
ghost use Rattle.std.specs.Prelude.{IsTrue, IsSome, IfSome, IfOk, IfErr, IsErr, OnOk, OnErr};
ghost use Rattle.std.specs.Ordering.{nat_cmp};
ghost use Rattle.std.specs.FinMap.{is_sorted};
ghost use Rattle.std.specs.List.{list_all};
ghost use Rattle.g_trap.specs.ModeSet.{allows};
ghost use Rattle.g_trap.specs.Places.{StandsAt, FitsAt};
ghost use Rattle.g_trap.specs.TrapList.{IsOthers, other_modes, modes_of, with_modes, with_other, is_ninth};

use crate::mode_set::{Mode, Modes};
use arrayvec::ArrayVec;
use std::marker::Model;
use thiserror::Error;

/// A file can't trap a ninth user besides the owner.
#[derive(Clone, Copy, Debug, PartialEq, Eq, Error)]
#[error("traps full")]
pub struct TrapsFull;

/// The traps of one file: its owner's modes, and those of up to 8 other users, each with at least one mode.
/// Users are numbers, and the owner's number is passed to each call.
#[derive(Drop, PartialEq, Eq)]
pub struct Traps {
    owner: Modes,
    others: ArrayVec<(u8, Modes), 8>,
}

impl Model for Traps {
    ghost use Rattle.g_trap.specs.TrapList.{TrapList, IsOthers};

    ghost Value = { TrapList };

    ghost view = { λ t. record { owner = t.owner; others = t.others.items } };

    ghost invariant = { λ t. IsOthers t.others.items };

    ghost inverse = { λ t. record { owner = t.owner; others = record { items = t.others } } };
}

impl Traps {
    /// The traps of a new file: all modes for the owner, and none for other users.
    pub fn fresh() -> Traps
        ensures { result ≡ record { owner = 31; others = [] } }
    {
        Traps {
            owner: Modes::all(),
            others: ArrayVec::new(),
        }
    }

    /// The traps with these modes of the owner and these pairs of another user's number and modes. `None` if there are
    /// more than 8 pairs, the numbers aren't strictly increasing, or a pair has no mode.
    pub fn of(owner: Modes, others: &[(u8, Modes)]) -> Option<Traps>
        ensures some { IsSome result ↔ IsOthers others.now }
        ensures value { IfSome result (λ traps. traps ≡ record { owner = owner; others = others.now }) }
    {
        if !is_others(others) {
            return None;
        }
        let others = ArrayVec::try_from(others).ok()?;
        Some(Traps { owner, others })
    }

    pub fn copy(&self) -> Traps
        ensures { result ≡ self.now }
    {
        Traps {
            owner: self.owner,
            others: ArrayVec::try_from(self.others.as_slice()).unwrap(),
        }
    }

    pub fn owner_modes(&self) -> Modes
        ensures { result ≡ self.now.owner }
    {
        self.owner
    }

    /// The other users with their modes, in rising user number. Each has at least one mode.
    pub fn others(&self) -> &[(u8, Modes)]
        ensures value { result.now ≡ self.now.others }
        ensures others { IsOthers result.now }
    {
        self.others.as_slice()
    }

    /// The modes that the user has.
    pub fn modes_of(&self, owner: u8, user: u8) -> Modes
        ensures { result ≡ modes_of self.now owner user }
    {
        if user == owner {
            self.owner
        } else {
            other_modes(&self.others, user)
        }
    }

    /// Whether the user has the mode.
    pub fn allows(&self, owner: u8, user: u8, mode: Mode) -> bool
        ensures { result ≡ allows (modes_of self.now owner user) mode }
    {
        self.modes_of(owner, user).contains(mode)
    }

    /// Opens the modes to the user, whose other modes are unchanged.
    pub fn go(&mut self, owner: u8, user: u8, modes: Modes) -> Result<(), TrapsFull>
        ensures full { IsErr result ↔ ((not (user == owner) && is_ninth self.old.others user modes) ≡ true) }
        ensures ok { OnOk result (self.new ≡ with_modes self.old owner user (bit_or (modes_of self.old owner user) modes)) }
        ensures err { OnErr result (self.new ≡ self.old) }
    {
        let modes = self.modes_of(owner, user).union(modes);
        if user == owner {
            self.owner = modes;
            return Ok(());
        }
        give(&mut self.others, user, modes)
    }

    /// Closes the modes to the user, whose other modes are unchanged.
    pub fn stop(&mut self, owner: u8, user: u8, modes: Modes)
        ensures { let had = modes_of self.old owner user in self.new ≡ with_modes self.old owner user (had - bit_and had modes) }
    {
        let modes = self.modes_of(owner, user).without(modes);
        if user == owner {
            self.owner = modes;
        } else if give(&mut self.others, user, modes).is_err() {
            unreachable!()
        }
    }
}

/// Whether the pairs are valid as a file's other users with their modes.
fn is_others(others: &[(u8, Modes)]) -> bool
    ensures { IsTrue result ↔ IsOthers others.now }
{
    others.len() <= 8 && is_rising(others) && is_used(others) && are_sets(others)
}

/// Whether the user numbers are strictly increasing.
fn is_rising(others: &[(u8, Modes)]) -> bool
    ensures { result ≡ is_sorted nat_cmp others.now }
{
    others.is_sorted_by(|one, next| one.0 < next.0)
}

/// Whether each pair has at least one mode.
fn is_used(others: &[(u8, Modes)]) -> bool
    ensures { result ≡ list_all (λ pair. not (pair.1 == 0)) others.now }
{
    others.iter().all(|pair| !pair.1.is_empty())
}

/// Whether the modes are sets. Every value of the type is; this call exists so that its contract states it.
fn are_sets(others: &[(u8, Modes)]) -> bool
    ensures { result ≡ list_all (λ pair. nat_lt pair.1 32) others.now }
{
    others.iter().all(|pair| pair.1.bits() < 32)
}

/// The modes of another user.
fn other_modes(others: &[(u8, Modes)], user: u8) -> Modes
    requires { is_sorted nat_cmp others.now ≡ true }
    ensures { result ≡ other_modes others.now user }
{
    match place_of(others, user) {
        Ok(place) => others[place].1,
        Err(_) => Modes::none(),
    }
}

/// The place of the user's pair among pairs sorted by user number, or the place where it would fit.
fn place_of(others: &[(u8, Modes)], user: u8) -> Result<usize, usize>
    requires { is_sorted nat_cmp others.now ≡ true }
    ensures found { IfOk result (StandsAt user others.now) }
    ensures absent { IfErr result (FitsAt user others.now) }
{
    others.binary_search_by_key(&user, |pair| pair.0)
}

/// Gives another user exactly these modes. A user without modes has no pair.
fn give(others: &mut ArrayVec<(u8, Modes), 8>, user: u8, modes: Modes) -> Result<(), TrapsFull>
    requires { IsOthers others.old.items }
    ensures full { IsErr result ↔ (is_ninth others.old.items user modes ≡ true) }
    ensures ok { OnOk result (others.new.items ≡ with_other others.old.items user modes) }
    ensures err { OnErr result (others.new.items ≡ others.old.items) }
    ensures kept { IsOthers others.new.items }
{
    match (place_of(others, user), modes.is_empty()) {
        (Ok(place), true) => {
            others.remove(place);
        }
        (Ok(place), false) => others[place].1 = modes,
        (Err(_), true) => {}
        (Err(place), false) => {
            if others.is_full() {
                return Err(TrapsFull);
            }
            others.insert(place, (user, modes));
        }
    }
    Ok(())
}
