//! The standing of the twins of each reel, in the order of the rack, and the list of lost twins.
ghost use Rattle.std.specs.Prelude.{◌≡◌, ◌<◌, ◌++◌, [], ◌∷◌, length, slice_get, slice_set, Some};
ghost use Rattle.g_duplex.specs.Places.{lost_one};

use crate::twin::{Standing, Twin};
use arrayvec::ArrayVec;
use std::marker::Model;

/// A standing for each reel, at most 16. Contracts see a list.
#[derive(Drop)]
pub(crate) struct Standings {
    each: ArrayVec<Standing, 16>,
}

impl Model for Standings {
    ghost use Rattle.std.specs.Prelude.{List, ◌≤◌, length};
    ghost use Rattle.g_duplex.specs.declared.twin.Standing.{Standing};

    ghost Value = { List Standing };

    ghost view = { λ s. s.each.items };

    ghost invariant = { λ s. length s.each.items ≤ 16 };
}

impl Standings {
    /// The list for no reels.
    pub(crate) fn new() -> Standings
        ensures { result ≡ [] }
    {
        Standings {
            each: ArrayVec::new(),
        }
    }

    /// Appends the standing of the next reel.
    pub(crate) fn push(&mut self, standing: Standing)
        requires { length self.old < 16 }
        ensures { self.new ≡ self.old ++ standing ∷ [] }
    {
        self.each.push(standing);
    }

    /// The standing of the i-th reel.
    pub(crate) fn get(&self, i: usize) -> Standing
        requires { i < length self.now }
        ensures { slice_get self.now i ≡ Some result }
    {
        self.each[i]
    }

    /// Sets the standing of the i-th reel.
    pub(crate) fn set(&mut self, i: usize, standing: Standing)
        requires { i < length self.old }
        ensures { self.new ≡ slice_set self.old i standing }
    {
        self.each[i] = standing;
    }
}

/// The lost twins with their serials, at most 16. Contracts see a list.
#[derive(Drop)]
pub struct LostTwins {
    each: ArrayVec<(u32, Twin), 16>,
}

impl Model for LostTwins {
    ghost use Rattle.std.specs.Prelude.{ℕ, List, ◌≤◌, length};
    ghost use Rattle.g_duplex.specs.declared.twin.Twin.{Twin};

    ghost Value = { List (ℕ × Twin) };

    ghost view = { λ l. l.each.items };

    ghost invariant = { λ l. length l.each.items ≤ 16 };
}

impl LostTwins {
    /// The empty list.
    pub(crate) fn new() -> LostTwins
        ensures { result ≡ [] }
    {
        LostTwins {
            each: ArrayVec::new(),
        }
    }

    /// Appends a twin of this serial, if one is lost.
    pub(crate) fn put(&mut self, serial: u32, standing: Standing)
        requires { length self.old < 16 }
        ensures { self.new ≡ self.old ++ lost_one serial standing }
    {
        match standing {
            Standing::Lost(twin) => self.each.push((serial, twin)),
            Standing::Level | Standing::Apart(_) => {}
        }
    }

    /// The list as a slice.
    pub fn as_slice(&self) -> &[(u32, Twin)]
        ensures { result.now ≡ self.now }
    {
        self.each.as_slice()
    }
}
