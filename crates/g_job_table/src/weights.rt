//! The weights of a crew's jobs, stored with them.
ghost use Rattle.std.specs.Prelude.{◌≡◌, ◌∷◌, ◌++◌, ◌<◌, [], length, slice_get, slice_set, Some};

use arrayvec::ArrayVec;
use std::marker::Model;

/// The weight of each of at most 64 jobs, at the place of its job. A turn changes the standing of only one job, so the weights of the others are
/// computed once and stored. Contracts see a list.
#[derive(Drop)]
pub struct Weights {
    each: ArrayVec<u64, 64>,
}

impl Model for Weights {
    ghost use Rattle.std.specs.Prelude.{List, ℕ, ◌≤◌, length};

    ghost Value = { List ℕ };

    ghost view = { λ w. w.each.items };

    ghost invariant = { λ w. length w.each.items ≤ 64 };
}

impl Weights {
    /// No weights.
    pub fn new() -> Weights
        ensures { result ≡ [] }
    {
        Weights {
            each: ArrayVec::new(),
        }
    }

    /// The number of weights.
    pub(crate) fn count(&self) -> usize
        ensures { result ≡ length self.now }
    {
        self.each.len()
    }

    /// Removes all weights.
    pub(crate) fn clear(&mut self)
        ensures { self.new ≡ [] }
    {
        self.each.truncate(0);
    }

    /// Appends the weight of the next job.
    pub(crate) fn push(&mut self, weight: u64)
        requires { length self.old < 64 }
        ensures { self.new ≡ self.old ++ weight ∷ [] }
    {
        self.each.push(weight);
    }

    /// The weight of the job at this place.
    pub(crate) fn get(&self, place: usize) -> u64
        requires { place < length self.now }
        ensures { slice_get self.now place ≡ Some result }
    {
        self.each[place]
    }

    /// Changes the weight of the job at this place.
    pub(crate) fn set(&mut self, place: usize, weight: u64)
        requires { place < length self.old }
        ensures { self.new ≡ slice_set self.old place weight }
    {
        self.each[place] = weight;
    }
}
