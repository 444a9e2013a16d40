//! Iterates over the items of places.
ghost use Rattle.std.specs.Prelude.{◌≡◌};
ghost use Rattle.std.specs.Iterator.{YieldsFirstRef, YieldsLastRef, item_count};
ghost use Rattle.g_table.specs.Table.{present};

use std::marker::Model;

/// The items at places, one at a time. Contracts see the remaining ones.
#[derive(Drop)]
pub struct Iter<'a, T> {
    places: &'a [Option<T>],
}

impl<'a, T> Model for Iter<'a, T> {
    ghost use Rattle.std.specs.Prelude.{List};
    ghost use Rattle.g_table.specs.Table.{present};

    ghost Value = { List T };

    ghost view = { λ it. present it.places.now };
}

impl<'a, T> Iter<'a, T> {
    pub(crate) fn new(places: &'a [Option<T>]) -> Iter<'a, T>
        ensures { result ≡ present places.now }
    {
        Iter { places }
    }
}

impl<'a, T> Iterator for Iter<'a, T> {
    type Item = &'a T;

    ghost next_gives = { YieldsFirstRef (λ it. it) };

    ghost remaining = { item_count (λ it. it) };

    fn next(&mut self) -> Option<&'a T> {
        while let Some((first, others)) = self.places.split_first() {
            self.places = others;
            if let Some(item) = first {
                return Some(item);
            }
        }
        None
    }
}

impl<'a, T> DoubleEndedIterator for Iter<'a, T> {
    ghost next_back_gives = { YieldsLastRef (λ it. it) };

    fn next_back(&mut self) -> Option<&'a T> {
        while let Some((last, others)) = self.places.split_last() {
            self.places = others;
            if let Some(item) = last {
                return Some(item);
            }
        }
        None
    }
}
