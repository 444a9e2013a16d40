//! A table of items by number.
ghost use Rattle.std.specs.Prelude.{◌≡◌, ◌<◌, ℕ, [], IfOk, IfSome, IfNone, None, is_some, length, map, true};
ghost use Rattle.std.specs.Option.{option_copied};
ghost use Rattle.g_table.specs.Table.{item_at, with_item, without_item};

use crate::iter::Iter;
use crate::numbers::{
    GROUP, NUMBERS, count_down, count_up, end_of, first_gap, no_items, open_group,
};
use g_base::NoMemory;
use g_entry::{BoxedRec, FileRec};
use std::alloc::Global;
use std::marker::Model;

/// Items with a place for each number below 1,024: access needs no search, and no item moves when another is added or
/// removed. Contracts see the items in order of their numbers, each with its number.
#[derive(Drop)]
pub struct NumberTable<T> {
    places: Vec<Option<T>>,

    // The places from this one on are empty.
    end: usize,

    // The number of items in each group of 32 places, and in all.
    used: Vec<u8>,
    count: usize,
}

impl<T> Model for NumberTable<T> {
    ghost use Rattle.std.specs.Prelude.{ℕ, List};
    ghost use Rattle.g_table.specs.Table.{IsTable, listed_from};

    ghost Value = { List (ℕ × T) };

    ghost view = { λ t. listed_from 0 t.places.items };

    ghost invariant = { λ t. IsTable t.places.items t.end t.used.items t.count };
}

impl<T: Drop> NumberTable<T> {
    /// A table without items.
    pub fn new(alloc: Global) -> Result<NumberTable<T>, NoMemory>
        ensures { IfOk result (λ t. t ≡ []) }
    {
        Ok(NumberTable {
            places: no_items(alloc)?,
            end: 0,
            used: vec![in alloc; 0; NUMBERS / GROUP]?,
            count: 0,
        })
    }

    /// The number of items.
    pub fn len(&self) -> usize
        ensures { result ≡ length self.now }
    {
        self.count
    }

    /// The item of this number, if there is one.
    pub fn get(&self, number: u16) -> Option<&T>
        ensures { option_copied result ≡ item_at self.now number }
    {
        match self.places.get(number as usize) {
            Some(place) => place.as_ref(),
            None => None,
        }
    }

    /// Stores an item at the place of its number and returns the item that it replaces. It allocates nothing.
    pub fn put(&mut self, number: u16, item: T) -> Option<T>
        requires { number < 1024 }
        ensures items { self.new ≡ with_item number item self.old }
        ensures was { result ≡ item_at self.old number }
    {
        let place = number as usize;
        let was = self.places[place].replace(item);
        if was.is_none() {
            count_up(&mut self.used, place);
            self.count += 1;
            self.end = self.end.max(place + 1);
        }
        was
    }

    /// Removes and returns the item of this number, if there is one.
    pub fn take(&mut self, number: u16) -> Option<T>
        requires { number < 1024 }
        ensures items { self.new ≡ without_item number self.old }
        ensures was { result ≡ item_at self.old number }
    {
        let place = number as usize;
        let was = self.places[place].take();
        if was.is_some() {
            count_down(&mut self.used, place);
            self.count -= 1;
            self.end = end_of(&self.places, self.end);
        }
        was
    }

    /// The least number below 1,024 that no item has, if there is one.
    pub fn free(&self) -> Option<u16>
        ensures unused { IfSome result (λ number. (number < 1024)
            × (item_at self.now number ≡ None)) }
        ensures least { IfSome result (λ number. (lower : ℕ) → lower < number
            → is_some (item_at self.now lower) ≡ true) }
        ensures none { IfNone result (length self.now ≡ 1024) }
    {
        let group = open_group(&self.used);
        if group < NUMBERS / GROUP {
            Some(first_gap(&self.places, group * GROUP) as u16)
        } else {
            None
        }
    }

    /// The items in order of their numbers.
    pub fn iter(&self) -> Iter<T>
        ensures { result ≡ map (λ c. c.1) self.now }
    {
        Iter::new(&self.places[..self.end])
    }
}

impl NumberTable<BoxedRec> {
    /// Replaces the record in the box of its number.
    pub(crate) fn set_rec(&mut self, rec: FileRec)
        requires { is_some (item_at self.old rec.number) ≡ true }
        ensures { self.new ≡ with_item rec.number rec self.old }
    {
        match &mut self.places[rec.number as usize] {
            Some(boxed) => boxed.set(rec),
            None => unreachable!(),
        }
    }
}
