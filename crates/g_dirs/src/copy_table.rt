//! The copies on disc of all files, by their numbers.
ghost use Rattle.std.specs.Prelude.{◌≡◌, ◌<◌, ◌∷◌, ◌++◌, ◌==◌, All, AllPairs, IfOk, [], filter, nat_lt, not};
ghost use Rattle.std.specs.Option.{option_copied};
ghost use Rattle.g_dirs.specs.Directory.{copy_at};

use crate::{BoxedCopy, FileCopy};
use g_base::NoMemory;
use g_copy::DiscCopy;
use g_table::NumberTable;
use std::alloc::Global;
use std::marker::Model;

/// Where the bytes of files lie, with a place for each file number: no copy has to be searched for, and none moves when another
/// is added or removed. Contracts see the copies in order of number, each with its number.
#[derive(Drop)]
pub struct CopyTable {
    copies: NumberTable<BoxedCopy>,

    // The box of the last removed copy, for reuse.
    spare: Option<BoxedCopy>,
}

impl Model for CopyTable {
    ghost use Rattle.std.specs.Prelude.{ℕ, List};
    ghost use Rattle.g_copy.specs.declared.copy.DiscCopy.{DiscCopy};

    ghost Value = { List (ℕ × DiscCopy) };

    ghost view = { λ t. t.copies };
}

impl CopyTable {
    /// The table of these copies.
    pub fn of(alloc: Global, copies: Vec<FileCopy>) -> Result<CopyTable, NoMemory>
        requires rising { AllPairs (λ c d. c.0 < d.0) copies.items }
        requires below { All (λ c. c.0 < 1024) copies.items }
        ensures { IfOk result (λ t. t ≡ copies.items) }
    {
        let mut table = CopyTable::new(alloc)?;
        table.put_all(copies);
        Ok(table)
    }

    /// A table without copies.
    fn new(alloc: Global) -> Result<CopyTable, NoMemory>
        ensures { IfOk result (λ t. t ≡ []) }
    {
        Ok(CopyTable {
            copies: NumberTable::new(alloc)?,
            spare: None,
        })
    }

    /// Puts copies in order of number into a table without copies.
    fn put_all(&mut self, copies: Vec<FileCopy>)
        requires empty { self.old ≡ [] }
        requires rising { AllPairs (λ c d. c.0 < d.0) copies.items }
        requires below { All (λ c. c.0 < 1024) copies.items }
        ensures { self.new ≡ copies.items }
    {
        let mut left = copies;
        while let Some(copy) = left.pop() {
            let number = copy.number();
            self.put(number, copy.into_copy());
        }
    }

    /// The copy of the file of this number, if there is one.
    pub fn get(&self, number: u16) -> Option<&DiscCopy>
        ensures { option_copied result ≡ copy_at self.now number }
    {
        match self.copies.get(number) {
            Some(copy) => Some(copy.get()),
            None => None,
        }
    }

    /// Sets the copy of the file of this number, and replaces an earlier one. It allocates no memory.
    pub fn put(&mut self, number: u16, copy: BoxedCopy)
        requires { number < 1024 }
        ensures { self.new ≡ filter (λ c. nat_lt c.0 number) self.old ++ (number, copy)
            ∷ filter (λ c. nat_lt number c.0) self.old }
    {
        let was = self.copies.put(number, copy);
        keep_box(&mut self.spare, was);
    }

    /// Removes the copy of the file of this number, if there is one.
    pub fn forget(&mut self, number: u16)
        requires { number < 1024 }
        ensures { self.new ≡ filter (λ c. not (c.0 == number)) self.old }
    {
        let was = self.copies.take(number);
        keep_box(&mut self.spare, was);
    }

    /// The copy of an empty file, which has no block: in the box of a removed copy, or in a new one.
    pub fn empty_copy(&mut self, alloc: Global) -> Result<BoxedCopy, NoMemory>
        ensures copy { IfOk result (λ copy. copy ≡ record { blocks = []; len = 0 }) }
        ensures same { self.new ≡ self.old }
    {
        match self.spare.take() {
            Some(mut copy) => {
                copy.clear();
                Ok(copy)
            }
            None => BoxedCopy::empty(alloc),
        }
    }
}

/// Stores the box of a removed copy for reuse, if there is one.
fn keep_box(spare: &mut Option<BoxedCopy>, was: Option<BoxedCopy>) {
    if was.is_some() {
        *spare = was;
    }
}
