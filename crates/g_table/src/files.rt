//! Iterates over the records of files.
ghost use Rattle.std.specs.Prelude.{◌≡◌};
ghost use Rattle.std.specs.Iterator.{YieldsFirstRef, YieldsLastRef, item_count};

use crate::iter::Iter;
use g_entry::{BoxedRec, FileRec};
use std::marker::Model;

/// The records of files, one at a time. Contracts see the remaining ones.
#[derive(Drop)]
pub struct Files<'a> {
    records: Iter<'a, BoxedRec>,
}

impl<'a> Model for Files<'a> {
    ghost use Rattle.std.specs.Prelude.{List};
    ghost use Rattle.g_entry.specs.declared.file_rec.FileRec.{FileRec};

    ghost Value = { List FileRec };

    ghost view = { λ it. it.records };
}

impl<'a> Files<'a> {
    pub(crate) fn new(records: Iter<'a, BoxedRec>) -> Files<'a>
        ensures { result ≡ records.entry }
    {
        Files { records }
    }
}

impl<'a> Iterator for Files<'a> {
    type Item = &'a FileRec;

    ghost next_gives = { YieldsFirstRef (λ it. it) };

    ghost remaining = { item_count (λ it. it) };

    fn next(&mut self) -> Option<&'a FileRec> {
        match self.records.next() {
            Some(boxed) => Some(boxed.get()),
            None => None,
        }
    }
}

impl<'a> DoubleEndedIterator for Files<'a> {
    ghost next_back_gives = { YieldsLastRef (λ it. it) };

    fn next_back(&mut self) -> Option<&'a FileRec> {
        match self.records.next_back() {
            Some(boxed) => Some(boxed.get()),
            None => None,
        }
    }
}
