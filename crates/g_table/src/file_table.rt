//! The records of files by their numbers.
ghost use Rattle.std.specs.Prelude.{◌≡◌, ◌<◌, ℕ, [], ◌∷◌, ◌++◌, IfOk, IfSome, IfNone, None, is_some, length, true};
ghost use Rattle.std.specs.Option.{option_copied};
ghost use Rattle.g_entry.specs.Rules.{AreNumbered};
ghost use Rattle.g_table.specs.Files.{rec_at, with_rec, without_rec};

use crate::files::Files;
use crate::number_table::NumberTable;
use g_base::NoMemory;
use g_entry::{BoxedRec, FileRec};
use std::alloc::Global;
use std::marker::Model;

/// The records of files, each in a box at the place of its number, below 1,024. Contracts see them in order of their
/// numbers.
#[derive(Drop)]
pub struct FileTable {
    records: NumberTable<BoxedRec>,
}

impl Model for FileTable {
    ghost use Rattle.std.specs.Prelude.{List, map};
    ghost use Rattle.g_entry.specs.declared.file_rec.FileRec.{FileRec};
    ghost use Rattle.g_table.specs.Files.{HaveNumbers};

    ghost Value = { List FileRec };

    ghost view = { λ t. map (λ c. c.1) t.records };

    ghost invariant = { λ t. HaveNumbers t.records };
}

impl FileTable {
    /// A table without files.
    pub fn new(alloc: Global) -> Result<FileTable, NoMemory>
        ensures { IfOk result (λ t. t ≡ []) }
    {
        Ok(FileTable {
            records: NumberTable::new(alloc)?,
        })
    }

    /// The table of these records, each in a new box.
    pub fn of(alloc: Global, files: &[FileRec]) -> Result<FileTable, NoMemory>
        requires { AreNumbered files.now }
        ensures { IfOk result (λ t. t ≡ files.now) }
    {
        let mut table = FileTable::new(alloc)?;
        for file in files {
            table.put(BoxedRec::new(alloc, file.copy())?);
        }
        Ok(table)
    }

    /// The number of files.
    pub fn len(&self) -> usize
        ensures { result ≡ length self.now }
    {
        self.records.len()
    }

    /// The record of the file of this number, if there is one.
    pub fn get(&self, number: u16) -> Option<&FileRec>
        ensures { option_copied result ≡ rec_at self.now number }
    {
        match self.records.get(number) {
            Some(boxed) => Some(boxed.get()),
            None => None,
        }
    }

    /// Stores a record at the place of its number and returns the box of the record that it replaces. It allocates
    /// nothing.
    pub fn put(&mut self, rec: BoxedRec) -> Option<BoxedRec>
        requires { rec.number < 1024 }
        ensures files { self.new ≡ with_rec rec self.old }
        ensures was { result ≡ rec_at self.old rec.number }
    {
        let number = rec.get().number;
        self.records.put(number, rec)
    }

    /// Replaces the record of this number, which must exist, in its box.
    pub fn set(&mut self, rec: FileRec)
        requires { is_some (rec_at self.old rec.number) ≡ true }
        ensures { self.new ≡ with_rec rec self.old }
    {
        self.records.set_rec(rec);
    }

    /// Removes and returns the record of this number, if there is one.
    pub fn take(&mut self, number: u16) -> Option<BoxedRec>
        requires { number < 1024 }
        ensures files { self.new ≡ without_rec number self.old }
        ensures was { result ≡ rec_at self.old number }
    {
        self.records.take(number)
    }

    /// The least number below 1,024 that no file has, if there is one.
    pub fn free(&self) -> Option<u16>
        ensures unused { IfSome result (λ number. (number < 1024)
            × (rec_at self.now number ≡ None)) }
        ensures least { IfSome result (λ number. (lower : ℕ) → lower < number
            → is_some (rec_at self.now lower) ≡ true) }
        ensures none { IfNone result (length self.now ≡ 1024) }
    {
        self.records.free()
    }

    /// The records in order of their numbers.
    pub fn iter(&self) -> Files
        ensures { result ≡ self.now }
    {
        Files::new(self.records.iter())
    }
}

impl<'a> IntoIterator for &'a FileTable {
    type Item = &'a FileRec;

    type IntoIter = Files<'a>;

    ghost into_iter_gives = { λ table it. it ≡ table.now };

    fn into_iter(self) -> Files<'a> {
        self.iter()
    }
}
