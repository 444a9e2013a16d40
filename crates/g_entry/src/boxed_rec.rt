//! The record of a file in a box.
ghost use Rattle.std.specs.Prelude.{◌≡◌, IfOk};

use crate::FileRec;
use g_base::NoMemory;
use std::alloc::Global;
use std::marker::Model;

/// The record of a file, in a box. Contracts see the record.
#[derive(Drop)]
pub struct BoxedRec {
    rec: Box<FileRec>,
}

impl Model for BoxedRec {
    ghost use Rattle.g_entry.specs.declared.file_rec.FileRec.{FileRec};

    ghost Value = { FileRec };

    ghost view = { λ b. b.rec.value };
}

impl BoxedRec {
    /// A new box with this record.
    pub fn new(alloc: Global, rec: FileRec) -> Result<BoxedRec, NoMemory>
        ensures { IfOk result (λ b. b ≡ rec) }
    {
        match Box::new(alloc, rec) {
            Ok(rec) => Ok(BoxedRec { rec }),
            Err(_) => Err(NoMemory),
        }
    }

    /// The record.
    pub fn get(&self) -> &FileRec
        ensures { result.now ≡ self.now }
    {
        &self.rec
    }

    /// Replaces the record in place, without allocating.
    pub fn set(&mut self, rec: FileRec)
        ensures { self.new ≡ rec }
    {
        *self.rec = rec;
    }
}
