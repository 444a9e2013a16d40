//! A copy on disc in a box.
ghost use Rattle.std.specs.Prelude.{◌≡◌, ◌≤◌, IfOk, []};
ghost use Rattle.g_blocks.specs.Pool.{AreLeastFree, HasTaken, free_count};

use g_base::{BlockList, NoMemory};
use g_blocks::Pool;
use g_copy::DiscCopy;
use std::alloc::Global;
use std::marker::Model;

/// Where the bytes of a file lie, in a box with room for the number of the file. Contracts see the copy.
#[derive(Drop)]
pub struct BoxedCopy {
    it: Box<(u16, DiscCopy)>,
}

impl Model for BoxedCopy {
    ghost use Rattle.g_copy.specs.declared.copy.DiscCopy.{DiscCopy};

    ghost Value = { DiscCopy };

    ghost view = { λ b. b.it.value.1 };
}

/// The number of a file and where its bytes lie, in a box: in a list of copies only pointers move. Contracts see the pair.
#[derive(Drop)]
pub struct FileCopy {
    it: Box<(u16, DiscCopy)>,
}

impl Model for FileCopy {
    ghost use Rattle.std.specs.Prelude.{ℕ};
    ghost use Rattle.g_copy.specs.declared.copy.DiscCopy.{DiscCopy};

    ghost Value = { ℕ × DiscCopy };

    ghost view = { λ c. c.it.value };
}

impl BoxedCopy {
    /// This copy in a box of its own.
    pub fn new(alloc: Global, copy: DiscCopy) -> Result<BoxedCopy, NoMemory>
        ensures { IfOk result (λ b. b ≡ copy) }
    {
        match Box::new(alloc, (0, copy)) {
            Ok(it) => Ok(BoxedCopy { it }),
            Err(_) => Err(NoMemory),
        }
    }

    /// The copy of an empty file, which has no block.
    pub fn empty(alloc: Global) -> Result<BoxedCopy, NoMemory>
        ensures { IfOk result (λ b. b ≡ record { blocks = []; len = 0 }) }
    {
        let copy = DiscCopy {
            blocks: BlockList::new(),
            len: 0,
        };
        BoxedCopy::new(alloc, copy)
    }

    /// The copy.
    pub fn get(&self) -> &DiscCopy
        ensures { result.now ≡ self.now }
    {
        &self.it.1
    }

    /// Makes an empty copy one of `len` bytes in place, in the n lowest free blocks of the pool.
    pub fn take_blocks(&mut self, pool: &mut Pool, n: u32, len: u32)
        requires empty { self.old.blocks ≡ [] }
        requires few { n ≤ 128 }
        requires room { n ≤ free_count pool.old }
        ensures least { AreLeastFree pool.old n self.new.blocks }
        ensures taken { HasTaken self.new.blocks pool.old pool.new }
        ensures len { self.new.len ≡ len }
    {
        pool.take_into(n, &mut self.it.1.blocks);
        self.it.1.len = len;
    }

    /// Makes it the copy of an empty file.
    pub(crate) fn clear(&mut self)
        ensures { self.new ≡ record { blocks = []; len = 0 } }
    {
        self.it.1.blocks.clear();
        self.it.1.len = 0;
    }

    /// The copy as that of the file of this number. It allocates no memory.
    pub fn of_file(self, number: u16) -> FileCopy
        ensures { result ≡ (number, self) }
    {
        let mut it = self.it;
        it.0 = number;
        FileCopy { it }
    }
}

impl FileCopy {
    /// The number of the file.
    pub fn number(&self) -> u16
        ensures { result ≡ self.now.0 }
    {
        self.it.0
    }

    /// The copy.
    pub fn get(&self) -> &DiscCopy
        ensures { result.now ≡ self.now.1 }
    {
        &self.it.1
    }

    /// The copy without the number. It allocates no memory.
    pub(crate) fn into_copy(self) -> BoxedCopy
        ensures { result ≡ self.1 }
    {
        BoxedCopy { it: self.it }
    }
}
