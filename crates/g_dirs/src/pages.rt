//! The slot blocks that are remembered from commit to commit, so that no block is rewritten with the same content.
ghost use Rattle.std.specs.Prelude.{◌≡◌, ◌≢◌, ◌<◌, ◌≤◌, ◌↔◌, IfOk, IsTrue, List, None, replicate, true, ℕ};
ghost use Rattle.g_base.specs.Fields.{padded};
ghost use Rattle.g_entry.specs.declared.format.Format.TheVariants.{Two};
ghost use Rattle.g_slots.specs.declared.side.Side.{Side};
ghost use Rattle.g_dirs.specs.Directory.{Directory};
ghost use Rattle.g_dirs.specs.Image.{block_of};
ghost use Rattle.g_dirs.specs.Marks.{IsNext};
ghost use Rattle.g_dirs.specs.Pages.{Covers, LosesMarks, Remembers, RemembersPage, all_marked, is_remembered, marked, marks_of, nothing, pages_of};
ghost use Rattle.g_dirs.specs.Writing.{IsEncodable};

use crate::Listing;
use crate::known::RememberedBlocks;
use crate::marks::Marks;
use g_base::{BlockWriter, NoMemory};
use g_slots::Side;
use std::alloc::Global;
use std::marker::Model;

/// The content of each of the 1,088 blocks of either slot, if a commit since this was made has written it, and a
/// mark at each block that may differ from that of the directory in memory (docs/FORMATS.md has the blocks by number).
/// Contracts see two lists for each slot.
#[derive(Drop)]
pub struct Pages {
    a: RememberedBlocks,
    b: RememberedBlocks,
    marks_a: Marks,
    marks_b: Marks,
}

impl Model for Pages {
    ghost use Rattle.g_dirs.specs.Pages.{Remembered};

    ghost Value = { Remembered };

    ghost view = { λ p. record { a = p.a; b = p.b; marks_a = p.marks_a; marks_b = p.marks_b } };
}

impl Pages {
    /// Nothing is remembered, and all blocks are marked.
    pub fn new(alloc: Global) -> Result<Pages, NoMemory>
        ensures nothing { IfOk result (λ pages. pages ≡ nothing) }
        ensures stands { IfOk result (λ pages. (blocks : List (List ℕ)) → Remembers pages blocks) }
    {
        Ok(Pages {
            a: RememberedBlocks::nothing(alloc)?,
            b: RememberedBlocks::nothing(alloc)?,
            marks_a: Marks::new(alloc)?,
            marks_b: Marks::new(alloc)?,
        })
    }

    /// Marks block `k` of both slots: its record has changed since the last commit.
    pub fn changed(&mut self, k: u32)
        requires { k < 1088 }
        ensures marks { self.new ≡ marked k self.old }

        // If all changes of a directory were marked, so are those of one that differs from it only in this block.
        ensures covers { (side : Side) (d e : Directory) → Covers d side self.old
            → ((j : ℕ) → j ≢ k → block_of Two e j ≡ block_of Two d j) → Covers e side self.new }
        ensures remembers { (blocks : List (List ℕ)) → Remembers self.old blocks → Remembers self.new blocks }
    {
        self.marks_a.set(k);
        self.marks_b.set(k);
    }

    /// Marks all blocks of both slots.
    pub fn all_changed(&mut self)
        ensures marks { self.new ≡ all_marked self.old }
        ensures covers { (side : Side) (d : Directory) → Covers d side self.new }
        ensures remembers { (blocks : List (List ℕ)) → Remembers self.old blocks → Remembers self.new blocks }
    {
        self.marks_a.set_all();
        self.marks_b.set_all();
    }

    /// Whether each unmarked block of a slot is remembered as this directory's, that is, whether all changes were marked. It
    /// compares all blocks.
    pub fn covers(&self, side: Side, listing: &Listing) -> bool
        requires { IsEncodable listing.now }
        ensures { IsTrue result ↔ Covers listing.now side self.now }
    {
        for k in 0..1088 {
            if self.next_marked(side, k) != k && !self.is_remembered(side, k, &listing.written(k)) {
                return false;
            }
        }
        true
    }

    /// The first marked block of a slot from `k` on, or 1,088.
    pub(crate) fn next_marked(&self, side: Side, k: u32) -> u32
        requires { k ≤ 1088 }
        ensures { IsNext (marks_of side self.now) k result }
    {
        match side {
            Side::A => self.marks_a.next(k),
            Side::B => self.marks_b.next(k),
        }
    }

    /// Clears the marks of a slot.
    pub(crate) fn clear(&mut self, side: Side)
        ensures { LosesMarks side self.old self.new }
    {
        match side {
            Side::A => self.marks_a.clear(),
            Side::B => self.marks_b.clear(),
        }
    }

    /// Whether block `k` of a slot is remembered as the one of this writer.
    pub(crate) fn is_remembered(&self, side: Side, k: u32, writer: &BlockWriter) -> bool
        requires { k < 1088 }
        ensures { result ≡ is_remembered (pages_of side self.now) k (padded 512 writer.now) }
    {
        match side {
            Side::A => self.a.holds(k, writer),
            Side::B => self.b.holds(k, writer),
        }
    }

    /// Block `k` of a slot now holds the one of this writer.
    pub(crate) fn remember(&mut self, side: Side, k: u32, writer: &BlockWriter)
        requires { k < 1088 }
        ensures { RemembersPage side k (padded 512 writer.now) self.old self.new }
    {
        match side {
            Side::A => self.a.set(k, writer),
            Side::B => self.b.set(k, writer),
        }
    }
}
