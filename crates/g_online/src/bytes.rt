//! The bytes of a file that is on the disc, in full or block by block.
ghost use Rattle.std.specs.Prelude.{◌≡◌, ◌⊎◌, ◌<◌, true, Contains, Err, IfErr, IfOk, OnErr, OnOk, length, slice_get};
ghost use Rattle.std.specs.Option.{ForSome};
ghost use Rattle.g_base.specs.Block.{blocks_for};
ghost use Rattle.g_disc.specs.Disc.{ReadsByCause};
ghost use Rattle.g_dirs.specs.Directory.{copy_at};
ghost use Rattle.g_disc_contents.specs.Contents.{File};
ghost use Rattle.g_disc_contents.specs.Facts.{IsTied};
ghost use Rattle.g_disc_contents.specs.Parts.{IsPart};
ghost use Rattle.g_online.specs.Invariant.{copy_places};

use crate::{Online, OnlineFault};
use g_base::Block;
use g_copy::{CopyFault, read_copy};
use g_dirs::CopyTable;
use g_disc::Disc;
use g_name::Text;
use std::alloc::Global;

impl<D: Disc> Online<D> {
    /// Returns the bytes of the file of this number, read from the disc. An empty file causes no read. Only the count of
    /// failed reads may change.
    pub fn bytes(&mut self, alloc: Global, number: u16) -> Result<Text, OnlineFault>
        requires live { self.old.live ≡ true }
        requires online { (f : File) × Contains self.old.contents.files f
            × (f.rec.number ≡ number) × (f.online ≡ true) }
        ensures text { IfOk result (λ text. (f : File) → Contains self.old.contents.files f
            → f.rec.number ≡ number
            → ForSome f.bytes (λ bytes. text ≡ bytes) × (length text ≡ f.rec.len)) }
        ensures same { self.new ≡ record self.old { disc = self.new.disc } }
        ensures reads { ReadsByCause (result ≡ Err OnlineFault.ReadFault) self.old.disc self.new.disc }
        ensures filled { result ≡ Err OnlineFault.ReadFault → (f : File) → Contains self.old.contents.files f
            → f.rec.number ≡ number → 0 < f.rec.len }
        ensures tied { IsTied self.new }
        ensures only { IfErr result (λ e. (e ≡ OnlineFault.ReadFault) ⊎ (e ≡ OnlineFault.NoMemory)) }
    {
        let Some(copy) = self.online.get(number) else {
            unreachable!()
        };
        if copy.len == 0 {
            return Ok(Text::from(Vec::new(alloc)));
        }
        match read_copy(alloc, &mut self.disc, copy) {
            Ok(text) => Ok(text),
            Err(CopyFault::ReadFault) => Err(OnlineFault::ReadFault),
            Err(_) => Err(OnlineFault::NoMemory),
        }
    }

    /// Reads block `part` of the file of this number, counted from 0. The file must be on the disc and have that block. The
    /// bytes of `into` after the end of the file are unspecified. Only the count of failed reads may change. On `ReadFault`
    /// the contents of `into` are unspecified.
    pub fn file_block(
        &mut self,
        number: u16,
        part: u32,
        into: &mut Block,
    ) -> Result<(), OnlineFault>
        requires live { self.old.live ≡ true }
        requires there { (f : File) × Contains self.old.contents.files f × (f.rec.number ≡ number)
            × (f.online ≡ true) × (part < blocks_for f.rec.len) }
        ensures block { OnOk result ((f : File) → Contains self.old.contents.files f
            → f.rec.number ≡ number → ForSome f.bytes (λ text. IsPart text part into.new)) }
        ensures same { self.new ≡ record self.old { disc = self.new.disc } }
        ensures reads { ReadsByCause (result ≡ Err OnlineFault.ReadFault) self.old.disc self.new.disc }
        ensures tied { IsTied self.new }
        ensures only { OnErr result (result ≡ Err OnlineFault.ReadFault) }
    {
        let Some(place) = place_of_part(&self.online, number, part) else {
            unreachable!()
        };
        match self.disc.read(place, into) {
            Ok(()) => Ok(()),
            Err(_) => Err(OnlineFault::ReadFault),
        }
    }
}

/// Where block `part` of the file of this number lies.
fn place_of_part(online: &CopyTable, number: u16, part: u32) -> Option<u32>
    ensures { result ≡ slice_get (copy_places (copy_at online.now number)) part }
{
    match online.get(number) {
        Some(copy) => copy.blocks.as_slice().get(part as usize).copied(),
        None => None,
    }
}
