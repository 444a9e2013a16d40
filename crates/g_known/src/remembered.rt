//! A rack, and what is remembered of its reels.
ghost use Rattle.std.specs.Prelude.{◌≡◌, Err, OnErr, OnOk, false, true};
ghost use Rattle.g_tape.specs.Durable.{SecuresDurably, WritesDurably};
ghost use Rattle.g_tape.specs.Rack.{Mounting, Reading, Securing, Writing, refuses_mount, refuses_unmount};
ghost use Rattle.g_known.specs.ReelNotes.{AreKnown, Fills, HasForgotten, HasNone, HasWritten, noted};

use crate::lists::{NotedReel, forget, forget_from, notes_of, place_of};
use g_base::Block;
use g_incr::{DumpNote, ShelfFault};
use g_tape::{TapeFault, Tapes};
use std::alloc::Global;

/// A rack, and notes of the first dumps of its reels. Contracts see both here, so that they can state what remains
/// remembered; of a `KnownReels` they see only the rack.
#[derive(Drop)]
pub(crate) struct Remembered<T: Tapes> {
    pub(crate) tapes: T,
    pub(crate) known: Vec<NotedReel>,
}

impl<T: Tapes> Remembered<T> {
    /// What is remembered of the reel.
    pub(crate) fn notes(&self, serial: u32) -> &[DumpNote]
        ensures { result.now ≡ noted serial self.now.known.items }
    {
        notes_of(self.known.as_slice(), serial)
    }

    /// Reads on after what is remembered of the reel, until all its completed dumps are. What was read before a failure is
    /// remembered too, if there is memory for it. `NoTape`, `NotMounted`, `ReadFault`, `NoMemory`; the reel's content is
    /// unchanged.
    pub(crate) fn fill(&mut self, alloc: Global, serial: u32) -> Result<(), ShelfFault>
        requires known { AreKnown (T.rack self.old.tapes) self.old.known.items }
        ensures { Fills serial result (T.rack self.old.tapes) self.old.known.items (T.rack self.new.tapes) self.new.known.items }
    {
        match place_of(self.known.as_slice(), serial) {
            Some(place) => self.known[place].read_on(alloc, &mut self.tapes),
            None => self.fill_anew(alloc, serial),
        }
    }

    /// The same for a reel that has no list.
    fn fill_anew(&mut self, alloc: Global, serial: u32) -> Result<(), ShelfFault>
        requires known { AreKnown (T.rack self.old.tapes) self.old.known.items }
        requires none { HasNone serial self.old.known.items }
        ensures { Fills serial result (T.rack self.old.tapes) self.old.known.items (T.rack self.new.tapes) self.new.known.items }
    {
        let mut list = NotedReel {
            serial,
            notes: Vec::new(alloc),
        };
        let read = list.read_on(alloc, &mut self.tapes);
        match self.known.push(list) {
            Ok(()) => {}
            Err(_) => return unkept(read),
        }
        read
    }

    /// A mount forgets nothing.
    pub(crate) fn mount(&mut self, serial: u32) -> Result<(), TapeFault>
        requires known { AreKnown (T.rack self.old.tapes) self.old.known.items }
        ensures mounts { Mounting refuses_mount true serial (T.rack self.old.tapes) result (T.rack self.new.tapes) }
        ensures known { AreKnown (T.rack self.new.tapes) self.new.known.items }
        ensures same { self.new.known ≡ self.old.known }
    {
        self.tapes.mount(serial)
    }

    /// Forgets the reel, which may be a different one when it is mounted again.
    pub(crate) fn unmount(&mut self, serial: u32) -> Result<(), TapeFault>
        requires known { AreKnown (T.rack self.old.tapes) self.old.known.items }
        ensures unmounts { Mounting refuses_unmount false serial (T.rack self.old.tapes) result (T.rack self.new.tapes) }
        ensures known { AreKnown (T.rack self.new.tapes) self.new.known.items }
        ensures forgotten { HasForgotten serial self.old.known.items self.new.known.items }
    {
        forget(&mut self.known, serial);
        self.tapes.unmount(serial)
    }

    pub(crate) fn read(&mut self, serial: u32, k: u32, into: &mut Block) -> Result<(), TapeFault>
        requires known { AreKnown (T.rack self.old.tapes) self.old.known.items }
        ensures reads { Reading serial k (T.rack self.old.tapes) result into.new (T.rack self.new.tapes) }
        ensures known { AreKnown (T.rack self.new.tapes) self.new.known.items }
        ensures same { self.new.known ≡ self.old.known }
    {
        self.tapes.read(serial, k, into)
    }

    /// Always calls the device: a reel whose dumps are remembered need not be durable.
    pub(crate) fn secure(&mut self, serial: u32) -> Result<(), TapeFault>
        requires known { AreKnown (T.rack self.old.tapes) self.old.known.items }
        ensures securing { Securing serial (T.rack self.old.tapes) result (T.rack self.new.tapes) }
        ensures durable { SecuresDurably serial (T.rack self.old.tapes) result (T.rack self.new.tapes) }
        ensures known { AreKnown (T.rack self.new.tapes) self.new.known.items }
        ensures same { self.new.known ≡ self.old.known }
    {
        self.tapes.secure(serial)
    }

    /// A write into a remembered dump forgets the reel; after the remembered dumps there is nothing to forget.
    pub(crate) fn write(&mut self, serial: u32, k: u32, from: &Block) -> Result<(), TapeFault>
        requires known { AreKnown (T.rack self.old.tapes) self.old.known.items }
        ensures writes { Writing serial k from.now (T.rack self.old.tapes) result (T.rack self.new.tapes) }
        ensures durable { WritesDurably serial k from.now (T.rack self.old.tapes) result (T.rack self.new.tapes) }
        ensures known { AreKnown (T.rack self.new.tapes) self.new.known.items }
        ensures written { HasWritten serial k self.old.known.items self.new.known.items }
    {
        forget_from(&mut self.known, serial, k);
        self.tapes.write(serial, k, from)
    }
}

/// The result of a reading whose list could not be stored.
fn unkept(read: Result<(), ShelfFault>) -> Result<(), ShelfFault>
    ensures ok { OnOk read (result ≡ Err ShelfFault.NoMemory) }
    ensures err { OnErr read (result ≡ read) }
{
    match read {
        Ok(()) => Err(ShelfFault::NoMemory),
        Err(fault) => Err(fault),
    }
}
