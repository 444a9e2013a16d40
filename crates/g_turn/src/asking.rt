//! Calls to a store, and the use of their answers.
ghost use Rattle.std.specs.Prelude.{◌≡◌, ◌≤◌, ◌+◌, ◌++◌, ℕ, Err, Ok, false, IfErr, IfOk, OnErr, OnOk, if◌then◌else◌};
ghost use Rattle.g_turn.specs.Asking as asking;
ghost use Rattle.g_turn.specs.Outcomes as said;
ghost use Rattle.g_turn.specs.Steps.{IsStep, RanWell};
ghost use Rattle.g_monitor.specs.Parts.{full_text};
ghost use Rattle.g_monitor.specs.Replies.{reply_lines};
ghost use Rattle.g_plain.specs.Programs.{RanInPart, is_memory};
ghost use Rattle.g_plain.specs.Replies.{IsReplyTo};
ghost use Rattle.g_plain.specs.Rules.{IsWithinLimits};

use crate::asker::Asker;
use crate::work::Work;
use g_base::NoMemory;
use g_name::{Full, Path, Text, User};
use g_plain::{Filestore, StoreCall, StoreFault, StoreReply};
use std::alloc::Global;

/// Makes one call; its contract states what any store guarantees for the answer. Out of memory is no answer.
pub(crate) fn ask_any<S: Filestore>(
    alloc: Global,
    store: &mut S,
    who: &User,
    call: &StoreCall,
) -> Result<StoreReply, StoreFault>
    requires running { S.is_spent store.old ≡ false }
    requires limits { IsWithinLimits call.now }
    ensures granted { IfOk result (λ reply.
        IsStep S.answers S.is_spent S.can_wait who.now store.old call.now (Ok reply) store.new) }
    ensures refused { IfErr result (λ fault. is_memory fault ≡ false →
        IsStep S.answers S.is_spent S.can_wait who.now store.old call.now (Err fault) store.new) }
    ensures answers { S.answers store.old who.now call.now result store.new }
    ensures same_waits { (s : ℕ) → S.can_wait store.new s ≡ S.can_wait store.old s }
{
    store.call(alloc, who, call)
}

impl Work {
    /// A verb of one call without bytes: prints its reply.
    pub(crate) fn one_call<S: Filestore>(
        &mut self,
        store: &mut S,
        asker: &Asker<'_>,
        call: &StoreCall,
    ) -> Result<(), NoMemory>
        requires running { S.is_spent store.old ≡ false }
        requires open { said.is_over self.old ≡ false }
        requires limits { IsWithinLimits call.now }
        ensures ok { OnOk result (RanWell S.answers S.is_spent S.can_wait asker.now.who.now store.old
            (asking.one_call asker.now.room call.now self.old) self.new store.new) }
        ensures err { OnErr result (RanInPart S.answers asker.now.who.now store.old
            (asking.one_call asker.now.room call.now self.old) store.new) }
        ensures live { OnOk result (said.is_over self.new ≡ false → S.is_spent store.new ≡ false) }
        ensures same_waits { (s : ℕ) → S.can_wait store.new s ≡ S.can_wait store.old s }
        ensures blocks { OnOk result (self.new.blocks ≡ self.old.blocks) }
    {
        match ask_any(asker.alloc, store, asker.who, call) {
            Ok(reply) => self.grant(asker.alloc, asker.room, call, &reply),
            Err(StoreFault::NoMemory) => Err(NoMemory),
            Err(fault) => self.refuse(asker.alloc, asker.room, &fault),
        }
    }

    /// A call was granted: the command is done, and the reply is printed.
    fn grant(
        &mut self,
        alloc: Global,
        room: usize,
        call: &StoreCall,
        reply: &StoreReply,
    ) -> Result<(), NoMemory>
        requires open { said.is_over self.old ≡ false }
        requires kind { IsReplyTo call.now reply.now }
        ensures ok { OnOk result
            (self.new ≡ said.say_all room (reply_lines call.now reply.now) (said.done self.old)) }
        ensures blocks { OnOk result (self.new.blocks ≡ self.old.blocks) }
    {
        self.done();
        self.say_reply(alloc, room, call, reply)?;
        Ok(())
    }

    /// Writes bytes to a path. The command succeeds with them; but at the release of a unit by DELETE or at the job's end the outcome is unchanged.
    pub(crate) fn put<S: Filestore>(
        &mut self,
        store: &mut S,
        asker: &Asker<'_>,
        comes_well: bool,
        file: (Path, Text),
    ) -> Result<(), NoMemory>
        requires running { S.is_spent store.old ≡ false }
        requires few { self.old.blocks ≤ 4096 }
        ensures ok { OnOk result (RanWell S.answers S.is_spent S.can_wait asker.now.who.now store.old
            (asking.put asker.now.room comes_well file.0 file.1 self.old) self.new store.new) }
        ensures err { OnErr result (RanInPart S.answers asker.now.who.now store.old
            (asking.put asker.now.room comes_well file.0 file.1 self.old) store.new) }
        ensures live { OnOk result (said.is_over self.new ≡ false → S.is_spent store.new ≡ false) }
        ensures same_waits { (s : ℕ) → S.can_wait store.new s ≡ S.can_wait store.old s }
        ensures blocks { OnOk result (self.new.blocks ≤ self.old.blocks + 128) }
    {
        let (path, bytes) = file;
        let len = bytes.as_slice().len();
        let call = StoreCall::Put { path, bytes };
        match ask_any(asker.alloc, store, asker.who, &call) {
            Ok(reply) => match reply {
                StoreReply::Made(full) => {
                    self.done_if(comes_well);
                    self.say_handed(asker, len, b"MADE ", &full)
                }
                _ => Ok(()),
            },
            Err(StoreFault::NoMemory) => Err(NoMemory),
            Err(fault) => self.refuse(asker.alloc, asker.room, &fault),
        }
    }

    /// Appends bytes to a file.
    pub(crate) fn append<S: Filestore>(
        &mut self,
        store: &mut S,
        asker: &Asker<'_>,
        path: Path,
        bytes: Text,
    ) -> Result<(), NoMemory>
        requires running { S.is_spent store.old ≡ false }
        requires few { self.old.blocks ≤ 4096 }
        ensures ok { OnOk result (RanWell S.answers S.is_spent S.can_wait asker.now.who.now store.old
            (asking.append asker.now.room path bytes self.old) self.new store.new) }
        ensures err { OnErr result (RanInPart S.answers asker.now.who.now store.old
            (asking.append asker.now.room path bytes self.old) store.new) }
        ensures live { OnOk result (said.is_over self.new ≡ false → S.is_spent store.new ≡ false) }
        ensures same_waits { (s : ℕ) → S.can_wait store.new s ≡ S.can_wait store.old s }
        ensures blocks { OnOk result (self.new.blocks ≤ self.old.blocks + 128) }
    {
        let len = bytes.as_slice().len();
        let call = StoreCall::Append { path, bytes };
        match ask_any(asker.alloc, store, asker.who, &call) {
            Ok(reply) => match reply {
                StoreReply::Appended(full) => {
                    self.done();
                    self.say_handed(asker, len, b"APPENDED ", &full)
                }
                _ => Ok(()),
            },
            Err(StoreFault::NoMemory) => Err(NoMemory),
            Err(fault) => self.refuse(asker.alloc, asker.room, &fault),
        }
    }

    /// A granted call transferred this many bytes: their blocks count, and the file's name is printed after these words.
    fn say_handed(
        &mut self,
        asker: &Asker<'_>,
        len: usize,
        words: &[u8],
        full: &Full,
    ) -> Result<(), NoMemory>
        requires few { self.old.blocks ≤ 4096 }
        requires short { len ≤ 65536 }
        ensures ok { OnOk result (self.new ≡ said.say asker.now.room (words.now ++ full_text full.now)
            (said.with_bytes len self.old)) }
        ensures blocks { OnOk result (self.new.blocks ≤ self.old.blocks + 128) }
    {
        self.count_bytes(len);
        self.say_named(asker.alloc, asker.room, words, full)?;
        Ok(())
    }

    /// The command succeeds, if this is true.
    fn done_if(&mut self, comes_well: bool)
        ensures done { self.new ≡ (if comes_well then said.done self.old else self.old) }
        ensures blocks { self.new.blocks ≡ self.old.blocks }
    {
        if comes_well {
            self.done();
        }
    }
}
