//! Macros: searching and calling them.
ghost use Rattle.std.specs.Prelude.{◌≡◌, ◌≤◌, ◌+◌, ℕ, false, length, OnErr, OnOk};
ghost use Rattle.g_turn.specs.Macros as macros;
ghost use Rattle.g_turn.specs.Outcomes as said;
ghost use Rattle.g_turn.specs.Steps.{RanWell};
ghost use Rattle.g_name.specs.declared.path.Path.{Path};
ghost use Rattle.g_plain.specs.Programs.{RanInPart};
ghost use Rattle.g_trap.specs.declared.mode_set.Mode.TheVariants as mode;
ghost use Rattle.g_plain.specs.declared.calls.StoreCall.TheVariants as call;

use crate::asker::Asker;
use crate::asking::ask_any;
use crate::work::Work;
use g_base::NoMemory;
use g_lang::Params;
use g_lines::Document;
use g_macro::MacroFault;
use g_monitor::CommandError;
use g_name::{Local, Path, User};
use g_plain::{Filestore, StoreCall, StoreFault, StoreReply};
use g_trap::Mode;
use std::alloc::Global;

/// The call that searches a macro: in this user's directory, or in the caller's.
fn look_for(user: Option<User>, name: &Local) -> StoreCall
    ensures { result ≡ call.Fetch (macros.macro_path user name.now) mode.Execute }
{
    StoreCall::Fetch {
        path: Path {
            user,
            local: name.copy(),
            generation: None,
            lang: None,
        },
        mode: Mode::Execute,
    }
}

impl Work {
    /// Searches a macro in the job's own directory, then in that of MACROS, and calls it.
    pub(crate) fn look_up<S: Filestore>(
        &mut self,
        store: &mut S,
        asker: &Asker<'_>,
        name: &Local,
        params: Params,
    ) -> Result<(), NoMemory>
        requires running { S.is_spent store.old ≡ false }
        requires few { self.old.blocks ≤ 4096 }
        requires params { length params ≤ 24 }
        ensures ok { OnOk result (RanWell S.answers S.is_spent S.can_wait asker.now.who.now store.old
            (macros.look_up asker.now.room name.now params self.old) self.new store.new) }
        ensures err { OnErr result (RanInPart S.answers asker.now.who.now store.old
            (macros.look_up asker.now.room name.now params self.old) store.new) }
        ensures live { OnOk result (said.is_over self.new ≡ false → S.is_spent store.new ≡ false) }
        ensures same_waits { (s : ℕ) → S.can_wait store.new s ≡ S.can_wait store.old s }
        ensures blocks { OnOk result (self.new.blocks ≤ self.old.blocks + 128) }
    {
        let call = look_for(None, name);
        match ask_any(asker.alloc, store, asker.who, &call) {
            Ok(reply) => match reply {
                StoreReply::Bytes { bytes, .. } => {
                    match self.call_macro(asker.alloc, asker.room, params, bytes.as_slice()) {
                        Ok(()) => Ok(()),
                        Err(NoMemory) => Err(NoMemory),
                    }
                }
                _ => Ok(()),
            },
            Err(StoreFault::NoMemory) => Err(NoMemory),
            Err(fault) => match fault {
                StoreFault::NoFile => self.look_up_shared(store, asker, name, params),
                other => self.refuse(asker.alloc, asker.room, &other),
            },
        }
    }

    /// Searches a macro in the directory of MACROS, and calls it.
    fn look_up_shared<S: Filestore>(
        &mut self,
        store: &mut S,
        asker: &Asker<'_>,
        name: &Local,
        params: Params,
    ) -> Result<(), NoMemory>
        requires running { S.is_spent store.old ≡ false }
        requires few { self.old.blocks ≤ 4096 }
        requires params { length params ≤ 24 }
        ensures ok { OnOk result (RanWell S.answers S.is_spent S.can_wait asker.now.who.now store.old
            (macros.look_up_shared asker.now.room name.now params self.old) self.new store.new) }
        ensures err { OnErr result (RanInPart S.answers asker.now.who.now store.old
            (macros.look_up_shared asker.now.room name.now params self.old) store.new) }
        ensures live { OnOk result (said.is_over self.new ≡ false → S.is_spent store.new ≡ false) }
        ensures same_waits { (s : ℕ) → S.can_wait store.new s ≡ S.can_wait store.old s }
        ensures blocks { OnOk result (self.new.blocks ≤ self.old.blocks + 128) }
    {
        let call = look_for(Some(User::macros()), name);
        match ask_any(asker.alloc, store, asker.who, &call) {
            Ok(reply) => match reply {
                StoreReply::Bytes { bytes, .. } => {
                    match self.call_macro(asker.alloc, asker.room, params, bytes.as_slice()) {
                        Ok(()) => Ok(()),
                        Err(NoMemory) => Err(NoMemory),
                    }
                }
                _ => Ok(()),
            },
            Err(StoreFault::NoMemory) => Err(NoMemory),
            Err(fault) => match fault {
                StoreFault::NoFile => self.in_error(
                    asker.alloc,
                    asker.room,
                    CommandError::UnknownVerb,
                ),
                other => self.refuse(asker.alloc, asker.room, &other),
            },
        }
    }

    /// Pushes a level with the lines of a macro; the blocks of its bytes count.
    fn call_macro(
        &mut self,
        alloc: Global,
        room: usize,
        params: Params,
        bytes: &[u8],
    ) -> Result<(), NoMemory>
        requires few { self.old.blocks ≤ 4096 }
        requires params { length params ≤ 24 }
        requires short { length bytes.now ≤ 65536 }
        ensures ok { OnOk result (self.new ≡ macros.macro_called room params bytes.now
            (said.with_bytes (length bytes.now) self.old)) }
        ensures blocks { OnOk result (self.new.blocks ≤ self.old.blocks + 128) }
    {
        self.count_bytes(bytes.len());
        let lines = Document::of_text(alloc, bytes)?;
        let texts = params.list(alloc)?;
        match self.levels.call(alloc, lines, texts) {
            Ok(()) => {
                self.done();
                Ok(())
            }
            Err(MacroFault::TooDeep) => self.in_error(alloc, room, CommandError::TooDeep),
            Err(_) => Err(NoMemory),
        }
    }
}
