//! A store that remembers whether it was used.
ghost use Rattle.std.specs.Prelude.{◌≡◌, false, true, is_some, option_map};
ghost use Rattle.g_tape.specs.Rack.{is_mounted, reel};
ghost use Rattle.g_dumper.specs.Steps.{stepped_of};
ghost use Rattle.g_store.specs.Dumping.{KeepsDumps, KeepsDumpsSafe, StepsAs};
ghost use Rattle.g_store.specs.Events.{StepsDump};

use g_day::Running;
use g_disc::Disc;
use g_dumper::DumpStep;
use g_name::User;
use g_plain::{Filestore, StoreCall, StoreFault, StoreReply};
use g_tape::Tapes;
use std::alloc::Global;
use std::marker::Model;

/// A store that is up, and whether a call or a dump step was made since its users were last checked, when each had an
/// account. If none was made, they needn't be checked again.
#[derive(Drop)]
pub(crate) struct Watched<D: Disc, T: Tapes> {
    pub(crate) running: Running<D, T>,
    pub(crate) asked: bool,
}

impl<D: Disc, T: Tapes> Model for Watched<D, T> {
    ghost use Rattle.g_ticks.specs.Watch.{WatchedFacts};

    ghost Value = { WatchedFacts };

    ghost view = { λ w. record { running = w.running; asked = w.asked } };
}

impl<D: Disc, T: Tapes> Watched<D, T> {
    /// Returns the store.
    pub(crate) fn taken(self) -> Running<D, T>
        ensures { result ≡ self.running }
    {
        self.running
    }

    /// The store.
    pub(crate) fn running(&self) -> &Running<D, T>
        ensures { result.now ≡ self.now.running }
    {
        &self.running
    }

    /// Whether it was used since.
    pub(crate) fn asked(&self) -> bool
        ensures { result ≡ self.now.asked }
    {
        self.asked
    }

    /// Notes that its users were checked and each has an account.
    pub(crate) fn looked(&mut self)
        ensures { self.new ≡ record self.old { asked = false } }
    {
        self.asked = false;
    }

    /// Whether a call was stopped.
    pub(crate) fn spent(&self) -> bool
        ensures { result ≡ self.now.running.spent }
    {
        self.running.spent()
    }

    /// The number of the open dump, or None if none is open.
    pub(crate) fn dump_number(&self) -> Option<u64>
        ensures { result ≡ option_map (λ d. d.plan.number) self.now.running.dump }
    {
        self.running.dump_number()
    }

    /// Whether the reel exists and is mounted.
    pub(crate) fn mounted(&self, serial: u32) -> bool
        ensures { result ≡ is_mounted (reel serial self.now.running.rack.reels) }
    {
        self.running.mounted(serial)
    }

    /// Writes the next block of the open dump to its reel.
    pub(crate) fn dump_step(&mut self) -> Result<DumpStep, StoreFault>
        requires running { self.old.running.spent ≡ false }
        requires open { is_some self.old.running.dump ≡ true }
        ensures event { StepsDump self.old.running (stepped_of result) self.new.running }
        ensures steps { StepsAs self.old.running (stepped_of result) self.new.running }
        ensures dumps { KeepsDumps self.old.running (stepped_of result) self.new.running }
        ensures safe { KeepsDumpsSafe self.old.running (stepped_of result) self.new.running }
        ensures asked { self.new.asked ≡ true }
    {
        self.asked = true;
        self.running.dump_step()
    }
}

impl<D: Disc, T: Tapes> Filestore for Watched<D, T> {
    ghost use Rattle.std.specs.Prelude.{not};
    ghost use Rattle.g_tape.specs.Rack.{is_mounted, reel};
    ghost use Rattle.g_ticks.specs.Watch.{AnswersWatched};

    ghost is_spent = { λ w. w.running.spent };

    ghost can_wait = { λ w serial. not (is_mounted (reel serial w.running.rack.reels)) };

    ghost answers = { AnswersWatched };

    fn call(
        &mut self,
        alloc: Global,
        who: &User,
        call: &StoreCall,
    ) -> Result<StoreReply, StoreFault> {
        self.asked = true;
        self.running.call(alloc, who, call)
    }

    fn spent(&self) -> bool {
        self.running.spent()
    }
}
