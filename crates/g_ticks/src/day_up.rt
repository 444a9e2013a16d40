//! What a run has at hand while its system is up.
ghost use Rattle.std.specs.Prelude.{◌≡◌, false, OnOk};
ghost use Rattle.g_day.specs.Opening.{Opens};
ghost use Rattle.g_day.specs.Parts.{seen};
ghost use Rattle.g_day.specs.System.{facts_of};
ghost use Rattle.g_ticks.specs.Turning.{left_of};
ghost use Rattle.g_ticks.specs.Watch.{HaveAll};

use crate::watched::Watched;
use g_base::NoMemory;
use g_day::{Day, Ended, Failure, Running, System, take_down};
use g_disc::Disc;
use g_job_table::Crew;
use g_tape::Tapes;

/// A day whose system was up when a tick began: its store, the crew and the count of ticks. A tick changes it in place. If
/// its store was stopped the system counts as down from then on (docs/DEFINITIONS.md, "g_day"), and the devices are
/// taken out of the store after the last tick.
#[derive(Drop)]
pub(crate) struct DayUp<D: Disc, T: Tapes> {
    pub(crate) store: Watched<D, T>,
    pub(crate) crew: Crew,
    pub(crate) count: u64,
}

impl<D: Disc, T: Tapes> DayUp<D, T> {
    /// The day after its ticks, and why a run ends there, if it does.
    pub(crate) fn ended(self, failure: Option<Failure>) -> Ended<D, T>
        ensures day { result.day ≡ seen (left_of self.store.running) self.crew self.count }
        ensures failure { result.failure ≡ failure }
    {
        let DayUp { store, crew, count } = self;
        let system = left_of(store.taken());
        let day = Day {
            system,
            crew,
            count,
        };
        Ended { day, failure }
    }

    /// Opens accounts for users who have none, if there may be some: a call may have created them.
    pub(crate) fn open_accounts(&mut self) -> Result<(), NoMemory>
        requires running { self.old.store.running.spent ≡ false }
        requires accounts { HaveAll self.old.store self.old.crew }
        ensures opens { OnOk result (Opens self.old.store.running.online.contents.users self.old.crew self.new.crew) }
        ensures accounts { OnOk result (HaveAll self.new.store self.new.crew) }
        ensures store { self.new.store.running ≡ self.old.store.running }
        ensures count { self.new.count ≡ self.old.count }
    {
        if self.store.asked() {
            self.open_each()
        } else {
            Ok(())
        }
    }

    /// Does so if there may be such users.
    pub(crate) fn open_each(&mut self) -> Result<(), NoMemory>
        requires running { self.old.store.running.spent ≡ false }
        ensures opens { OnOk result (Opens self.old.store.running.online.contents.users self.old.crew self.new.crew) }
        ensures accounts { OnOk result (HaveAll self.new.store self.new.crew) }
        ensures store { self.new.store.running ≡ self.old.store.running }
        ensures count { self.new.count ≡ self.old.count }
    {
        match self.crew.open_accounts(self.store.running().users()) {
            Ok(()) => {
                self.store.looked();
                Ok(())
            }
            Err(NoMemory) => Err(NoMemory),
        }
    }
}

/// The system of a store that may have been stopped.
fn left_of<D: Disc, T: Tapes>(store: Running<D, T>) -> System<D, T>
    ensures { facts_of D.state T.rack result ≡ left_of store }
{
    if store.spent() {
        let (disc, tapes) = take_down(store);
        System::Down(disc, tapes)
    } else {
        System::Up(store)
    }
}
