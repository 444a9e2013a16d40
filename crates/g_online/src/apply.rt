//! Any change of the filestore.
ghost use Rattle.g_online.specs.AllowedChanges.{IsAllowed};
ghost use Rattle.g_online.specs.Outcomes.{IsApplied};

use crate::change::Change;
use crate::{Online, OnlineFault};
use g_disc::Disc;
use std::alloc::Global;

impl<D: Disc> Online<D> {
    /// Makes this change, which is on the disc completely or not at all. `Stopped`: a write failed, and only `arm` and
    /// `into_disc` may be called afterwards. `DiscFull`: too few blocks would be free. `NoMemory`: enough blocks would be
    /// free, but memory ran out. `SetUser`, `EraseFile`, `Unload` and `SetIntent` allocate nothing and never return it.
    /// After `DiscFull` and `NoMemory` nothing has changed.
    pub fn apply(&mut self, alloc: Global, change: &Change) -> Result<(), OnlineFault>
        requires allowed { IsAllowed change.now self.old }
        ensures { IsApplied change.now self.old self.new result }
    {
        match change {
            Change::AddUser(user) => self.add_user(user),
            Change::SetUser(user) => self.set_user(user),
            Change::PutFile { rec, bytes, unjam } => {
                self.put_file(alloc, rec.copy(), bytes, unjam)
            }
            Change::SetFile(rec) => self.set_file(rec.copy()),
            Change::EraseFile(number) => self.erase_file(*number),
            Change::Unload(numbers) => self.unload(numbers),
            Change::Bring {
                number,
                bytes,
                unjam,
            } => self.bring(alloc, *number, bytes, unjam),
            Change::SetIntent(intent) => self.set_intent(*intent),
            Change::Adopt { last, copies } => self.adopt(alloc, *last, copies),
        }
    }
}
