//! A file's bytes are brought back to the disc.
ghost use Rattle.g_online.specs.AllowedChanges.{IsAllowed};
ghost use Rattle.g_online.specs.Outcomes.{IsApplied};

use crate::change::Change;
use crate::{Online, OnlineFault};
use g_disc::Disc;
use g_name::Text;
use g_tree::NumberList;
use std::alloc::Global;

impl<D: Disc> Online<D> {
    /// Brings back the bytes of a file that are only on tape, as `Change::Bring` says. The files of `unjam` and the
    /// refusals are as for `put_file`.
    pub fn bring(
        &mut self,
        alloc: Global,
        number: u16,
        bytes: &Text,
        unjam: &NumberList,
    ) -> Result<(), OnlineFault>
        requires allowed { IsAllowed (Change.Bring number bytes.now unjam.now) self.old }
        ensures { IsApplied (Change.Bring number bytes.now unjam.now) self.old self.new result }
    {
        self.with_new_copy(alloc, number, None, bytes, unjam)
    }
}
