//! A file is erased.
ghost use Rattle.std.specs.Prelude.{◌≡◌, ◌≢◌, All, AllPairs, false};
ghost use Rattle.std.specs.Option.{option_copied};
ghost use Rattle.g_blocks.specs.Pool.{IsTaken};
ghost use Rattle.g_online.specs.AllowedChanges.{IsAllowed};
ghost use Rattle.g_online.specs.Outcomes.{IsApplied};
ghost use Rattle.g_online.specs.Invariant.{GivesUnless, copy_places, is_pinned};

use crate::change::Change;
use crate::commit::commit;
use crate::pin_list::PinList;
use crate::records::{kept_head, mark_user_changed};
use crate::{Online, OnlineFault};
use g_base::FIRST_FILE_BLOCK;
use g_blocks::Pool;
use g_copy::DiscCopy;
use g_disc::Disc;

impl<D: Disc> Online<D> {
    /// Erases a file and frees its blocks unless its version is pinned, as `Change::EraseFile` says.
    pub fn erase_file(&mut self, number: u16) -> Result<(), OnlineFault>
        requires allowed { IsAllowed (Change.EraseFile number) self.old }
        ensures { IsApplied (Change.EraseFile number) self.old self.new result }
    {
        let Some(file) = self.tree.file_at(number) else {
            unreachable!()
        };
        let owner = file.owner;
        let keeps = is_kept(&self.pins, file.stamp);
        let pinned = self.pins.is_some();
        give_unless(keeps, &mut self.pool, self.online.get(number));
        self.online.forget(number);
        self.head = kept_head(&self.head, pinned);
        self.pages.changed(0);
        self.tree.erase(number);
        self.pages.changed(FIRST_FILE_BLOCK + u32::from(number));
        mark_user_changed(&mut self.changed, &mut self.touched, pinned, owner);
        commit(
            &mut self.disc,
            &mut self.slots,
            &mut self.pages,
            &mut self.live,
            &self.head,
            &self.tree,
            &self.online,
            &mut self.writer,
        )
    }
}

/// Whether the version of this stamp is pinned, so that its blocks stay.
pub(crate) fn is_kept(pins: &Option<PinList>, stamp: u64) -> bool
    ensures { result ≡ is_pinned pins.now stamp }
{
    match pins {
        Some(pins) => pins.has(stamp),
        None => false,
    }
}

/// Returns the blocks of a copy to the pool, unless they must stay.
pub(crate) fn give_unless(keeps: bool, pool: &mut Pool, copy: Option<&DiscCopy>)
    requires apart { keeps ≡ false → AllPairs (λ j k. j ≢ k) (copy_places (option_copied copy)) }
    requires taken { keeps ≡ false → All (IsTaken pool.old) (copy_places (option_copied copy)) }
    ensures { GivesUnless keeps (copy_places (option_copied copy.entry)) pool.old pool.new }
{
    if keeps {
        return;
    }
    match copy {
        Some(copy) => pool.give(copy.blocks.as_slice()),
        None => pool.give(&[]),
    }
}
