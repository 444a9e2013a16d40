//! Files are taken off the disc.
ghost use Rattle.std.specs.Prelude.{◌≡◌, ◌≢◌, ◌+◌, ◌<◌, All, AllPairs};
ghost use Rattle.g_blocks.specs.Pool.{HasGiven, IsTaken};
ghost use Rattle.g_dirs.specs.Directory.{copy_at};
ghost use Rattle.g_dirs.specs.Pages.{marked};
ghost use Rattle.g_online.specs.AllowedChanges.{IsAllowed};
ghost use Rattle.g_online.specs.Copies.{without_copies, without_copy};
ghost use Rattle.g_online.specs.Outcomes.{IsApplied};
ghost use Rattle.g_online.specs.Invariant.{copy_places};
ghost use Rattle.g_online.specs.Unloading.{MarksFiles, places_off};

use crate::change::Change;
use crate::commit::commit;
use crate::erase::give_unless;
use crate::records::kept_head;
use crate::{Online, OnlineFault};
use g_base::FIRST_FILE_BLOCK;
use g_blocks::Pool;
use g_dirs::{CopyTable, Pages};
use g_disc::Disc;
use g_tree::NumberList;

impl<D: Disc> Online<D> {
    /// Takes files that have copies on tape off the disc, as `Change::Unload` says.
    pub fn unload(&mut self, numbers: &NumberList) -> Result<(), OnlineFault>
        requires allowed { IsAllowed (Change.Unload numbers.now) self.old }
        ensures { IsApplied (Change.Unload numbers.now) self.old self.new result }
    {
        let pinned = self.pins.is_some();
        self.head = kept_head(&self.head, pinned);
        self.pages.changed(0);
        take_off(
            &mut self.pool,
            &mut self.pages,
            &mut self.online,
            numbers.as_slice(),
        );
        commit(
            &mut self.disc,
            &mut self.slots,
            &mut self.pages,
            &mut self.live,
            &self.head,
            &self.tree,
            &self.online,
            &mut self.writer,
        )
    }
}

/// Removes the copies of these files from the list, frees their blocks and marks their records.
pub(crate) fn take_off(pool: &mut Pool, pages: &mut Pages, online: &mut CopyTable, numbers: &[u16])
    requires once { AllPairs (λ m n. m ≢ n) numbers.now }
    requires below { All (λ n. n < 1024) numbers.now }
    requires apart { AllPairs (λ j k. j ≢ k) (places_off numbers.now online.old) }
    requires taken { All (IsTaken pool.old) (places_off numbers.now online.old) }
    ensures copies { online.new ≡ without_copies numbers.now online.old }
    ensures blocks { HasGiven (places_off numbers.now online.old) pool.old pool.new }
    ensures marks { MarksFiles numbers.now pages.old pages.new }
{
    for number in numbers {
        take_one_off(pool, pages, online, *number);
    }
}

/// Does so for one file.
fn take_one_off(pool: &mut Pool, pages: &mut Pages, online: &mut CopyTable, number: u16)
    requires below { number < 1024 }
    requires apart { AllPairs (λ j k. j ≢ k) (copy_places (copy_at online.old number)) }
    requires taken { All (IsTaken pool.old) (copy_places (copy_at online.old number)) }
    ensures copies { online.new ≡ without_copy number online.old }
    ensures blocks { HasGiven (copy_places (copy_at online.old number)) pool.old pool.new }
    ensures marks { pages.new ≡ marked (64 + number) pages.old }
{
    give_unless(false, pool, online.get(number));
    online.forget(number);
    pages.changed(FIRST_FILE_BLOCK + u32::from(number));
}
