//! New bytes: they find room and are written without touching anything that the disc holds. Only then does a commit name
//! them.
ghost use Rattle.std.specs.Prelude.{◌≡◌, ◌≢◌, ◌⊎◌, ◌↔◌, ◌+◌, ◌<◌, ◌≤◌, ◌^◌, All, AllPairs, Err, IfErr, IfOk, IfSome, IsErrOf, Ok, OnErr, OnOk, [], false, length, true};
ghost use Rattle.std.specs.Option.{ForSome, option_copied};
ghost use Rattle.std.specs.FinMap as finmap;
ghost use Rattle.g_base.specs.Block as block;
ghost use Rattle.g_blocks.specs.Pool.{AreLeastFree, HasGiven, HasTaken, IsFree, IsTaken, free_count};
ghost use Rattle.g_copy.specs.Copy.{IsCopy};
ghost use Rattle.g_disc.specs.Disc.{WritesOnly};
ghost use Rattle.g_entry.specs.declared.format.Format.TheVariants.{Two};
ghost use Rattle.g_tree.specs.Records.{IsRecords, by_number};
ghost use Rattle.g_tree.specs.State.{with_file};
ghost use Rattle.g_dirs.specs.Directory.{AreCopies, AreRecords, IsDirectory, copy_at, directory_of};
ghost use Rattle.g_dirs.specs.Pages.{marked};
ghost use Rattle.g_online.specs.AllowedChanges.{IsAllowed};
ghost use Rattle.g_online.specs.Commit.{IsMarked};
ghost use Rattle.g_online.specs.Copies.{with_copy_at, without_copies, without_copy};
ghost use Rattle.g_online.specs.Outcomes.{IsApplied};
ghost use Rattle.g_online.specs.Invariant.{AreWhole, GivesUnless, copy_places, head_after};
ghost use Rattle.g_online.specs.Unloading.{MarksFiles, places_off};
ghost use Rattle.g_online.specs.NewBytes.{IsUntouched, TakesBeside, TakesFilesOff, WritingStopped, WroteBytes, is_pinned_at, noted_for, recs_with, stamped, users_with, with_bytes};

use crate::change::Change;
use crate::commit::commit;
use crate::erase::{give_unless, is_kept};
use crate::numbers::UserNumbers;
use crate::pin_list::PinList;
use crate::records::{kept_head, mark_user_changed};
use crate::{Online, OnlineFault};
use g_base::{BlockWriter, FIRST_FILE_BLOCK, blocks_for};
use g_blocks::Pool;
use g_copy::{DiscCopy, write_copy};
use g_dirs::{BoxedCopy, CopyTable, Pages};
use g_disc::Disc;
use g_entry::{FileRec, Head};
use g_name::Text;
use g_slots::Slots;
use g_tree::{NumberList, Tree};
use std::alloc::Global;

impl<D: Disc> Online<D> {
    /// Adds a new version, under a new number or in place of the file of its number, as `Change::PutFile` says. The files
    /// of `unjam` are taken off the disc first, by a commit of their own. Blocks and memory are reserved before anything is
    /// written, so a refusal leaves everything unchanged. `DiscFull` is returned if and only if too few blocks would be
    /// free.
    pub fn put_file(
        &mut self,
        alloc: Global,
        rec: FileRec,
        bytes: &Text,
        unjam: &NumberList,
    ) -> Result<(), OnlineFault>
        requires allowed { IsAllowed (Change.PutFile rec bytes.now unjam.now) self.old }
        ensures { IsApplied (Change.PutFile rec bytes.now unjam.now) self.old self.new result }
    {
        let number = rec.number;
        self.with_new_copy(alloc, number, Some(rec), bytes, unjam)
    }

    /// Writes bytes into blocks of their own and makes them those of the file of this number: of the version of this
    /// record, or, without a record, of the version whose bytes are only on tape. `Change::PutFile` and `Change::Bring` say
    /// what it does.
    pub(crate) fn with_new_copy(
        &mut self,
        alloc: Global,
        number: u16,
        rec: Option<FileRec>,
        bytes: &Text,
        unjam: &NumberList,
    ) -> Result<(), OnlineFault>
        requires number { IfSome rec (λ r. r.number ≡ number) }
        requires allowed { IsAllowed (with_bytes rec number bytes.now unjam.now) self.old }
        ensures { IsApplied (with_bytes rec number bytes.now unjam.now) self.old self.new result }
    {
        let numbers = unjam.as_slice();
        let content = bytes.as_slice();
        let copy = match make_ready(
            alloc,
            &mut self.pool,
            &mut self.tree,
            &mut self.online,
            numbers,
            content.len() as u32,
        ) {
            Ok(copy) => copy,
            Err(fault) => return Err(fault),
        };
        let pinned = self.pins.is_some();
        match unjam_first(
            &mut self.disc,
            &mut self.slots,
            &mut self.pages,
            &mut self.live,
            &mut self.head,
            &self.tree,
            &mut self.online,
            &mut self.writer,
            pinned,
            numbers,
        ) {
            Ok(()) => {}
            Err(fault) => return Err(fault),
        }
        match write_new(
            &mut self.disc,
            &mut self.live,
            &mut self.writer,
            &copy,
            content,
        ) {
            Ok(()) => {}
            Err(fault) => return Err(fault),
        }
        let keeps = is_kept_at(&self.pins, &self.tree, number);
        replace_copy(keeps, &mut self.pool, &mut self.online, number, copy);
        self.head = kept_head(&stamped(&self.head, &rec), pinned);
        self.pages.changed(0);
        self.pages.changed(FIRST_FILE_BLOCK + u32::from(number));
        put_record(
            &mut self.tree,
            &mut self.changed,
            &mut self.touched,
            pinned,
            rec,
        );
        commit(
            &mut self.disc,
            &mut self.slots,
            &mut self.pages,
            &mut self.live,
            &self.head,
            &self.tree,
            &self.online,
            &mut self.writer,
        )
    }
}

/// Reserves blocks and memory for a new copy of `len` bytes. The blocks of the files that will be taken off are freed for
/// it. A refusal leaves everything unchanged.
fn make_ready(
    alloc: Global,
    pool: &mut Pool,
    tree: &mut Tree,
    online: &mut CopyTable,
    numbers: &[u16],
    len: u32,
) -> Result<BoxedCopy, OnlineFault>
    requires apart { AllPairs (λ j k. j ≢ k) (places_off numbers.now online.old) }
    requires taken { All (IsTaken pool.old) (places_off numbers.now online.old) }
    requires len { len ≤ 65536 }
    ensures users { tree.new.users ≡ tree.old.users }
    ensures files { tree.new.files ≡ tree.old.files }
    ensures copies { online.new ≡ online.old }
    ensures ok { IfOk result (TakesBeside (places_off numbers.now online.old) len pool.old pool.new) }
    ensures spare { OnOk result (1 ≤ tree.new.spare) }
    ensures full { IsErrOf result (OnlineFault.DiscFull (block.blocks_for len)
        (free_count pool.old + length (places_off numbers.now online.old)))
        ↔ (free_count pool.old + length (places_off numbers.now online.old) < block.blocks_for len) }
    ensures same { OnErr result (pool.new ≡ pool.old) }
    ensures only { IfErr result (λ e. (e ≡ OnlineFault.NoMemory) ⊎ (e ≡ OnlineFault.DiscFull (block.blocks_for len)
        (free_count pool.old + length (places_off numbers.now online.old)))) }
{
    let lists = make_room(tree);
    give_all(pool, online, numbers);
    match take_blocks(alloc, lists, pool, online, blocks_for(len), len) {
        Ok(copy) => Ok(copy),
        Err(fault) => {
            retake_all(pool, online, numbers);
            Err(fault)
        }
    }
}

/// Reserves memory for one more file in the list of files; false if memory runs out.
fn make_room(tree: &mut Tree) -> bool
    ensures users { tree.new.users ≡ tree.old.users }
    ensures files { tree.new.files ≡ tree.old.files }
    ensures spare { result ≡ true → 1 ≤ tree.new.spare }
{
    match tree.reserve() {
        Ok(()) => true,
        Err(_) => false,
    }
}

/// Takes the n lowest-numbered free blocks for a copy of `len` bytes, if the list of files has room. `DiscFull` takes
/// precedence over `NoMemory`.
fn take_blocks(
    alloc: Global,
    lists: bool,
    pool: &mut Pool,
    online: &mut CopyTable,
    n: u32,
    len: u32,
) -> Result<BoxedCopy, OnlineFault>
    requires few { n ≤ 128 }
    ensures least { IfOk result (λ copy. AreLeastFree pool.old n copy.blocks) }
    ensures taken { IfOk result (λ copy. HasTaken copy.blocks pool.old pool.new) }
    ensures len { IfOk result (λ copy. copy.len ≡ len) }
    ensures lists { OnOk result (lists ≡ true) }
    ensures copies { online.new ≡ online.old }
    ensures full { IsErrOf result (OnlineFault.DiscFull n (free_count pool.old)) ↔ (free_count pool.old < n) }
    ensures same { OnErr result (pool.new ≡ pool.old) }
    ensures only { IfErr result (λ e. (e ≡ OnlineFault.NoMemory) ⊎ (e ≡ OnlineFault.DiscFull n (free_count pool.old))) }
{
    let room = pool.free();
    if room < n {
        return Err(OnlineFault::DiscFull { need: n, room });
    }
    if !lists {
        return Err(OnlineFault::NoMemory);
    }
    match online.empty_copy(alloc) {
        Ok(mut copy) => {
            copy.take_blocks(pool, n, len);
            Ok(copy)
        }
        Err(_) => Err(OnlineFault::NoMemory),
    }
}

/// Returns the blocks of these files to the pool.
fn give_all(pool: &mut Pool, online: &CopyTable, numbers: &[u16])
    requires apart { AllPairs (λ j k. j ≢ k) (places_off numbers.now online.now) }
    requires taken { All (IsTaken pool.old) (places_off numbers.now online.now) }
    ensures { HasGiven (places_off numbers.now online.now) pool.old pool.new }
{
    for number in numbers {
        give_one(pool, online, *number);
    }
}

/// Does so for one file.
fn give_one(pool: &mut Pool, online: &CopyTable, number: u16)
    requires apart { AllPairs (λ j k. j ≢ k) (copy_places (copy_at online.now number)) }
    requires taken { All (IsTaken pool.old) (copy_places (copy_at online.now number)) }
    ensures { HasGiven (copy_places (copy_at online.now number)) pool.old pool.new }
{
    give_unless(false, pool, online.get(number));
}

/// Takes the blocks of these files again, which allocates nothing.
fn retake_all(pool: &mut Pool, online: &CopyTable, numbers: &[u16])
    requires apart { AllPairs (λ j k. j ≢ k) (places_off numbers.now online.now) }
    requires free { All (IsFree pool.old) (places_off numbers.now online.now) }
    ensures { HasTaken (places_off numbers.now online.now) pool.old pool.new }
{
    for number in numbers {
        retake_one(pool, online, *number);
    }
}

/// Does so for one file.
fn retake_one(pool: &mut Pool, online: &CopyTable, number: u16)
    requires apart { AllPairs (λ j k. j ≢ k) (copy_places (copy_at online.now number)) }
    requires free { All (IsFree pool.old) (copy_places (copy_at online.now number)) }
    ensures { HasTaken (copy_places (copy_at online.now number)) pool.old pool.new }
{
    retake_copy(pool, online.get(number));
}

/// Takes the blocks of a copy again, if there is one.
fn retake_copy(pool: &mut Pool, copy: Option<&DiscCopy>)
    requires apart { AllPairs (λ j k. j ≢ k) (copy_places (option_copied copy)) }
    requires free { All (IsFree pool.old) (copy_places (option_copied copy)) }
    ensures { HasTaken (copy_places (option_copied copy.entry)) pool.old pool.new }
{
    match copy {
        Some(copy) => pool.retake(copy.blocks.as_slice()),
        None => pool.retake(&[]),
    }
}

/// Takes these files off the disc by one commit, if there are any. It doesn't touch their blocks.
fn unjam_first<D: Disc>(
    disc: &mut D,
    slots: &mut Slots,
    pages: &mut Pages,
    live: &mut bool,
    head: &mut Head,
    tree: &Tree,
    online: &mut CopyTable,
    writer: &mut BlockWriter,
    pinned: bool,
    numbers: &[u16],
) -> Result<(), OnlineFault>
    requires below { All (λ n. n < 1024) numbers.now }
    requires copies { AreCopies tree.now.files online.old }
    requires marked { IsMarked (D.state disc.old) slots.old pages.old
        (directory_of head.old tree.now.users tree.now.files online.old) }
    requires records { AreRecords Two (directory_of (head_after pinned head.old) tree.now.users tree.now.files
        (without_copies numbers.now online.old)) }
    requires rules { IsDirectory (D.state disc.old).size (directory_of (head_after pinned head.old)
        tree.now.users tree.now.files (without_copies numbers.now online.old)) }
    ensures none { numbers.now ≡ [] → IsUntouched (D.state disc.old) (D.state disc.new)
        (record { side = slots.old; pages = pages.old; head = head.old; online = online.old; live = live.old })
        (record { side = slots.new; pages = pages.new; head = head.new; online = online.new; live = live.new })
        result }
    ensures off { 0 < length numbers.now
        → TakesFilesOff numbers.now pinned tree.now.users tree.now.files (D.state disc.old) (D.state disc.new)
        (record { side = slots.old; pages = pages.old; head = head.old; online = online.old; live = live.old })
        (record { side = slots.new; pages = pages.new; head = head.new; online = online.new; live = live.new })
        result }
{
    if numbers.is_empty() {
        return Ok(());
    }
    *head = kept_head(head, pinned);
    pages.changed(0);
    forget_all(pages, online, numbers);
    commit(disc, slots, pages, live, head, tree, online, writer)
}

/// Removes the copies of these files from the list, and marks their records.
fn forget_all(pages: &mut Pages, online: &mut CopyTable, numbers: &[u16])
    requires below { All (λ n. n < 1024) numbers.now }
    ensures copies { online.new ≡ without_copies numbers.now online.old }
    ensures marks { MarksFiles numbers.now pages.old pages.new }
{
    for number in numbers {
        forget_one(pages, online, *number);
    }
}

/// Does so for one file.
fn forget_one(pages: &mut Pages, online: &mut CopyTable, number: u16)
    requires below { number < 1024 }
    ensures copies { online.new ≡ without_copy number online.old }
    ensures marks { pages.new ≡ marked (64 + number) pages.old }
{
    online.forget(number);
    pages.changed(FIRST_FILE_BLOCK + u32::from(number));
}

/// Writes the bytes into the blocks of their copy. If a write fails the filestore is no longer live.
fn write_new<D: Disc>(
    disc: &mut D,
    live: &mut bool,
    writer: &mut BlockWriter,
    copy: &BoxedCopy,
    bytes: &[u8],
) -> Result<(), OnlineFault>
    requires size { 2177 < (D.state disc.old).size }
    requires copy { IsCopy (D.state disc.old).size copy.now }
    requires len { copy.now.len ≡ length bytes.now }
    ensures counts { WritesOnly (length copy.now.blocks) (D.state disc.old) (D.state disc.new) result }
    ensures ok { OnOk result
        (WroteBytes copy.now.blocks bytes.now (D.state disc.old) (D.state disc.new)) }
    ensures stopped { OnErr result
        (WritingStopped copy.now.blocks (D.state disc.old) (D.state disc.new)) }
    ensures lives { OnOk result (live.new ≡ live.old) }
    ensures dies { OnErr result (live.new ≡ false) }
    ensures whole { ForSome (D.state disc.new).held (AreWhole (D.state disc.new).size) }
    ensures only { OnErr result (result ≡ Err OnlineFault.Stopped) }
{
    match write_copy(disc, writer, copy.get(), bytes) {
        Ok(()) => {
            let _size = disc.size();
            Ok(())
        }
        Err(_) => {
            let _size = disc.size();
            *live = false;
            Err(OnlineFault::Stopped)
        }
    }
}

/// Whether the file of this number exists and its version is pinned, so that its blocks stay.
fn is_kept_at(pins: &Option<PinList>, tree: &Tree, number: u16) -> bool
    ensures { result ≡ is_pinned_at pins.now
        (finmap.get (by_number tree.now.files) number) }
{
    match tree.file_at(number) {
        Some(file) => is_kept(pins, file.stamp),
        None => false,
    }
}

/// Puts a new copy in place of the file's old one, whose blocks are returned to the pool unless they must stay.
fn replace_copy(keeps: bool, pool: &mut Pool, online: &mut CopyTable, number: u16, copy: BoxedCopy)
    requires below { number < 1024 }
    requires apart { keeps ≡ false → AllPairs (λ j k. j ≢ k) (copy_places (copy_at online.old number)) }
    requires taken { keeps ≡ false → All (IsTaken pool.old) (copy_places (copy_at online.old number)) }
    ensures copies { online.new ≡ with_copy_at (number, copy) online.old }
    ensures blocks { GivesUnless keeps (copy_places (copy_at online.old number)) pool.old pool.new }
{
    give_unless(keeps, pool, online.get(number));
    online.put(number, copy);
}

/// The head after the record of a new version, if there is one: the next stamp rises by one.
fn stamped(head: &Head, rec: &Option<FileRec>) -> Head
    requires { head.now.next_stamp ≤ 2 ^ 62 }
    ensures { result ≡ stamped rec.now head.now }
{
    match rec {
        Some(_rec) => Head {
            next_stamp: head.next_stamp + 1,
            ..*head
        },
        None => *head,
    }
}

/// Inserts the record of a new version, if there is one, and notes that its owner's directory has changed.
fn put_record(
    tree: &mut Tree,
    changed: &mut UserNumbers,
    touched: &mut UserNumbers,
    pinned: bool,
    rec: Option<FileRec>,
)
    requires room { 1 ≤ tree.old.spare }
    requires rules { IfSome rec (λ r. IsRecords tree.old.users (with_file r tree.old.files)) }
    requires owner { IfSome rec (λ r. r.owner < 63) }
    ensures users { tree.new.users ≡ tree.old.users }
    ensures files { tree.new.files ≡ recs_with rec tree.old.files }
    ensures changed { changed.new ≡ users_with rec changed.old }
    ensures touched { touched.new ≡ noted_for pinned rec touched.old }
{
    let Some(rec) = rec else {
        return;
    };
    let owner = rec.owner;
    tree.put(rec);
    mark_user_changed(changed, touched, pinned, owner);
}
