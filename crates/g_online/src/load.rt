//! How an online filestore begins: it is loaded from its disc or created on it.
ghost use Rattle.std.specs.Prelude.{◌≡◌, ◌≢◌, ◌⊎◌, ◌<◌, ◌≤◌, ℕ, AllPairs, IfErr, IfOk, List, map, is_some, [], OnErr, true};
ghost use Rattle.std.specs.Option.{ForSome};
ghost use Rattle.g_base.specs.ToldContent.{Changes};
ghost use Rattle.g_blocks.specs.Pool.{IsFresh};
ghost use Rattle.g_disc.specs.Disc.{Causes, ReadsByCause, StayDurable, is_durable};
ghost use Rattle.g_disc.specs.Durable.{PowerLossLeaves};
ghost use Rattle.g_entry.specs.Rules.{AreUsers};
ghost use Rattle.g_slots.specs.Layout.{GateNames};
ghost use Rattle.g_tree.specs.Records.{IsRecords};
ghost use Rattle.g_dirs.specs.Directory.{AreCopies, Directory, directory_of};
ghost use Rattle.g_dirs.specs.Durable.{IsDiscSafe};
ghost use Rattle.g_dirs.specs.Image.{StandsFor};
ghost use Rattle.g_dirs.specs.Pages.{nothing};
ghost use Rattle.g_dirs.specs.Rules.{AreApart, numbers_of};
ghost use Rattle.g_disc_contents.specs.Contents.{Contents, Holds};
ghost use Rattle.g_disc_contents.specs.Facts.{IsTied};
ghost use Rattle.g_online.specs.AllowedChanges.{KeepsRules};
ghost use Rattle.g_online.specs.Beginning.{AsBeforeOr, HasLoaded, HasMade, HasRead, IsFound, SecuresAndReads, empty_copies, first_contents, memory_of, refusal_of};
ghost use Rattle.g_online.specs.Invariant.{IsAgreed, facts_of};

use crate::commit::commit;
use crate::numbers::UserNumbers;
use crate::{Online, OnlineFault};
use g_base::{BlockWriter, NoMemory};
use g_blocks::Pool;
use g_dirs::{BoxedCopy, CopyTable, Dirs, DirsFault, FileCopy, Pages, read_dirs};
use g_disc::Disc;
use g_entry::{Head, UserRec};
use g_slots::Slots;
use g_table::FileTable;
use g_tree::Tree;
use std::alloc::Global;

impl<D: Disc> Online<D> {
    /// Loads the filestore that the disc holds, in either format (docs/FORMATS.md). The gate is made durable before it is
    /// read, so that no power loss can take back what it names. No block of the slots is remembered, and all users count as
    /// changed. Nothing is written. A refusal returns the disc, whose contents are unchanged: `NoFilestore` only if it holds
    /// no filestore, `ReadFault` if and only if the gate couldn't be made durable or a read failed, otherwise `NoMemory`.
    pub fn load(alloc: Global, mut disc: D) -> Result<Online<D>, (OnlineFault, D)>
        requires low { 2177 < (D.state disc).size }
        requires high { (D.state disc).size ≤ 1_048_576 }
        ensures ok { IfOk result (HasLoaded (D.state disc)) }
        ensures tied { IfOk result (λ o. IsTied o) }
        ensures none { IfErr result (λ e. e.0 ≡ OnlineFault.NoFilestore
            → ForSome (D.state disc).held (λ blocks. (c : Contents) → Holds blocks c → ⊥)) }
        ensures refused { IfErr result (λ e. SecuresAndReads (e.0 ≡ OnlineFault.ReadFault)
            (D.state disc) (D.state e.1)) }
        ensures only { IfErr result (λ e. (e.0 ≡ OnlineFault.ReadFault)
            ⊎ (e.0 ≡ OnlineFault.NoFilestore) ⊎ (e.0 ≡ OnlineFault.NoMemory)) }
    {
        match disc.secure() {
            Ok(()) => read_filestore(alloc, disc),
            Err(_) => Err((OnlineFault::ReadFault, disc)),
        }
    }

    /// Creates a filestore of these records on the disc by one commit, for any previous contents. The gate is made durable
    /// before the commit. All files are offline except the empty ones. No block of the slots is remembered from before, and
    /// all users count as changed. A refusal returns the disc. After `Stopped`, when a write failed, the disc holds what it
    /// held before or the new filestore. After `ReadFault`, when the gate couldn't be made durable or read, and after
    /// `NoMemory` its contents are unchanged.
    pub fn fresh(
        alloc: Global,
        mut disc: D,
        tree: Tree,
        head: Head,
    ) -> Result<Online<D>, (OnlineFault, D)>
        requires low { 2177 < (D.state disc).size }
        requires high { (D.state disc).size ≤ 1_048_576 }
        requires rules { KeepsRules
            (first_contents (is_some (D.state disc).held) head tree.users tree.files) }
        ensures ok { IfOk result (HasMade
            (first_contents (is_some (D.state disc).held) head tree.users tree.files) (D.state disc)) }
        ensures tied { IfOk result (λ o. IsTied o) }
        ensures stopped { IfErr result (λ e. e.0 ≡ OnlineFault.Stopped
            → Changes (AsBeforeOr
            (first_contents (is_some (D.state disc).held) head tree.users tree.files))
            (D.state disc).held (D.state e.1).held) }
        ensures same { IfErr result (λ e. e.0 ≢ OnlineFault.Stopped
            → ((D.state e.1).held ≡ (D.state disc).held) × ((D.state e.1).writes ≡ (D.state disc).writes)) }
        ensures causes { IfErr result (λ e. Causes (e.0 ≡ OnlineFault.ReadFault) (e.0 ≡ OnlineFault.Stopped)
            (D.state disc) (D.state e.1)) }

        // Another refusal leaves each durable block durable. A safe disc stays safe, and a power loss after a failed write leaves
        // what it held or the new filestore.
        ensures durable { IfErr result (λ e. e.0 ≢ OnlineFault.Stopped → StayDurable (D.state disc) (D.state e.1)) }
        ensures safe { IfErr result (λ e. IsDiscSafe (D.state disc) → IsDiscSafe (D.state e.1)) }
        ensures survives { IfErr result (λ e. e.0 ≡ OnlineFault.Stopped
            → IsDiscSafe (D.state disc) → PowerLossLeaves (AsBeforeOr
            (first_contents (is_some (D.state disc).held) head tree.users tree.files))
            (D.state disc) (D.state e.1)) }
        ensures only { IfErr result (λ e. (e.0 ≡ OnlineFault.ReadFault) ⊎ (e.0 ≡ OnlineFault.Stopped)
            ⊎ (e.0 ≡ OnlineFault.NoMemory)) }
    {
        match disc.secure() {
            Ok(()) => write_filestore(alloc, disc, tree, head),
            Err(_) => Err((OnlineFault::ReadFault, disc)),
        }
    }
}

/// Reads the filestore that the disc holds. Refuses as `Online::load`.
fn read_filestore<D: Disc>(alloc: Global, mut disc: D) -> Result<Online<D>, (OnlineFault, D)>
    requires low { 2177 < (D.state disc).size }
    requires high { (D.state disc).size ≤ 1_048_576 }
    ensures ok { IfOk result (HasRead (D.state disc)) }
    ensures tied { IfOk result (λ o. IsTied o) }
    ensures none { IfErr result (λ e. e.0 ≡ OnlineFault.NoFilestore
        → ForSome (D.state disc).held (λ blocks. (c : Contents) → Holds blocks c → ⊥)) }
    ensures refused { IfErr result (λ e. ReadsByCause (e.0 ≡ OnlineFault.ReadFault)
        (D.state disc) (D.state e.1)) }
    ensures only { IfErr result (λ e. (e.0 ≡ OnlineFault.ReadFault)
        ⊎ (e.0 ≡ OnlineFault.NoFilestore) ⊎ (e.0 ≡ OnlineFault.NoMemory)) }
{
    let (slots, dirs) = match find(alloc, &mut disc) {
        Ok(found) => found,
        Err(fault) => return Err((fault, disc)),
    };
    let (pages, pool) = match pool_of(alloc, disc.size(), dirs.online.as_slice()) {
        Ok(made) => made,
        Err(_) => return Err((OnlineFault::NoMemory, disc)),
    };
    let Dirs {
        head,
        users,
        files,
        online,
    } = dirs;
    let online = match CopyTable::of(alloc, online) {
        Ok(online) => online,
        Err(_) => return Err((OnlineFault::NoMemory, disc)),
    };
    match Tree::from_records(alloc, users, files) {
        Ok(tree) => Ok(begin(disc, slots, pages, pool, tree, head, online)),
        Err(_) => Err((OnlineFault::NoMemory, disc)),
    }
}

/// Writes a filestore of these records by one commit. Refuses as `Online::fresh`.
fn write_filestore<D: Disc>(
    alloc: Global,
    mut disc: D,
    tree: Tree,
    head: Head,
) -> Result<Online<D>, (OnlineFault, D)>
    requires low { 2177 < (D.state disc).size }
    requires high { (D.state disc).size ≤ 1_048_576 }
    requires rules { KeepsRules
        (first_contents (is_some (D.state disc).held) head tree.users tree.files) }
    ensures ok { IfOk result (HasMade
        (first_contents (is_some (D.state disc).held) head tree.users tree.files) (D.state disc)) }
    ensures tied { IfOk result (λ o. IsTied o) }
    ensures stopped { IfErr result (λ e. e.0 ≡ OnlineFault.Stopped
        → Changes (AsBeforeOr
        (first_contents (is_some (D.state disc).held) head tree.users tree.files))
        (D.state disc).held (D.state e.1).held) }
    ensures same { IfErr result (λ e. e.0 ≢ OnlineFault.Stopped
        → ((D.state e.1).held ≡ (D.state disc).held) × ((D.state e.1).writes ≡ (D.state disc).writes)) }
    ensures causes { IfErr result (λ e. Causes (e.0 ≡ OnlineFault.ReadFault) (e.0 ≡ OnlineFault.Stopped)
        (D.state disc) (D.state e.1)) }

    // If the disc was safe and its gate durable, a power loss leaves what it held or the new filestore.
    ensures survives { IfErr result (λ e. e.0 ≡ OnlineFault.Stopped
        → is_durable (D.state disc) 0 ≡ true → IsDiscSafe (D.state disc)
        → IsDiscSafe (D.state e.1) × PowerLossLeaves (AsBeforeOr
        (first_contents (is_some (D.state disc).held) head tree.users tree.files))
        (D.state disc) (D.state e.1)) }
    ensures still { IfErr result (λ e. e.0 ≢ OnlineFault.Stopped
        → ((D.state e.1).volatile ≡ (D.state disc).volatile) × ((D.state e.1).dropped ≡ (D.state disc).dropped)) }
    ensures only { IfErr result (λ e. (e.0 ≡ OnlineFault.ReadFault) ⊎ (e.0 ≡ OnlineFault.Stopped)
        ⊎ (e.0 ≡ OnlineFault.NoMemory)) }
{
    let (mut pages, pool) = match pool_of(alloc, disc.size(), &[]) {
        Ok(made) => made,
        Err(_) => return Err((OnlineFault::NoMemory, disc)),
    };
    let copies = match empty_copies(alloc, tree.files()) {
        Ok(copies) => copies,
        Err(_) => return Err((OnlineFault::NoMemory, disc)),
    };
    let online = match CopyTable::of(alloc, copies) {
        Ok(online) => online,
        Err(_) => return Err((OnlineFault::NoMemory, disc)),
    };
    let mut slots = match Slots::find(&mut disc) {
        Ok(slots) => slots,
        Err(_) => return Err((OnlineFault::ReadFault, disc)),
    };
    let mut live = true;
    match commit(
        &mut disc,
        &mut slots,
        &mut pages,
        &mut live,
        &head,
        &tree,
        &online,
        &mut BlockWriter::new(),
    ) {
        Ok(()) => Ok(begin(disc, slots, pages, pool, tree, head, online)),
        Err(fault) => Err((fault, disc)),
    }
}

/// Assembles the filestore from these parts, with nothing pinned or touched.
fn begin<D: Disc>(
    disc: D,
    slots: Slots,
    pages: Pages,
    pool: Pool,
    tree: Tree,
    head: Head,
    online: CopyTable,
) -> Online<D>
    requires low { 2177 < (D.state disc).size }
    requires high { (D.state disc).size ≤ 1_048_576 }
    requires agreed { IsAgreed (D.state disc)
        (memory_of slots pages pool tree.users tree.files head online) }
    ensures facts { result ≡ facts_of (D.state disc)
        (memory_of slots pages pool tree.users tree.files head online) }
    ensures tied { IsTied result }
{
    let _size = disc.size();
    let changed = numbers_of(tree.users());
    Online {
        disc,
        slots,
        pages,
        pool,
        tree,
        head,
        online,
        pins: None,
        changed,
        touched: UserNumbers::new(),
        live: true,
        writer: BlockWriter::new(),
    }
}

/// Reads the current slot and the directory that it holds.
fn find<D: Disc>(alloc: Global, disc: &mut D) -> Result<(Slots, Dirs), OnlineFault>
    requires { 2177 < (D.state disc.old).size }
    ensures found { IfOk result (λ found. IsFound (D.state disc.old) found.0
        (directory_of found.1.head found.1.users.items found.1.files.items found.1.online.items)) }
    ensures copies { IfOk result (λ found. AreCopies found.1.files.items found.1.online.items) }
    ensures none { result ≡ Err OnlineFault.NoFilestore
        → ForSome (D.state disc.old).held (λ blocks. (d : Directory) → StandsFor blocks d → ⊥) }
    ensures reads { ReadsByCause (result ≡ Err OnlineFault.ReadFault) (D.state disc.old) (D.state disc.new) }
    ensures only { IfErr result (λ e. (e ≡ OnlineFault.ReadFault) ⊎ (e ≡ OnlineFault.NoFilestore)
        ⊎ (e ≡ OnlineFault.NoMemory)) }
{
    let slots = match Slots::find(disc) {
        Ok(slots) => slots,
        Err(_) => return Err(OnlineFault::ReadFault),
    };
    match read_dirs(alloc, disc, &slots) {
        Ok(dirs) => Ok((slots, dirs)),
        Err(fault) => Err(refusal(fault)),
    }
}

/// The filestore's fault for a fault of reading the directory.
fn refusal(fault: DirsFault) -> OnlineFault
    ensures { result ≡ refusal_of fault }
{
    match fault {
        DirsFault::ReadFault => OnlineFault::ReadFault,
        DirsFault::NoFilestore => OnlineFault::NoFilestore,
        DirsFault::Stopped => OnlineFault::Stopped,
        DirsFault::NoMemory => OnlineFault::NoMemory,
    }
}

/// Pages with nothing remembered, and the pool in which the blocks of these copies are taken.
fn pool_of(alloc: Global, size: u32, online: &[FileCopy]) -> Result<(Pages, Pool), NoMemory>
    requires low { 2177 < size }
    requires high { size ≤ 1_048_576 }
    requires places { AreApart size (numbers_of online.now) }
    ensures pages { IfOk result (λ made. made.0 ≡ nothing) }
    ensures pool { IfOk result (λ made. IsFresh size (numbers_of online.now) made.1) }
{
    let pages = Pages::new(alloc)?;
    let used = collected(alloc, online)?;
    match Pool::new(alloc, size, used.as_slice()) {
        Ok(pool) => Ok((pages, pool)),
        Err(_) => Err(NoMemory),
    }
}

/// The block numbers of all copies.
fn collected(alloc: Global, online: &[FileCopy]) -> Result<Vec<u32>, NoMemory>
    ensures { IfOk result (λ places. places.items ≡ numbers_of online.now) }
{
    let mut places = Vec::new(alloc);
    for copy in online {
        places.extend_from_slice(copy.get().blocks.as_slice())?;
    }
    Ok(places)
}

/// The copies of the empty files, which have no blocks.
fn empty_copies(alloc: Global, files: &FileTable) -> Result<Vec<FileCopy>, NoMemory>
    ensures { IfOk result (λ online. online.items ≡ empty_copies files.now) }
{
    let mut online = Vec::new(alloc);
    for file in files {
        if file.len == 0 {
            let copy = BoxedCopy::empty(alloc)?;
            online.push(copy.of_file(file.number))?;
        }
    }
    Ok(online)
}

/// The numbers of all users.
fn numbers_of(users: &[UserRec]) -> UserNumbers
    requires { AreUsers users.now }
    ensures { result ≡ map (λ u. u.number) users.now }
{
    let mut numbers = UserNumbers::new();
    for user in users {
        numbers.put(user.number);
    }
    numbers
}
