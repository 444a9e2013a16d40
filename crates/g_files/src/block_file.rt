//! A file of whole blocks that is written at its end: which of them count, and which are durable.
ghost use Rattle.std.specs.Prelude.{◌≡◌, ◌+◌, ◌-◌, ◌*◌, ◌<◌, ◌≤◌, ◌⊎◌, ◌∷◌, ℕ, IfOk, List, OnErr, OnOk, length, min, option_map, true};
ghost use Rattle.std.specs.Option.{ForSome};
ghost use Rattle.g_base.specs.ToldContent.{Changes};
ghost use Rattle.g_files.specs.Ahead.{IsFresh, owner_of};
ghost use Rattle.g_files.specs.Bytes.{AreBytes, blocks_of, part};
ghost use Rattle.g_files.specs.Faults.{FailsByFault};
ghost use Rattle.g_files.specs.Growth.{AreWritten, Grows, IsOrderly};
ghost use Rattle.g_files.specs.Front.{KeepsFront};
ghost use Rattle.g_files.specs.Sectors.{LeavesNoOther, LeavesResized, LeavesSectors};
ghost use Rattle.g_files.specs.declared.reach.Reach.TheVariants.{Failed, There};
ghost use Rattle.g_tape.specs.Reel.{Remains};
ghost use Rattle.g_tape.specs.Risk.{IsSynced};

use crate::ahead::ReadAhead;
use crate::block_calls::{cut_at, drop_last, has_blocks, put_last, rewrite};
use crate::raw::RawFile;
use crate::reach::Reach;
use g_base::{Block, WriteFailed};
use std::io::{self, Error, ErrorKind};

/// The first bytes of a dump's header, its first block (docs/FORMATS.md, "Tapes").
const HEADER: &[u8] = b"G3HD";

/// The first bytes of a dump's mark, its last block.
const MARK: &[u8] = b"G3MK";

/// The bytes of a block.
const BLOCK_BYTES: u64 = 512;

/// An open file, of which the first `len` blocks count.
#[derive(Drop)]
pub(crate) struct BlockFile<F: RawFile + Drop> {
    file: F,
    len: u32,
    reach: Reach,
    /// How many blocks, from block 0 on, `secure` needn't rewrite. They are durable; or an earlier run left them before the last
    /// block, and it made them durable before it wrote that one, unless that one completes no dump.
    durable: u32,
    ghost counted: { durable ≤ len },
    ghost there: { reach ≡ There → durable ≡ len },
    ghost written: { IsOrderly reach → AreWritten durable len (F.durability file) },
    ghost short: { IsOrderly reach → ForSome (F.content file) (λ bytes. (left : List (List ℕ)) → LeavesSectors (F.durability file).remnants left → length left ≤ len) },
    ghost long: { ForSome (F.content file) (λ bytes. 512 * len ≤ length bytes) },
    ghost bytes: { ForSome (F.content file) AreBytes },
    ghost ends: { (reach ≡ Failed → ⊥) → ForSome (F.content file) (λ bytes. length bytes < 512 * len + 512) },
}

impl<F: RawFile + Drop> BlockFile<F> {
    ghost use Rattle.g_files.specs.BlockFile.{EndsThere, blocks_seen, content_of, ended, faults_of, left_of, len_of};
    ghost use Rattle.g_files.specs.Risks.{IsStored, Keeps, KeepsTo, LeavesBegun, LeavesNoMoreBlocks, Secures, StayKept, durability_of, durable_of, reach_of};

    /// The whole blocks of a file. A piece of a block at its end doesn't count: a write that was torn by a kill or a power loss left
    /// it. `InvalidData` if there are more than `most`; otherwise the error is the system's.
    pub fn open(file: F, most: u32) -> io::Result<BlockFile<F>>
        ensures few { IfOk result (λ f. len_of f ≤ most) }
        ensures whole { IfOk result EndsThere }
        ensures content { IfOk result (λ f. content_of f ≡ F.content file) }
        ensures as_durable { IfOk result (λ f. durability_of f ≡ F.durability file) }
        ensures durable { IfOk result (λ f. durable_of f ≡ len_of f - 1) }
    {
        let mut file = file;
        let len = count_blocks(&mut file, most)?;
        Ok(BlockFile {
            file,
            len,
            reach: Reach::Unknown,
            durable: len.saturating_sub(1),
        })
    }

    /// The file.
    pub fn file(&self) -> &F
        ensures { F.content result.now ≡ content_of self.now }
    {
        &self.file
    }

    /// How many blocks count.
    pub fn len(&self) -> u32
        ensures { result ≡ len_of self.now }
    {
        self.len
    }

    /// Reads block k of the file, which is at this place in the rack.
    pub fn read(
        &mut self,
        ahead: &mut ReadAhead,
        place: usize,
        k: u32,
        into: &mut Block,
    ) -> io::Result<()>
        requires fresh { owner_of ahead.old ≡ place → ForSome (content_of self.old) (IsFresh ahead.old) }
        ensures block { OnOk result (ForSome (content_of self.old) (λ bytes. into.new ≡ part (512 * k) 512 bytes)) }
        ensures owner { owner_of ahead.new ≡ place }
        ensures fresh { ForSome (content_of self.old) (IsFresh ahead.new) }
        ensures content { content_of self.new ≡ content_of self.old }
        ensures len { len_of self.new ≡ len_of self.old }
        ensures as_durable { durability_of self.new ≡ durability_of self.old }
        ensures durable { durable_of self.new ≡ durable_of self.old }
    {
        ahead.read(&mut self.file, place, k, into)
    }

    /// Writes block k, which is the last one then.
    ///
    /// If that drops blocks, the cut is durable before block k is written. Block 0, a dump's header and its mark are durable when
    /// this returns, and everything before them is durable before they are written. After a failure as many blocks count as the
    /// file has, and it takes no block until it was secured.
    pub fn end_with(&mut self, k: u32, block: &Block) -> Result<(), WriteFailed>
        requires place { k ≤ len_of self.old }
        requires room { k < 65536 }
        ensures done { OnOk result (blocks_seen self.new ≡ ended k block.now (blocks_seen self.old)) }
        ensures left { OnErr result ((how : Remains) × (blocks_seen self.new ≡ left_of how k (blocks_seen self.old))) }
        ensures front { Changes (KeepsFront (512 * k)) (content_of self.old) (content_of self.new) }
        ensures kept { StayKept k self.old self.new }
        ensures secured { KeepsTo k self.old → Keeps (durable_of self.new) self.new }
        ensures orderly { OnOk result (IsOrderly (reach_of self.new)) }
        ensures stored { IsSynced k block.now → KeepsTo k self.old → OnOk result (IsStored self.new) }
        ensures begun { LeavesBegun k (IsSynced k block.now × KeepsTo k self.old) self.old self.new }
    {
        let syncs = is_synced(k, block);
        if self.write_last(k, block, syncs).is_err() {
            self.reach = Reach::Failed;
            return Err(WriteFailed);
        }
        if self.bring_if(syncs).is_err() {
            return Err(WriteFailed);
        }
        Ok(())
    }

    /// Makes the blocks durable as they are counted and read. This needs no system call if this run knows that they are. What a
    /// failed sync may have dropped no sync brings to the device by itself. So the file is cut again where the last block ends, and
    /// each block that may be missing on the device is rewritten with the bytes that are read: of the blocks that an earlier run left
    /// that is the last one, since it made the others durable before it wrote a mark there.
    pub fn secure(&mut self) -> io::Result<()>
        ensures same { blocks_seen self.new ≡ blocks_seen self.old }
        ensures ends { OnOk result (EndsThere self.new) }
        ensures front { Changes (KeepsFront (512 * len_of self.old)) (content_of self.old) (content_of self.new) }
        ensures durable { Secures self.old self.new result }
    {
        match self.reach {
            Reach::There | Reach::Behind => self.bring(),
            Reach::Unknown | Reach::Failed => self.renew_and_sync(),
        }
    }

    /// Cuts off what a failed call may have left after the last block, and syncs what this run wrote, at the end of a run. On Ok the
    /// whole blocks of the file are those that count. A run that wrote nothing makes no system call.
    pub fn finish(&mut self) -> io::Result<()>
        ensures ends { OnOk result (EndsThere self.new) }
        ensures same { blocks_seen self.new ≡ blocks_seen self.old }
        ensures front { Changes (KeepsFront (512 * len_of self.old)) (content_of self.old) (content_of self.new) }
        ensures no_more { LeavesNoMoreBlocks self.old self.new }
        ensures durable { durable_of self.new ≡ durable_of self.old }
        ensures cause { FailsByFault result (faults_of self.old) (faults_of self.new) }
    {
        match self.reach {
            Reach::There | Reach::Unknown => Ok(()),
            Reach::Behind => self.sync_once(),
            Reach::Failed => self.cut_and_sync(),
        }
    }
}

impl<F: RawFile + Drop> BlockFile<F> {
    ghost use Rattle.g_files.specs.BlockFile.{EndsThere, blocks_seen, content_of, cut_blocks, ended, faults_of, left_of, len_of};
    ghost use Rattle.g_files.specs.Risks.{IsStored, Keeps, KeepsTo, LeavesBegun, LeavesNoMoreBlocks, MayLeaveBlocks, Secures, StayKept, durability_of, durable_of, reach_of};

    /// Writes block k, which is the last one then; `syncs` if everything before it has to be durable first.
    fn write_last(&mut self, k: u32, block: &Block, syncs: bool) -> io::Result<()>
        requires place { k ≤ len_of self.old }
        requires room { k < 65536 }
        ensures done { OnOk result (blocks_seen self.new ≡ ended k block.now (blocks_seen self.old)) }
        ensures left { OnErr result ((how : Remains) × (blocks_seen self.new ≡ left_of how k (blocks_seen self.old))) }
        ensures front { Changes (KeepsFront (512 * k)) (content_of self.old) (content_of self.new) }
        ensures kept { StayKept k self.old self.new }
        ensures secured { KeepsTo k self.old → Keeps (durable_of self.new) self.new }
        ensures orderly { OnOk result (IsOrderly (reach_of self.new)) }
        ensures begun { LeavesBegun k ((syncs ≡ true) × KeepsTo k self.old) self.old self.new }
    {
        if self.make_room(k, syncs).is_err() {
            // `secure` rewrites all blocks from block k on, so none of them needs to be durable.
            self.durable = self.durable.min(k);
            return Err(Error::from(ErrorKind::Other));
        }
        self.append(block)
    }

    /// Drops block k and those that follow it, if there are any; and makes durable what has to be before block k is written.
    fn make_room(&mut self, k: u32, syncs: bool) -> io::Result<()>
        requires place { k ≤ len_of self.old }
        ensures done { OnOk result (blocks_seen self.new ≡ cut_blocks k (blocks_seen self.old)) }
        ensures ends { OnOk result (EndsThere self.new) }
        ensures left { OnErr result ((how : Remains) × (blocks_seen self.new ≡ left_of how k (blocks_seen self.old))) }
        ensures front { Changes (KeepsFront (512 * k)) (content_of self.old) (content_of self.new) }
        ensures begun { LeavesBegun k (KeepsTo k self.old) self.old self.new }
        ensures kept { StayKept k self.old self.new }
        ensures secured { KeepsTo k self.old → KeepsTo k self.new }
        ensures orderly { OnOk result (IsOrderly (reach_of self.new)) }
        ensures disorderly { OnErr result (IsOrderly (reach_of self.new) → ⊥) }
        ensures stored { syncs ≡ true → KeepsTo k self.old → OnOk result (IsStored self.new) }
    {
        if self.reach.is_failed() {
            return Err(Error::from(ErrorKind::Other));
        }
        if k < self.len {
            return self.cut(k);
        }
        if self.reach.is_unknown() {
            return self.secure();
        }
        if syncs {
            return self.bring();
        }
        Ok(())
    }

    /// Drops block k and all that follow it, durably.
    fn cut(&mut self, k: u32) -> io::Result<()>
        requires ends { EndsThere self.old }
        requires place { k ≤ len_of self.old }
        ensures done { OnOk result (blocks_seen self.new ≡ cut_blocks k (blocks_seen self.old)) }
        ensures ends { OnOk result (EndsThere self.new) }
        ensures left { OnErr result ((how : Remains) × (blocks_seen self.new ≡ left_of how k (blocks_seen self.old))) }
        ensures front { Changes (KeepsFront (512 * k)) (content_of self.old) (content_of self.new) }
        ensures begun { LeavesBegun k (KeepsTo k self.old) self.old self.new }
        ensures kept { StayKept k self.old self.new }
        ensures secured { KeepsTo k self.old → KeepsTo k self.new }
        ensures orderly { OnOk result (IsOrderly (reach_of self.new)) }
        ensures disorderly { OnErr result (IsOrderly (reach_of self.new) → ⊥) }
        ensures stored { KeepsTo k self.old → OnOk result (IsStored self.new) }
    {
        if self.secure_before(k).is_err() {
            return Err(Error::from(ErrorKind::Other));
        }
        if self.drop_from(k).is_err() {
            return Err(Error::from(ErrorKind::Other));
        }
        self.sync()
    }

    /// Makes the blocks before block k durable, if an earlier run left them or this one wrote some of them since its last sync.
    fn secure_before(&mut self, k: u32) -> io::Result<()>
        requires ends { EndsThere self.old }
        requires place { k ≤ len_of self.old }
        ensures same { blocks_seen self.new ≡ blocks_seen self.old }
        ensures front { Changes (KeepsFront (512 * k)) (content_of self.old) (content_of self.new) }
        ensures no_more { LeavesNoMoreBlocks self.old self.new }
        ensures ends { OnOk result (EndsThere self.new) }
        ensures ready { OnOk result ((j : ℕ) → 512 * durable_of self.new ≤ j → j < 512 * k → (durability_of self.new).syncable j ≡ true) }
        ensures kept { KeepsTo k self.old → OnOk result (Keeps k self.new) }
        ensures durable { OnErr result (durable_of self.new ≡ durable_of self.old) }
        ensures disorderly { OnErr result (IsOrderly (reach_of self.new) → ⊥) }
    {
        if self.is_secured_to(k) {
            return Ok(());
        }
        self.secure()
    }

    /// Whether this run knows that the blocks before block k are durable.
    fn is_secured_to(&self, k: u32) -> bool
        ensures { result ≡ true → k ≤ durable_of self.now }
    {
        k == 0 || (self.durable >= k && self.reach != Reach::Unknown)
    }

    /// Drops block k and all that follow it. If that fails, all blocks count, or if the file may not have them any more, those below
    /// block k.
    fn drop_from(&mut self, k: u32) -> io::Result<()>
        requires ends { EndsThere self.old }
        requires place { k ≤ len_of self.old }
        requires below { (j : ℕ) → 512 * durable_of self.old ≤ j → j < 512 * k → (durability_of self.old).syncable j ≡ true }
        ensures done { OnOk result (blocks_seen self.new ≡ cut_blocks k (blocks_seen self.old)) }
        ensures ends { OnOk result (EndsThere self.new) }
        ensures left { OnErr result ((how : Remains) × (blocks_seen self.new ≡ left_of how k (blocks_seen self.old))) }
        ensures front { Changes (KeepsFront (512 * k)) (content_of self.old) (content_of self.new) }
        ensures cuts { (left : List (List ℕ)) → LeavesSectors (durability_of self.new).remnants left
            → LeavesSectors (durability_of self.old).remnants left ⊎ LeavesResized (512 * k) (durability_of self.old).remnants left }
        ensures resized { ForSome (content_of self.old) (λ bytes. (left : List (List ℕ)) → MayLeaveBlocks self.new left
            → MayLeaveBlocks self.old left ⊎ LeavesResized (512 * k) (durability_of self.old).remnants left) }
        ensures least { k ≤ len_of self.new }
        ensures durable { durable_of self.new ≡ min (durable_of self.old) k }
        ensures reach { reach_of self.new ≡ Failed }
        ensures written { OnOk result (AreWritten (durable_of self.new) (len_of self.new) (durability_of self.new)) }
    {
        self.durable = self.durable.min(k);
        self.reach = Reach::Failed;
        if cut_at(&mut self.file, k).is_ok() {
            self.len = k;
            return Ok(());
        }
        if !has_blocks(&mut self.file, self.len) {
            self.len = k;
        }
        Err(Error::from(ErrorKind::Other))
    }

    /// Writes one more block. If that fails the file is cut where it began; if that fails too, the block counts if the file has it.
    fn append(&mut self, block: &Block) -> io::Result<()>
        requires ends { EndsThere self.old }
        requires room { len_of self.old < 65536 }
        requires orderly { IsOrderly (reach_of self.old) }
        ensures done { OnOk result (blocks_seen self.new ≡ ended (len_of self.old) block.now (blocks_seen self.old)) }
        ensures ends { OnOk result (EndsThere self.new) }
        ensures left { OnErr result ((how : Remains) × (blocks_seen self.new ≡ left_of how (len_of self.old) (blocks_seen self.old))) }
        ensures front { Changes (KeepsFront (512 * len_of self.old)) (content_of self.old) (content_of self.new) }
        ensures grows { Grows (len_of self.old) (durability_of self.old).remnants (durability_of self.new).remnants }
        ensures most { len_of self.new ≤ len_of self.old + 1 }
        ensures least { len_of self.old ≤ len_of self.new }
        ensures durable { durable_of self.new ≡ durable_of self.old }
        ensures orderly { OnOk result (IsOrderly (reach_of self.new)) }
    {
        let k = self.len;
        if put_last(&mut self.file, k, block).is_ok() {
            self.len = k + 1;
            self.reach = Reach::Behind;
            return Ok(());
        }
        self.reach = Reach::Failed;
        self.len = drop_last(&mut self.file, k);
        Err(Error::from(ErrorKind::Other))
    }

    /// Syncs the file if this run wrote something since the last sync. A sync alone promises nothing after a failed write, cut or
    /// sync, nor of what an earlier run left, so this fails until the file was secured.
    fn bring(&mut self) -> io::Result<()>
        ensures content { content_of self.new ≡ content_of self.old }
        ensures len { len_of self.new ≡ len_of self.old }
        ensures ends { OnOk result (EndsThere self.new) }
        ensures durable { Secures self.old self.new result }
    {
        match self.reach {
            Reach::There => Ok(()),
            Reach::Behind => self.sync(),
            Reach::Unknown | Reach::Failed => Err(Error::from(ErrorKind::Other)),
        }
    }

    /// Does so if `syncs`.
    fn bring_if(&mut self, syncs: bool) -> io::Result<()>
        ensures content { content_of self.new ≡ content_of self.old }
        ensures len { len_of self.new ≡ len_of self.old }
        ensures no_more { LeavesNoMoreBlocks self.old self.new }
        ensures stored { syncs ≡ true → Keeps (durable_of self.old) self.old → OnOk result (IsStored self.new) }
        ensures secured { Keeps (durable_of self.old) self.old → Keeps (durable_of self.new) self.new }
        ensures orderly { IsOrderly (reach_of self.old) → OnOk result (IsOrderly (reach_of self.new)) }
    {
        if syncs { self.bring() } else { Ok(()) }
    }

    /// Makes the blocks durable if a call failed, or if this run has secured nothing yet.
    fn renew_and_sync(&mut self) -> io::Result<()>
        requires disorderly { IsOrderly (reach_of self.old) → ⊥ }
        ensures same { blocks_seen self.new ≡ blocks_seen self.old }
        ensures ends { OnOk result (EndsThere self.new) }
        ensures front { Changes (KeepsFront (512 * len_of self.old)) (content_of self.old) (content_of self.new) }
        ensures durable { Secures self.old self.new result }
    {
        if self.renew().is_err() {
            return Err(Error::from(ErrorKind::Other));
        }
        self.sync()
    }

    /// Cuts off what follows the last block, and rewrites the blocks that may be missing on the device.
    fn renew(&mut self) -> io::Result<()>
        requires disorderly { IsOrderly (reach_of self.old) → ⊥ }
        ensures same { blocks_seen self.new ≡ blocks_seen self.old }
        ensures ends { OnOk result (EndsThere self.new) }
        ensures front { Changes (KeepsFront (512 * len_of self.old)) (content_of self.old) (content_of self.new) }
        ensures no_more { LeavesNoMoreBlocks self.old self.new }
        ensures durable { durable_of self.new ≡ durable_of self.old }
        ensures reach { reach_of self.new ≡ reach_of self.old }
        ensures written { OnOk result (AreWritten (durable_of self.new) (len_of self.new) (durability_of self.new)) }
    {
        if self.cut_tail().is_err() {
            return Err(Error::from(ErrorKind::Other));
        }
        rewrite(&mut self.file, self.durable, self.len)
    }

    /// Cuts off what follows the last block.
    fn cut_tail(&mut self) -> io::Result<()>
        requires disorderly { IsOrderly (reach_of self.old) → ⊥ }
        ensures same { blocks_seen self.new ≡ blocks_seen self.old }
        ensures ends { OnOk result (EndsThere self.new) }
        ensures front { Changes (KeepsFront (512 * len_of self.old)) (content_of self.old) (content_of self.new) }
        ensures no_more { LeavesNoMoreBlocks self.old self.new }
        ensures durable { durable_of self.new ≡ durable_of self.old }
        ensures reach { reach_of self.new ≡ reach_of self.old }
        ensures sized { OnOk result ((durability_of self.new).sized ≡ true) }
        ensures cause { FailsByFault result (faults_of self.old) (faults_of self.new) }
    {
        cut_at(&mut self.file, self.len)
    }

    /// Cuts off what follows the last block, and syncs the file.
    fn cut_and_sync(&mut self) -> io::Result<()>
        requires disorderly { IsOrderly (reach_of self.old) → ⊥ }
        ensures same { blocks_seen self.new ≡ blocks_seen self.old }
        ensures ends { OnOk result (EndsThere self.new) }
        ensures front { Changes (KeepsFront (512 * len_of self.old)) (content_of self.old) (content_of self.new) }
        ensures no_more { LeavesNoMoreBlocks self.old self.new }
        ensures durable { durable_of self.new ≡ durable_of self.old }
        ensures cause { FailsByFault result (faults_of self.old) (faults_of self.new) }
    {
        if self.cut_tail().is_err() {
            return Err(Error::from(ErrorKind::Other));
        }
        self.sync_once()
    }

    /// Syncs the file as it is. Whether the blocks are durable then isn't stated: an earlier call may have failed.
    fn sync_once(&mut self) -> io::Result<()>
        ensures content { content_of self.new ≡ content_of self.old }
        ensures len { len_of self.new ≡ len_of self.old }
        ensures no_more { LeavesNoMoreBlocks self.old self.new }
        ensures durable { durable_of self.new ≡ durable_of self.old }
        ensures cause { FailsByFault result (faults_of self.old) (faults_of self.new) }
    {
        self.reach = Reach::Failed;
        self.file.sync()
    }

    /// Waits until the blocks have reached the device.
    fn sync(&mut self) -> io::Result<()>
        requires ends { EndsThere self.old }
        requires written { AreWritten (durable_of self.old) (len_of self.old) (durability_of self.old) }
        ensures content { content_of self.new ≡ content_of self.old }
        ensures len { len_of self.new ≡ len_of self.old }
        ensures ends { EndsThere self.new }
        ensures durable { Secures self.old self.new result }
    {
        self.reach = Reach::Failed;
        if self.file.sync().is_err() {
            return Err(Error::from(ErrorKind::Other));
        }
        self.reach = Reach::There;
        self.durable = self.len;
        Ok(())
    }
}

/// Whether a write of block k is durable when it returns, with all before it.
fn is_synced(k: u32, block: &Block) -> bool
    ensures { IsSynced k block.now → result ≡ true }
{
    if k == 0 {
        return true;
    }
    is_bracket(block)
}

/// Whether the block is the first or the last one of a dump.
fn is_bracket(block: &Block) -> bool
    ensures { (rest : List ℕ) → (block.now ≡ 71 ∷ 51 ∷ 72 ∷ 68 ∷ rest) ⊎ (block.now ≡ 71 ∷ 51 ∷ 77 ∷ 75 ∷ rest) → result ≡ true }
{
    block.starts_with(HEADER) || block.starts_with(MARK)
}

/// How many whole blocks the file has; `InvalidData` if there are more than `most`.
fn count_blocks<F: RawFile>(file: &mut F, most: u32) -> io::Result<u32>
    ensures few { IfOk result (λ n. n ≤ most) }
    ensures long { IfOk result (λ n. ForSome (F.content file.old) (λ bytes. 512 * n ≤ length bytes)) }
    ensures ends { IfOk result (λ n. ForSome (F.content file.old) (λ bytes. length bytes < 512 * n + 512)) }
    ensures bytes { ForSome (F.content file.old) AreBytes }
    ensures same { F.content file.new ≡ F.content file.old }
    ensures as_durable { F.durability file.new ≡ F.durability file.old }
{
    let bytes = file.len()?;
    match u32::try_from(bytes / BLOCK_BYTES) {
        Ok(len) if len <= most => Ok(len),
        _ => Err(Error::from(ErrorKind::InvalidData)),
    }
}
