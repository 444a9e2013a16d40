//! Reads the directory that a disc holds.
ghost use Rattle.std.specs.Prelude.{◌≡◌, ◌≢◌, ◌⊎◌, ◌<◌, ℕ, ◌↔◌, All, IfOk, IfSome, IsTrue, List, ◌++◌, OnErr, OnOk, Option, Some, length, replicate, slice_get};
ghost use Rattle.std.specs.Option.{ForSome, option_copied};
ghost use Rattle.g_disc.specs.Disc.{ReadsByCause};
ghost use Rattle.g_entry.specs.HeadFields.{IsHead};
ghost use Rattle.g_entry.specs.Rules.{AreNumbered};
ghost use Rattle.g_slots.specs.Layout.{GateNames, current};
ghost use Rattle.g_dirs.specs.Directory.{AreCopies, AreRecords, Directory, FileEntry, IsDirectory, directory_of, entries_of};
ghost use Rattle.g_dirs.specs.Image.{StandsFor};
ghost use Rattle.g_dirs.specs.Parts.{AreInOrder, HoldsFiles, HoldsHead, HoldsUsers, IsEntry};
ghost use Rattle.g_dirs.specs.Reading.{FileCell, IsFileCell, IsUserCell, TakesFile, TakesUser, copies_in};

use crate::rules::keeps_rules;
use crate::{BoxedCopy, Dirs, DirsFault, FileCopy};
use g_base::{Block, BlockList, NoMemory};
use g_copy::DiscCopy;
use g_disc::Disc;
use g_entry::{
    FileRec, Format, Head, UserRec, decode_file_in, decode_head_in, decode_user_in, empty_block,
};
use g_slots::Slots;
use std::alloc::Global;

/// The directory that the disc holds, in either format. `NoFilestore` is returned exactly if it holds none: the
/// current slot has a block that encodes no record, or its records break a rule. `ReadFault` is returned if a block couldn't be
/// read. Nothing on the disc changes.
pub fn read_dirs<D: Disc>(alloc: Global, disc: &mut D, slots: &Slots) -> Result<Dirs, DirsFault>
    requires size { 2177 < (D.state disc.old).size }
    requires gate { GateNames slots.now (D.state disc.old).held }
    ensures ok { IfOk result (λ dirs. ForSome (D.state disc.old).held
        (λ blocks. StandsFor blocks (directory_of dirs.head dirs.users.items dirs.files.items dirs.online.items))) }
    ensures copies { IfOk result (λ dirs. AreCopies dirs.files.items dirs.online.items) }

    // What a commit requires, whether or not the blocks are observable.
    ensures records { IfOk result (λ dirs. AreRecords Format.Two (directory_of dirs.head dirs.users.items dirs.files.items dirs.online.items)) }
    ensures rules { IfOk result (λ dirs. IsDirectory (D.state disc.old).size
        (directory_of dirs.head dirs.users.items dirs.files.items dirs.online.items)) }
    ensures none { result ≡ Err DirsFault.NoFilestore →
        ForSome (D.state disc.old).held (λ blocks. (d : Directory) → StandsFor blocks d → ⊥) }
    ensures counts { ReadsByCause (result ≡ Err DirsFault.ReadFault) (D.state disc.old) (D.state disc.new) }
    ensures only { result ≢ Err DirsFault.Stopped }
{
    let (head, format) = read_head(disc, slots)?;
    let users = read_users(alloc, disc, slots, format)?;
    let (files, online) = read_files(alloc, disc, slots, format)?;
    let dirs = Dirs {
        head,
        users,
        files,
        online,
    };
    if keeps_rules(alloc, disc.size(), &dirs)? {
        Ok(dirs)
    } else {
        Err(DirsFault::NoFilestore)
    }
}

/// The head of the current slot, and the format that it is in.
fn read_head<D: Disc>(disc: &mut D, slots: &Slots) -> Result<(Head, Format), DirsFault>
    requires size { 2177 < (D.state disc.old).size }
    requires gate { GateNames slots.now (D.state disc.old).held }
    ensures ok { IfOk result (λ found. ForSome (D.state disc.old).held (λ blocks. HoldsHead found.1 found.0 (current blocks))) }
    ensures limits { IfOk result (λ found. IsHead found.0) }
    ensures none { result ≡ Err DirsFault.NoFilestore → ForSome (D.state disc.old).held
        (λ blocks. (format : Format) (head : Head) → HoldsHead format head (current blocks) → ⊥) }
    ensures counts { ReadsByCause (result ≡ Err DirsFault.ReadFault) (D.state disc.old) (D.state disc.new) }
    ensures only { result ≢ Err DirsFault.Stopped }
{
    let block = read_block(disc, slots, 0)?;
    if let Some(head) = decode_head_in(Format::Two, &block) {
        return Ok((head, Format::Two));
    }
    match decode_head_in(Format::One, &block) {
        Some(head) => Ok((head, Format::One)),
        None => Err(DirsFault::NoFilestore),
    }
}

/// The users of the current slot, in order of number.
fn read_users<D: Disc>(
    alloc: Global,
    disc: &mut D,
    slots: &Slots,
    format: Format,
) -> Result<Vec<UserRec>, DirsFault>
    requires size { 2177 < (D.state disc.old).size }
    requires gate { GateNames slots.now (D.state disc.old).held }
    ensures ok { IfOk result (λ users. ForSome (D.state disc.old).held (λ blocks. HoldsUsers format users.items (current blocks))) }
    ensures in_order { IfOk result (λ users. AreInOrder format users.items) }
    ensures none { result ≡ Err DirsFault.NoFilestore → ForSome (D.state disc.old).held
        (λ blocks. (users : List UserRec) → HoldsUsers format users (current blocks) → ⊥) }
    ensures counts { ReadsByCause (result ≡ Err DirsFault.ReadFault) (D.state disc.old) (D.state disc.new) }
    ensures only { result ≢ Err DirsFault.Stopped }
{
    let mut users = Vec::new(alloc);
    for number in 0..63 {
        // In a loop the proof reads the arms of a `match`, not the result of `?`.
        let block = match read_block(disc, slots, 1 + u32::from(number)) {
            Ok(block) => block,
            Err(fault) => return Err(fault),
        };
        match take_user(format, &block, number, &mut users) {
            Ok(()) => {}
            Err(fault) => return Err(fault),
        }
    }
    Ok(users)
}

/// Appends the user of this number, if its block encodes one. `NoFilestore` is returned exactly if the block
/// is neither a user's nor empty, or a lower number is unused.
fn take_user(
    format: Format,
    block: &Block,
    number: u8,
    users: &mut Vec<UserRec>,
) -> Result<(), DirsFault>
    ensures ok { OnOk result (TakesUser format number block.now users.old.items users.new.items) }
    ensures none { result ≡ Err DirsFault.NoFilestore → (cell : Option UserRec) → IsUserCell format number block.now cell
        → (user : UserRec) × (cell ≡ Some user) × (length users.old.items ≢ number) }
    ensures only { OnErr result (result ≡ Err DirsFault.NoFilestore ⊎ result ≡ Err DirsFault.NoMemory) }
{
    match user_in(format, block, number) {
        Ok(None) => Ok(()),
        Ok(Some(user)) => {
            if users.len() != usize::from(number) {
                return Err(DirsFault::NoFilestore);
            }
            match users.push(user) {
                Ok(()) => Ok(()),
                Err(_) => Err(DirsFault::NoMemory),
            }
        }
        Err(fault) => Err(fault),
    }
}

/// The user that the block encodes, or none if the number is unused. `NoFilestore` is returned if it is neither.
fn user_in(format: Format, block: &Block, number: u8) -> Result<Option<UserRec>, DirsFault>
    ensures found { IfOk result (IsUserCell format number block.now) }
    ensures again { (cell : Option UserRec) → IsUserCell format number block.now cell → result ≡ Ok cell }
    ensures only { OnErr result (result ≡ Err DirsFault.NoFilestore) }
{
    if is_unused(block) {
        return Ok(None);
    }
    match decode_user_in(format, block, number) {
        Some(user) => Ok(Some(user)),
        None => Err(DirsFault::NoFilestore),
    }
}

/// Whether it is the block of an unused number.
fn is_unused(block: &Block) -> bool
    ensures { IsTrue result ↔ (block.now ≡ replicate 512 0) }
{
    *block == empty_block()
}

/// The files of the current slot in order of number, and the copies of those that are online.
fn read_files<D: Disc>(
    alloc: Global,
    disc: &mut D,
    slots: &Slots,
    format: Format,
) -> Result<(Vec<FileRec>, Vec<FileCopy>), DirsFault>
    requires size { 2177 < (D.state disc.old).size }
    requires gate { GateNames slots.now (D.state disc.old).held }
    ensures ok { IfOk result (λ found. ForSome (D.state disc.old).held
        (λ blocks. HoldsFiles format (entries_of found.0.items found.1.items) (current blocks))) }
    ensures numbered { IfOk result (λ found. AreNumbered found.0.items) }
    ensures entries { IfOk result (λ found. All (IsEntry format) (entries_of found.0.items found.1.items)) }
    ensures copies { IfOk result (λ found. AreCopies found.0.items found.1.items) }
    ensures none { result ≡ Err DirsFault.NoFilestore → ForSome (D.state disc.old).held
        (λ blocks. (files : List FileEntry) → HoldsFiles format files (current blocks) → ⊥) }
    ensures counts { ReadsByCause (result ≡ Err DirsFault.ReadFault) (D.state disc.old) (D.state disc.new) }
    ensures only { result ≢ Err DirsFault.Stopped }
{
    let mut files = Vec::new(alloc);
    let mut online = Vec::new(alloc);
    for number in 0..1024 {
        // A `match` here too, for the proof.
        let block = match read_block(disc, slots, 64 + u32::from(number)) {
            Ok(block) => block,
            Err(fault) => return Err(fault),
        };
        match take_file(alloc, format, &block, number, &mut files, &mut online) {
            Ok(()) => {}
            Err(fault) => return Err(fault),
        }
    }
    Ok((files, online))
}

/// Appends the file of this number, if its block encodes one, and its copy, if it
/// is online. `NoFilestore` is returned exactly if the block is neither a file's nor empty.
fn take_file(
    alloc: Global,
    format: Format,
    block: &Block,
    number: u16,
    files: &mut Vec<FileRec>,
    online: &mut Vec<FileCopy>,
) -> Result<(), DirsFault>
    ensures ok { OnOk result (TakesFile format number block.now files.old.items files.new.items online.old.items online.new.items) }
    ensures none { result ≡ Err DirsFault.NoFilestore → (cell : Option FileCell) → IsFileCell format number block.now cell → ⊥ }
    ensures only { OnErr result (result ≡ Err DirsFault.NoFilestore ⊎ result ≡ Err DirsFault.NoMemory) }
{
    match file_in(format, block, number) {
        Ok(None) => Ok(()),
        Ok(Some((rec, places))) => {
            add_copy(alloc, &rec, places.as_ref(), online)?;
            match files.push(rec) {
                Ok(()) => Ok(()),
                Err(_) => Err(DirsFault::NoMemory),
            }
        }
        Err(fault) => Err(fault),
    }
}

/// Appends the copy of a file, if it is online.
fn add_copy(
    alloc: Global,
    rec: &FileRec,
    places: Option<&BlockList>,
    online: &mut Vec<FileCopy>,
) -> Result<(), NoMemory>
    ensures { OnOk result (online.new.items ≡ online.old.items ++ copies_in rec.now (option_copied places.entry)) }
{
    let Some(places) = places else {
        return Ok(());
    };
    let copy = DiscCopy {
        blocks: places.copy(),
        len: rec.len,
    };
    online.push(BoxedCopy::new(alloc, copy)?.of_file(rec.number))?;
    Ok(())
}

/// The file that the block encodes, or none if the number is unused. `NoFilestore` is returned if it is neither.
fn file_in(
    format: Format,
    block: &Block,
    number: u16,
) -> Result<Option<(FileRec, Option<BlockList>)>, DirsFault>
    ensures found { IfOk result (IsFileCell format number block.now) }
    ensures again { (cell : Option FileCell) → IsFileCell format number block.now cell → result ≡ Ok cell }
    ensures only { OnErr result (result ≡ Err DirsFault.NoFilestore) }
{
    if is_unused(block) {
        return Ok(None);
    }
    match decode_file_in(format, block, number) {
        Some(found) => Ok(Some(found)),
        None => Err(DirsFault::NoFilestore),
    }
}

/// Block `k` of the current slot.
fn read_block<D: Disc>(disc: &mut D, slots: &Slots, k: u32) -> Result<Block, DirsFault>
    requires place { k < 1088 }
    requires size { 2177 < (D.state disc.old).size }
    requires gate { GateNames slots.now (D.state disc.old).held }
    ensures ok { IfOk result (λ block. ForSome (D.state disc.old).held (λ blocks. slice_get (current blocks) k ≡ Some block)) }
    ensures counts { ReadsByCause (result ≡ Err DirsFault.ReadFault) (D.state disc.old) (D.state disc.new) }
    ensures only { OnErr result (result ≡ Err DirsFault.ReadFault) }
{
    let mut block = empty_block();
    match slots.read(disc, k, &mut block) {
        Ok(()) => Ok(block),
        Err(_) => Err(DirsFault::ReadFault),
    }
}
