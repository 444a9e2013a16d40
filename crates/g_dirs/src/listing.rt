//! A directory made of borrowed lists, and its blocks by their numbers.
ghost use Rattle.std.specs.Prelude.{◌≡◌, ◌<◌, ◌==◌, [], All, find, slice_get};
ghost use Rattle.std.specs.Option.{option_copied, option_map};
ghost use Rattle.g_base.specs.Fields.{padded};
ghost use Rattle.g_entry.specs.UserFields.{IsUser};
ghost use Rattle.g_dirs.specs.Directory.{AreCopies, copy_at, directory_of, entries_of};
ghost use Rattle.g_dirs.specs.Image.{block_of, entry_at, file_or_empty, user_or_empty};
ghost use Rattle.g_dirs.specs.Writing.{AreEncodable, IsEncodable, number_of_file};

use crate::CopyTable;
use g_base::{BlockList, BlockWriter};
use g_entry::{FileRec, Format, Head, UserRec, put_file, put_head, put_user};
use g_table::FileTable;
use std::marker::Model;

/// A directory that is borrowed: the head, the users and the files in order of number, and by file number the copies on
/// disc of those that are online. Contracts see the directory.
#[derive(Drop)]
pub struct Listing<'a> {
    head: &'a Head,
    users: &'a [UserRec],
    files: &'a FileTable,
    online: &'a CopyTable,
}

impl<'a> Model for Listing<'a> {
    ghost use Rattle.g_dirs.specs.Directory.{AreCopies, Directory, directory_of};

    ghost Value = { Directory };

    ghost view = { λ l. directory_of l.head.now l.users.now l.files.now l.online.now };

    ghost invariant = { λ l. AreCopies l.files.now l.online.now };
}

impl<'a> Listing<'a> {
    /// The directory of these lists.
    pub fn new(
        head: &'a Head,
        users: &'a [UserRec],
        files: &'a FileTable,
        online: &'a CopyTable,
    ) -> Listing<'a>
        requires { AreCopies files.now online.now }
        ensures { result ≡ directory_of head.now users.now files.now online.now }
    {
        Listing {
            head,
            users,
            files,
            online,
        }
    }

    /// A writer that holds block `k` of the slot.
    pub(crate) fn written(&self, k: u32) -> BlockWriter
        requires place { k < 1088 }
        requires directory { IsEncodable self.now }
        ensures { padded 512 result ≡ block_of Format.Two self.now k }
    {
        let mut writer = BlockWriter::new();
        self.put_block(&mut writer, k);
        writer
    }

    /// Replaces the content of a writer by block `k` of the slot.
    pub(crate) fn put_block(&self, writer: &mut BlockWriter, k: u32)
        requires place { k < 1088 }
        requires directory { IsEncodable self.now }
        ensures { padded 512 writer.new ≡ block_of Format.Two self.now k }
    {
        writer.restart();
        put_slot_block(writer, self.head, self.users, self.files, self.online, k);
    }
}

/// Puts block `k` of the slot of these lists into an empty writer.
#[tactic(auto, unfolding(crate::specs::Image::block_of))]
fn put_slot_block(
    writer: &mut BlockWriter,
    head: &Head,
    users: &[UserRec],
    files: &FileTable,
    online: &CopyTable,
    k: u32,
)
    requires empty { writer.old ≡ [] }
    requires place { k < 1088 }
    requires directory { IsEncodable (directory_of head.now users.now files.now online.now) }
    requires copies { AreCopies files.now online.now }
    ensures { padded 512 writer.new ≡ block_of Format.Two (directory_of head.now users.now files.now online.now) k }
{
    if k == 0 {
        put_head(writer, Format::Two, head);
        return;
    }
    if k < 64 {
        put_user_block(writer, users, k as usize - 1);
        return;
    }
    put_file_block(writer, files, online, k as u16 - 64);
}

/// The block of user `number`; nothing, which means zeros, if it is unused.
#[tactic(auto, unfolding(crate::specs::Image::user_or_empty))]
fn put_user_block(writer: &mut BlockWriter, users: &[UserRec], number: usize)
    requires empty { writer.old ≡ [] }
    requires users { All (IsUser Format.Two) users.now }
    ensures { padded 512 writer.new ≡ user_or_empty Format.Two (slice_get users.now number) }
{
    match users.get(number) {
        Some(user) => put_user(writer, Format::Two, user, false),
        None => {}
    }
}

/// The block of file `number`; nothing, which means zeros, if it is unused.
fn put_file_block(writer: &mut BlockWriter, files: &FileTable, online: &CopyTable, number: u16)
    requires empty { writer.old ≡ [] }
    requires files { AreEncodable files.now online.now }
    requires copies { AreCopies files.now online.now }
    ensures { padded 512 writer.new ≡ file_or_empty Format.Two (entry_at (entries_of files.now online.now) number) }
{
    let places = places_of(online, number);
    match file_of(files, number) {
        Some(rec) => put_file(writer, Format::Two, rec, places),
        None => {}
    }
}

/// The file of this number, if there is one.
fn file_of(files: &FileTable, number: u16) -> Option<&FileRec>
    ensures { option_copied result ≡ find (λ r. number_of_file r == number) files.now }
{
    files.get(number)
}

/// The block numbers of the file of this number, if it is online.
fn places_of(online: &CopyTable, number: u16) -> Option<&BlockList>
    ensures { option_copied result ≡ option_map (λ c. c.blocks) (copy_at online.now number) }
{
    match online.get(number) {
        Some(copy) => Some(&copy.blocks),
        None => None,
    }
}
