//! The writer of a dump: what the dump will hold, and each of its blocks.
ghost use Rattle.std.specs.Prelude.{◌≡◌, ℕ, ◌+◌, ◌<◌, ◌≤◌, IfNone, IfOk, IfSome, List, Some, length, slice_get};
ghost use Rattle.g_incr.specs.Pieces.{dumped_rec, plan_from};
ghost use Rattle.g_incr.specs.Plan as plan;

use crate::header::{encode_header, encode_mark};
use crate::held::is_held;
use crate::note::{DumpNote, Header};
use crate::waiting::{Ahead, all_ahead, waits};
use g_base::{Block, BlockList, NoMemory};
use g_entry::{FileRec, Format, TapeCopy, UserRec, encode_file_in, encode_user_held};
use std::alloc::Global;
use std::marker::Model;

/// The source of a block of a dump: the writer itself, or block `part` of a version's bytes, where `version` counts the
/// waiting versions from 0, in the order of their records.
#[derive(Clone, Copy, PartialEq, Eq)]
pub enum Piece {
    Ready,
    Content { version: usize, part: u32 },
}

/// A dump that is being written (docs/FORMATS.md). Contracts see it as its plan. The waiting versions ahead of each file
/// are counted once, so that finding a piece needs no pass over the files.
#[derive(Drop)]
pub struct Writer {
    serial: u32,
    place: u32,
    number: u64,
    next_stamp: u64,
    users: Vec<UserRec>,
    held: Vec<u8>,
    files: Vec<FileRec>,
    ahead: Vec<Ahead>,
}

impl Model for Writer {
    ghost use Rattle.std.specs.Prelude.{◌+◌, length};
    ghost use Rattle.g_incr.specs.WaitingFiles.{AreAhead};
    ghost use Rattle.g_incr.specs.Plan.{IsPlan, Plan};
    ghost use Rattle.g_incr.specs.Pieces.{plan_from};

    ghost Value = { Plan };

    ghost view = { λ w. plan_from w.serial w.number w.place w.next_stamp w.users.items w.held.items w.files.items };

    ghost invariant = { λ w. IsPlan (plan_from w.serial w.number w.place w.next_stamp w.users.items w.held.items w.files.items)
        × AreAhead w.files.items (length w.files.items + 1) w.ahead.items };
}

impl Writer {
    /// The writer of the dump of this number that begins at block `place` of the reel. It holds all users and the files of
    /// the users whose numbers are in `held`, by owner, then by number, as they are on the disc now. It takes ownership of
    /// these files.
    pub fn new(
        alloc: Global,
        serial: u32,
        number: u64,
        place: u32,
        next_stamp: u64,
        users: &[UserRec],
        held: &[u8],
        files: Vec<FileRec>,
    ) -> Result<Writer, NoMemory>
        requires { plan.IsPlan (plan_from serial number place next_stamp users.now held.now files.items) }
        ensures { IfOk result (λ w. w ≡ plan_from serial number place next_stamp users.now held.now files.items) }
    {
        let ahead = all_ahead(alloc, files.as_slice())?;
        let users = copied_users(alloc, users)?;
        let held = held.to_vec(alloc)?;
        Ok(Writer {
            serial,
            place,
            number,
            next_stamp,
            users,
            held,
            files,
            ahead,
        })
    }

    /// The number of blocks of tape that the dump occupies.
    pub fn needs(&self) -> u32
        ensures { result ≡ plan.needs self.now }
    {
        self.note().count + 2
    }

    /// The piece that is block `k` of the dump, counted from 0. `Ready`: it was written to `into`. `Content`: the caller
    /// must provide it, and `into` is unchanged.
    pub fn piece(&self, k: u32, into: &mut Block) -> Piece
        requires { k < plan.needs self.now }
        ensures ready { result ≡ Piece.Ready → plan.IsReadyAt self.now k into.new }
        ensures content { (i part : ℕ) → result ≡ Piece.Content i part → plan.IsContentAt self.now k i part }
        ensures kept { (i part : ℕ) → result ≡ Piece.Content i part → into.new ≡ into.old }
    {
        match self.ready(k) {
            Some(block) => {
                *into = block;
                Piece::Ready
            }
            None => self.content(k),
        }
    }

    /// Block `k` of the dump, unless it is content.
    fn ready(&self, k: u32) -> Option<Block>
        requires { k < plan.needs self.now }
        ensures ready { IfSome result (λ block. plan.IsReadyAt self.now k block) }
        ensures content { IfNone result ((1 + length self.now.users + length self.now.files ≤ k)
            × (k + 1 < plan.needs self.now)) }
    {
        let note = self.note();
        let users = u32::from(note.users);
        let records = users + u32::from(note.files);
        if k == 0 {
            Some(self.header())
        } else if k <= users {
            Some(self.user(k - 1))
        } else if k <= records {
            Some(self.file(k - 1 - users))
        } else if k > note.count {
            Some(self.mark())
        } else {
            None
        }
    }

    /// The note of the dump.
    fn note(&self) -> DumpNote
        ensures number { result.number ≡ self.now.number }
        ensures place { result.place ≡ self.now.place }
        ensures next { result.next_stamp ≡ self.now.next }
        ensures users { result.users ≡ length self.now.users }
        ensures files { result.files ≡ length self.now.files }
        ensures count { result.count + 2 ≡ plan.needs self.now }
        ensures few { result.count ≤ 200000 }
    {
        let users = self.users.len() as u16;
        let files = self.files.len() as u16;
        let content = self.ahead[self.files.len()].blocks;
        DumpNote {
            number: self.number,
            place: self.place,
            count: u32::from(users) + u32::from(files) + content,
            users,
            files,
            next_stamp: self.next_stamp,
        }
    }

    fn header(&self) -> Block
        ensures { plan.IsReadyAt self.now 0 result }
    {
        let note = self.note();
        encode_header(&Header {
            format: Format::Two,
            note,
        })
    }

    fn user(&self, i: u32) -> Block
        requires { i < length self.now.users }
        ensures { plan.IsReadyAt self.now (1 + i) result }
    {
        let user = &self.users[i as usize];
        let held = is_held(self.held.as_slice(), user.number);
        encode_user_held(Format::Two, user, held)
    }

    fn file(&self, i: u32) -> Block
        requires { i < length self.now.files }
        ensures { plan.IsReadyAt self.now (1 + length self.now.users + i) result }
    {
        let _files = self.files.len();
        let file = self.dumped(i);
        if file.len == 0 {
            encode_file_in(Format::Two, &file, Some(&BlockList::new()))
        } else {
            encode_file_in(Format::Two, &file, None)
        }
    }

    /// The record of file i in the dump.
    fn dumped(&self, i: u32) -> FileRec
        requires { i < length self.now.files }
        ensures { IfSome (slice_get self.now.files i) (λ r. result ≡ dumped_rec self.now i r) }
    {
        let before = self.ahead[i as usize].blocks;
        let mut file = self.files[i as usize].copy();
        if waits(&file) {
            let records = self.users.len() as u32 + self.files.len() as u32;
            file.tape = Some(TapeCopy {
                serial: self.serial,
                first: self.place + 1 + records + before,
            });
        }
        file.number = i as u16;
        file
    }

    fn mark(&self) -> Block
        ensures { (k : ℕ) → k + 1 ≡ plan.needs self.now → plan.IsReadyAt self.now k result }
    {
        encode_mark(&self.note())
    }

    fn content(&self, k: u32) -> Piece
        requires behind { 1 + length self.now.users + length self.now.files ≤ k }
        requires before { k + 1 < plan.needs self.now }
        ensures { (i : ℕ) × (part : ℕ) × (result ≡ Piece.Content i part) × plan.IsContentAt self.now k i part }
    {
        let records = self.users.len() as u32 + self.files.len() as u32;
        let offset = k - 1 - records;
        let behind = self.ahead.partition_point(|ahead| ahead.blocks <= offset);
        let ahead = self.ahead[behind - 1];
        Piece::Content {
            version: ahead.versions as usize,
            part: offset - ahead.blocks,
        }
    }
}

/// Copies of the records of these users.
pub fn copied_users(alloc: Global, users: &[UserRec]) -> Result<Vec<UserRec>, NoMemory>
    ensures { IfOk result (λ copied. copied.items ≡ users.now) }
{
    let mut copied = Vec::with_capacity(alloc, users.len())?;
    for user in users {
        copied.push(user.copy())?;
    }
    Ok(copied)
}
