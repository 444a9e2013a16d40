//! Replies and listings, printed line by line.
ghost use Rattle.std.specs.Prelude.{◌≡◌, ◌++◌, ◌∷◌, [], false, map, OnOk};
ghost use Rattle.g_turn.specs.Outcomes as said;
ghost use Rattle.g_turn.specs.Uses as uses;
ghost use Rattle.g_lines.specs.Lines.{lines_of};
ghost use Rattle.g_monitor.specs.Listing.{listed_lines, row_line, shown_line};
ghost use Rattle.g_monitor.specs.Parts.{full_text};
ghost use Rattle.g_monitor.specs.Replies.{last_line, lines_above, reply_lines};
ghost use Rattle.g_name.specs.declared.path.Path.{Path};
ghost use Rattle.g_plain.specs.Replies.{IsReplyTo};
ghost use Rattle.g_trap.specs.declared.mode_set.Mode.{Mode};

use crate::room::make_room;
use crate::work::Work;
use g_base::NoMemory;
use g_lines::Lines;
use g_monitor::{push_full, push_last, push_row, push_shown};
use g_name::Full;
use g_plain::{StoreCall, StoreReply};
use std::alloc::Global;

impl Work {
    /// Prints a line of a file as LISTFILE shows it.
    fn say_shown(&mut self, alloc: Global, room: usize, line: &[u8]) -> Result<(), NoMemory>
        ensures ok { OnOk result (self.new ≡ said.say room (shown_line line.now) self.old) }
        ensures blocks { OnOk result (self.new.blocks ≡ self.old.blocks) }
    {
        let start = self.text.as_slice().len();
        push_shown(&mut self.text, line)?;
        self.end_line(alloc, room, start)?;
        Ok(())
    }

    /// Prints a file of a directory as LISTDIR shows it.
    fn say_row(&mut self, alloc: Global, room: usize, row: &(Full, u32)) -> Result<(), NoMemory>
        ensures ok { OnOk result (self.new ≡ said.say room (row_line row.now) self.old) }
        ensures blocks { OnOk result (self.new.blocks ≡ self.old.blocks) }
    {
        let start = self.text.as_slice().len();
        push_row(&mut self.text, row)?;
        self.end_line(alloc, room, start)?;
        Ok(())
    }

    /// Prints the lines of a file, up to the first without room.
    fn say_lines(&mut self, alloc: Global, room: usize, bytes: &[u8]) -> Result<(), NoMemory>
        ensures ok { OnOk result
            (self.new ≡ said.say_all room (listed_lines bytes.now) self.old) }
        ensures blocks { OnOk result (self.new.blocks ≡ self.old.blocks) }
    {
        let mut lines = Lines::new(bytes);
        while let Some(line) = lines.next() {
            self.say_shown(alloc, room, line)?;
            if self.is_over() {
                return Ok(());
            }
        }
        Ok(())
    }

    /// Prints the files of a directory, up to the first without room.
    fn say_rows(&mut self, alloc: Global, room: usize, rows: &[(Full, u32)]) -> Result<(), NoMemory>
        ensures ok { OnOk result (self.new ≡ said.say_all room (map row_line rows.now) self.old) }
        ensures blocks { OnOk result (self.new.blocks ≡ self.old.blocks) }
    {
        for row in rows {
            self.say_row(alloc, room, row)?;
            if self.is_over() {
                return Ok(());
            }
        }
        Ok(())
    }

    /// Prints the last line of a granted call.
    pub(crate) fn say_last(
        &mut self,
        alloc: Global,
        room: usize,
        call: &StoreCall,
        reply: &StoreReply,
    ) -> Result<(), NoMemory>
        requires kind { IsReplyTo call.now reply.now }
        ensures ok { OnOk result (self.new ≡ said.say room (last_line call.now reply.now) self.old) }
        ensures blocks { OnOk result (self.new.blocks ≡ self.old.blocks) }
    {
        let start = self.text.as_slice().len();
        push_last(&mut self.text, call, reply)?;
        self.end_line(alloc, room, start)?;
        Ok(())
    }

    /// Prints the lines before the last line of a granted call.
    fn say_above(&mut self, alloc: Global, room: usize, reply: &StoreReply) -> Result<(), NoMemory>
        ensures ok { OnOk result
            (self.new ≡ said.say_all room (lines_above reply.now) self.old) }
        ensures blocks { OnOk result (self.new.blocks ≡ self.old.blocks) }
    {
        match reply {
            StoreReply::Bytes { bytes, .. } => {
                self.say_lines(alloc, room, bytes.as_slice())?;
                Ok(())
            }
            StoreReply::Listing(listing) => {
                self.say_rows(alloc, room, listing.rows())?;
                Ok(())
            }
            _ => Ok(()),
        }
    }

    /// Prints the lines of a granted call, up to the first without room.
    pub(crate) fn say_reply(
        &mut self,
        alloc: Global,
        room: usize,
        call: &StoreCall,
        reply: &StoreReply,
    ) -> Result<(), NoMemory>
        requires open { said.is_over self.old ≡ false }
        requires kind { IsReplyTo call.now reply.now }
        ensures ok { OnOk result
            (self.new ≡ said.say_all room (reply_lines call.now reply.now) self.old) }
        ensures blocks { OnOk result (self.new.blocks ≡ self.old.blocks) }
    {
        self.say_above(alloc, room, reply)?;
        if self.is_over() {
            return Ok(());
        }
        self.say_last(alloc, room, call, reply)?;
        Ok(())
    }

    /// Prints words and the name of a file.
    pub(crate) fn say_named(
        &mut self,
        alloc: Global,
        room: usize,
        words: &[u8],
        full: &Full,
    ) -> Result<(), NoMemory>
        ensures ok { OnOk result
            (self.new ≡ said.say room (words.now ++ full_text full.now) self.old) }
        ensures blocks { OnOk result (self.new.blocks ≡ self.old.blocks) }
    {
        let start = self.text.as_slice().len();
        self.text.extend(words)?;
        push_full(&mut self.text, full)?;
        self.end_line(alloc, room, start)?;
        Ok(())
    }

    /// Reserves memory for the lines of a file, assuming that they have about 30 bytes or more.
    fn make_room_for(&mut self, alloc: Global, bytes: &[u8]) -> Result<(), NoMemory>
        ensures { self.new ≡ self.old }
    {
        let len = bytes.len();
        make_room(
            alloc,
            &mut self.text,
            len.saturating_add(len / 16).saturating_add(64),
        )
    }

    /// LISTFILE, with the bytes of the file.
    pub(crate) fn list_bytes(
        &mut self,
        alloc: Global,
        room: usize,
        full: &Full,
        bytes: &[u8],
    ) -> Result<(), NoMemory>
        requires open { said.is_over self.old ≡ false }
        ensures ok { (path : Path) (m : Mode) → OnOk result
            (self.new ≡ uses.listed room path m full.now bytes.now self.old) }
        ensures blocks { OnOk result (self.new.blocks ≡ self.old.blocks) }
    {
        self.done();
        self.make_room_for(alloc, bytes)?;
        self.say_lines(alloc, room, bytes)?;
        if self.is_over() {
            return Ok(());
        }
        self.say_named(alloc, room, b"LISTED ", full)?;
        Ok(())
    }
}
