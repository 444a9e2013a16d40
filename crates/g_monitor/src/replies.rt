//! The texts of a store's granted calls.
ghost use Rattle.std.specs.Prelude.{◌≡◌, ◌++◌, IfOk, OnOk, codes};
ghost use Rattle.std.specs.Fmt.{decimal};
ghost use Rattle.g_lines.specs.Lines.{text_of};
ghost use Rattle.g_plain.specs.Replies.{IsReplyTo};
ghost use Rattle.g_monitor.specs.Replies.{done_line, listed_user, last_line, lines_above, reply_lines};

use crate::listing::{push_list, push_rows};
use crate::parts::{push_modes, push_named, push_number, push_words};
use g_base::NoMemory;
use g_name::Text;
use g_plain::{StoreCall, StoreReply};
use std::alloc::Global;

/// Appends the line of a granted call that returns nothing.
fn push_done(text: &mut Text, call: &StoreCall) -> Result<(), NoMemory>
    ensures { OnOk result (text.new ≡ text.old ++ done_line call.now) }
{
    match call {
        StoreCall::NewUser { user, .. } => push_words(text, b"NEW USER :", user.as_slice()),
        StoreCall::Budget { .. } => text.extend(b"BUDGET SET"),
        StoreCall::TrapGo { .. } | StoreCall::TrapStop { .. } => text.extend(b"TRAPS SET"),
        _ => Ok(()),
    }
}

/// Appends the last line of a listing of this many files.
fn push_count(text: &mut Text, call: &StoreCall, count: usize) -> Result<(), NoMemory>
    ensures { OnOk result (text.new ≡ text.old ++ (((codes "LISTED :" ++ listed_user call.now) ++ codes " ") ++ decimal count)) }
{
    text.extend(b"LISTED :")?;
    if let StoreCall::List { user } = call {
        text.extend(user.as_slice())?;
    }
    push_number(text, b" ", count as u64)
}

/// Appends the last line of a granted call, without its byte 10. If memory runs out, a prefix of it may have been appended.
pub fn push_last(text: &mut Text, call: &StoreCall, reply: &StoreReply) -> Result<(), NoMemory>
    requires kind { IsReplyTo call.now reply.now }
    ensures { OnOk result (text.new ≡ text.old ++ last_line call.now reply.now) }
{
    match reply {
        StoreReply::Done => push_done(text, call),
        StoreReply::Made(full) => push_named(text, b"MADE ", full),
        StoreReply::Appended(full) => push_named(text, b"APPENDED ", full),
        StoreReply::Bytes { full, .. } => push_named(text, b"LISTED ", full),
        StoreReply::Erased(full) => push_named(text, b"ERASED ", full),
        StoreReply::Renamed(full) => push_named(text, b"RENAMED ", full),
        StoreReply::Listing(listing) => push_count(text, call, listing.rows().len()),
        StoreReply::Modes(modes) => {
            text.extend(b"TRAPS ")?;
            push_modes(text, *modes)
        }
        StoreReply::Retrieved(full) => push_named(text, b"RETRIEVED ", full),
    }
}

/// Appends the lines before the last one, each with its byte 10.
fn push_above(text: &mut Text, reply: &StoreReply) -> Result<(), NoMemory>
    ensures { OnOk result (text.new ≡ text.old ++ text_of (lines_above reply.now)) }
{
    match reply {
        StoreReply::Bytes { bytes, .. } => push_list(text, bytes.as_slice()),
        StoreReply::Listing(listing) => push_rows(text, listing.rows()),
        _ => Ok(()),
    }
}

/// The text of a granted call, each line with its byte 10; for a Fetch it is what LISTFILE prints (`docs/MANUAL.md`, "Texts of jobs and refusals").
#[tactic(auto, using(crate::proofs::LineLemmas::last_behind))]
pub fn reply_text(alloc: Global, call: &StoreCall, reply: &StoreReply) -> Result<Text, NoMemory>
    requires kind { IsReplyTo call.now reply.now }
    ensures { IfOk result (λ text. text ≡ text_of (reply_lines call.now reply.now)) }
{
    let mut text = Text::new(alloc);
    push_above(&mut text, reply)?;
    push_last(&mut text, call, reply)?;
    text.push(b'\n')?;
    Ok(text)
}
