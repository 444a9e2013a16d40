//! The texts of every call, and the lines of a monitoring file.
ghost use Rattle.std.specs.Prelude.{IfSome};
ghost use Rattle.g_plain.specs.Replies.{IsReplyTo};
ghost use Rattle.g_plain.specs.declared.calls.StoreReply.TheVariants.{Done};

use g_monitor::{JobLine, Mark, list_text, push_header, push_job_line, push_marked, reply_text};
use g_name::{Full, Lang, Local, Path, Text, User};
use g_plain::{BudgetKind, Listing, StoreCall, StoreReply};
use g_trap::{Mode, Modes};
use g_word::Word;
use std::alloc::Global;
use std::test::Fail;

/// The file `:A.F(1/)`.
fn full() -> Option<Full> {
    Some(Full {
        user: User::new(b"A")?,
        local: Local::new(b"F")?,
        generation: 1,
        lang: Lang::spaces(),
    })
}

fn path() -> Option<Path> {
    Some(Path {
        user: None,
        local: Local::new(b"F")?,
        generation: None,
        lang: None,
    })
}

fn user() -> Option<User> {
    User::new(b"A")
}

/// A granted call on users or traps, by its number in the table.
fn on_user(number: u8) -> Option<StoreCall>
    ensures { IfSome result (λ call. IsReplyTo call Done) }
{
    match number {
        0 => Some(StoreCall::NewUser {
            user: user()?,
            space: 1,
            time: 2,
            money: 3,
        }),
        1 => Some(StoreCall::Budget {
            user: user()?,
            kind: BudgetKind::Money,
            amount: 7,
        }),
        2 => Some(StoreCall::TrapGo {
            path: path()?,
            user: user()?,
            modes: Modes::all(),
        }),
        3 => Some(StoreCall::TrapStop {
            path: path()?,
            user: user()?,
            modes: Modes::none(),
        }),
        _ => None,
    }
}

static DONE: [(u8, &[u8]); 4] = [
    (0, b"NEW USER :A\n"),
    (1, b"BUDGET SET\n"),
    (2, b"TRAPS SET\n"),
    (3, b"TRAPS SET\n"),
];

#[test]
fn users_and_traps(rt: HostRuntime) -> Result<(), Fail> {
    for (number, text) in DONE.iter() {
        let call = on_user(*number).ok_or("a call")?;
        let told = reply_text(rt.alloc(), &call, &StoreReply::Done)?;
        assert!(rt; told.as_slice() == *text, "call {number}");
    }
    Ok(())
}

/// A call on a file, by its number in the table.
fn on_file(alloc: Global, number: u8) -> Option<(StoreCall, StoreReply)>
    ensures { IfSome result (λ asked. IsReplyTo asked.0 asked.1) }
{
    let path = path()?;
    let full = full()?;
    let bytes = Text::new(alloc);
    match number {
        0 => Some((StoreCall::Put { path, bytes }, StoreReply::Made(full))),
        1 => Some((
            StoreCall::Append { path, bytes },
            StoreReply::Appended(full),
        )),
        2 => Some((StoreCall::Erase { path }, StoreReply::Erased(full))),
        3 => {
            let to = Local::new(b"G")?;
            Some((StoreCall::Rename { path, to }, StoreReply::Renamed(full)))
        }
        4 => Some((StoreCall::Retrieve { path }, StoreReply::Retrieved(full))),
        5 => {
            let mode = Mode::Read;
            Some((
                StoreCall::Fetch { path, mode },
                StoreReply::Bytes { full, bytes },
            ))
        }
        _ => None,
    }
}

static ON_FILE: [(u8, &[u8]); 6] = [
    (0, b"MADE :A.F(1/)\n"),
    (1, b"APPENDED :A.F(1/)\n"),
    (2, b"ERASED :A.F(1/)\n"),
    (3, b"RENAMED :A.F(1/)\n"),
    (4, b"RETRIEVED :A.F(1/)\n"),
    (5, b"LISTED :A.F(1/)\n"),
];

#[test]
fn files(rt: HostRuntime) -> Result<(), Fail> {
    for (number, text) in ON_FILE.iter() {
        let (call, reply) = on_file(rt.alloc(), *number).ok_or("a call")?;
        let told = reply_text(rt.alloc(), &call, &reply)?;
        assert!(rt; told.as_slice() == *text, "call {number}");
    }
    Ok(())
}

/// Modes, by the sum of their bits, with their letters.
static SHOWN: [(u8, &[u8]); 7] = [
    (31, b"TRAPS RWAXE\n"),
    (0, b"TRAPS .....\n"),
    (16, b"TRAPS R....\n"),
    (8, b"TRAPS .W...\n"),
    (4, b"TRAPS ..A..\n"),
    (2, b"TRAPS ...X.\n"),
    (1, b"TRAPS ....E\n"),
];

/// What a user may do with a file.
fn checked(bits: u8) -> Option<(StoreCall, StoreReply)>
    ensures { IfSome result (λ asked. IsReplyTo asked.0 asked.1) }
{
    let path = path()?;
    let user = user()?;
    let modes = Modes::from_bits(bits)?;
    Some((
        StoreCall::TrapCheck { path, user },
        StoreReply::Modes(modes),
    ))
}

#[test]
fn modes(rt: HostRuntime) -> Result<(), Fail> {
    for (bits, text) in SHOWN.iter() {
        let (call, reply) = checked(*bits).ok_or("a call")?;
        let told = reply_text(rt.alloc(), &call, &reply)?;
        assert!(rt; told.as_slice() == *text, "modes {bits}");
    }
    Ok(())
}

/// Listings of a file: its bytes, and the text shown for them.
static LISTED: [(&[u8], &[u8]); 6] = [
    (b"", b""),
    (b"\n", b"| \n"),
    (b"A", b"| A\n"),
    (b"A\n\nB\n", b"| A\n| \n| B\n"),
    (b" ~\x1f\x7f\xff\0", b"|  ~????\n"),
    (b"A\r\nB", b"| A?\n| B\n"),
];

#[test]
fn listed_files(rt: HostRuntime) -> Result<(), Fail> {
    for (bytes, text) in LISTED.iter() {
        let told = list_text(rt.alloc(), bytes)?;
        assert!(rt; told.as_slice() == *text, "{bytes:?}");
    }
    Ok(())
}

/// A directory of two files.
fn listing(alloc: Global) -> Result<Listing, Fail> {
    let mut rows = Listing::new(alloc);
    rows.push(full().ok_or("a file")?, 0)?;
    rows.push(full().ok_or("a file")?, 65536)?;
    Ok(rows)
}

#[test]
fn listed_directory(rt: HostRuntime) -> Result<(), Fail> {
    let user = User::master();
    let reply = StoreReply::Listing(listing(rt.alloc())?);
    let told = reply_text(rt.alloc(), &StoreCall::List { user }, &reply)?;
    assert!(rt; told.as_slice() == b"| F(1/) 0\n| F(1/) 65536\nLISTED :MASTER 2\n".as_slice());
    Ok(())
}

/// Words and numbers of a monitoring file.
const LINES: [(JobLine, &[u8]); 10] = [
    (JobLine::Loaded(32768), b"LOADED 32768 WORDS"),
    (JobLine::Assigned, b"ASSIGNED"),
    (JobLine::Released, b"RELEASED"),
    (JobLine::Deleted, b"DELETED"),
    (JobLine::End(3), b"END 3 UNITS"),
    (JobLine::TimeUp(10), b"TIME UP 10 UNITS"),
    (JobLine::MoneyUp(4), b"MONEY UP 4 MONEY"),
    (JobLine::Full, b"MONITORING FILE FULL"),
    (JobLine::Break, b"BREAK"),
    (JobLine::WaitingTape(7), b"WAITING TAPE 7"),
];

#[test]
fn job_lines(rt: HostRuntime) -> Result<(), Fail> {
    for (line, text) in LINES {
        let mut told = Text::new(rt.alloc());
        push_job_line(&mut told, line)?;
        assert!(rt; told.as_slice() == text, "{line:?}");
    }
    Ok(())
}

#[test]
fn illegal_order(rt: HostRuntime) -> Result<(), Fail> {
    let word = Word::new(0o70123456).ok_or("a word")?;
    let mut told = Text::new(rt.alloc());
    push_job_line(&mut told, JobLine::Illegal { word, at: 32767 })?;
    assert!(rt; told.as_slice() == b"ILLEGAL 70123456 AT 32767".as_slice());
    Ok(())
}

/// The text before the rest of a marked line.
static MARKS: [(Mark, &[u8]); 6] = [
    (Mark::Taken, b"- T"),
    (Mark::Fired, b"+ T"),
    (Mark::Error, b"ERROR T"),
    (Mark::Halted, b"HALTED T"),
    (Mark::Deleted, b"DELETED T"),
    (Mark::Displayed, b"DISPLAY T"),
];

#[test]
fn marks(rt: HostRuntime) -> Result<(), Fail> {
    for (mark, text) in MARKS.iter() {
        let mut told = Text::new(rt.alloc());
        push_marked(&mut told, *mark, b"T")?;
        assert!(rt; told.as_slice() == *text, "{mark:?}");
    }
    Ok(())
}

#[test]
fn first_line(rt: HostRuntime) -> Result<(), Fail> {
    let mut told = Text::new(rt.alloc());
    let name = Local::new(b"ONE").ok_or("a name")?;
    push_header(&mut told, 18446744073709551615, &name, &User::master())?;
    assert!(rt; told.as_slice() == b"JOB 18446744073709551615 ONE :MASTER".as_slice());
    Ok(())
}
