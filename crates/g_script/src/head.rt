//! The first line of an item: its turn and its operator line.
ghost use Rattle.std.specs.Prelude.{◌≡◌, None, Some, IfOk, IsTrue, MatchOption};
ghost use Rattle.g_script.specs.HeadReader as how;
ghost use Rattle.g_verbs.specs.VerbReader as verbs;

use crate::Operator;
use crate::number::{from_one, is_same, number_behind, parts_at};
use g_base::NoMemory;
use g_lang::behind;
use g_lines::number;
use g_name::{Local, Path, Text, User, parse_path};
use std::alloc::Global;

/// The greatest serial number.
const MOST_SERIAL: u64 = 999_999;

/// The greatest turn, and the greatest number of a write that should fail.
const MOST_COUNT: u64 = 1_000_000_000;

/// The greatest number of a terminal.
const MOST_TERMINAL: u64 = 8;

/// The greatest TIME, and the greatest MONEY, of a job.
const MOST_ALLOWANCE: u64 = 1_000_000;

/// What a first line requests: a job without its document, or anything else.
#[derive(Drop)]
pub(crate) enum What {
    Bare(Operator),
    Job {
        name: Local,
        user: User,
        time: u64,
        money: Option<u64>,
    },
}

/// What a first line says.
#[derive(Drop)]
pub(crate) struct Head {
    pub turn: u64,
    pub what: What,
}

/// What a first line says, if it is one. Allocates memory only for the text of a TYPE.
pub(crate) fn head_of(alloc: Global, line: &[u8]) -> Result<Option<Head>, NoMemory>
    ensures { IfOk result (λ head. head ≡ how.head_read line.now) }
{
    match parts_at(line, b' ') {
        Some((turn, asked)) => match number(turn, MOST_COUNT) {
            Some(turn) => match what_of(alloc, asked)? {
                Some(what) => Ok(Some(Head { turn, what })),
                None => Ok(None),
            },
            None => Ok(None),
        },
        None => Ok(None),
    }
}

/// The operator line after the turn.
fn what_of(alloc: Global, text: &[u8]) -> Result<Option<What>, NoMemory>
    ensures { IfOk result (λ what. what ≡ how.what_read text.now) }
{
    if begins_as_job(text) {
        return Ok(job(text));
    }
    if let Some(operator) = word(text) {
        return Ok(Some(What::Bare(operator)));
    }
    if let Some(operator) = numbered(text) {
        return Ok(Some(What::Bare(operator)));
    }
    if let Some(operator) = migration(text) {
        return Ok(Some(What::Bare(operator)));
    }
    if let Some(operator) = login(text) {
        return Ok(Some(What::Bare(operator)));
    }
    if let Some(operator) = typed(alloc, text)? {
        return Ok(Some(What::Bare(operator)));
    }
    Ok(job(text))
}

/// Whether a text begins as JOB does, and nothing else: its first byte shows it, so no other word is compared.
fn begins_as_job(text: &[u8]) -> bool
    ensures { IsTrue result → how.what_read text.now ≡ how.job_read text.now }
{
    match text.split_first() {
        Some((first, _)) => *first == b'J',
        None => false,
    }
}

/// An operator line that is only a word.
fn word(text: &[u8]) -> Option<Operator>
    ensures { result ≡ how.word_read text.now }
{
    if is_same(text, b"FORMAT") {
        return Some(Operator::Format);
    }
    if is_same(text, b"START") {
        return Some(Operator::Start);
    }
    if is_same(text, b"RESTORE") {
        return Some(Operator::Restore);
    }
    if is_same(text, b"SHUT") {
        return Some(Operator::Shut);
    }
    None
}

/// An operator line that is a word and a number.
fn numbered(text: &[u8]) -> Option<Operator>
    ensures { result ≡ how.numbered_read text.now }
{
    if let Some(serial) = number_behind(MOST_SERIAL, b"MOUNT ", text) {
        return Some(Operator::Mount(serial as u32));
    }
    if let Some(serial) = number_behind(MOST_SERIAL, b"UNMOUNT ", text) {
        return Some(Operator::Unmount(serial as u32));
    }
    if let Some(serial) = number_behind(MOST_SERIAL, b"DUMP ", text) {
        return Some(Operator::Dump(serial as u32));
    }
    if let Some(serial) = number_behind(MOST_SERIAL, b"PROCESS ", text) {
        return Some(Operator::Process(serial as u32));
    }
    stop(text)
}

/// STOP DISC and STOP TAPE.
fn stop(text: &[u8]) -> Option<Operator>
    ensures { result ≡ how.stop_read text.now }
{
    if let Some(k) = number_behind(MOST_COUNT, b"STOP DISC ", text) {
        return Some(Operator::StopDisc(k as u32));
    }
    if let Some(k) = number_behind(MOST_COUNT, b"STOP TAPE ", text) {
        return Some(Operator::StopTape(k as u32));
    }
    logout(text)
}

/// LOGOUT and its terminal.
fn logout(text: &[u8]) -> Option<Operator>
    ensures { result ≡ how.logout_read text.now }
{
    match number_behind(MOST_TERMINAL, b"LOGOUT ", text) {
        Some(t) => Some(Operator::Logout(t as u8)),
        None => None,
    }
}

/// A terminal, and the text after its comma.
fn terminal(text: &[u8]) -> Option<(u8, &[u8])>
    ensures { MatchOption result (how.terminal_read text.now ≡ None)
        (λ r. how.terminal_read text.now ≡ Some (r.0, r.1.now)) }
{
    match parts_at(text, b',') {
        Some((t, rest)) => match from_one(t, MOST_TERMINAL) {
            Some(t) => Some((t as u8, rest)),
            None => None,
        },
        None => None,
    }
}

/// LOGIN, with its terminal, user and TIME.
fn login(text: &[u8]) -> Option<Operator>
    ensures { result ≡ how.login_read text.now }
{
    match behind(b"LOGIN ", text) {
        Some(rest) => login_behind(rest),
        None => None,
    }
}

/// The text after the word LOGIN.
fn login_behind(text: &[u8]) -> Option<Operator>
    ensures { result ≡ how.login_behind text.now }
{
    match terminal(text) {
        Some((t, rest)) => match user_of(rest) {
            Some((user, rest)) => match time_of(rest) {
                Some(time) => Some(Operator::Login { t, user, time }),
                None => None,
            },
            None => None,
        },
        None => None,
    }
}

/// TYPE, with its terminal and the text after the comma.
fn typed(alloc: Global, text: &[u8]) -> Result<Option<Operator>, NoMemory>
    ensures { IfOk result (λ operator. operator ≡ how.typed_read text.now) }
{
    match behind(b"TYPE ", text) {
        Some(rest) => match terminal(rest) {
            Some((t, line)) => {
                let text = Text::from_slice(alloc, line)?;
                Ok(Some(Operator::Typed { t, text }))
            }
            None => Ok(None),
        },
        None => Ok(None),
    }
}

/// MIGRATE and its path.
fn migration(text: &[u8]) -> Option<Operator>
    ensures { result ≡ how.migration_read text.now }
{
    match behind(b"MIGRATE ", text) {
        Some(name) => match file(name) {
            Some(path) => Some(Operator::Migrate(path)),
            None => None,
        },
        None => None,
    }
}

/// The path of a file.
fn file(text: &[u8]) -> Option<Path>
    ensures { result ≡ verbs.file_read text.now }
{
    parse_path(text).ok()
}

/// A user with its colon.
fn user(text: &[u8]) -> Option<User>
    ensures { result ≡ verbs.user_read text.now }
{
    User::parse(text).ok()
}

/// A local name.
fn local(text: &[u8]) -> Option<Local>
    ensures { result ≡ verbs.local_read text.now }
{
    Local::new(text)
}

/// JOB, without its document.
fn job(text: &[u8]) -> Option<What>
    ensures { result ≡ how.job_read text.now }
{
    match behind(b"JOB ", text) {
        Some(rest) => job_behind(rest),
        None => None,
    }
}

/// The text after the word JOB.
fn job_behind(text: &[u8]) -> Option<What>
    ensures { result ≡ how.job_behind text.now }
{
    match name_of(text) {
        Some((name, rest)) => match user_of(rest) {
            Some((user, rest)) => match allowances(rest) {
                Some((time, money)) => Some(What::Job {
                    name,
                    user,
                    time,
                    money,
                }),
                None => None,
            },
            None => None,
        },
        None => None,
    }
}

/// A job's name, and the text after its comma.
fn name_of(text: &[u8]) -> Option<(Local, &[u8])>
    ensures { MatchOption result (how.name_read text.now ≡ None)
        (λ r. how.name_read text.now ≡ Some (r.0, r.1.now)) }
{
    match parts_at(text, b',') {
        Some((name, rest)) => match local(name) {
            Some(name) => Some((name, rest)),
            None => None,
        },
        None => None,
    }
}

/// A job's user, and the text after its comma.
fn user_of(text: &[u8]) -> Option<(User, &[u8])>
    ensures { MatchOption result (how.job_user_read text.now ≡ None)
        (λ r. how.job_user_read text.now ≡ Some (r.0, r.1.now)) }
{
    match parts_at(text, b',') {
        Some((name, rest)) => match user(name) {
            Some(user) => Some((user, rest)),
            None => None,
        },
        None => None,
    }
}

/// A job's TIME, and its MONEY if that is given.
fn allowances(text: &[u8]) -> Option<(u64, Option<u64>)>
    ensures { result ≡ how.allowances_read text.now }
{
    match parts_at(text, b',') {
        Some((time, money)) => match (time_of(time), money_of(money)) {
            (Some(time), Some(money)) => Some((time, Some(money))),
            _ => None,
        },
        None => match time_of(text) {
            Some(time) => Some((time, None)),
            None => None,
        },
    }
}

/// TIME and its number.
fn time_of(text: &[u8]) -> Option<u64>
    ensures { result ≡ how.time_read text.now }
{
    number_behind(MOST_ALLOWANCE, b"TIME ", text)
}

/// MONEY and its number, which may be 0.
fn money_of(text: &[u8]) -> Option<u64>
    ensures { result ≡ how.money_read text.now }
{
    match behind(b"MONEY ", text) {
        Some(digits) => number(digits, MOST_ALLOWANCE),
        None => None,
    }
}
