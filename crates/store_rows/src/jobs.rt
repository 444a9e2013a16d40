//! A job prints the same on a plain store and on the whole one.
ghost use Rattle.std.specs.Prelude.{◌≡◌, false};

use crate::rows::{Wrong, play};
use crate::setting::Setting;
use crate::system::System;
use g_job::{Job, NewJob};
use g_lines::Document;
use g_name::{Local, User};
use g_plain::Filestore;
use g_plain_store::PlainStore;
use g_rules::{Charge, Tariff, Turn, Usage};
use std::alloc::Global;

/// Takes turns until the job ends.
fn finish<S: Filestore>(alloc: Global, store: &mut S, job: &mut Job) -> Result<(), Wrong>
    requires open { job.old.over ≡ false }
    requires running { S.is_spent store.old ≡ false }
{
    let tariff = Tariff::new(|usage: &Usage| Charge {
        units: 1 + u64::from(usage.orders / 64) + u64::from(usage.blocks / 64),
        money: u64::from(usage.blocks / 64),
    });
    for _ in 0..100 {
        match job.turn(alloc, store, &tariff)? {
            Turn::Ran { units: _, money: _ } => {}
            Turn::Ended { units: _, money: _ } => return Ok(()),
            Turn::Wants { serial: _ } | Turn::Broken => return Err(Wrong("no end")),
        }
        if store.spent() {
            return Err(Wrong("a stop that was not told"));
        }
    }
    Err(Wrong("too many turns"))
}

/// A job with this document at its end.
fn ended<S: Filestore>(alloc: Global, store: &mut S, document: &[u8]) -> Result<Job, Wrong>
    requires { S.is_spent store.old ≡ false }
{
    let Some(name) = Local::new(b"DEEP") else {
        return Err(Wrong("no name"));
    };
    let lines = Document::of_text(alloc, document)?;
    let job = NewJob {
        name,
        user: User::master(),
        time: 20,
        money: 1_000,
        lines,
    };
    let mut job = Job::new(alloc, 1, job)?;
    finish(alloc, store, &mut job)?;
    Ok(job)
}

/// The job on a plain store.
fn over_plain(alloc: Global, document: &[u8]) -> Result<Job, Wrong> {
    let mut plain = PlainStore::new(alloc)?;
    ended(alloc, &mut plain, document)
}

/// The same on the whole store, on a new disc.
fn over_whole(rt: &HostRuntime, document: &[u8]) -> Result<Job, Wrong> {
    let mut system = Setting::parse("one_job_over_both")?.system(rt.alloc())?;
    over_system(rt, &mut system, document)
}

fn over_system(rt: &HostRuntime, system: &mut System, document: &[u8]) -> Result<Job, Wrong> {
    play(rt, system, "format")?;
    match system.store() {
        Some(store) => {
            if store.spent() {
                return Err(Wrong("a store that is spent"));
            }
            ended(rt.alloc(), store, document)
        }
        None => Err(Wrong("no store")),
    }
}

/// Whether the job on the plain store prints this text.
fn plain_says(alloc: Global, document: &[u8], text: &[u8]) -> Result<bool, Wrong> {
    let job = over_plain(alloc, document)?;
    Ok(job.monitor() == text)
}

/// The same on the whole store.
fn whole_says(rt: &HostRuntime, document: &[u8], text: &[u8]) -> Result<bool, Wrong> {
    let job = over_whole(rt, document)?;
    Ok(job.monitor() == text)
}

/// Compares what both print with this text: the ninth level is too deep, and a WHENEVER continues after it.
pub(crate) fn run(rt: &HostRuntime, document: &str, text: &str) -> Result<(), Wrong> {
    let is_plain = plain_says(rt.alloc(), document.as_bytes(), text.as_bytes())?;
    let is_whole = whole_says(rt, document.as_bytes(), text.as_bytes())?;
    if is_plain && is_whole {
        println!(rt; "one_job_over_both as it should be")?;
    } else {
        println!(rt; "one_job_over_both differs")?;
    }
    Ok(())
}
