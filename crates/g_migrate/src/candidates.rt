//! The files that may be taken off the disc.
ghost use Rattle.std.specs.Prelude.{◌≡◌, ◌&&◌, ◌++◌, true, Contains, IfOk, OnOk, is_some, nat_lt};
ghost use Rattle.std.specs.Option.{option_to_list};
ghost use Rattle.g_disc_contents.specs.Contents.{File};
ghost use Rattle.g_migrate.specs.Candidates.{candidate_in, candidates_in};
ghost use Rattle.g_laws_store.specs.UnjamPlan.{is_candidate};

use g_base::{NoMemory, blocks_for};
use g_disc::Disc;
use g_entry::FileRec;
use g_online::Online;
use std::alloc::Global;

/// A file that is on the disc and also on tape: the stamp of its version, its number, and the number of its blocks.
#[derive(Clone, Copy, PartialEq, Eq)]
pub(crate) struct Candidate {
    pub(crate) stamp: u64,
    pub(crate) number: u16,
    pub(crate) blocks: u32,
}

/// The candidates, in order of number.
pub(crate) fn candidates<D: Disc>(
    alloc: Global,
    online: &Online<D>,
) -> Result<Vec<Candidate>, NoMemory>
    requires live { online.now.live ≡ true }
    ensures { IfOk result (λ v. v.items ≡ candidates_in online.now.contents.files) }
{
    let files = online.tree().files();
    let mut candidates = Vec::new(alloc);
    for file in files {
        add(&mut candidates, candidate_for(online, file))?;
    }
    Ok(candidates)
}

/// Appends a candidate, if there is one.
fn add(candidates: &mut Vec<Candidate>, found: Option<Candidate>) -> Result<(), NoMemory>
    ensures { OnOk result (candidates.new.items ≡ candidates.old.items ++ option_to_list found) }
{
    match found {
        Some(candidate) => {
            candidates.push(candidate)?;
            Ok(())
        }
        None => Ok(()),
    }
}

/// The file as a candidate, if it is one.
fn candidate_for<D: Disc>(online: &Online<D>, file: &FileRec) -> Option<Candidate>
    requires live { online.now.live ≡ true }
    ensures { (f : File) → Contains online.now.contents.files f → f.rec ≡ file.now → result ≡ candidate_in f }
{
    if is_candidate(online, file) {
        Some(Candidate {
            stamp: file.stamp,
            number: file.number,
            blocks: blocks_for(file.len),
        })
    } else {
        None
    }
}

/// Whether the file is on the disc, isn't empty, and is also on tape.
fn is_candidate<D: Disc>(online: &Online<D>, file: &FileRec) -> bool
    requires live { online.now.live ≡ true }
    ensures { (f : File) → Contains online.now.contents.files f → f.rec ≡ file.now → result ≡ is_candidate f }
{
    if is_on_tape(file) {
        online.is_online(file.number)
    } else {
        false
    }
}

/// Whether the file isn't empty and a tape has a copy of it.
fn is_on_tape(file: &FileRec) -> bool
    ensures { result ≡ (nat_lt 0 file.now.len && is_some file.now.tape) }
{
    file.len > 0 && file.tape.is_some()
}
