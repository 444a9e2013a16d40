//! A tree of files as bytes: what its calls answer.
ghost use Rattle.g_plain.specs.Rules.{IsWithinLimits};

use crate::lines::{ask, check_call, fetch_call, list_call};
use g_plain::{Filestore, Listing, StoreCall, StoreFault, StoreReply};
use std::alloc::Global;

/// The files that rows use.
pub(crate) static NAMES: [&str; 8] = [
    ":MASTER.A",
    ":MASTER.B",
    ":MASTER.C",
    ":MASTER.D",
    ":MASTER.E",
    ":MASTER.F",
    ":MASTER.G",
    ":MASTER.H",
];

/// All replies about the files of MASTER and of A: their lists, the bytes of each file, and A's modes.
pub(crate) fn tree_of<S: Filestore>(alloc: Global, store: &mut S) -> Result<Vec<u8>, StoreFault> {
    let mut tree = Vec::new(alloc);
    note(alloc, store, &list_call("MASTER")?, &mut tree)?;
    note(alloc, store, &list_call("A")?, &mut tree)?;
    for name in &NAMES {
        note(alloc, store, &fetch_call(name)?, &mut tree)?;
        note(alloc, store, &check_call(name, "A")?, &mut tree)?;
    }
    Ok(tree)
}

/// Appends the reply to a call.
fn note<S: Filestore>(
    alloc: Global,
    store: &mut S,
    call: &StoreCall,
    tree: &mut Vec<u8>,
) -> Result<(), StoreFault>
    requires limits { IsWithinLimits call.now }
{
    match ask(alloc, store, call) {
        Ok(reply) => push_reply(tree, &reply),
        Err(StoreFault::NoFile | StoreFault::NoUser) => {
            tree.push(b'-')?;
            Ok(())
        }
        Err(fault) => Err(fault),
    }
}

fn push_reply(tree: &mut Vec<u8>, reply: &StoreReply) -> Result<(), StoreFault> {
    match reply {
        StoreReply::Bytes { bytes, .. } => {
            push_number(tree, bytes.as_slice().len() as u64)?;
            tree.extend_from_slice(bytes.as_slice())?;
        }
        StoreReply::Listing(listing) => push_listing(tree, listing)?,
        StoreReply::Modes(modes) => tree.push(modes.bits())?,
        _ => {}
    }
    Ok(())
}

fn push_listing(tree: &mut Vec<u8>, listing: &Listing) -> Result<(), StoreFault> {
    for (_full, len) in listing.rows() {
        push_number(tree, u64::from(*len))?;
    }
    Ok(())
}

fn push_number(tree: &mut Vec<u8>, number: u64) -> Result<(), StoreFault> {
    tree.extend_from_slice(&number.to_be_bytes())?;
    Ok(())
}
