//! A store is made of a disc and a rack of reels.
ghost use Rattle.std.specs.Prelude.{◌≡◌, ◌<◌, ◌≤◌, IfErr, IfOk};
ghost use Rattle.g_store_meaning.specs.Surviving.{DumpsMadeSafe};
ghost use Rattle.g_store.specs.Making.{Formats, RefusesFormat, RefusesRestore, Restored};
ghost use Rattle.g_tape.specs.Rack.{reel};
ghost use Rattle.g_store.specs.Refusing.{first_used, is_used};

use crate::store::Store;
use g_disc::Disc;
use g_entry::Head;
use g_known::KnownReels;
use g_online::Online;
use g_plain::StoreFault;
use g_restore::rebuild;
use g_tape::Tapes;
use g_tree::Tree;
use std::alloc::Global;

/// Why no store was made, and both devices in their current state, with what is known of the reels.
#[derive(Drop)]
pub struct Refused<D: Disc, T: Tapes> {
    pub fault: StoreFault,
    pub disc: D,
    pub tapes: KnownReels<T>,
}

/// Creates a new filestore on the disc by one commit, for any previous contents: `:MASTER` and `:MACROS`, and no file
/// (docs/DEFINITIONS.md). Every reel must be empty. A refusal returns both devices:
///
/// - `RackNotEmpty`: the first reel that has a block. After this and `NoMemory` the disc is unchanged.
/// - `DiscReadFault`: the gate couldn't be read; the disc is unchanged. `Stopped`: a write failed, and the disc represents
///   what it represented before, or the new filestore.
pub fn format<D: Disc, T: Tapes>(
    alloc: Global,
    disc: D,
    tapes: KnownReels<T>,
) -> Result<Store<D, T>, Refused<D, T>>
    requires low { 2177 < (D.state disc).size }
    requires high { (D.state disc).size ≤ 1_048_576 }
    ensures ok { IfOk result (λ store. Formats (D.state disc) (T.rack tapes) store) }
    ensures refused { IfErr result (λ e. RefusesFormat (D.state disc) (T.rack tapes) e.fault (D.state e.disc) (T.rack e.tapes)) }
{
    match first_used(&tapes) {
        Some(serial) => {
            return Err(Refused {
                fault: StoreFault::RackNotEmpty(serial),
                disc,
                tapes,
            });
        }
        None => {}
    }
    let tree = match Tree::new(alloc) {
        Ok(tree) => tree,
        Err(_) => {
            return Err(Refused {
                fault: StoreFault::NoMemory,
                disc,
                tapes,
            });
        }
    };
    let _users = tree.users();
    let head = Head {
        next_stamp: 1,
        last_dump: 0,
        intent: None,
    };
    match Online::fresh(alloc, disc, tree, head) {
        Ok(online) => Ok(Store {
            online,
            tapes,
            dump: None,
            spent: false,
        }),
        Err((fault, disc)) => Err(Refused {
            fault: fault.into(),
            disc,
            tapes,
        }),
    }
}

/// General restore: creates the filestore that the completed dumps of the rack give, on this disc, by one commit, and
/// returns the number of the last dump (docs/DEFINITIONS.md). The disc may have held anything, and its filestore is gone.
/// All reels must be mounted; they are made durable and read, and reading changes none of them. A refusal returns both
/// devices:
///
/// - `RackNotMounted`: the first reel that isn't mounted. `TapeReadFault`: a reel couldn't be made durable, or a read
///   failed. `NoDump`: no reel has a completed dump. `LostDirectory`: the first user whose directory is lost, or violates
///   the rules of a directory together with the preceding ones. `LostCopy`: the first file whose place no completed dump
///   holds. After these and `NoMemory` the disc is unchanged.
/// - `DiscReadFault`: the gate couldn't be read; the disc is unchanged. `Stopped`: a write failed, and the disc represents
///   what it represented before, or the dumped tree.
pub fn restore<D: Disc, T: Tapes>(
    alloc: Global,
    disc: D,
    mut tapes: KnownReels<T>,
) -> Result<(Store<D, T>, u64), Refused<D, T>>
    requires low { 2177 < (D.state disc).size }
    requires high { (D.state disc).size ≤ 1_048_576 }
    ensures ok { IfOk result (λ p. Restored (D.state disc) (T.rack tapes) p.1 p.0) }
    ensures refused { IfErr result (λ e. RefusesRestore (D.state disc) (T.rack tapes) e.fault (D.state e.disc) (T.rack e.tapes)) }
    // The dumps survive a power loss before the disc may name one of them.
    ensures durable { IfOk result (λ p. DumpsMadeSafe (T.rack tapes) p.0.rack) }
    ensures durable_stopped { IfErr result (λ e. e.fault ≡ StoreFault.Stopped → DumpsMadeSafe (T.rack tapes) (T.rack e.tapes)) }
{
    match rebuild(alloc, disc, &mut tapes) {
        Ok((online, number)) => Ok((
            Store {
                online,
                tapes,
                dump: None,
                spent: false,
            },
            number,
        )),
        Err((fault, disc)) => Err(Refused { fault, disc, tapes }),
    }
}

/// The serial of the first reel that has a block, if there is one.
fn first_used<T: Tapes>(tapes: &T) -> Option<u32>
    ensures { result ≡ first_used (T.rack tapes.now).reels }
{
    for i in 0..tapes.reels() {
        let serial = tapes.serial(i);
        if has_block(tapes, serial) {
            return Some(serial);
        }
    }
    None
}

/// Whether the reel has a block.
fn has_block<T: Tapes>(tapes: &T, serial: u32) -> bool
    ensures { result ≡ is_used (reel serial (T.rack tapes.now).reels) }
{
    match tapes.length(serial) {
        Ok(len) => 0 < len,
        Err(_) => false,
    }
}
