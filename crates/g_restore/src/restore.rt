//! Rebuilds a filestore from the completed dumps of a rack.
ghost use Rattle.std.specs.Prelude.{◌≡◌, ◌≢◌, ◌⊎◌, ◌↔◌, ◌<◌, ◌≤◌, ℕ, All, IfErr, IfOk, List, OnErr, [], is_some};
ghost use Rattle.g_base.specs.Counts.{Rose};
ghost use Rattle.g_base.specs.ToldContent.{Changes};
ghost use Rattle.g_disc.specs.Disc.{Causes, StayDurable};
ghost use Rattle.g_disc.specs.Durable.{PowerLossLeaves};
ghost use Rattle.g_dirs.specs.Durable.{IsDiscSafe};
ghost use Rattle.g_tape.specs.Reads.{OnlyReads};
ghost use Rattle.g_disc_contents.specs.Contents.{Contents};
ghost use Rattle.g_disc_contents.specs.Facts.{IsTied};
ghost use Rattle.g_incr.specs.Layout.{Dump};
ghost use Rattle.g_shelf.specs.LastDump.{first_unmounted};
ghost use Rattle.g_store_meaning.specs.Belonging.{Belong};
ghost use Rattle.g_store_meaning.specs.Meaning.{told_reels};
ghost use Rattle.g_store_meaning.specs.Reading.{ReelsTold};
ghost use Rattle.g_store_meaning.specs.Surviving.{DumpsMadeSafe, DumpsMadeSafeBy};
ghost use Rattle.g_online.specs.Beginning.{AsBeforeOr, HasMade, first_contents};
ghost use Rattle.g_restore.specs.Reels.{AreOnReels};
ghost use Rattle.g_restore.specs.Losses.{LostIsNamed};
ghost use Rattle.g_restore.specs.Restoration.{IsOfDisc, IsOfReels, IsRestored, KeepsBelonging, NothingIsLost, answer_of};
ghost use Rattle.g_restore.specs.Steps.{CanBeMade, IsGiven, head_of};

use crate::directory::{Dumped, fold};
use crate::dumps::read_durable_rack;
use g_disc::Disc;
use g_entry::Head;
use g_online::Online;
use g_plain::StoreFault;
use g_shelf::first_unmounted;
use g_tape::Tapes;
use g_tree::Tree;
use std::alloc::Global;

/// Builds the filestore that the completed dumps give, on this disc, by one commit, and returns the number of the last
/// dump. The users and the next stamp are those of that dump, each user's files are those of the newest dump that holds the
/// user, and every file that isn't empty is offline, at the place that its record names. The disc may have held anything,
/// and need not belong to the rack. All reels must be mounted. A refusal returns the disc, and the content of the reels is
/// unchanged:
///
/// - `RackNotMounted`: the first reel that isn't mounted. `TapeReadFault`: a reel couldn't be made durable, or a read of it failed.
/// `NoDump`: no reel has a completed dump. With these, and with `LostDirectory`, `LostCopy` and `NoMemory`, the disc is unchanged.
/// - `LostDirectory`: the first user of the last dump whose directory no dump holds, or whose directory breaks the rules of a directory
/// together with those of the users before. `LostCopy`: otherwise the first file, by owner and then in the order of its dump, whose place
/// isn't content of completed dumps.
/// - `DiscReadFault`: the gate couldn't be read; the disc is unchanged. `Stopped`: a write failed, and the disc holds what it held, or the
/// new filestore.
pub fn rebuild<D: Disc, T: Tapes>(
    alloc: Global,
    disc: D,
    tapes: &mut T,
) -> Result<(Online<D>, u64), (StoreFault, D)>
    requires low { 2177 < (D.state disc).size }
    requires high { (D.state disc).size ≤ 1_048_576 }
    ensures ok { IfOk result (λ made. (contents : Contents)
        × IsRestored (told_reels (T.rack tapes.old)) (D.state disc).held made.1 contents × HasMade contents (D.state disc) made.0) }
    ensures tied { IfOk result (λ made. IsTied made.0) }
    ensures stopped { IfErr result (λ e. e.0 ≡ StoreFault.Stopped → (number : ℕ) × (contents : Contents)
        × IsRestored (told_reels (T.rack tapes.old)) (D.state disc).held number contents
        × Changes (AsBeforeOr contents) (D.state disc).held (D.state e.1).held
        × (IsDiscSafe (D.state disc) → PowerLossLeaves (AsBeforeOr contents) (D.state disc) (D.state e.1))) }
    ensures safe { IfErr result (λ e. IsDiscSafe (D.state disc) → IsDiscSafe (D.state e.1)) }
    ensures disc_durable { IfErr result (λ e. e.0 ≢ StoreFault.Stopped → StayDurable (D.state disc) (D.state e.1)) }
    ensures unread { IfErr result (λ e. e.0 ≡ StoreFault.DiscReadFault → (number : ℕ) × (contents : Contents)
        × IsRestored (told_reels (T.rack tapes.old)) (D.state disc).held number contents) }
    ensures unmounted { (serial : ℕ) → (answer_of result ≡ Err (StoreFault.RackNotMounted serial))
        ↔ (first_unmounted (T.rack tapes.old).reels ≡ Some serial) }
    ensures none { answer_of result ≡ Err StoreFault.NoDump → AreOnReels (told_reels (T.rack tapes.old)) [] }
    ensures lost { LostIsNamed (told_reels (T.rack tapes.old)) (answer_of result) }
    ensures reads { OnlyReads (T.rack tapes.old) (T.rack tapes.new) }
    ensures kept { (answer_of result ≡ Err StoreFault.TapeReadFault → ⊥)
        → (T.rack tapes.new).read_faults ≡ (T.rack tapes.old).read_faults }
    ensures rose { answer_of result ≡ Err StoreFault.TapeReadFault
        → Rose (T.rack tapes.old).read_faults (T.rack tapes.new).read_faults }
    ensures durable { DumpsMadeSafeBy (answer_of result) (T.rack tapes.old) (T.rack tapes.new) }
    ensures same { IfErr result (λ e. e.0 ≢ StoreFault.Stopped
        → ((D.state e.1).held ≡ (D.state disc).held) × ((D.state e.1).writes ≡ (D.state disc).writes)) }
    ensures causes { IfErr result (λ e. Causes (e.0 ≡ StoreFault.DiscReadFault) (e.0 ≡ StoreFault.Stopped)
        (D.state disc) (D.state e.1)) }
    ensures only { IfErr result (λ e. IsOfReels e.0 ⊎ IsOfDisc e.0) }

    // Disc and rack need not belong together; if they do, they still do afterwards, and nothing is lost.
    ensures belongs { IfOk result (λ made. KeepsBelonging (D.state disc).held (T.rack tapes.old) made.0.disc.held (T.rack tapes.new)) }
    ensures belongs_refused { IfErr result (λ e. KeepsBelonging (D.state disc).held (T.rack tapes.old)
        (D.state e.1).held (T.rack tapes.new)) }
    ensures found { ReelsTold (told_reels (T.rack tapes.old)) → Belong (D.state disc).held (T.rack tapes.old)
        → NothingIsLost (answer_of result) }
{
    match dumped_directory(alloc, tapes) {
        Ok(dumped) => make(alloc, disc, dumped),
        Err(fault) => Err((fault, disc)),
    }
}

/// The directory that the completed dumps give.
fn dumped_directory<T: Tapes>(alloc: Global, tapes: &mut T) -> Result<Dumped, StoreFault>
    ensures ok { IfOk result (IsGiven (told_reels (T.rack tapes.old))) }
    ensures unmounted { (serial : ℕ) → (result ≡ Err (StoreFault.RackNotMounted serial))
        ↔ (first_unmounted (T.rack tapes.old).reels ≡ Some serial) }
    ensures none { result ≡ Err StoreFault.NoDump → AreOnReels (told_reels (T.rack tapes.old)) [] }
    ensures lost { LostIsNamed (told_reels (T.rack tapes.old)) result }
    ensures reads { OnlyReads (T.rack tapes.old) (T.rack tapes.new) }
    ensures kept { (result ≡ Err StoreFault.TapeReadFault → ⊥)
        → (T.rack tapes.new).read_faults ≡ (T.rack tapes.old).read_faults }
    ensures rose { result ≡ Err StoreFault.TapeReadFault
        → Rose (T.rack tapes.old).read_faults (T.rack tapes.new).read_faults }
    ensures only { IfErr result IsOfReels }
    ensures durable { IfOk result (λ dumped. DumpsMadeSafe (T.rack tapes.old) (T.rack tapes.new)) }
{
    match first_unmounted(tapes) {
        Some(serial) => return Err(StoreFault::RackNotMounted(serial)),
        None => {}
    }
    match read_durable_rack(alloc, tapes) {
        Ok(found) => fold(alloc, found.as_slice()),
        Err(fault) => Err(fault.into()),
    }
}

/// Builds a filestore with the directory on the disc. `DiscReadFault`, `Stopped` and `NoMemory` as for `rebuild`.
fn make<D: Disc>(
    alloc: Global,
    disc: D,
    dumped: Dumped,
) -> Result<(Online<D>, u64), (StoreFault, D)>
    requires low { 2177 < (D.state disc).size }
    requires high { (D.state disc).size ≤ 1_048_576 }
    requires directory { CanBeMade dumped }
    ensures ok { IfOk result (λ made. HasMade
        (first_contents (is_some (D.state disc).held) (head_of dumped) dumped.users.items dumped.files.items) (D.state disc) made.0) }
    ensures number { IfOk result (λ made. made.1 ≡ dumped.number) }
    ensures tied { IfOk result (λ made. IsTied made.0) }
    ensures stopped { IfErr result (λ e. e.0 ≡ StoreFault.Stopped → Changes (AsBeforeOr
        (first_contents (is_some (D.state disc).held) (head_of dumped) dumped.users.items dumped.files.items))
        (D.state disc).held (D.state e.1).held) }
    ensures same { IfErr result (λ e. e.0 ≢ StoreFault.Stopped
        → ((D.state e.1).held ≡ (D.state disc).held) × ((D.state e.1).writes ≡ (D.state disc).writes)) }
    ensures causes { IfErr result (λ e. Causes (e.0 ≡ StoreFault.DiscReadFault) (e.0 ≡ StoreFault.Stopped)
        (D.state disc) (D.state e.1)) }
    ensures safe { IfErr result (λ e. IsDiscSafe (D.state disc) → IsDiscSafe (D.state e.1)) }
    ensures disc_durable { IfErr result (λ e. e.0 ≢ StoreFault.Stopped → StayDurable (D.state disc) (D.state e.1)) }
    ensures survives { IfErr result (λ e. e.0 ≡ StoreFault.Stopped → IsDiscSafe (D.state disc) → PowerLossLeaves (AsBeforeOr
        (first_contents (is_some (D.state disc).held) (head_of dumped) dumped.users.items dumped.files.items))
        (D.state disc) (D.state e.1)) }
    ensures only { IfErr result (λ e. IsOfDisc e.0) }
{
    let Dumped {
        number,
        next_stamp,
        users,
        files,
    } = dumped;
    let head = Head {
        next_stamp,
        last_dump: number,
        intent: None,
    };
    let tree = match Tree::from_records(alloc, users, files) {
        Ok(tree) => tree,
        Err(_) => return Err((StoreFault::NoMemory, disc)),
    };
    match Online::fresh(alloc, disc, tree, head) {
        Ok(online) => Ok((online, number)),
        Err((fault, disc)) => Err((fault.into(), disc)),
    }
}
