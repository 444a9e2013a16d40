//! What a restore of the rack would lack.
ghost use Rattle.std.specs.Prelude.{◌≡◌, ◌⊎◌, ◌<◌, All, Err, IfErr, IfOk, IfSome, List, OnErr, true};
ghost use Rattle.std.specs.Option.{ForSome};
ghost use Rattle.g_disc.specs.Disc.{ReadsByCause};
ghost use Rattle.g_entry.specs.declared.format.Format.{Format};
ghost use Rattle.g_entry.specs.declared.head.Head.{Head};
ghost use Rattle.g_entry.specs.HeadFields.{IsHead, head_block};
ghost use Rattle.g_incr.specs.Layout.{Dump};
ghost use Rattle.g_monitor.specs.Refusals.{IsPrinted};
ghost use Rattle.g_restore.specs.Gathering.{HasFew};
ghost use Rattle.g_restore.specs.KnownDumps.{AreKnown};
ghost use Rattle.g_look.specs.Looks.{OfDumps, ReadsRackByCause};
ghost use Rattle.g_look.specs.Outlooks.{EndsRestore, IsForeseen, IsForeseenOn, KnowsOf};

use crate::LookFault;
use crate::gaps::lacking;
use crate::rack::see_rack;
use g_base::Block;
use g_disc::Disc;
use g_entry::{Format, decode_head_in};
use g_plain::StoreFault;
use g_restore::{Found, fold};
use g_slots::Slots;
use g_tape::Tapes;
use std::alloc::Global;

/// What a RESTORE from a rack would lack: the refusal with which it would end, if it would be refused, and the number of a dump that the rack lacks.
#[derive(Drop)]
pub struct Outlook {
    pub refusal: Option<StoreFault>,
    pub missing: Option<u64>,
}

/// What a RESTORE from this rack would lack, by its dumps and by the last dump that the disc knows of. All reels have to be mounted. Both devices are
/// only read: on the disc the gate and the head of the current slot, on each reel the records of the completed dumps. `DiscUnread`, `TapeUnread`,
/// `NoMemory`.
pub fn foresee_restore<D: Disc, T: Tapes>(
    alloc: Global,
    disc: &mut D,
    tapes: &mut T,
) -> Result<Outlook, LookFault>
    requires size { 2177 < (D.state disc.old).size }
    requires mounted { All (λ r. r.mounted ≡ true) (T.rack tapes.old).reels }
    ensures foreseen { ForSome (D.state disc.old).held (λ blocks. OfDumps (T.rack tapes.old) (λ dumps. IfOk result (IsForeseenOn blocks dumps))) }
    ensures printed { IfOk result (λ o. IfSome o.refusal IsPrinted) }
    ensures disc { ReadsByCause (result ≡ Err LookFault.DiscUnread) (D.state disc.old) (D.state disc.new) }
    ensures tapes { ReadsRackByCause (result ≡ Err LookFault.TapeUnread) (T.rack tapes.old) (T.rack tapes.new) }
    ensures faults { IfErr result (λ e. (e ≡ LookFault.DiscUnread) ⊎ ((e ≡ LookFault.TapeUnread) ⊎ (e ≡ LookFault.NoMemory))) }
{
    let found = match see_rack(alloc, tapes) {
        Ok(found) => found,
        Err(fault) => return Err(fault),
    };
    let last = match last_known(disc) {
        Ok(last) => last,
        Err(fault) => return Err(fault),
    };
    foresee(alloc, found.as_slice(), last)
}

/// What a RESTORE from these dumps would lack, next to a disc that knows of this dump as the last one. `NoMemory`.
fn foresee(alloc: Global, found: &[Found], last: u64) -> Result<Outlook, LookFault>
    requires few { All HasFew found.now }
    requires known { (dumps : List Dump) × AreKnown found.now dumps }
    ensures foreseen { IfOk result (λ o. (dumps : List Dump) → AreKnown found.now dumps → IsForeseen dumps last o) }
    ensures printed { IfOk result (λ o. IfSome o.refusal IsPrinted) }
    ensures faults { IfErr result (λ e. e ≡ LookFault.NoMemory) }
{
    let refusal = match refusal_of(alloc, found) {
        Ok(refusal) => refusal,
        Err(fault) => return Err(fault),
    };
    match lacking(alloc, found, last) {
        Ok(missing) => Ok(Outlook { refusal, missing }),
        Err(_) => Err(LookFault::NoMemory),
    }
}

/// The refusal with which a restore from these dumps would end, if it would be refused. `NoMemory`.
fn refusal_of(alloc: Global, found: &[Found]) -> Result<Option<StoreFault>, LookFault>
    requires few { All HasFew found.now }
    requires known { (dumps : List Dump) × AreKnown found.now dumps }
    ensures ends { IfOk result (λ refusal. (dumps : List Dump) → AreKnown found.now dumps → EndsRestore dumps refusal) }
    ensures printed { IfOk result (λ refusal. IfSome refusal IsPrinted) }
    ensures faults { IfErr result (λ e. e ≡ LookFault.NoMemory) }
{
    match fold(alloc, found) {
        Ok(_dumped) => Ok(None),
        Err(StoreFault::NoDump) => Ok(Some(StoreFault::NoDump)),
        Err(StoreFault::LostDirectory(user)) => Ok(Some(StoreFault::LostDirectory(user))),
        Err(StoreFault::LostCopy(full, serial)) => Ok(Some(StoreFault::LostCopy(full, serial))),
        Err(_) => Err(LookFault::NoMemory),
    }
}

/// The number of the last dump that the disc knows of, 0 if it knows of none. `DiscUnread`.
fn last_known<D: Disc>(disc: &mut D) -> Result<u64, LookFault>
    requires size { 2177 < (D.state disc.old).size }
    ensures known { IfOk result (λ last. ForSome (D.state disc.old).held (λ blocks. KnowsOf blocks last)) }
    ensures reads { ReadsByCause (result ≡ Err LookFault.DiscUnread) (D.state disc.old) (D.state disc.new) }
    ensures only { OnErr result (result ≡ Err LookFault.DiscUnread) }
{
    let slots = match Slots::find(disc) {
        Ok(slots) => slots,
        Err(_) => return Err(LookFault::DiscUnread),
    };
    let mut block = [0; 512];
    match slots.read(disc, 0, &mut block) {
        Ok(()) => Ok(last_in(&block)),
        Err(_) => Err(LookFault::DiscUnread),
    }
}

/// The number of the last dump in the head with this block, in either format; 0 if no head has it.
fn last_in(block: &Block) -> u64
    ensures head { (format : Format) (h : Head) → IsHead h → block.now ≡ head_block format h → result ≡ h.last_dump }
    ensures none { ((format : Format) (h : Head) → IsHead h → block.now ≡ head_block format h → ⊥) → result ≡ 0 }
{
    match decode_head_in(Format::Two, block) {
        Some(head) => head.last_dump,
        None => match decode_head_in(Format::One, block) {
            Some(head) => head.last_dump,
            None => 0,
        },
    }
}
