//! The outlook for a RESTORE, and the warning about it.
ghost use Rattle.std.specs.Prelude.{◌≡◌, ◌⊎◌, ◌<◌, Err, IfErr, IfOk, IfSome};
ghost use Rattle.std.specs.Option.{ForSome};
ghost use Rattle.g_disc.specs.Disc.{ReadsByCause};
ghost use Rattle.g_look.specs.Looks.{OfDumps};
ghost use Rattle.g_look.specs.Outlooks.{IsForeseenOn};
ghost use Rattle.g_monitor.specs.Refusals.{IsPrinted};
ghost use Rattle.g_outlook.specs.Looking.{LooksByCause};
ghost use Rattle.g_outlook.specs.Telling.{Prints, SinkCause, Warns, warning};

use crate::mounts::unmount_all;
use crate::warning::warning_of;
use g_disc::Disc;
use g_forks::mount_all;
use g_io::Sink;
use g_look::{LookFault, Outlook, foresee_restore};
use g_tape::Tapes;
use std::alloc::Global;

/// Why nothing, or only a part of the warning, could be printed.
#[derive(Clone, Copy, Debug, PartialEq, Eq)]
pub enum Untold {
    /// A block of the disc couldn't be read.
    DiscUnread,
    /// A block of a reel couldn't be read.
    TapeUnread,
    /// The sink failed.
    Output,
    /// Memory ran out, or the rack has more reels than a rack may have.
    NoMemory,
}

/// Prints the warning that a RESTORE from the rack would be refused or would lack a dump, or nothing if it would not. The devices are only read: on
/// the disc the gate and the head of the current slot, on each reel the records of the completed dumps. Each reel is mounted for that, and none is
/// mounted afterwards.
pub fn tell_outlook<K: Sink, D: Disc, T: Tapes>(
    alloc: Global,
    out: &mut K,
    disc: &mut D,
    tapes: &mut T,
) -> Result<(), Untold>
    requires size { 2177 < (D.state disc.old).size }
    ensures told { ForSome (D.state disc.old).held (λ blocks. OfDumps (T.rack tapes.old) (λ dumps. Warns blocks dumps result (K.written out.old) (K.written out.new))) }
    ensures sink { SinkCause result (K.faults out.old) (K.faults out.new) }
    ensures disc { ReadsByCause (result ≡ Err Untold.DiscUnread) (D.state disc.old) (D.state disc.new) }
    ensures rack { LooksByCause (result ≡ Err Untold.TapeUnread) (T.rack tapes.old) (T.rack tapes.new) }
{
    match outlook_of(alloc, disc, tapes) {
        Ok(outlook) => print(alloc, out, &outlook),
        Err(LookFault::DiscUnread) => Err(Untold::DiscUnread),
        Err(LookFault::TapeUnread) => Err(Untold::TapeUnread),
        Err(_) => Err(Untold::NoMemory),
    }
}

/// What a RESTORE from the rack would lack. Each reel is mounted, read and unmounted.
fn outlook_of<D: Disc, T: Tapes>(
    alloc: Global,
    disc: &mut D,
    tapes: &mut T,
) -> Result<Outlook, LookFault>
    requires size { 2177 < (D.state disc.old).size }
    ensures foreseen { ForSome (D.state disc.old).held (λ blocks. OfDumps (T.rack tapes.old) (λ dumps. IfOk result (IsForeseenOn blocks dumps))) }
    ensures printed { IfOk result (λ o. IfSome o.refusal IsPrinted) }
    ensures disc { ReadsByCause (result ≡ Err LookFault.DiscUnread) (D.state disc.old) (D.state disc.new) }
    ensures rack { LooksByCause (result ≡ Err LookFault.TapeUnread) (T.rack tapes.old) (T.rack tapes.new) }
    ensures faults { IfErr result (λ e. (e ≡ LookFault.DiscUnread) ⊎ ((e ≡ LookFault.TapeUnread) ⊎ (e ≡ LookFault.NoMemory))) }
{
    if !mount_all(tapes) {
        unmount_all(tapes);
        return Err(LookFault::NoMemory);
    }
    let outlook = foresee_restore(alloc, disc, tapes);
    unmount_all(tapes);
    outlook
}

/// Prints the warning, or nothing if there is nothing to warn about.
fn print<K: Sink>(alloc: Global, out: &mut K, outlook: &Outlook) -> Result<(), Untold>
    requires printed { IfSome outlook.now.refusal IsPrinted }
    ensures prints { Prints (warning outlook.now.refusal outlook.now.missing) result (K.written out.old) (K.written out.new) }
    ensures sink { SinkCause result (K.faults out.old) (K.faults out.new) }
    ensures only { IfErr result (λ e. (e ≡ Untold.Output) ⊎ (e ≡ Untold.NoMemory)) }
{
    let text = match warning_of(alloc, outlook) {
        Ok(text) => text,
        Err(_) => return Err(Untold::NoMemory),
    };
    match out.put(text.as_slice()) {
        Ok(()) => Ok(()),
        Err(_) => Err(Untold::Output),
    }
}
