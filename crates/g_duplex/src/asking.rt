//! Reads, writes and secures two racks: first the one whose reel leads, then possibly the other one.
ghost use Rattle.std.specs.Prelude.{◌≡◌};
ghost use Rattle.g_tape.specs.Durable.{OthersAsDurable, SecuresDurably, WritesDurably};
ghost use Rattle.g_duplex.specs.Calls.{Follows, HasAsked, HasSecured, HasWritten, SecuresOther, armed_when, counted, is_shorter, may_give_up, other_is};
ghost use Rattle.g_duplex.specs.Twins.{is_lost, may_help, of_leader, of_other};

use crate::twin::{Standing, Twin};
use g_base::{Block, raised};
use g_tape::{TapeFault, Tapes};

/// Reads block k of the leading twin; if that fails and the other one may help, reads it there.
pub(crate) fn read_twins<T: Tapes>(
    first: &mut T,
    second: &mut T,
    standing: Standing,
    serial: u32,
    k: u32,
    into: &mut Block,
) -> Result<(), TapeFault>
    ensures { HasAsked (may_help k standing) serial k (of_leader standing (T.rack first.old) (T.rack second.old)) (of_other standing (T.rack first.old) (T.rack second.old))
        result into.new (of_leader standing (T.rack first.new) (T.rack second.new)) (of_other standing (T.rack first.new) (T.rack second.new)) }
{
    let may_help = standing.may_help(k);
    match standing.leader() {
        Twin::First => read_either(first, second, may_help, serial, k, into),
        Twin::Second => read_either(second, first, may_help, serial, k, into),
    }
}

/// Reads block k of the leading reel; if that fails and the other one may help, reads it there.
fn read_either<T: Tapes>(
    leading: &mut T,
    other: &mut T,
    may_help: bool,
    serial: u32,
    k: u32,
    into: &mut Block,
) -> Result<(), TapeFault>
    ensures { HasAsked may_help serial k (T.rack leading.old) (T.rack other.old) result into.new (T.rack leading.new) (T.rack other.new) }
{
    match leading.read(serial, k, into) {
        Ok(()) => Ok(()),
        Err(fault) => {
            if fault == TapeFault::ReadFailed && may_help {
                other.read(serial, k, into)
            } else {
                Err(fault)
            }
        }
    }
}

/// Arms the rack for its next write, if that must fail.
fn arm_where<T: Tapes>(rack: &mut T, fires: bool)
    ensures { T.rack rack.new ≡ armed_when fires (T.rack rack.old) }
{
    if fires {
        rack.arm(1);
    }
}

/// Writes block k of the leading twin, and then of the other one, unless that is lost. Returns the leading twin's answer and the
/// standing after it.
pub(crate) fn write_twins<T: Tapes>(
    first: &mut T,
    second: &mut T,
    standing: Standing,
    fires: bool,
    serial: u32,
    k: u32,
    from: &Block,
) -> (Result<(), TapeFault>, Standing)
    ensures written { HasWritten fires standing serial k from.now (of_leader standing (T.rack first.old) (T.rack second.old)) (of_other standing (T.rack first.old) (T.rack second.old))
        result.0 result.1 (of_leader standing (T.rack first.new) (T.rack second.new)) (of_other standing (T.rack first.new) (T.rack second.new)) }
    ensures durable { WritesDurably serial k from.now (armed_when fires (of_leader standing (T.rack first.old) (T.rack second.old))) result.0
        (of_leader standing (T.rack first.new) (T.rack second.new)) }
    ensures others { OthersAsDurable serial (of_other standing (T.rack first.old) (T.rack second.old)) (of_other standing (T.rack first.new) (T.rack second.new)) }
{
    match standing.leader() {
        Twin::First => write_both(first, second, standing, fires, serial, k, from),
        Twin::Second => write_both(second, first, standing, fires, serial, k, from),
    }
}

/// Writes block k of the leading reel, and then of the other one, unless that is lost. Returns the leading reel's answer and
/// the standing after it.
fn write_both<T: Tapes>(
    leading: &mut T,
    other: &mut T,
    standing: Standing,
    fires: bool,
    serial: u32,
    k: u32,
    from: &Block,
) -> (Result<(), TapeFault>, Standing)
    ensures written { HasWritten fires standing serial k from.now (T.rack leading.old) (T.rack other.old) result.0 result.1 (T.rack leading.new) (T.rack other.new) }
    ensures durable { WritesDurably serial k from.now (armed_when fires (T.rack leading.old)) result.0 (T.rack leading.new) }
    ensures others { OthersAsDurable serial (T.rack other.old) (T.rack other.new) }
{
    arm_where(leading, fires);
    match leading.write(serial, k, from) {
        Err(fault) => (Err(fault), standing.after_failure(k)),
        Ok(()) => (Ok(()), write_other(other, standing, serial, k, from)),
    }
}

/// Writes block k of the other reel, unless that is lost. Returns the standing after it.
fn write_other<T: Tapes>(
    other: &mut T,
    standing: Standing,
    serial: u32,
    k: u32,
    from: &Block,
) -> Standing
    ensures follows { Follows (is_lost standing) serial k from.now standing (T.rack other.old) (T.rack other.new) result }
    ensures others { OthersAsDurable serial (T.rack other.old) (T.rack other.new) }
{
    if standing.is_lost() {
        return standing;
    }
    match other.write(serial, k, from) {
        Ok(()) => standing.after_both(k),
        Err(_) => Standing::Lost(Twin::Second),
    }
}

/// Makes the leading twin durable, and then the other one, unless that is lost. The answer is the leading twin's, unless the other
/// one fails and can't be given up. Returns the standing too.
pub(crate) fn secure_twins<T: Tapes>(
    first: &mut T,
    second: &mut T,
    standing: Standing,
    serial: u32,
) -> (Result<(), TapeFault>, Standing)
    ensures secured { HasSecured standing serial (of_leader standing (T.rack first.old) (T.rack second.old)) (of_other standing (T.rack first.old) (T.rack second.old))
        result.0 result.1 (of_leader standing (T.rack first.new) (T.rack second.new)) (of_other standing (T.rack first.new) (T.rack second.new)) }
    ensures durable { SecuresDurably serial (of_leader standing (T.rack first.old) (T.rack second.old)) result.0 (of_leader standing (T.rack first.new) (T.rack second.new)) }
    ensures others { OthersAsDurable serial (of_other standing (T.rack first.old) (T.rack second.old)) (of_other standing (T.rack first.new) (T.rack second.new)) }
{
    match standing.leader() {
        Twin::First => secure_both(first, second, standing, serial),
        Twin::Second => secure_both(second, first, standing, serial),
    }
}

/// Makes the leading reel durable, and then the other one, unless that is lost. Returns the answer and the standing.
fn secure_both<T: Tapes>(
    leading: &mut T,
    other: &mut T,
    standing: Standing,
    serial: u32,
) -> (Result<(), TapeFault>, Standing)
    ensures secured { HasSecured standing serial (T.rack leading.old) (T.rack other.old) result.0 result.1 (T.rack leading.new) (T.rack other.new) }
    ensures durable { SecuresDurably serial (T.rack leading.old) result.0 (T.rack leading.new) }
    ensures others { OthersAsDurable serial (T.rack other.old) (T.rack other.new) }
{
    match leading.secure(serial) {
        Err(fault) => (Err(fault), standing),
        Ok(()) => secure_other(leading, other, standing, serial),
    }
}

/// Makes the other reel durable, unless that is lost. If it can't be made durable, or has fewer blocks than the leading one, it is
/// lost from then on; but not if the pair would then appear mounted and didn't before. Returns the answer and the standing.
fn secure_other<T: Tapes>(
    leading: &T,
    other: &mut T,
    standing: Standing,
    serial: u32,
) -> (Result<(), TapeFault>, Standing)
    ensures secures { SecuresOther (other_is standing (may_give_up serial (T.rack leading.now) (T.rack other.old)) (is_shorter serial (T.rack leading.now) (T.rack other.old)))
        serial standing (T.rack other.old) result.0 result.1 (T.rack other.new) }
    ensures others { OthersAsDurable serial (T.rack other.old) (T.rack other.new) }
{
    if standing.is_lost() {
        return (Ok(()), standing);
    }
    let may_give_up = !leading.mounted(serial) || other.mounted(serial);
    if may_give_up && is_shorter(leading, other, serial) {
        return (Ok(()), Standing::Lost(Twin::Second));
    }
    match other.secure(serial) {
        Ok(()) => (Ok(()), standing),
        Err(_) if may_give_up => (Ok(()), Standing::Lost(Twin::Second)),
        Err(_) => (Err(TapeFault::ReadFailed), standing),
    }
}

/// Whether the other reel has fewer blocks than the leading one.
fn is_shorter<T: Tapes>(leading: &T, other: &T, serial: u32) -> bool
    ensures { result ≡ is_shorter serial (T.rack leading.now) (T.rack other.now) }
{
    match (other.length(serial), leading.length(serial)) {
        (Ok(blocks), Ok(most)) => blocks < most,
        _ => false,
    }
}

/// A failure count after a call: one more unless the answer is Ok.
pub(crate) fn counted(answer: &Result<(), TapeFault>, count: u64) -> u64
    ensures { result ≡ counted answer.now count }
{
    match answer {
        Ok(()) => count,
        Err(_) => raised(count),
    }
}
