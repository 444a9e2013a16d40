//! Compares the reels of a serial in two racks.
ghost use Rattle.std.specs.Prelude.{◌≡◌, None};
ghost use Rattle.std.specs.Option.{ForSome};
ghost use Rattle.g_tape.specs.Rack.{reel, refuses_read};
ghost use Rattle.g_tape.specs.Reads.{OnlyReads};
ghost use Rattle.g_duplex.specs.Copying.{FirstDifference, SameBlock, SameReel};
ghost use Rattle.g_duplex.specs.Rebuild.{refuses_both};

use crate::fault::DuplexFault;
use g_tape::Tapes;

/// Why a call on both reels of a serial is refused, if it is.
pub(crate) fn refuses_both<T: Tapes>(first: &T, second: &T, serial: u32) -> Option<DuplexFault>
    ensures { result ≡ refuses_both (reel serial (T.rack first.now).reels) (reel serial (T.rack second.now).reels) }
{
    match (first.length(serial), second.length(serial)) {
        (Ok(_), Ok(_)) => {
            if first.mounted(serial) && second.mounted(serial) {
                None
            } else {
                Some(DuplexFault::NotMounted)
            }
        }
        _ => Some(DuplexFault::NoTape),
    }
}

/// The length of an existing reel.
pub(crate) fn length_of<T: Tapes>(rack: &T, serial: u32) -> u32
    ensures { ForSome (reel serial (T.rack rack.now).reels) (λ r. result ≡ r.len) }
{
    match rack.length(serial) {
        Ok(len) => len,
        Err(_) => 0,
    }
}

/// The first block that differs between the reels of a serial in two racks, or that only one of them has; none if both hold the same
/// blocks. Both reels must be mounted. Each block is read at most once, and only one pair of blocks is in memory. `ReadFailed`. Only
/// counts of reads change.
pub fn first_difference<T: Tapes>(
    one: &mut T,
    other: &mut T,
    serial: u32,
) -> Result<Option<u32>, DuplexFault>
    requires { refuses_both (reel serial (T.rack one.old).reels) (reel serial (T.rack other.old).reels) ≡ None }
    ensures one { OnlyReads (T.rack one.old) (T.rack one.new) }
    ensures other { OnlyReads (T.rack other.old) (T.rack other.new) }
    ensures answer { FirstDifference serial (T.rack one.old) (T.rack other.old) result (T.rack one.new) (T.rack other.new) }
{
    let len = length_of(one, serial);
    let beside = length_of(other, serial);
    for k in 0..len.min(beside) {
        match same_block(one, other, serial, k) {
            Ok(true) => {}
            Ok(false) => return Ok(Some(k)),
            Err(fault) => return Err(fault),
        }
    }
    if len == beside {
        Ok(None)
    } else {
        Ok(Some(len.min(beside)))
    }
}

/// Whether the reels of a serial hold the same blocks, read as by `first_difference`. `ReadFailed`.
pub(crate) fn same_reel<T: Tapes>(
    one: &mut T,
    other: &mut T,
    serial: u32,
) -> Result<bool, DuplexFault>
    requires { refuses_both (reel serial (T.rack one.old).reels) (reel serial (T.rack other.old).reels) ≡ None }
    ensures one { OnlyReads (T.rack one.old) (T.rack one.new) }
    ensures other { OnlyReads (T.rack other.old) (T.rack other.new) }
    ensures answer { SameReel serial (T.rack one.old) (T.rack other.old) result (T.rack one.new) (T.rack other.new) }
{
    match first_difference(one, other, serial) {
        Ok(None) => Ok(true),
        Ok(Some(_)) => Ok(false),
        Err(fault) => Err(fault),
    }
}

/// Whether block k of both is the same. `ReadFailed`.
fn same_block<T: Tapes>(
    one: &mut T,
    other: &mut T,
    serial: u32,
    k: u32,
) -> Result<bool, DuplexFault>
    requires here { refuses_read k (reel serial (T.rack one.old).reels) ≡ None }
    requires there { refuses_read k (reel serial (T.rack other.old).reels) ≡ None }
    ensures one { OnlyReads (T.rack one.old) (T.rack one.new) }
    ensures other { OnlyReads (T.rack other.old) (T.rack other.new) }
    ensures answer { SameBlock serial k (T.rack one.old) (T.rack other.old) result (T.rack one.new) (T.rack other.new) }
{
    let mut block = [0; 512];
    let mut beside = [0; 512];
    match one.read(serial, k, &mut block) {
        Ok(()) => {}
        Err(_) => return Err(DuplexFault::ReadFailed),
    }
    match other.read(serial, k, &mut beside) {
        Ok(()) => Ok(block == beside),
        Err(_) => Err(DuplexFault::ReadFailed),
    }
}
