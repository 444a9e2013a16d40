//! One reel in each of two racks: which of them answers, which is lost, and what the pair shows.
use crate::racks::{armed, pair, rack, rebuild};
use g_base::Block;
use g_duplex::{Duplex, DuplexFault, Twin};
use g_tape::{MemoryTapes, TapeFault, Tapes};
use std::test::Fail;

/// Writes a block of this byte.
fn put(pair: &mut Duplex<MemoryTapes>, k: u32, x: u8) -> Result<(), TapeFault> {
    pair.write(1, k, &[x; 512])
}

/// The first byte of block k.
fn got(pair: &mut Duplex<MemoryTapes>, k: u32) -> Result<u8, TapeFault> {
    let mut block: Block = [0; 512];
    match pair.read(1, k, &mut block) {
        Ok(()) => Ok(block[0]),
        Err(fault) => Err(fault),
    }
}

#[test]
fn ample(rt: HostRuntime) -> Result<(), Fail> {
    let mut both = pair(rack(rt.alloc(), &[])?, rack(rt.alloc(), &[])?, &[]);
    assert!(rt; both.reels() == 1 && both.serial(0) == 1 && both.mounted(1));
    assert!(rt; both.capacity(1) == Ok(8) && both.length(1) == Ok(0));
    assert!(rt; put(&mut both, 0, 5).is_ok() && put(&mut both, 1, 6).is_ok());
    assert!(rt; got(&mut both, 1) == Ok(6) && got(&mut both, 2) == Err(TapeFault::End));
    assert!(rt; both.agree(1) == Ok(true) && both.lost().is_empty());
    assert!(rt; both.unmount(1).is_ok() && !both.mounted(1));
    assert!(rt; both.agree(1) == Err(DuplexFault::NotMounted));
    assert!(rt; both.agree(2) == Err(DuplexFault::NoTape));
    let parts = both.into_parts();
    assert!(rt; parts.first.length(1) == Ok(2) && parts.second.length(1) == Ok(2));
    Ok(())
}

/// All reads of the first rack fail, and the third read of the second rack.
#[test]
fn the_other_twin_answers_a_failed_read(rt: HostRuntime) -> Result<(), Fail> {
    let mut both = pair(
        rack(rt.alloc(), &[1, 2, 3, 4])?,
        rack(rt.alloc(), &[3])?,
        &[],
    );
    assert!(rt; put(&mut both, 0, 7).is_ok());
    for answer in [Ok(7), Ok(7), Err(TapeFault::ReadFailed), Ok(7)] {
        assert!(rt; got(&mut both, 0) == answer);
    }
    Ok(())
}

/// The second rack's third write fails: that reel is lost, and rebuilt from the first.
#[test]
fn a_second_that_fails_is_lost_and_rebuilt(rt: HostRuntime) -> Result<(), Fail> {
    let mut both = pair(rack(rt.alloc(), &[])?, armed(rt.alloc(), 3)?, &[]);
    for k in 0..3 {
        assert!(rt; both.lost().is_empty());
        assert!(rt; put(&mut both, k, 9).is_ok());
    }
    assert!(rt; both.lost() == &[(1, Twin::Second)][..]);
    assert!(rt; put(&mut both, 3, 4).is_ok() && both.agree(1) == Ok(false));
    assert!(rt; rebuild(&mut both) == Some(Ok(())));
    assert!(rt; both.lost().is_empty() && both.agree(1) == Ok(true));
    Ok(())
}

/// After a failed write of the leading twin, the other one isn't read for that block until the block is written again.
#[test]
fn a_failed_write_stands_until_it_is_repaired(rt: HostRuntime) -> Result<(), Fail> {
    let mut both = pair(rack(rt.alloc(), &[2, 3])?, rack(rt.alloc(), &[])?, &[]);
    assert!(rt; put(&mut both, 0, 1).is_ok() && put(&mut both, 1, 1).is_ok());
    both.arm(1);
    assert!(rt; put(&mut both, 1, 2) == Err(TapeFault::WriteFailed));
    let rows = [(1, Ok(2)), (1, Err(TapeFault::ReadFailed)), (0, Ok(1))];
    for (k, answer) in rows {
        assert!(rt; got(&mut both, k) == answer);
    }
    assert!(rt; both.agree(1) == Ok(false));
    assert!(rt; put(&mut both, 1, 3).is_ok() && both.agree(1) == Ok(true));
    Ok(())
}

/// The first twin of a pair is lost: it isn't read, nor written, until it is rebuilt.
#[test]
fn a_lost_first_is_passed_by(rt: HostRuntime) -> Result<(), Fail> {
    let lost = [(1, Twin::First)];
    let mut both = pair(armed(rt.alloc(), 1)?, rack(rt.alloc(), &[])?, &lost);
    assert!(rt; put(&mut both, 0, 8).is_ok() && got(&mut both, 0) == Ok(8));
    assert!(rt; both.agree(1) == Ok(false));
    assert!(rt; rebuild(&mut both) == Some(Err(DuplexFault::WriteFailed)));
    assert!(rt; both.lost() == &lost[..]);
    assert!(rt; rebuild(&mut both) == Some(Ok(())) && both.agree(1) == Ok(true));
    Ok(())
}
