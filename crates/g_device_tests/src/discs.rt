//! What a disc stores, and exactly when and how it fails, through the trait that all layers use.
use g_base::{Block, ReadFailed, WriteFailed};
use g_disc::{Disc, Leave, MemoryDisc};
use std::process::Abort;

/// The first and the last byte of block k.
pub(crate) fn read_back<D: Disc>(
    rt: &impl Abort,
    disc: &mut D,
    k: u32,
) -> Result<(u8, u8), ReadFailed> {
    let mut block = [9; 512];
    assert!(rt; k < disc.size());
    disc.read(k, &mut block)?;
    Ok((block[0], block[511]))
}

/// Fills block k with this byte.
pub(crate) fn write_filled<D: Disc>(
    rt: &impl Abort,
    disc: &mut D,
    k: u32,
    x: u8,
) -> Result<(), WriteFailed> {
    assert!(rt; k < disc.size());
    disc.write(k, &[x; 512])
}

#[test]
fn ample(rt: HostRuntime) {
    let mut disc = MemoryDisc::new(rt.alloc(), 4096).expect(&rt, "memory");
    assert!(rt; disc.size() == 4096);
    write_filled(&rt, &mut disc, 4095, 7).expect(&rt, "a write");
    for (k, want) in [(0, (0, 0)), (4094, (0, 0)), (4095, (7, 7))] {
        assert!(rt; read_back(&rt, &mut disc, k) == Ok(want));
    }
}

#[test]
fn named_reads_fail(rt: HostRuntime) {
    let mut disc = MemoryDisc::new(rt.alloc(), 2).expect(&rt, "memory");
    disc.fail_reads([2, 4].to_vec(rt.alloc()).expect(&rt, "memory"));
    for fails in [false, true, false, true, false] {
        assert!(rt; read_back(&rt, &mut disc, 1).is_err() == fails);
    }
}

#[test]
fn a_failing_write_leaves_what_was_set(rt: HostRuntime) {
    let mut disc = MemoryDisc::new(rt.alloc(), 3).expect(&rt, "memory");
    let torn: Block = [5; 512];
    let leaves = [
        (Leave::Old, (1, 1)),
        (Leave::Whole, (2, 2)),
        (Leave::Half, (2, 1)),
        (Leave::These(torn), (5, 5)),
    ];
    for (leave, want) in leaves {
        write_filled(&rt, &mut disc, 1, 1).expect(&rt, "a write");
        disc.set_leave(leave);
        disc.arm(1);
        assert!(rt; write_filled(&rt, &mut disc, 1, 2).is_err());
        assert!(rt; read_back(&rt, &mut disc, 1) == Ok(want));
        assert!(rt; read_back(&rt, &mut disc, 2) == Ok((0, 0)));
    }
}

#[test]
fn the_armed_write_fails_and_no_other(rt: HostRuntime) {
    let mut disc = MemoryDisc::new(rt.alloc(), 1).expect(&rt, "memory");
    disc.arm(9);
    disc.arm(3);
    for fails in [false, false, true, false, false] {
        assert!(rt; write_filled(&rt, &mut disc, 0, 3).is_err() == fails);
    }
}
