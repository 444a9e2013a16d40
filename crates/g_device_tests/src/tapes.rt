//! What a rack stores, when it refuses, and exactly when and how it fails, through the trait that all layers use.
use g_base::{Block, NoMemory};
use g_tape::{MemoryTapes, TapeFault, TapeLeave, Tapes};
use std::alloc::Global;

/// Reel 7 of three blocks and reel 2 of four, given in falling serial.
fn two_reels(alloc: Global) -> Result<MemoryTapes, NoMemory> {
    let mut labels = Vec::with_capacity(alloc, 2)?;
    labels.push((7, 3))?;
    labels.push((2, 4))?;
    MemoryTapes::new(alloc, labels)
}

/// The first and the last byte of block k.
fn read_back<T: Tapes>(tapes: &mut T, serial: u32, k: u32) -> Result<(u8, u8), TapeFault> {
    let mut block: Block = [9; 512];
    tapes.read(serial, k, &mut block)?;
    Ok((block[0], block[511]))
}

fn write_filled<T: Tapes>(tapes: &mut T, serial: u32, k: u32, x: u8) -> Result<(), TapeFault> {
    tapes.write(serial, k, &[x; 512])
}

#[test]
fn ample(rt: HostRuntime) {
    let mut tapes = two_reels(rt.alloc()).expect(&rt, "memory");
    assert!(rt; tapes.reels() == 2);
    assert!(rt; tapes.serial(0) == 2 && tapes.serial(1) == 7);
    assert!(rt; tapes.capacity(2) == Ok(4) && tapes.capacity(7) == Ok(3));
    tapes.mount(7).expect(&rt, "a reel");
    assert!(rt; !tapes.mounted(2) && tapes.mounted(7));
    for k in 0..3 {
        write_filled(&mut tapes, 7, k, k as u8).expect(&rt, "a write");
    }
    write_filled(&mut tapes, 7, 1, 8).expect(&rt, "a write");
    assert!(rt; tapes.length(7) == Ok(2));
    assert!(rt;
        read_back(&mut tapes, 7, 0) == Ok((0, 0)) && read_back(&mut tapes, 7, 1) == Ok((8, 8))
    );
}

#[test]
fn refusals_in_order(rt: HostRuntime) {
    let mut tapes = two_reels(rt.alloc()).expect(&rt, "memory");
    assert!(rt;
        tapes.capacity(3) == Err(TapeFault::NoTape) && tapes.length(3) == Err(TapeFault::NoTape)
    );
    assert!(rt;
        tapes.mount(3) == Err(TapeFault::NoTape) && tapes.unmount(3) == Err(TapeFault::NoTape)
    );
    assert!(rt; tapes.unmount(7) == Err(TapeFault::NotMounted));
    tapes.mount(2).expect(&rt, "a reel");
    tapes.arm(1);
    let rows = [
        (3, TapeFault::NoTape),
        (7, TapeFault::NotMounted),
        (2, TapeFault::End),
    ];
    for (serial, fault) in rows {
        assert!(rt; write_filled(&mut tapes, serial, 4, 1) == Err(fault));
        assert!(rt; read_back(&mut tapes, serial, 0) == Err(fault));
    }
    assert!(rt; write_filled(&mut tapes, 2, 0, 1) == Err(TapeFault::WriteFailed));
}

#[test]
fn a_full_reel_ends(rt: HostRuntime) {
    let mut tapes = two_reels(rt.alloc()).expect(&rt, "memory");
    tapes.mount(7).expect(&rt, "a reel");
    for k in 0..3 {
        write_filled(&mut tapes, 7, k, 1).expect(&rt, "a write");
    }
    assert!(rt; write_filled(&mut tapes, 7, 3, 1) == Err(TapeFault::End));
    tapes.unmount(7).expect(&rt, "a reel");
    assert!(rt; read_back(&mut tapes, 7, 0) == Err(TapeFault::NotMounted));
}

#[test]
fn named_reads_fail(rt: HostRuntime) {
    let mut tapes = two_reels(rt.alloc()).expect(&rt, "memory");
    tapes.mount(2).expect(&rt, "a reel");
    write_filled(&mut tapes, 2, 0, 6).expect(&rt, "a write");
    tapes.fail_reads([2, 4].to_vec(rt.alloc()).expect(&rt, "memory"));
    for fails in [false, true, false, true, false] {
        assert!(rt; read_back(&mut tapes, 2, 0).is_err() == fails);
    }
}

#[test]
fn a_failing_write_leaves_what_was_set(rt: HostRuntime) {
    let mut tapes = two_reels(rt.alloc()).expect(&rt, "memory");
    tapes.mount(2).expect(&rt, "a reel");
    let torn: Block = [5; 512];
    let leaves = [
        (TapeLeave::Old, 3, Ok((1, 1))),
        (TapeLeave::Cut, 1, Err(TapeFault::End)),
        (TapeLeave::Half, 2, Ok((2, 0))),
        (TapeLeave::Whole, 2, Ok((2, 2))),
        (TapeLeave::These(torn), 2, Ok((5, 5))),
    ];
    for (leave, length, want) in leaves {
        for k in 0..3 {
            write_filled(&mut tapes, 2, k, 1).expect(&rt, "a write");
        }
        tapes.set_leave(leave);
        tapes.arm(1);
        assert!(rt; write_filled(&mut tapes, 2, 1, 2) == Err(TapeFault::WriteFailed));
        assert!(rt; tapes.length(2) == Ok(length) && read_back(&mut tapes, 2, 1) == want);
        assert!(rt; read_back(&mut tapes, 2, 0) == Ok((1, 1)));
    }
}
