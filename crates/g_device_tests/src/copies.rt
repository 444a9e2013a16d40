//! Texts stored on a disc in memory and read back, and the state after a read or write that fails in the middle.
use g_blocks::Pool;
use g_copy::{CopyFault, drop_copy, read_copy, store_copy};
use g_disc::{Disc, Leave, MemoryDisc};

/// Byte `place` of block k of the disc.
fn byte_of(disc: &mut MemoryDisc, k: u32, place: usize) -> Option<u8> {
    let mut block = [9; 512];
    if k >= disc.size() || disc.read(k, &mut block).is_err() {
        return None;
    }
    block.get(place).copied()
}

/// Bytes of a block: its number, the place, and the byte.
static STORED: [(u32, usize, u8); 5] = [
    (2177, 0, 7),
    (2178, 87, 7),
    (2178, 88, 0),
    (2178, 511, 0),
    (2179, 0, 0),
];

/// The texts that are stored.
static TEXT: [u8; 600] = [7; 600];

static LONG: [u8; 1536] = [7; 1536];

static STOPPED: [(u32, usize, u8); 4] = [
    (2177, 511, 7),
    (2178, 255, 7),
    (2178, 256, 0),
    (2179, 0, 0),
];

#[test]
fn ample(rt: HostRuntime) {
    let mut disc = MemoryDisc::new(rt.alloc(), 2181).expect(&rt, "memory");
    let mut pool = Pool::new(rt.alloc(), 2181, &[]).expect(&rt, "memory");
    let copy = store_copy(rt.alloc(), &mut disc, &mut pool, &TEXT).expect(&rt, "a copy");
    let text = read_copy(rt.alloc(), &mut disc, &copy).expect(&rt, "a copy");
    drop_copy(&mut pool, &copy);
    assert!(rt; copy.blocks.as_slice() == [2177, 2178].as_slice());
    assert!(rt; text.as_slice() == TEXT.as_slice());
    assert!(rt; pool.free() == 4);
    for (k, place, want) in &STORED {
        assert!(rt;
            byte_of(&mut disc, *k, *place) == Some(*want),
            "at {k} {place}"
        );
    }
}

#[test]
fn a_write_fails_in_the_middle(rt: HostRuntime) {
    let mut disc = MemoryDisc::new(rt.alloc(), 2181).expect(&rt, "memory");
    let mut pool = Pool::new(rt.alloc(), 2181, &[]).expect(&rt, "memory");
    disc.set_leave(Leave::Half);
    disc.arm(2);
    let stopped = store_copy(rt.alloc(), &mut disc, &mut pool, &LONG);
    assert!(rt; stopped.err() == Some(CopyFault::Stopped));
    for (k, place, want) in &STOPPED {
        assert!(rt;
            byte_of(&mut disc, *k, *place) == Some(*want),
            "at {k} {place}"
        );
    }
}

#[test]
fn a_read_fails_in_the_middle(rt: HostRuntime) {
    let mut disc = MemoryDisc::new(rt.alloc(), 2181).expect(&rt, "memory");
    let mut pool = Pool::new(rt.alloc(), 2181, &[]).expect(&rt, "memory");
    let copy = store_copy(rt.alloc(), &mut disc, &mut pool, &LONG).expect(&rt, "a copy");
    disc.fail_reads([2].to_vec(rt.alloc()).expect(&rt, "memory"));
    assert!(rt; read_copy(rt.alloc(), &mut disc, &copy).err() == Some(CopyFault::ReadFault));
    assert!(rt;
        read_copy(rt.alloc(), &mut disc, &copy)
            .expect(&rt, "a copy")
            .as_slice()
            == LONG.as_slice()
    );
}
