//! The worked rows of the pool.
use g_blocks::{FIRST_COPY_BLOCK, MAX_DISC_BLOCKS, Pool, PoolFault};

#[test]
fn ample(rt: HostRuntime) {
    let mut pool = Pool::new(rt.alloc(), 2_182, &[2_178]).expect(&rt, "memory");
    assert!(rt; pool.free() == 4);
    let blocks = pool.take(rt.alloc(), 3).expect(&rt, "memory");
    assert!(rt; blocks.as_slice() == [2_177, 2_179, 2_180].as_slice());
    let fault = PoolFault::DiscFull { need: 2, room: 1 };
    assert!(rt; pool.take(rt.alloc(), 2).err() == Some(fault));
    pool.give(&blocks);
    assert!(rt; pool.free() == 4);
    pool.retake(&blocks);
    assert!(rt; pool.free() == 1);
    let last = pool.take(rt.alloc(), 1).expect(&rt, "memory");
    assert!(rt; last.as_slice() == [2_181].as_slice());
    let mut great = Pool::new(rt.alloc(), MAX_DISC_BLOCKS, &[]).expect(&rt, "memory");
    let all = great
        .take(rt.alloc(), MAX_DISC_BLOCKS - FIRST_COPY_BLOCK)
        .expect(&rt, "memory");
    assert!(rt; all.last() == Some(&1_048_575));
    assert!(rt; great.free() == 0);
}
