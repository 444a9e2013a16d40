//! Blocks of a text, counts and fuses, by rows that were worked out manually.
use g_base::{BlockList, Fuse, are_distinct, blocks_for, raised};

#[test]
fn ample(rt: HostRuntime) {
    let rows = [(1u8, 2u64), (1, 3), (2, 2)];
    assert!(rt; are_distinct(rt.alloc(), &rows, |row| row.0) == Ok(false));
    assert!(rt; are_distinct(rt.alloc(), &rows, |row| row.1) == Ok(false));
    assert!(rt; are_distinct(rt.alloc(), &rows, |row| *row) == Ok(true));
    let mut places = BlockList::new();
    places.push(2_177);
    assert!(rt; places.copy().as_slice() == [2_177].as_slice());
    assert!(rt; BlockList::from_slice(&[0; 129]) == None);
    for (len, want) in [(0, 0), (1, 1), (511, 1), (512, 1), (513, 2), (65_536, 128)] {
        assert!(rt; blocks_for(len) == want, "at {len}");
    }
    for (count, want) in [(0, 1), (u64::MAX - 1, u64::MAX), (u64::MAX, u64::MAX)] {
        assert!(rt; raised(count) == want, "at {count}");
    }
    let mut fuse = Fuse::new();
    assert!(rt; !fuse.burn());
    fuse.arm(9);
    fuse.arm(3);
    for fails in [false, false, true, false, false] {
        assert!(rt; fuse.burn() == fails);
    }
}
