//! A disc on a file in memory whose calls are short, and one of which fails.
use g_base::WriteFailed;
use g_disc::Disc;
use g_files::{FileDisc, MemoryFile, Origin};
use std::io;

/// A disc of 2,178 blocks of zeros. Each call of its file moves at most `most` bytes; the k-th call fails, after writing `torn` bytes if it is a
/// write.
fn disc_of(rt: &HostRuntime, most: usize, k: u32, torn: usize) -> io::Result<FileDisc<MemoryFile>> {
    let mut file = MemoryFile::zeros(rt.alloc(), 1_115_136)?;
    if most > 0 {
        file.shorten(most);
    }
    file.fail(k, torn);
    FileDisc::open(rt.alloc(), file, Origin::New)
}

/// Blocks that can't be flushed stay buffered, and reach the file with the next write.
#[test]
fn a_failed_flush_keeps_its_blocks(rt: HostRuntime) {
    // The calls: one for the length, one for the write of block 100, and the one that flushes.
    let mut disc = disc_of(&rt, 0, 3, 700).expect(&rt, "a disc");
    assert!(rt; disc.size() == 2_178);
    assert!(rt; disc.write(100, &[1; 512]) == Ok(()));
    assert!(rt; disc.write(101, &[2; 512]) == Ok(()));
    assert!(rt; disc.write(102, &[3; 512]) == Ok(()));
    assert!(rt; disc.write(7, &[4; 512]) == Err(WriteFailed));
    let mut block = [9; 512];
    disc.read(102, &mut block).expect(&rt, "a read");
    assert!(rt; block == [3; 512]);
    disc.read(7, &mut block).expect(&rt, "a read");
    assert!(rt; block == [0; 512]);
    assert!(rt; disc.write(7, &[4; 512]) == Ok(()));
    assert!(rt; disc.finish() == Ok(()));
    disc.read(101, &mut block).expect(&rt, "a read");
    assert!(rt; block == [2; 512]);
}

/// A run whose last flush fails gets the error.
#[test]
fn a_finish_that_fails_says_so(rt: HostRuntime) {
    let mut disc = disc_of(&rt, 0, 3, 0).expect(&rt, "a disc");
    assert!(rt; disc.size() == 2_178);
    assert!(rt; disc.write(100, &[1; 512]) == Ok(()));
    assert!(rt; disc.write(101, &[2; 512]) == Ok(()));
    assert!(rt; disc.finish() == Err(WriteFailed));
}

/// Calls that move 100 bytes at a time read and write whole blocks.
#[test]
fn short_calls_move_whole_blocks(rt: HostRuntime) {
    let mut disc = disc_of(&rt, 100, 0, 0).expect(&rt, "a disc");
    assert!(rt; disc.size() == 2_178);
    assert!(rt; disc.write(9, &[5; 512]) == Ok(()));
    assert!(rt; disc.write(10, &[6; 512]) == Ok(()));
    assert!(rt; disc.finish() == Ok(()));
    let mut block = [0; 512];
    disc.read(9, &mut block).expect(&rt, "a read");
    assert!(rt; block == [5; 512]);
    disc.read(10, &mut block).expect(&rt, "a read");
    assert!(rt; block == [6; 512]);
}
