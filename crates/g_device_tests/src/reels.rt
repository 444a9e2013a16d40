//! A rack of one file in memory, of whose calls one fails.
use g_files::{FileReel, FileTapes, MemoryFile, ReadAhead, push_reel};
use g_tape::{TapeFault, Tapes};
use std::io;

/// A rack of reel 7, whose file has two blocks of zeros and a piece of a block. The k-th call of its file fails, where the first one asks
/// for its length.
fn rack_of(rt: &HostRuntime, k: u32) -> io::Result<FileTapes<MemoryFile, ()>> {
    let mut file = MemoryFile::zeros(rt.alloc(), 1_124)?;
    file.fail(k, 100);
    let mut reels = Vec::new(rt.alloc());
    push_reel(&mut reels, FileReel::open(file, 7, 16)?)?;
    let mut tapes = FileTapes::new((), reels, ReadAhead::new(rt.alloc())?);
    let _mounted = tapes.mount(7);
    Ok(tapes)
}

/// A piece of a block doesn't count, and a block is read as it was written last, whatever was read ahead.
#[test]
fn a_piece_is_no_block(rt: HostRuntime) {
    let mut tapes = rack_of(&rt, 0).expect(&rt, "a rack");
    let mut block = [9; 512];
    assert!(rt; tapes.length(7) == Ok(2));
    for k in 0..2 {
        assert!(rt; tapes.read(7, k, &mut block) == Ok(()) && block == [0; 512]);
    }
    assert!(rt; tapes.read(7, 2, &mut block) == Err(TapeFault::End));
    assert!(rt; tapes.write(7, 2, &[5; 512]) == Ok(()) && tapes.length(7) == Ok(3));
    assert!(rt; tapes.read(7, 2, &mut block) == Ok(()) && block == [5; 512]);
    assert!(rt; tapes.write(7, 1, &[6; 512]) == Ok(()) && tapes.length(7) == Ok(2));
    assert!(rt; tapes.read(7, 1, &mut block) == Ok(()) && block == [6; 512]);
    assert!(rt; tapes.finish().is_ok());
}

/// Whichever call of a write fails, the reel keeps its blocks, and takes others once it was secured.
#[test]
fn a_failed_write_leaves_the_blocks_before_it(rt: HostRuntime) {
    // The calls after the first: a cut, a read, a write and a sync that secure the reel, and the write of the block, which two cuts and
    // another write replace if it fails.
    for k in 2..6 {
        let mut tapes = rack_of(&rt, k).expect(&rt, "a rack");
        let mut block = [9; 512];
        assert!(rt;
            tapes.write(7, 2, &[5; 512]) == Err(TapeFault::WriteFailed),
            "call {k}"
        );
        assert!(rt; tapes.length(7) == Ok(2), "call {k}");
        assert!(rt;
            tapes.read(7, 1, &mut block) == Ok(()) && block == [0; 512],
            "call {k}"
        );
        assert!(rt;
            tapes.write(7, 2, &[5; 512]) == Err(TapeFault::WriteFailed),
            "call {k}"
        );
        assert!(rt; tapes.secure(7) == Ok(()), "call {k}");
        assert!(rt; tapes.write(7, 2, &[5; 512]) == Ok(()), "call {k}");
        assert!(rt;
            tapes.read(7, 2, &mut block) == Ok(()) && block == [5; 512],
            "call {k}"
        );
        assert!(rt; tapes.finish().is_ok(), "call {k}");
    }
    let mut tapes = rack_of(&rt, 6).expect(&rt, "a rack");
    assert!(rt; tapes.write(7, 2, &[5; 512]) == Ok(()));
}

/// A run whose last sync fails hears of it.
#[test]
fn a_finish_that_fails_says_so(rt: HostRuntime) {
    let mut tapes = rack_of(&rt, 7).expect(&rt, "a rack");
    assert!(rt; tapes.write(7, 2, &[5; 512]) == Ok(()));
    assert!(rt; tapes.finish().is_err());
}
