//! Sources that don't fit into a script: bytes outside those of a line, a last line without its end, and lines by the thousand.
use g_name::Text;
use g_plan::{PlanFault, assemble};
use std::alloc::Global;
use std::test::Fail;

/// A text: pieces, each with its number of repetitions.
type Pieces = &'static [(&'static [u8], usize)];

/// Sources with their first bad lines.
static BAD: [(Pieces, usize); 12] = [
    (&[], 1),
    (&[(b"\n", 1)], 1),
    (&[(b"\n", 65536)], 1),
    (&[(b"\n", 65535), (b" NULL", 1)], 65536),
    (&[(b" PROGRAM 32\r\n", 1)], 1),
    (&[(b" PROGRAM 32\n WORD 1\n WORD 1\r\n", 1)], 3),
    (&[(b" PROGRAM 32\n\tWORD 1\n", 1)], 2),
    (&[(b" PROGRAM 32\n CHARS A\x1f\n", 1)], 2),
    (&[(b" PROGRAM 32\n CHARS A\x7f\n", 1)], 2),
    (&[(b" PROGRAM 32\n\n\xa0\n", 1)], 3),
    (&[(b" PROGRAM 32768\n", 1), (b" WORD 1\n", 32749)], 32750),
    (
        &[
            (b" PROGRAM 32768\n", 1),
            (b" CHARS AAAAAAAAAABBBBBBBBBBCCCCCCCCCCDDDDDDDDDD\n", 60000),
        ],
        3276,
    ),
];

/// Sources with their program files.
static GOOD: [(Pieces, Pieces); 4] = [
    (&[(b" PROGRAM 32", 1)], &[(b"00000040\n", 1)]),
    (
        &[(b" PROGRAM 32\n WORD 1", 1)],
        &[(b"00000040\n", 1), (b"00000000\n", 20), (b"00000001\n", 1)],
    ),
    (
        &[(b"\n", 65536), (b" PROGRAM 32\n WORD -1\n", 1)],
        &[(b"00000040\n", 1), (b"00000000\n", 20), (b"77777777\n", 1)],
    ),
    (
        &[(b" PROGRAM 32768\n", 1), (b" WORD 1\n", 32748)],
        &[
            (b"00100000\n", 1),
            (b"00000000\n", 20),
            (b"00000001\n", 32748),
        ],
    ),
];

/// The text of these pieces.
fn text_of(alloc: Global, pieces: &[(&[u8], usize)]) -> Result<Text, Fail> {
    let mut text = Text::new(alloc);
    for (piece, times) in pieces.iter() {
        put_times(&mut text, piece, *times)?;
    }
    Ok(text)
}

/// Appends a piece this many times.
fn put_times(text: &mut Text, piece: &[u8], times: usize) -> Result<(), Fail> {
    for _ in 0..times {
        text.extend(piece)?;
    }
    Ok(())
}

#[test]
fn bad_sources(rt: HostRuntime) -> Result<(), Fail> {
    for (k, (pieces, line)) in BAD.iter().enumerate() {
        let source = text_of(rt.alloc(), pieces)?;
        let fault = assemble(rt.alloc(), source.as_slice()).err();
        assert!(rt; fault == Some(PlanFault::BadPlan(*line)), "source {k}");
    }
    Ok(())
}

#[test]
fn good_sources(rt: HostRuntime) -> Result<(), Fail> {
    for (k, (pieces, wanted)) in GOOD.iter().enumerate() {
        let source = text_of(rt.alloc(), pieces)?;
        let wanted = text_of(rt.alloc(), wanted)?;
        let file = assemble(rt.alloc(), source.as_slice())?;
        assert!(rt; file.as_slice() == wanted.as_slice(), "source {k}");
    }
    Ok(())
}

#[test]
fn ample(rt: HostRuntime) -> Result<(), Fail> {
    let file = assemble(rt.alloc(), b" PROGRAM 33\n WORD 8\n")?;
    let wanted = text_of(
        rt.alloc(),
        &[(b"00000041\n", 1), (b"00000000\n", 20), (b"00000010\n", 1)],
    )?;
    assert!(rt; file.as_slice() == wanted.as_slice());
    Ok(())
}
