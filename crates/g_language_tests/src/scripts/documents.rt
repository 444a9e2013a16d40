//! Documents of jobs, and the lines after them.
use super::read;
use std::alloc::{AllocError, Global};
use std::test::Fail;

/// Scripts, how many items precede the bad line, and which line that is.
static SCRIPTS: [(&[u8], usize, Option<u64>); 15] = [
    (b"", 0, None),
    (b"0 FORMAT\n\n", 1, Some(2)),
    (b"0 FORMAT\n0 SHUT\n0 START\n", 3, None),
    (b"0 FORMAT\n0 SHUTT\n0 START\n", 1, Some(2)),
    (b"9 FORMAT\n0 FORMAT\n", 2, None),
    (b"0 FORMAT\n0 JOB A,:B,TIME 1\n", 1, Some(2)),
    (b"0 FORMAT\n0 JOB A,:B,TIME 1\nENDJOB\n", 1, Some(2)),
    (b"0 FORMAT\n0 JOB A,:B,TIME 1\nA\tB\n", 1, Some(3)),
    (
        b"0 FORMAT\n0 JOB A,:B,TIME 1\nA\n\x7F\nA\tB\n****\n0 SHUT\n",
        1,
        Some(4),
    ),
    (
        b"0 FORMAT\n0 JOB A,:B,TIME 1\n\n0 SHUT\n****\n0 SHUT\n",
        3,
        None,
    ),
    (b"0 JOB A,:B,TIME 1\n****\n****\n", 1, Some(3)),
    (b"0 JOB A,:B,TIME 1\n****\n\n", 1, Some(3)),
    (b"0 JOB A,:B,TIME 1\n**** \n ****\n****", 1, None),
    (b"0 JOB A,:B,TIME 1\n*****\n", 0, Some(1)),
    (
        b"0 JOB A,:B,TIME 1\n****\n0 JOB C,:D,TIME 2\nF\n****\n0 JOB E,:F,TIME 3\nG\n",
        2,
        Some(6),
    ),
];

#[test]
fn documents(rt: HostRuntime) -> Result<(), Fail> {
    for (script, items, bad) in &SCRIPTS {
        assert!(rt; read(rt.alloc(), script)? == (*items, *bad), "of a script");
    }
    Ok(())
}

/// A job whose document is one line of this many tildes.
fn with_line_of(alloc: Global, bytes: u8) -> Result<Vec<u8>, AllocError> {
    let mut script = Vec::from_slice(alloc, b"0 JOB A,:B,TIME 1\n")?;
    for _ in 0..bytes {
        script.push(b'~')?;
    }
    script.extend_from_slice(b"\n****\n")?;
    Ok(script)
}

/// How long a line is, and the bad line.
static LONGEST: [(u8, Option<u64>); 3] = [(0, None), (160, None), (161, Some(2))];

#[test]
fn longest_line(rt: HostRuntime) -> Result<(), Fail> {
    for (bytes, bad) in &LONGEST {
        let script = with_line_of(rt.alloc(), *bytes)?;
        assert!(rt; read(rt.alloc(), &script)?.1 == *bad, "of {bytes}");
    }
    Ok(())
}
