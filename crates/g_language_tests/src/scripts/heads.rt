//! First lines, good and bad.
use super::read;
use std::alloc::{AllocError, Global};
use std::process::Abort;
use std::test::Fail;

/// Scripts of one line, and whether it is a valid one.
static LINES: [(&[u8], bool); 92] = [
    (b"0 FORMAT\n", true),
    (b"0 START", true),
    (b"1000000000 RESTORE\n", true),
    (b"5 SHUT\n", true),
    (b"5 MOUNT 1\n", true),
    (b"5 UNMOUNT 999999\n", true),
    (b"5 DUMP 10\n", true),
    (b"5 MIGRATE F\n", true),
    (b"5 MIGRATE :A.F(4095/ABCD)\n", true),
    (b"5 STOP DISC 1\n", true),
    (b"5 STOP TAPE 1000000000\n", true),
    (b"5 PROCESS 1\n", true),
    (b"5 PROCESS 999999\n", true),
    (b"5 LOGIN 1,:MASTER,TIME 1\n", true),
    (b"5 LOGIN 8,:ABCDEFGHIJKL,TIME 1000000\n", true),
    (b"5 TYPE 1,\n", true),
    (b"5 TYPE 8, A,B \n", true),
    (b"5 TYPE 1,****\n", true),
    (b"5 LOGOUT 1\n", true),
    (b"5 LOGOUT 8\n", true),
    (b"\n", false),
    (b" \n", false),
    (b"0\n", false),
    (b"0 \n", false),
    (b"FORMAT\n", false),
    (b" 0 FORMAT\n", false),
    (b"0  FORMAT\n", false),
    (b"0 FORMAT \n", false),
    (b"0 FORMATT\n", false),
    (b"0 format\n", false),
    (b"00 FORMAT\n", false),
    (b"01 FORMAT\n", false),
    (b"+1 FORMAT\n", false),
    (b"-1 FORMAT\n", false),
    (b"1000000001 FORMAT\n", false),
    (b"18446744073709551616 FORMAT\n", false),
    (b"0 FORMAT 1\n", false),
    (b"0 MOUNT\n", false),
    (b"0 MOUNT \n", false),
    (b"0 MOUNT 0\n", false),
    (b"0 MOUNT 01\n", false),
    (b"0 MOUNT  1\n", false),
    (b"0 MOUNT 1 \n", false),
    (b"0 MOUNT 1000000\n", false),
    (b"0 UNMOUNT 0\n", false),
    (b"0 DUMP 1000000\n", false),
    (b"0 MIGRATE \n", false),
    (b"0 MIGRATE f\n", false),
    (b"0 MIGRATE F(0)\n", false),
    (b"0 MIGRATE F \n", false),
    (b"0 STOP\n", false),
    (b"0 STOP DISC\n", false),
    (b"0 STOP DISC 0\n", false),
    (b"0 STOP DISC 1000000001\n", false),
    (b"0 STOP TAPE 0\n", false),
    (b"0 STOP REEL 1\n", false),
    (b"0 PROCESS\n", false),
    (b"0 PROCESS 0\n", false),
    (b"0 PROCESS 01\n", false),
    (b"0 PROCESS 1000000\n", false),
    (b"0 PROCESS 1 \n", false),
    (b"0 LOGIN\n", false),
    (b"0 LOGIN 1\n", false),
    (b"0 LOGIN 1,:A\n", false),
    (b"0 LOGIN 0,:A,TIME 1\n", false),
    (b"0 LOGIN 9,:A,TIME 1\n", false),
    (b"0 LOGIN 01,:A,TIME 1\n", false),
    (b"0 LOGIN :A,TIME 1\n", false),
    (b"0 LOGIN 1,A,TIME 1\n", false),
    (b"0 LOGIN 1,:a,TIME 1\n", false),
    (b"0 LOGIN 1,:A,TIME 0\n", false),
    (b"0 LOGIN 1,:A,TIME 1000001\n", false),
    (b"0 LOGIN 1,:A,TIME 1 \n", false),
    (b"0 LOGIN 1,:A,TIME 1,MONEY 1\n", false),
    (b"0 LOGIN 1, :A,TIME 1\n", false),
    (b"0 TYPE\n", false),
    (b"0 TYPE 1\n", false),
    (b"0 TYPE ,A\n", false),
    (b"0 TYPE 0,A\n", false),
    (b"0 TYPE 9,A\n", false),
    (b"0 TYPE 01,A\n", false),
    (b"0 TYPE 1 ,A\n", false),
    (b"0 TYPE  1,A\n", false),
    (b"0 TYPE 1,A\tB\n", false),
    (b"0 TYPE 1,\x7F\n", false),
    (b"0 LOGOUT\n", false),
    (b"0 LOGOUT 0\n", false),
    (b"0 LOGOUT 9\n", false),
    (b"0 LOGOUT 01\n", false),
    (b"0 LOGOUT 1 \n", false),
    (b"0 LOGOUT 1,\n", false),
    (b"****\n", false),
];

/// First lines of jobs, each with an empty document, and whether it is a valid one.
static JOBS: [(&[u8], bool); 27] = [
    (b"0 JOB A,:B,TIME 1\n****\n", true),
    (b"0 JOB A,:B,TIME 1000000\n****", true),
    (b"0 JOB A,:B,TIME 1,MONEY 0\n****\n", true),
    (b"0 JOB A,:B,TIME 1,MONEY 1000000\n****\n", true),
    (b"0 JOB ABCDEFGHIJKL,:ABCDEFGHIJKL,TIME 1\n****\n", true),
    (b"0 JOB A,:B,TIME 0\n****\n", false),
    (b"0 JOB A,:B,TIME 01\n****\n", false),
    (b"0 JOB A,:B,TIME +1\n****\n", false),
    (b"0 JOB A,:B,TIME 1000001\n****\n", false),
    (b"0 JOB A,:B,TIME 1 \n****\n", false),
    (b"0 JOB A,:B,TIME 1,\n****\n", false),
    (b"0 JOB A,:B,TIME 1,MONEY\n****\n", false),
    (b"0 JOB A,:B,TIME 1,MONEY \n****\n", false),
    (b"0 JOB A,:B,TIME 1,MONEY 1000001\n****\n", false),
    (b"0 JOB A,:B,TIME 1,MONEY 00\n****\n", false),
    (b"0 JOB A,:B,TIME 1, MONEY 1\n****\n", false),
    (b"0 JOB A,:B,TIME 1,MONEY 1,\n****\n", false),
    (b"0 JOB A,:B,MONEY 1,TIME 1\n****\n", false),
    (b"0 JOB A,:B,TIME\n****\n", false),
    (b"0 JOB A,:B\n****\n", false),
    (b"0 JOB A,B,TIME 1\n****\n", false),
    (b"0 JOB A,:,TIME 1\n****\n", false),
    (b"0 JOB ,:B,TIME 1\n****\n", false),
    (b"0 JOB a,:B,TIME 1\n****\n", false),
    (b"0 JOB A, :B,TIME 1\n****\n", false),
    (b"0 JOB ABCDEFGHIJKLM,:B,TIME 1\n****\n", false),
    (b"0 JOB  A,:B,TIME 1\n****\n", false),
];

/// Whether a script has no bad line, and whether it has an item; otherwise its first line is bad, and it has none.
fn is_good(alloc: Global, script: &[u8]) -> Result<Option<bool>, Fail> {
    match read(alloc, script)? {
        (1, None) => Ok(Some(true)),
        (0, Some(1)) => Ok(Some(false)),
        _ => Ok(None),
    }
}

/// Whether each line is valid if and only if it should be.
fn check(rt: &(impl Abort + AllocGlobal), lines: &[(&[u8], bool)]) -> Result<(), Fail> {
    for (script, good) in lines {
        assert!(rt; is_good(rt.alloc(), script)? == Some(*good), "of a line");
    }
    Ok(())
}

#[test]
fn first_lines(rt: HostRuntime) -> Result<(), Fail> {
    check(&rt, &LINES)?;
    check(&rt, &JOBS)
}

/// A TYPE line of this many bytes, from 10 on.
fn typed_line(alloc: Global, bytes: u8) -> Result<Vec<u8>, AllocError> {
    let mut script = Vec::from_slice(alloc, b"0 TYPE 1,")?;
    for _ in 9..bytes {
        script.push(b'~')?;
    }
    script.push(b'\n')?;
    Ok(script)
}

/// The length of a line, and whether it is valid.
static LONGEST: [(u8, bool); 2] = [(160, true), (161, false)];

#[test]
fn longest_typed_line(rt: HostRuntime) -> Result<(), Fail> {
    for (bytes, good) in &LONGEST {
        let script = typed_line(rt.alloc(), *bytes)?;
        assert!(rt; is_good(rt.alloc(), &script)? == Some(*good), "of {bytes}");
    }
    Ok(())
}
