//! A script of every operator with ample memory.
use super::read;
use g_script::one_reading;
use std::test::Fail;

/// Every operator line, a job with MONEY and one without, and a last line without its byte 10.
#[test]
fn ample(rt: HostRuntime) -> Result<(), Fail> {
    one_reading();
    let bytes =
        b"0 FORMAT\n7 START\n7 RESTORE\n8 MOUNT 1\n8 UNMOUNT 999999\n9 DUMP 2\n9 MIGRATE :A.F(2)\n10 STOP DISC 1\n10 STOP TAPE 1000000000\n0 JOB ONE,:MASTER,TIME 10\nENDJOB\n\n****\n1000000000 JOB TWO,:A,TIME 1000000,MONEY 0\n****\n9 PROCESS 3\n2 LOGIN 1,:A,TIME 5\n2 TYPE 1,DISPLAY A\n2 LOGOUT 1\n3 SHUT";
    assert!(rt; read(rt.alloc(), bytes)? == (16, None));
    Ok(())
}
