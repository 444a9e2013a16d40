//! Standard input and output, which a signal may interrupt.
use crate::streams::{put_into, take_from};
use g_base::{ReadFailed, WriteFailed};
use g_devices::{HostInput, HostOutput};
use g_files::{StdSink, StdSource};
use std::io::{self, Error, ErrorKind, Read, Write};

/// A stream that is interrupted, moves a byte, ends or moves another, and then fails.
#[derive(Drop)]
struct Line {
    calls: u32,
}

impl Read for Line {
    fn read(&mut self, buf: &mut [u8]) -> io::Result<usize> {
        self.calls = self.calls.saturating_add(1);
        match self.calls {
            1 => Err(Error::from(ErrorKind::Interrupted)),
            2 if !buf.is_empty() => {
                buf[0] = 9;
                Ok(1)
            }
            3 => Ok(0),
            _ => Err(Error::from(ErrorKind::Other)),
        }
    }
}

impl Write for Line {
    fn write(&mut self, buf: &[u8]) -> io::Result<usize> {
        self.calls = self.calls.saturating_add(1);
        match self.calls {
            1 => Err(Error::from(ErrorKind::Interrupted)),
            2 | 3 if !buf.is_empty() => Ok(1),
            _ => Err(Error::from(ErrorKind::Other)),
        }
    }

    fn flush(&mut self) -> io::Result<()> {
        Ok(())
    }
}

#[test]
fn an_interrupted_call_is_tried_again(rt: HostRuntime) {
    let mut source = StdSource::new(HostInput::new(Line { calls: 0 }));
    let mut into = [0; 4];
    assert!(rt; take_from(&mut source, &mut into) == Ok(1) && into[0] == 9);
    assert!(rt; take_from(&mut source, &mut into) == Ok(0) && into[0] == 9);
    assert!(rt; take_from(&mut source, &mut into) == Err(ReadFailed));
    let mut sink = StdSink::new(HostOutput::new(Line { calls: 0 }));
    assert!(rt; put_into(&mut sink, b"AB") == Ok(()));
    assert!(rt; put_into(&mut sink, b"C") == Err(WriteFailed));
}
