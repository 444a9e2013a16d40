//! Each call is made once with ample memory.
use g_monitor::{
    CommandError, JobLine, Mark, fault_text, list_text, push_error, push_header, push_job_line,
    push_marked, reply_text,
};
use g_name::{Full, Lang, Local, Text, User};
use g_plain::{Listing, StoreCall, StoreFault, StoreReply};
use g_word::Word;
use std::alloc::Global;
use std::test::Fail;

fn full() -> Result<Full, Fail> {
    Ok(Full {
        user: User::master(),
        local: Local::new(b"F").ok_or("a name")?,
        generation: 1,
        lang: Lang::spaces(),
    })
}

/// The listing of a directory with one file.
fn listed(alloc: Global) -> Result<Text, Fail> {
    let mut rows = Listing::new(alloc);
    rows.push(full()?, 12)?;
    let call = StoreCall::List {
        user: User::master(),
    };
    let text = reply_text(alloc, &call, &StoreReply::Listing(rows))?;
    Ok(text)
}

/// A refusal that names a file.
fn refused(alloc: Global) -> Result<Text, Fail> {
    let text = fault_text(alloc, &StoreFault::NoCopy(full()?, 3))?;
    Ok(text)
}

/// The header of a job's file.
fn push_head(text: &mut Text) -> Result<(), Fail> {
    let job = Local::new(b"J").ok_or("a name")?;
    push_header(text, 7, &job, &User::master())?;
    text.push(b'\n')?;
    Ok(())
}

/// A line that was taken, and the lines of a program.
fn push_lines(text: &mut Text) -> Result<(), Fail> {
    push_marked(text, Mark::Taken, b"X")?;
    text.push(b'\n')?;
    let word = Word::new(0o1234567).ok_or("a word")?;
    push_job_line(text, JobLine::Illegal { word, at: 100 })?;
    Ok(())
}

#[test]
fn ample(rt: HostRuntime) -> Result<(), Fail> {
    let alloc = rt.alloc();
    let listed = listed(alloc)?;
    assert!(rt; listed.as_slice() == b"| F(1/) 12\nLISTED :MASTER 1\n".as_slice());
    let shown = list_text(alloc, b"A\x7f\n\nB")?;
    assert!(rt; shown.as_slice() == b"| A?\n| \n| B\n".as_slice());
    let refused = refused(alloc)?;
    assert!(rt; refused.as_slice() == b"12 NO COPY :MASTER.F(1/) 3".as_slice());
    Ok(())
}

/// A job's file, line by line.
#[test]
fn lines_of_a_job(rt: HostRuntime) -> Result<(), Fail> {
    let mut text = Text::new(rt.alloc());
    push_error(&mut text, CommandError::BadLine(15))?;
    text.push(b'\n')?;
    push_head(&mut text)?;
    push_lines(&mut text)?;
    let lines = b"50 BAD LINE 15\nJOB 7 J :MASTER\n- X\nILLEGAL 01234567 AT 100";
    assert!(rt; text.as_slice() == lines.as_slice());
    Ok(())
}
