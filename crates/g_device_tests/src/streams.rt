//! The memory source and sink on bytes of the first worked script, through their traits.
use g_base::{ReadFailed, WriteFailed};
use g_io::{MemorySink, MemorySource, Sink, Source};

pub(crate) fn take_from<S: Source>(
    source: &mut S,
    into: &mut [u8; 4],
) -> Result<usize, ReadFailed> {
    source.take(into)
}

pub(crate) fn put_into<K: Sink>(sink: &mut K, piece: &[u8]) -> Result<(), WriteFailed> {
    sink.put(piece)
}

#[test]
fn ample(rt: HostRuntime) {
    let sink = MemorySink::new(rt.alloc(), 16, Vec::new(rt.alloc())).expect(&rt, "memory");
    assert!(rt; sink.text().len() == 0);
}

#[test]
fn a_source_gives_its_bytes_in_order_and_fails_where_told(rt: HostRuntime) {
    let text = b"FORMAT".to_vec(rt.alloc()).expect(&rt, "memory");
    let fails = [2].to_vec(rt.alloc()).expect(&rt, "memory");
    let mut source = MemorySource::new(text, fails);
    let mut piece = [b'.'; 4];
    assert!(rt; take_from(&mut source, &mut piece) == Ok(4));
    assert!(rt; piece == *b"FORM");
    assert!(rt; take_from(&mut source, &mut piece) == Err(ReadFailed));
    assert!(rt; piece == *b"FORM");
    assert!(rt; take_from(&mut source, &mut piece) == Ok(2));
    assert!(rt; piece == *b"ATRM");
    assert!(rt; take_from(&mut source, &mut piece) == Ok(0));
}

#[test]
fn a_sink_keeps_what_is_put_and_fails_where_told(rt: HostRuntime) {
    let mut sink = MemorySink::new(
        rt.alloc(),
        10,
        [2].to_vec(rt.alloc()).expect(&rt, "memory"),
    ).expect(&rt, "memory");
    assert!(rt; put_into(&mut sink, b"HELLO") == Ok(()));
    assert!(rt; put_into(&mut sink, b"THERE") == Err(WriteFailed));
    assert!(rt; put_into(&mut sink, b"WORLD!") == Err(WriteFailed));
    assert!(rt; put_into(&mut sink, b"WORLD") == Ok(()));
    assert!(rt; put_into(&mut sink, b"!") == Err(WriteFailed));
    assert!(rt; sink.text() == b"HELLOWORLD".as_slice());
}
