//! The source and the sink in memory, through their traits.

use crate::{MemSink, MemSource, Sink, SinkError, Source, SourceFault, put_all};
use std::test::Fail;

fn take_block<I: Source>(input: &mut I, block: &mut [u8]) -> Result<usize, SourceFault> {
    input.take(block)
}

fn put_piece<O: Sink>(out: &mut O, piece: &[u8]) -> Result<usize, SinkError> {
    out.put(piece)
}

#[test]
fn a_source_gives_its_bytes_in_pieces(rt: HostRuntime) -> Result<(), Fail> {
    let mut source = MemSource::new(rt.alloc(), b"abcdef")?;
    source.in_pieces(4);
    let mut block = *b".....";
    let wanted = [
        (Ok(4), b"abcd."),
        (Ok(2), b"efcd."),
        (Ok(0), b"efcd."),
        (Ok(0), b"efcd."),
    ];
    for (count, bytes) in wanted {
        assert_eq!(rt; take_block(&mut source, &mut block), count);
        assert_eq!(rt; block.as_slice(), bytes.as_slice());
    }
    Ok(())
}

#[test]
fn a_source_fails_at_the_named_call_alone(rt: HostRuntime) -> Result<(), Fail> {
    let mut source = MemSource::new(rt.alloc(), b"abc")?;
    source.fail_at(2)?;
    source.in_pieces(2);
    let mut block = *b"...";
    let wanted = [(Ok(2), b"ab."), (Err(SourceFault), b"ab."), (Ok(1), b"cb.")];
    for (count, bytes) in wanted {
        assert_eq!(rt; take_block(&mut source, &mut block), count);
        assert_eq!(rt; block.as_slice(), bytes.as_slice());
    }
    Ok(())
}

#[test]
fn a_piece_is_written_whole(rt: HostRuntime) -> Result<(), Fail> {
    let mut sink = MemSink::new(rt.alloc());
    assert_eq!(rt; put_piece(&mut sink, b"OK "), Ok(3));
    sink.in_pieces(1);
    put_all(&mut sink, b"1\n")?;
    assert_eq!(rt; sink.bytes(), b"OK 1\n".as_slice());
    Ok(())
}

#[test]
fn a_fault_leaves_the_first_part(rt: HostRuntime) -> Result<(), Fail> {
    let mut sink = MemSink::new(rt.alloc());
    sink.in_pieces(2);
    sink.fail_at(3)?;
    assert_eq!(rt; put_all(&mut sink, b"abcdef"), Err(SinkError::Fault));
    assert_eq!(rt; sink.bytes(), b"abcd".as_slice());
    put_all(&mut sink, b"gh")?;
    assert_eq!(rt; sink.bytes(), b"abcdgh".as_slice());
    Ok(())
}
