// The edge over a reader and a writer in memory.
use pond_base::{Sink, Source, read_whole, write_whole};
use pond_program::{InputSource, OutputSink};
use std::collections::VecDeque;
use std::test::Fail;

#[test]
fn a_reader_is_read_to_its_end(rt: HostRuntime) -> Result<(), Fail> {
    let alloc = rt.alloc();
    let mut source = InputSource::new(b"pond".as_slice());
    let mut room = [0; 3];
    assert_eq!(rt; source.take(&mut room), Ok(3));
    assert_eq!(rt; room.as_slice(), b"pon".as_slice());
    let Ok(rest) = read_whole(alloc, &mut source, 9) else {
        return Err(Fail::new("it is read"));
    };
    assert_eq!(rt; rest.as_slice(), b"d".as_slice());
    assert_eq!(rt; source.take(&mut room), Ok(0));
    Ok(())
}

#[test]
fn a_writer_takes_a_piece_whole(rt: HostRuntime) -> Result<(), Fail> {
    let alloc = rt.alloc();
    let mut sink = OutputSink::new(Vec::new(alloc));
    assert_eq!(rt; write_whole(&mut sink, b"pond"), Ok(()));
    assert_eq!(rt; sink.take(b"s"), Ok(1));
    Ok(())
}
