//! Tests of profiles, and of sources and sinks that take pieces.

use lwb_base::{
    MemorySink, MemorySource, Profile, ReaderSource, WriteFault, WriterSink, read_all, write_all,
};
use std::alloc::Global;
use std::test::Fail;

#[test]
fn airtime_and_step_of_an_opening(rt: HostRuntime) {
    assert!(rt; Profile::one().airtime(10) == 36_864);
    assert!(rt; Profile::two().step(10) == 49_152);
}

// Whether all is read of a source in memory, which gives two bytes at a time.
fn is_read(alloc: Global) -> Result<bool, Fail> {
    let mut source = MemorySource::new(alloc, b"abcde", 2, &[])?;
    let bytes = read_all(alloc, &mut source)?;
    Ok(bytes.as_slice() == b"abcde".as_slice())
}

// Whether all is written to a sink in memory, which takes two bytes at a time.
fn is_written(alloc: Global) -> Result<bool, Fail> {
    let mut sink = MemorySink::new(alloc, 2, 5, &[])?;
    let written = write_all(&mut sink, b"abcde");
    Ok(written == Ok(()) && sink.bytes() == b"abcde".as_slice())
}

#[test]
fn ends_in_memory(rt: HostRuntime) -> Result<(), Fail> {
    let alloc = rt.alloc();
    assert!(rt; is_read(alloc)?);
    assert!(rt; is_written(alloc)?);
    Ok(())
}

// Whether all is read of a reader.
fn is_read_of(alloc: Global, text: &[u8]) -> Result<bool, Fail> {
    let mut source = ReaderSource::new(text);
    let bytes = read_all(alloc, &mut source)?;
    Ok(bytes.as_slice() == text)
}

#[test]
fn readers_and_writers_of_the_standard_library_are_ends(rt: HostRuntime) -> Result<(), Fail> {
    let alloc = rt.alloc();
    let text: &[u8] = b"abcde";
    assert!(rt; is_read_of(alloc, text)?);

    let mut sink = WriterSink::new(Vec::new(alloc));
    let written = write_all(&mut sink, text);

    let mut room = [0u8; 3];
    let full: &mut [u8] = &mut room;
    let mut short = WriterSink::new(full);
    let cut = write_all(&mut short, text);
    assert!(rt; written == Ok(()) && cut == Err(WriteFault { gone: 3 }));
    Ok(())
}
