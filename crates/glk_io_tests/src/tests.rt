// Streams, and what takes memory once with memory.
use glk_base::{StrText, Text};
use glk_io::{Files, MemFiles, MemSink, MemSource, OsSink, OsSource, Sink, Source, write_pieces};
use std::alloc::Global;
use std::test::Fail;

// Whether the file at a path is these bytes.
fn has<F: Files>(alloc: Global, files: &mut F, path: &str, bytes: &[u8]) -> bool {
    match files.read_file(alloc, path, bytes.len() as u64) {
        Ok(read) => read.as_slice() == bytes,
        Err(_) => false,
    }
}

// Whether a source gives these bytes at its first read.
fn gives<S: Source + Drop>(mut source: S, bytes: &[u8; 3]) -> bool {
    let mut buf = [0u8; 3];
    source.read(&mut buf) == Ok(3) && buf == *bytes
}

// Whether a sink takes these pieces.
fn takes<K: Sink>(sink: &mut K) -> bool {
    write_pieces(sink, &[b"abc".as_slice(), b"de".as_slice()]).is_ok() && sink.faults() == 0
}

#[test]
fn streams_are_as_their_readers_and_writers(rt: HostRuntime) -> Result<(), Fail> {
    assert!(rt; gives(OsSource::new(b"abcde".as_slice()), b"abc"));
    let bytes = b"xyz".to_vec(rt.alloc())?;
    assert!(rt; gives(MemSource::new(bytes, Vec::new(rt.alloc())), b"xyz"));
    let mut place = [0u8; 5];
    assert!(rt; takes(&mut OsSink::new(place.as_mut_slice())));
    assert_eq!(rt; place, *b"abcde");
    Ok(())
}

// Whether what takes memory in the forms in memory has its answer.
fn holds(alloc: Global) -> Result<bool, Fail> {
    let mut list = Vec::new(alloc);
    let name = StrText::of(String::from_str(alloc, "a")?);
    list.push((name, Text::of(b"abc".to_vec(alloc)?)))?;
    let mut files = MemFiles::new(list, Vec::new(alloc));
    let wrote = files.write_file(alloc, "b", b"new").is_ok();
    Ok(wrote && has(alloc, &mut files, "a", b"abc") && has(alloc, &mut files, "b", b"new"))
}

fn holds_text(alloc: Global) -> Result<bool, Fail> {
    let mut sink = MemSink::new(alloc, 8, Vec::new(alloc))?;
    Ok(takes(&mut sink) && sink.bytes() == b"abcde".as_slice())
}

#[test]
fn forms_in_memory_hold_what_they_take(rt: HostRuntime) -> Result<(), Fail> {
    let files = holds(rt.alloc())?;
    let sink = holds_text(rt.alloc())?;
    assert!(rt; files && sink);
    Ok(())
}
