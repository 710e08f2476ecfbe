// A program of many functions, whose text no script holds.
use super::runs::is_done;
use glk_io::{Files, MemFiles};
use std::alloc::Global;
use std::test::Fail;
use std::thread::Threads;

// How many functions there are.
const FUNCTIONS: u32 = 10_000;

// A call of the function 32 bytes on, and a return: the field has 32 less the call's own 5 bytes.
const CALLS_NEXT: [u8; 6] = [0xe8, 27, 0, 0, 0, 0xc3];

// The last function as its text has it, which calls nothing.
const LAST: [u8; 6] = [0xe8, 0, 0, 0, 0, 0xc3];

// Where the first function is in the image, and the last two.
const FIRST_AT: usize = 0x1000;

const SECOND_LAST_AT: usize = 0x4_f1c0;

const LAST_AT: usize = 0x4_f1e0;

// Functions each of which calls the one after it.
fn chain(alloc: Global) -> Result<String, Fail> {
    let mut text = String::from_str(alloc, "object 0 0000000000000000\n")?;
    text.push_str("def _rt0_amd64_linux 0 1 0 0 6 0\ndata e800000000c3\n")?;
    for next in 1..FUNCTIONS {
        let function = format!(in alloc;
            "reloc 1 4 2 0 self:{next}\ndef f{next} 0 1 0 0 6 0\ndata e800000000c3\n"
        )?;
        text.push_str(&function)?;
    }
    Ok(text)
}

// Whether the text is made an archive, and that is linked.
fn is_linked<R: Threads + Sync>(rt: &R, alloc: Global, files: &mut MemFiles) -> Result<bool, Fail> {
    let is_made = is_done(rt, alloc, &["mkobj", "-o", "m.a", "t.txt"], files)?;
    Ok(is_made && is_done(rt, alloc, &["link", "m.a"], files)?)
}

// Whether the bytes are at an offset.
fn is_at(image: &[u8], offset: usize, bytes: &[u8]) -> bool {
    match image.get(offset..) {
        Some(rest) => rest.starts_with(bytes),
        None => false,
    }
}

// Whether these functions call the next one, and the last one none.
fn is_chain(image: &[u8]) -> bool {
    is_at(image, FIRST_AT, &CALLS_NEXT)
        && is_at(image, SECOND_LAST_AT, &CALLS_NEXT)
        && is_at(image, LAST_AT, &LAST)
}

#[test]
fn a_chain_of_ten_thousand_functions_is_linked(rt: HostRuntime) -> Result<(), Fail> {
    let text = chain(rt.alloc())?;
    let mut files = MemFiles::new(Vec::new(rt.alloc()), Vec::new(rt.alloc()));
    let is_written = files
        .write_file(rt.alloc(), "t.txt", text.as_bytes())
        .is_ok();
    assert!(rt; is_written);
    let linked = is_linked(&rt, rt.alloc(), &mut files)?;
    assert!(rt; linked);
    let image = files.get("a.out").ok_or("no image")?;
    assert!(rt; is_chain(image));
    Ok(())
}
