// Two functions of two objects, which share a file and their tables; the one is inlined into the
// other.
use super::image::image_of;
use glk_elf::ElfView;
use glk_frames_reader::Module;
use glk_pctab::{Function, InlinedCall, Pclntab, build};
use std::test::Fail;

// The value 0 up to 16, and the line 5 there.
const ZERO: &[u8] = b"\x02\x10\x00";

const LINE: &[u8] = b"\x0c\x10\x00";

// The section: the first object's second file has no name, since no function names it.
const SECTION: &[u8; 248] = b"\xf1\xff\xff\xff\x00\x00\x01\x08\
    \x02\0\0\0\0\0\0\0\x01\0\0\0\0\0\0\0\x00\x10\x40\0\0\0\0\0\
    \x48\0\0\0\0\0\0\0\x4c\0\0\0\0\0\0\0\x58\0\0\0\0\0\0\0\x5d\0\0\0\0\0\0\0\x68\0\0\0\0\0\0\0\
    f\0g\0\
    \0\0\0\0\xff\xff\xff\xff\0\0\0\0\
    a.go\0\
    \x00\x02\x10\x00\x0c\x10\x00\0\0\0\0\
    \0\0\0\0\x18\0\0\0\x10\0\0\0\x48\0\0\0\x20\0\0\0\0\0\0\0\
    \0\0\0\0\0\0\0\0\0\0\0\0\0\0\0\0\0\0\0\0\x01\0\0\0\x04\0\0\0\0\0\0\0\0\0\0\0\0\0\0\0\0\0\0\0\0\0\0\0\
    \x10\0\0\0\x02\0\0\0\0\0\0\0\0\0\0\0\0\0\0\0\x01\0\0\0\x04\0\0\0\x03\0\0\0\x02\0\0\0\0\0\0\0\0\0\0\x04\
    \0\0\0\0\0\0\0\0\x01\0\0\0\xff\xff\xff\xff\xff\xff\xff\xff\xff\xff\xff\xff\0\0\0\0";

// The inline tree of the second function: the first one, called at its start.
const TREE: &[u8; 16] = b"\0\0\0\0\0\0\0\0\xff\xff\xff\xff\0\0\0\0";

// The files of the two objects.
const UNITS: &[&[&[u8]]] = &[&[b"a.go", b"b.go"], &[b"a.go"]];

// The inlined call of the second function.
const CALLS: &[InlinedCall<'static>] = &[InlinedCall {
    name: b"f",
    parent: -1,
    start_line: 0,
    id: 0,
}];

const FIRST: Function<'static> = Function {
    name: b"f",
    pcsp: &[],
    pcfile: ZERO,
    pcline: LINE,
    pcinline: &[],
    inlined: &[],
    pcdata: &[],
    funcdata: &[],
    unit: 0,
    start: 0,
    args: 0,
    deferreturn: 0,
    start_line: 0,
    id: 0,
    flag: 0,
};

const SECOND: Function<'static> = Function {
    name: b"g",
    pcsp: &[],
    pcfile: ZERO,
    pcline: LINE,
    pcinline: ZERO,
    inlined: CALLS,
    pcdata: &[],
    funcdata: &[],
    unit: 1,
    start: 16,
    args: 0,
    deferreturn: 0,
    start_line: 0,
    id: 0,
    flag: 0,
};

#[test]
fn the_section_of_functions_that_share(rt: HostRuntime) -> Result<(), Fail> {
    let tables = Pclntab {
        functions: &[FIRST, SECOND],
        units: UNITS,
        text: 0x401000,
        text_size: 32,
        trees: 0,
    };
    let made = build(rt.alloc(), &tables)?;
    assert_eq!(rt; made.section.as_slice(), SECTION.as_slice());
    assert_eq!(rt; made.trees.as_slice(), TREE.as_slice());
    Ok(())
}

#[test]
fn each_function_ends_where_the_next_begins(rt: HostRuntime) -> Result<(), Fail> {
    let image = image_of(&rt, rt.alloc(), TREE, SECTION, &[])?;
    let view = ElfView::read(&image)?;
    let module = Module::of_section(&view)?;
    let first = module.find(0x40100f).ok_or("not found")?;
    assert_eq!(rt; first.name(), b"f".as_slice());
    let second = module.find(0x401010).ok_or("not found")?;
    assert_eq!(rt; second.name(), b"g".as_slice());
    assert_eq!(rt; second.entry(), 0x401010);
    let mut frames = second.frames(0x401010);
    let inner = frames.next().ok_or("no frame")?;
    assert_eq!(rt; inner.name, b"f".as_slice());
    assert_eq!(rt; inner.line, 5);
    let outer = frames.next().ok_or("no frame")?;
    assert_eq!(rt; outer.name, b"g".as_slice());
    assert_eq!(rt; outer.line, 0);
    assert!(rt; module.find(0x401020).is_none());
    Ok(())
}
