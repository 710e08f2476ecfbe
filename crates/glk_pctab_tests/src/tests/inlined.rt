// A function with two inlined calls, one in the other.
use super::image::image_of;
use glk_elf::ElfView;
use glk_frames_reader::{Frame, Module};
use glk_pctab::{Function, InlinedCall, Pclntab, build};
use std::process::Abort;
use std::test::Fail;

// Its tables: the value 0 up to 12; lines 10, 20 and 22, for 4 bytes each; and its calls none, 0 and 1.
const ZERO: &[u8] = b"\x02\x0c\x00";

const LINES: &[u8] = b"\x16\x04\x14\x04\x04\x04\x00";

const CALLS: &[u8] = b"\x00\x04\x02\x04\x02\x04\x00";

// The header and the tables of its section.
const SECTION: &[u8; 216] = b"\xf1\xff\xff\xff\x00\x00\x01\x08\
    \x01\0\0\0\0\0\0\0\x01\0\0\0\0\0\0\0\x00\x10\x40\0\0\0\0\0\
    \x48\0\0\0\0\0\0\0\x60\0\0\0\0\0\0\0\x64\0\0\0\0\0\0\0\x69\0\0\0\0\0\0\0\x80\0\0\0\0\0\0\0\
    main.f\0main.g\0main.h\0\0\0\0\
    \0\0\0\0\
    a.go\0\
    \x00\x02\x0c\x00\x16\x04\x14\x04\x04\x04\x00\x00\x04\x02\x04\x02\x04\x00\0\0\0\0\0\
    \0\0\0\0\x10\0\0\0\x10\0\0\0\0\0\0\0\
    \0\0\0\0\0\0\0\0\0\0\0\0\0\0\0\0\x01\0\0\0\x01\0\0\0\x04\0\0\0\x03\0\0\0\0\0\0\0\x0a\0\0\0\0\0\0\x04\
    \0\0\0\0\0\0\0\0\x0b\0\0\0\xff\xff\xff\xff\xff\xff\xff\xff\xff\xff\xff\xff\0\0\0\0";

// Its inline tree.
const TREE: &[u8; 32] = b"\0\0\0\0\x07\0\0\0\x03\0\0\0\0\0\0\0\0\0\0\0\x0e\0\0\0\x07\0\0\0\0\0\0\0";

#[test]
fn the_section_of_a_function_with_inlined_calls(rt: HostRuntime) -> Result<(), Fail> {
    let calls = [
        InlinedCall {
            name: b"main.g",
            parent: 3,
            start_line: 0,
            id: 0,
        },
        InlinedCall {
            name: b"main.h",
            parent: 7,
            start_line: 0,
            id: 0,
        },
    ];
    let function = Function {
        name: b"main.f",
        pcsp: ZERO,
        pcfile: ZERO,
        pcline: LINES,
        pcinline: CALLS,
        inlined: &calls,
        pcdata: &[],
        funcdata: &[],
        unit: 0,
        start: 0,
        args: 0,
        deferreturn: 0,
        start_line: 10,
        id: 0,
        flag: 0,
    };
    let tables = Pclntab {
        functions: &[function],
        units: &[&[b"a.go"]],
        text: 0x401000,
        text_size: 16,
        trees: 0,
    };
    let made = build(rt.alloc(), &tables)?;
    assert_eq!(rt; made.section.as_slice(), SECTION.as_slice());
    assert_eq!(rt; made.trees.as_slice(), TREE.as_slice());
    Ok(())
}

// This frame is shown.
fn expect(rt: &impl Abort, shown: Option<Frame<'_>>, name: &[u8], line: i32) -> Result<(), Fail> {
    let frame = shown.ok_or("no frame")?;
    assert!(rt; frame.name == name);
    assert!(rt; frame.file == b"a.go".as_slice());
    assert!(rt; frame.line == line);
    Ok(())
}

#[test]
fn frames_follow_the_calls(rt: HostRuntime) -> Result<(), Fail> {
    let image = image_of(&rt, rt.alloc(), TREE, SECTION, &[])?;
    let view = ElfView::read(&image)?;
    let module = Module::of_section(&view)?;
    let function = module.find_by_bucket(0x401009).ok_or("not found")?;
    assert_eq!(rt; function.depth(0x401009), Some(0));
    let mut frames = function.frames(0x401009);
    expect(&rt, frames.next(), b"main.h", 22)?;
    expect(&rt, frames.next(), b"main.g", 20)?;
    expect(&rt, frames.next(), b"main.f", 10)?;
    assert!(rt; frames.next().is_none());
    Ok(())
}
