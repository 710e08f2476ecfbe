// The image of the least program, with its symbol and without, and a field that has no room.
ghost use Rattle.std.specs.Prelude.{◌≡◌, ◌≤◌};

use glk_base::{Fault, OutOfMemory};
use glk_elf::{Frame, Section, assign_addresses};
use glk_image::{Content, Symbol, one_image, symbol_rows, write_image};
use glk_obj::RelocKind;
use glk_reloc::{Field, FieldChunks, Overflow};
use std::alloc::Global;
use std::process::Abort;
use std::test::Fail;
use std::thread::Threads;

// The code: xor edi, edi; mov eax, 60; syscall. The number is a field, which here holds 7.
const CODE: [u8; 9] = [0x31, 0xff, 0xb8, 7, 7, 7, 7, 0x0f, 0x05];

// Where that field is in the file.
const NUMBER_AT: u64 = 0x1003;

// Fields handed out in one chunk.
#[derive(Drop)]
struct Given<'a> {
    rest: &'a [Field],
}

impl FieldChunks for Given<'_> {
    ghost fields = { λ s. s.rest.now };

    fn next_chunk(&mut self, chunk: &mut Vec<Field>) -> Result<(), OutOfMemory> {
        chunk.clear();
        chunk.extend_from_slice(self.rest)?;
        self.rest = &[];
        Ok(())
    }
}

// The image of the program whose field has this value, or the field's overflow.
fn image_with<R: Abort + Threads + Sync>(
    rt: &R,
    alloc: Global,
    number: i128,
    strip: bool,
    workers: u32,
) -> Result<Result<Vec<u8>, Overflow>, Fail>
    requires { (1 ≤ workers) × (workers ≤ 64) }
{
    let sizes = [16, 0, 0, 0, 0, 0, 0, 0, 0, 0, 8];
    let addrs = assign_addresses(&sizes);
    assert!(rt; addrs[9] == 0x402000);
    let symbols = [Symbol {
        name: b"_rt0_amd64_linux",
        value: 0x401000,
        size: 9,
        section: Section::Text,
        is_local: false,
    }];
    let rows = symbol_rows(alloc, &symbols, strip)?;
    let frame = Frame::new(0x401000, &sizes, &addrs, &rows);
    let contents = [Content {
        at: 0x401000,
        size: 9,
        bytes: &CODE,
    }];
    let fields = [Field {
        at: NUMBER_AT,
        size: 4,
        kind: RelocKind::Addr,
        value: number,
    }];
    match write_image(
        rt,
        alloc,
        &frame,
        &contents,
        &mut Given { rest: &fields },
        workers,
    ) {
        Ok(image) => Ok(Ok(image)),
        Err(Fault::Bad(overflow)) => Ok(Err(overflow)),
        Err(Fault::OutOfMemory) => Err(Fail::from("out of memory")),
    }
}

// The file header; its field at 40 is the offset of the section headers.
const FILE_HEADER: [u8; 64] = [
    0x7f, 0x45, 0x4c, 0x46, 2, 1, 1, 0, 0, 0, 0, 0, 0, 0, 0, 0, 2, 0, 0x3e, 0, 1, 0, 0, 0, 0, 0x10,
    0x40, 0, 0, 0, 0, 0, 0x40, 0, 0, 0, 0, 0, 0, 0, 0xc0, 0x20, 0, 0, 0, 0, 0, 0, 0, 0, 0, 0, 0x40,
    0, 0x38, 0, 5, 0, 0x40, 0, 0x0f, 0, 0x0e, 0,
];

// The program header of the headers and the code: 0x1010 bytes from offset 0 at 0x400000.
const CODE_SEGMENT: [u8; 56] = [
    1, 0, 0, 0, 5, 0, 0, 0, 0, 0, 0, 0, 0, 0, 0, 0, 0, 0, 0x40, 0, 0, 0, 0, 0, 0, 0, 0x40, 0, 0, 0,
    0, 0, 0x10, 0x10, 0, 0, 0, 0, 0, 0, 0x10, 0x10, 0, 0, 0, 0, 0, 0, 0, 0x10, 0, 0, 0, 0, 0, 0,
];

// The code in its 16 bytes.
const TEXT: [u8; 16] = [
    0x31, 0xff, 0xb8, 0x3c, 0, 0, 0, 0x0f, 0x05, 0xcc, 0xcc, 0xcc, 0xcc, 0xcc, 0xcc, 0xcc,
];

// The row of the entry: name 1, global function, section 1, address 0x401000, 9 bytes.
const ENTRY_ROW: [u8; 24] = [
    1, 0, 0, 0, 0x12, 0, 1, 0, 0, 0x10, 0x40, 0, 0, 0, 0, 0, 9, 0, 0, 0, 0, 0, 0, 0,
];

// What is in the image of the least program, where it is not zero.
fn is_least(rt: &impl Abort, image: &[u8]) {
    assert!(rt; image.len() == 9344);
    assert_eq!(rt; &image[0..64], FILE_HEADER.as_slice());
    assert_eq!(rt; &image[64..120], CODE_SEGMENT.as_slice());
    assert_eq!(rt; &image[0x1000..0x1010], TEXT.as_slice());
    assert_eq!(rt; &image[0x2018..0x2030], ENTRY_ROW.as_slice());
    assert_eq!(rt; &image[0x2030..0x2042], b"\0_rt0_amd64_linux\0".as_slice());
    assert_eq!(rt; &image[0x2042..0x204f], b"\0.text\0.rodat".as_slice());
}

#[test]
fn the_least_program_has_its_image(rt: HostRuntime) -> Result<(), Fail> {
    for workers in [1, 64] {
        let image = image_with(&rt, rt.alloc(), 60, false, workers)?.map_err(|_| "overflow")?;
        is_least(&rt, &image);
    }
    one_image();
    Ok(())
}

#[test]
fn a_stripped_image_has_the_null_row_alone(rt: HostRuntime) -> Result<(), Fail> {
    let image = image_with(&rt, rt.alloc(), 60, true, 1)?.map_err(|_| "overflow")?;
    assert_eq!(rt; image.len(), 9304);
    assert_eq!(rt; &image[0x1000..0x1010], TEXT.as_slice());
    assert_eq!(rt; &image[0x2018..0x2020], b"\0\0.text\0".as_slice());
    Ok(())
}

#[test]
fn a_field_without_room_is_told(rt: HostRuntime) -> Result<(), Fail> {
    let overflow = image_with(&rt, rt.alloc(), 1 << 32, false, 2)?.err();
    let wanted = Overflow {
        index: 0,
        value: 1 << 32,
    };
    assert_eq!(rt; overflow, Some(wanted));
    Ok(())
}
