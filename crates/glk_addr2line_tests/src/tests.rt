// One function, main.f, into which a call of main.g is inlined, and into that a call of main.h.
use glk_addr2line::{LineFault, addr2line, one_address_text};
use glk_base::Fault;
use glk_elf::ElfView;
use glk_io::MemSink;
use std::alloc::Global;
use std::process::Abort;
use std::test::Fail;

// Its image: the text itself is not in it. Up to offset 4 the line is 10, up to 8 it is 20, and up to
// 12 it is 30.
const IMAGE: [u8; 644] = [
    // the file header, and a program header of what is loaded at 0x402000
    127, 69, 76, 70, 2, 1, 1, 0, 0, 0, 0, 0, 0, 0, 0, 0, 2, 0, 62, 0, 1, 0, 0, 0, 0, 16, 64, 0, 0,
    0, 0, 0, 64, 0, 0, 0, 0, 0, 0, 0, 132, 1, 0, 0, 0, 0, 0, 0, 0, 0, 0, 0, 64, 0, 56, 0, 1, 0, 64,
    0, 4, 0, 3, 0, 1, 0, 0, 0, 4, 0, 0, 0, 120, 0, 0, 0, 0, 0, 0, 0, 0, 32, 64, 0, 0, 0, 0, 0, 0,
    32, 64, 0, 0, 0, 0, 0, 32, 0, 0, 0, 0, 0, 0, 0, 32, 0, 0, 0, 0, 0, 0, 0, 8, 0, 0, 0, 0, 0, 0,
    0,
    // the inline tree, at 0x402000
    0, 0, 0, 0, 7, 0, 0, 0, 3, 0, 0, 0, 0, 0, 0, 0, 0, 0, 0, 0, 14, 0, 0, 0, 7, 0, 0, 0, 0, 0, 0,
    0,
    // pcHeader, names, units, files and tables by program counter
    241, 255, 255, 255, 0, 0, 1, 8, 1, 0, 0, 0, 0, 0, 0, 0, 1, 0, 0, 0, 0, 0, 0, 0, 0, 16, 64, 0,
    0, 0, 0, 0, 72, 0, 0, 0, 0, 0, 0, 0, 96, 0, 0, 0, 0, 0, 0, 0, 100, 0, 0, 0, 0, 0, 0, 0, 105, 0,
    0, 0, 0, 0, 0, 0, 128, 0, 0, 0, 0, 0, 0, 0, 109, 97, 105, 110, 46, 102, 0, 109, 97, 105, 110,
    46, 103, 0, 109, 97, 105, 110, 46, 104, 0, 0, 0, 0, 0, 0, 0, 0, 97, 46, 103, 111, 0, 0, 2, 12,
    0, 22, 4, 20, 4, 20, 4, 0, 0, 4, 2, 4, 2, 4, 0, 0, 0, 0, 0, 0,
    // pclntable: functab, and the record of the function
    0, 0, 0, 0, 16, 0, 0, 0, 16, 0, 0, 0, 0, 0, 0, 0, 0, 0, 0, 0, 0, 0, 0, 0, 0, 0, 0, 0, 0, 0, 0,
    0, 1, 0, 0, 0, 1, 0, 0, 0, 4, 0, 0, 0, 3, 0, 0, 0, 0, 0, 0, 0, 10, 0, 0, 0, 0, 0, 0, 4, 0, 0,
    0, 0, 0, 0, 0, 0, 11, 0, 0, 0, 255, 255, 255, 255, 255, 255, 255, 255, 255, 255, 255, 255, 0,
    0, 0, 0,
    // the names of sections
    0, 46, 114, 111, 100, 97, 116, 97, 0, 46, 103, 111, 112, 99, 108, 110, 116, 97, 98, 0,
    // the section headers
    0, 0, 0, 0, 0, 0, 0, 0, 0, 0, 0, 0, 0, 0, 0, 0, 0, 0, 0, 0, 0, 0, 0, 0, 0, 0, 0, 0, 0, 0, 0, 0,
    0, 0, 0, 0, 0, 0, 0, 0, 0, 0, 0, 0, 0, 0, 0, 0, 0, 0, 0, 0, 0, 0, 0, 0, 0, 0, 0, 0, 0, 0, 0, 0,
    1, 0, 0, 0, 1, 0, 0, 0, 2, 0, 0, 0, 0, 0, 0, 0, 0, 32, 64, 0, 0, 0, 0, 0, 120, 0, 0, 0, 0, 0,
    0, 0, 32, 0, 0, 0, 0, 0, 0, 0, 0, 0, 0, 0, 0, 0, 0, 0, 1, 0, 0, 0, 0, 0, 0, 0, 0, 0, 0, 0, 0,
    0, 0, 0, 9, 0, 0, 0, 1, 0, 0, 0, 2, 0, 0, 0, 0, 0, 0, 0, 32, 32, 64, 0, 0, 0, 0, 0, 152, 0, 0,
    0, 0, 0, 0, 0, 216, 0, 0, 0, 0, 0, 0, 0, 0, 0, 0, 0, 0, 0, 0, 0, 1, 0, 0, 0, 0, 0, 0, 0, 0, 0,
    0, 0, 0, 0, 0, 0, 0, 0, 0, 0, 3, 0, 0, 0, 0, 0, 0, 0, 0, 0, 0, 0, 0, 0, 0, 0, 0, 0, 0, 0, 112,
    1, 0, 0, 0, 0, 0, 0, 20, 0, 0, 0, 0, 0, 0, 0, 0, 0, 0, 0, 0, 0, 0, 0, 1, 0, 0, 0, 0, 0, 0, 0,
    0, 0, 0, 0, 0, 0, 0, 0,
];

// The image as a value of which a proof knows nothing: the tests read its bytes.
fn image() -> [u8; 644] {
    IMAGE
}

// Room enough for any text here.
const ROOM: usize = 1024;

// The text of these addresses, or why there is none.
fn text_of(
    alloc: Global,
    image: &[u8; 644],
    inline: bool,
    input: &[u8],
) -> Result<(Vec<u8>, Result<(), Fault<LineFault>>), Fail> {
    let view = ElfView::read(image)?;
    let mut out = MemSink::new(alloc, ROOM, Vec::new(alloc))?;
    let answer = addr2line(alloc, &view, inline, input, &mut out);
    Ok((out.bytes().to_vec(alloc)?, answer))
}

// Checks the text of these addresses.
fn check(
    rt: &impl Abort,
    alloc: Global,
    inline: bool,
    input: &str,
    text: &str,
) -> Result<(), Fail> {
    let image = image();
    let (found, answer) = text_of(alloc, &image, inline, input.as_bytes())?;
    assert!(rt; answer.is_ok());
    assert!(rt; found.as_slice() == text.as_bytes());
    Ok(())
}

#[test]
fn an_address_has_its_function_and_line(rt: HostRuntime) -> Result<(), Fail> {
    let alloc = rt.alloc();
    for (inline, input, text) in [
        (false, "401009", "main.f\na.go:30\n"),
        (false, "401000\n", "main.f\na.go:10\n"),
        (
            true,
            "401009\r\n",
            "main.h\na.go:30\nmain.g\na.go:20\nmain.f\na.go:10\n",
        ),
        (true, "0x401005\n", "main.g\na.go:20\nmain.f\na.go:10\n"),
        (false, "0x40100D\n", "main.f\n?:0\n"),
        (false, "401010\nzz\n\n", "?\n?:0\n?\n?:0\n?\n?:0\n"),
        (
            false,
            "400fff\n0x\n00000000000401009\n",
            "?\n?:0\n?\n?:0\n?\n?:0\n",
        ),
        (true, "", ""),
    ] {
        check(&rt, alloc, inline, input, text)?;
    }
    one_address_text();
    Ok(())
}

#[test]
fn an_image_without_tables_has_no_functions(rt: HostRuntime) -> Result<(), Fail> {
    let mut image = image();
    // The name of the section begins with another letter.
    image[378] = b'h';
    let (found, answer) = text_of(rt.alloc(), &image, false, b"401009")?;
    assert!(rt; found.is_empty());
    match answer {
        Err(Fault::Bad(LineFault::Elf(bad))) => assert_eq!(rt; bad.rule, 12),
        _ => assert!(rt; found.len() > 0),
    }
    Ok(())
}
