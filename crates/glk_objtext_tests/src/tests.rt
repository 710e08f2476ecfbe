// Texts that are read, refused and printed. Expected values are the format's.
use glk_base::Fault;
use glk_objdesc::ObjDesc;
use glk_objtext::{TextBad, parse, print};
use std::alloc::Global;
use std::process::Abort;
use std::test::Fail;

/// A line of each kind, in canonical spelling.
const CANONICAL: &[u8] =
    b"object 7 0123456789abcdef\nautolib fmt 0011223344556677\npkg \"a b\\\\\\\"\\x0a\\xff\"\npkg \"\"\npkg \"#\"\nfile a.go\ndef f 1 1 2 3 4 5\ndata 00ff\nreloc -2147483648 4 8 -9223372036854775808 self:0\nreloc 2147483647 0 1 9223372036854775807 1:2\naux 255 nil:0\naux 1 none:1\naux 1 h64:2\naux 1 h:3\naux 1 builtin:4\naux 1 2147483642:4294967295\nhash64 h 0 2 0 0 8 1 8899aabbccddeeff\nhash l 65535 2 1 0 8 1 00112233445566778899\nndef n 0 3 0 0 8 8\nref r 0 0 0 0 4294967295 4294967295\nrefflags 1:0 1 255\nrefname 1:0 fmt.Println\n";

/// A text with blanks, comments and other spellings, and its canonical one.
const LOOSE: &[u8] =
    b"# a comment\r\n\r\n  object   7 0123456789abcdef \t\r\n \t# more\npkg   \"p\"\r\n\ndef f 0 1 0 0 4 0\n# between\ndata -";

const TIDY: &[u8] = b"object 7 0123456789abcdef\npkg p\ndef f 0 1 0 0 4 0\n";

// The canonical text of what was read.
fn canonical(alloc: Global, d: &ObjDesc) -> Result<Vec<u8>, Fail> {
    Ok(print(alloc, d)?)
}

// The text is read, and printed as this one.
fn prints(rt: &impl Abort, alloc: Global, text: &[u8], printed: &[u8]) -> Result<(), Fail> {
    let d = parse(alloc, text)?;
    let again = canonical(alloc, &d)?;
    assert_eq!(rt; again.as_slice(), printed);
    Ok(())
}

#[test]
fn texts_are_read_and_printed(rt: HostRuntime) -> Result<(), Fail> {
    let alloc = rt.alloc();
    prints(&rt, alloc, CANONICAL, CANONICAL)?;
    prints(&rt, alloc, LOOSE, TIDY)
}

/// Texts with the number of their first bad line, and the least rule that it breaks.
const BAD: [(&[u8], u32, u8); 12] = [
    (b"# nothing\n\n", 1, 2),
    (b"object 0 0000000000000000\ndef2 f", 2, 1),
    (b"object 0 0000000000000000\nobject x y z", 2, 2),
    (
        b"object 0 0000000000000000\nref r 0 0 0 0 0 0\ndef f x",
        3,
        3,
    ),
    (b"object 0 0000000000000000\npkg p\npkg\nwhat", 3, 4),
    (b"object 0 0000000000000000\ndef #f 00 1 0 0 1 0", 2, 5),
    (b"object 0 0000000000000000\naux 1 2147483643:0", 2, 5),
    (b"object 0 0000000000000000\npkg \"\\x00\"", 2, 6),
    (b"object 0 0000000000000000\nhash64 h 0 2 0 0 0 0 -", 2, 6),
    (
        b"object 0 0000000000000000\ndef f 0 1 0 0 0 0\ndata 00\ndata 00",
        4,
        7,
    ),
    (b"object 0 0000000000000000\nhash h 0 2 0 0 0 0 -", 2, 8),
    (
        b"object 0 0000000000000000\nhash h 0 2 0 0 0 0 0011223344556677\nhash i 0 2 0 0 0 0 001122334455667788",
        3,
        8,
    ),
];

fn refused(rt: &impl Abort, alloc: Global, text: &[u8], line: u32, rule: u8) {
    match parse(alloc, text) {
        Err(Fault::Bad(bad)) => assert_eq!(rt; bad, TextBad { line, rule }),
        _ => assert!(rt; false, "accepted, or out of memory"),
    }
}

#[test]
fn the_first_bad_line_is_named_with_its_least_rule(rt: HostRuntime) {
    let alloc = rt.alloc();
    for row in BAD {
        refused(&rt, alloc, row.0, row.1, row.2);
    }
}
