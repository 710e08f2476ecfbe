// Package files, each byte by the format, and what is found in them.
use crate::{HeaderRule, ObjectEntry, ObjectRules, PackageBad, WidthRule, objects};
use glk_base::{Fault, RuleFamily, Text};
use std::alloc::{AllocError, Global};
use std::process::Abort;
use std::test::Fail;

/// The object of a program's entry that only exits, 174 bytes.
const LEAST: [u8; 174] = [
    // the magic, no fingerprint, no flags
    0, 103, 111, 49, 50, 48, 108, 100, 0, 0, 0, 0, 0, 0, 0, 0, 0, 0, 0, 0,
    // the offsets of the blocks
    112, 0, 0, 0, 112, 0, 0, 0, 120, 0, 0, 0, 120, 0, 0, 0, 141, 0, 0, 0, 141, 0, 0, 0, 141, 0, 0,
    0, 141, 0, 0, 0, 141, 0, 0, 0, 141, 0, 0, 0, 141, 0, 0, 0, 141, 0, 0, 0, 149, 0, 0, 0, 157, 0,
    0, 0, 165, 0, 0, 0, 165, 0, 0, 0, 165, 0, 0, 0, 174, 0, 0, 0, 174, 0, 0, 0,
    // a string
    95, 114, 116, 48, 95, 97, 109, 100, 54, 52, 95, 108, 105, 110, 117, 120,
    // PkgIdx: the dummy
    0, 0, 0, 0, 0, 0, 0, 0,
    // Symdef
    16, 0, 0, 0, 96, 0, 0, 0, 0, 0, 1, 0, 0, 9, 0, 0, 0, 0, 0, 0, 0,
    // RelocIdx, AuxIdx, DataIdx
    0, 0, 0, 0, 0, 0, 0, 0, 0, 0, 0, 0, 0, 0, 0, 0, 0, 0, 0, 0, 9, 0, 0, 0,
    // Data
    49, 255, 184, 60, 0, 0, 0, 15, 5,
];

// The object as a value of which a proof knows nothing.
fn least() -> [u8; 174] {
    LEAST
}

const LINE: &[u8] = b"go object linux amd64 t";

/// The member that describes the package, and the header and the lines of an object.
const BEFORE: &[u8] =
    b"!<arch>\n__.PKGDEF       0           0     0     644     6         `\nexport\
a.o             0           0     0     644     200       `\ngo object linux amd64 t\n!\n";

/// The header of a member, up to its size.
const NEXT: &[u8] = b"b.o             0           0     0     644     ";

// A package file of the description, the object, and a member with this size and body; a bare
// object where the size is empty.
fn package(alloc: Global, size: &[u8], body: &[u8]) -> Result<Vec<u8>, AllocError> {
    if size.is_empty() {
        return Vec::from_slice(alloc, body);
    }
    let mut file = Vec::from_slice(alloc, BEFORE)?;
    file.extend_from_slice(&least())?;
    file.extend_from_slice(NEXT)?;
    file.extend_from_slice(size)?;
    file.extend_from_slice(b"`\n")?;
    file.extend_from_slice(body)?;
    Ok(file)
}

// The rules after an object with this line.
fn on_line() -> ObjectRules<'static> {
    ObjectRules {
        headers: HeaderRule::Exactly(LINE),
        widths: WidthRule::Uniform,
    }
}

// The objects of a file; all files are shorter than the limit.
fn found<'a>(
    rt: &impl Abort,
    alloc: Global,
    file: &'a [u8],
    rules: ObjectRules<'_>,
) -> Result<Vec<ObjectEntry<'a>>, Fault<PackageBad>> {
    assert!(rt; file.len() <= 1 << 30);
    objects(alloc, file, rules)
}

#[test]
fn objects_are_found_where_they_are(rt: HostRuntime) -> Result<(), Fail> {
    let alloc = rt.alloc();
    let mut body = Vec::from_slice(alloc, b"go object linux amd64 t\n!\n")?;
    body.extend_from_slice(&least())?;
    let file = package(alloc, b"200       ", &body)?;
    let entries = found(&rt, alloc, &file, ObjectRules::uniform())?;
    assert_eq!(rt; entries.len(), 2);
    assert_eq!(rt; entries[1].member(), 2);
    assert_eq!(rt; entries[1].name(), Some(b"b.o".as_slice()));
    assert_eq!(rt; entries[1].line(), LINE);
    assert_eq!(rt; entries[1].goobj(), least().as_slice());
    assert_eq!(rt; entries[1].at(), 420);
    assert_eq!(rt; entries[1].view().definitions(), 1);
    let bare = found(&rt, alloc, &body, on_line())?;
    assert_eq!(rt; bare.len(), 1);
    assert_eq!(rt; bare[0].name(), None);
    assert_eq!(rt; bare[0].at(), 26);
    assert_eq!(rt; bare[0].shape().view(bare[0].goobj()).symbols(), 1);
    Ok(())
}

// The first fault of a file, if it has one.
fn fault(
    rt: &impl Abort,
    alloc: Global,
    file: &[u8],
    rules: ObjectRules<'_>,
) -> Option<PackageBad> {
    match found(rt, alloc, file, rules) {
        Err(Fault::Bad(bad)) => Some(bad),
        _ => None,
    }
}

fn malformed(member: u32, family: RuleFamily, rule: u8, offset: u64) -> PackageBad {
    PackageBad::Malformed {
        member,
        family,
        rule,
        offset,
    }
}

/// Sizes and bodies of a last member, or of a bare file, and the rule that each breaks first.
const BAD: [(&[u8], &[u8], u32, RuleFamily, u8, u64); 5] = [
    (b"", b"!<arch>", 0, RuleFamily::Archive, 1, 0),
    (
        b"",
        b"go object linux amd64 t\n!\n",
        0,
        RuleFamily::Object,
        1,
        0,
    ),
    (
        b"24        ",
        b"go object linux amd64 u\n",
        2,
        RuleFamily::Archive,
        7,
        394,
    ),
    (b"2x        ", b"", 2, RuleFamily::Archive, 4, 382),
    (
        b"26        ",
        b"go object linux amd64 t\n!\n",
        2,
        RuleFamily::Object,
        1,
        0,
    ),
];

#[test]
fn a_file_has_its_first_fault(rt: HostRuntime) -> Result<(), Fail> {
    let alloc = rt.alloc();
    for (size, body, member, family, rule, offset) in BAD {
        let file = package(alloc, size, body)?;
        let want = Some(malformed(member, family, rule, offset));
        assert_eq!(rt; fault(&rt, alloc, &file, ObjectRules::uniform()), want);
    }
    let file = package(alloc, b"4         ", b"text")?;
    let not_go = Some(PackageBad::NotGo { member: 2 });
    assert_eq!(rt; fault(&rt, alloc, &file, ObjectRules::any()), not_go);
    let file = package(alloc, b"26        ", b"go object linux amd64 u\n!\n")?;
    let other = Some(PackageBad::HeaderMismatch {
        member: 2,
        first: Text::new(alloc, LINE)?,
        here: Text::new(alloc, b"go object linux amd64 u")?,
    });
    assert_eq!(rt; fault(&rt, alloc, &file, ObjectRules::uniform()), other);
    Ok(())
}
