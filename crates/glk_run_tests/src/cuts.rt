// Every front of a package file: each is refused with its own cause, and nothing is written.
use super::runs::{is_done, run_of};
use glk_io::{Files, MemFiles};
use std::alloc::Global;
use std::test::Fail;
use std::thread::Threads;

// The smallest program.
const SMALLEST: &[u8] =
    b"object 0 0000000000000000\ndef _rt0_amd64_linux 0 1 0 0 9 0\ndata 31ffb83c0000000f05\n";

// An archive of one object, and where that begins in it: behind the magic and the member's header.
const ARCHIVE_LENGTH: usize = 272;

const OBJECT_AT: usize = 68;

// What is at the path of the image before each run.
const OLDER: &[u8] = b"older";

// The lines that a link of a front writes.
#[derive(Clone, Copy, Debug)]
enum Refusal {
    // A rule of archives or of objects, and the offset.
    Rule(&'static str, usize),
    // The member is no object for this platform.
    NotGoObject,
    // There is no member, so nothing defines the entry.
    Undefined,
}

// Why the first `length` bytes of the archive are refused.
fn archive_refusal(length: usize) -> Refusal {
    match length {
        0..=7 => Refusal::Rule("A1", 0),
        8 => Refusal::Undefined,
        9..=67 => Refusal::Rule("A2", 8),
        _ => Refusal::Rule("A5", OBJECT_AT),
    }
}

// Why the first `length` bytes of the object alone are refused. Offsets of V rules count from its
// magic, which is behind 30 bytes.
fn object_refusal(length: usize) -> Refusal {
    match length {
        0..=9 => Refusal::Rule("A1", 0),
        10..=21 => Refusal::NotGoObject,
        22..=29 => Refusal::Rule("A7", 0),
        30..=125 => Refusal::Rule("V1", length.saturating_sub(30)),
        _ => Refusal::Rule("V4", 92),
    }
}

// The line of a refusal.
fn line_of(alloc: Global, refusal: Refusal) -> Result<String, Fail> {
    Ok(match refusal {
        Refusal::Rule(rule, offset) => {
            format!(in alloc; "golink: m.a: member 0: rule {rule} at {offset}\n")?
        }
        Refusal::NotGoObject => {
            String::from_str(
                alloc,
                "golink: m.a: member 0: not a Go object for linux/amd64\n",
            )?
        }
        Refusal::Undefined => String::from_str(alloc, "golink: undefined: _rt0_amd64_linux\n")?,
    })
}

// Whether a link of these bytes writes this line alone, and leaves the older image.
fn is_refused<R: Threads + Sync>(
    rt: &R,
    alloc: Global,
    front: &[u8],
    refusal: Refusal,
) -> Result<bool, Fail> {
    let mut files = MemFiles::new(Vec::new(alloc), Vec::new(alloc));
    let has_front = files.write_file(alloc, "m.a", front).is_ok();
    let has_older = files.write_file(alloc, "a.out", OLDER).is_ok();
    let ran = run_of(rt, alloc, &["link", "m.a"], &mut files)?;
    let line = line_of(alloc, refusal)?;
    let is_told = ran.status == 1 && ran.err.bytes() == line.as_bytes();
    let stays = files.get("a.out") == Some(OLDER);
    Ok(has_front && has_older && is_told && stays)
}

// The archive of the smallest program.
fn archive<R: Threads + Sync>(rt: &R, alloc: Global, files: &mut MemFiles) -> Result<bool, Fail> {
    let has_text = files.write_file(alloc, "t.txt", SMALLEST).is_ok();
    Ok(has_text && is_done(rt, alloc, &["mkobj", "-o", "m.a", "t.txt"], files)?)
}

#[test]
fn every_front_of_an_archive_is_refused(rt: HostRuntime) -> Result<(), Fail> {
    let mut files = MemFiles::new(Vec::new(rt.alloc()), Vec::new(rt.alloc()));
    let is_made = archive(&rt, rt.alloc(), &mut files)?;
    assert!(rt; is_made);
    let bytes = files.get("m.a").ok_or("no archive")?;
    assert_eq!(rt; bytes.len(), ARCHIVE_LENGTH);
    for length in 0..ARCHIVE_LENGTH {
        let front = bytes.get(..length).ok_or("no front")?;
        let refused = is_refused(&rt, rt.alloc(), front, archive_refusal(length))?;
        assert!(rt; refused, "{length}");
    }
    Ok(())
}

#[test]
fn every_front_of_an_object_is_refused(rt: HostRuntime) -> Result<(), Fail> {
    let mut files = MemFiles::new(Vec::new(rt.alloc()), Vec::new(rt.alloc()));
    let is_made = archive(&rt, rt.alloc(), &mut files)?;
    assert!(rt; is_made);
    let bytes = files.get("m.a").ok_or("no archive")?;
    let object = bytes.get(OBJECT_AT..).ok_or("no object")?;
    assert_eq!(rt; object.len(), ARCHIVE_LENGTH - OBJECT_AT);
    for length in 0..ARCHIVE_LENGTH - OBJECT_AT {
        let front = object.get(..length).ok_or("no front")?;
        let refused = is_refused(&rt, rt.alloc(), front, object_refusal(length))?;
        assert!(rt; refused, "{length}");
    }
    Ok(())
}
