// The system's files, which no clause ties to the system: what is there after a write, and what is not.
use glk_io::{Files, ReadError, WriteError};
use glk_system::OsFiles;
use std::alloc::Global;
use std::fs;
use std::os::unix::fs::{MetadataExt, PermissionsExt, symlink};
use std::rt::Files as SystemFiles;
use std::test::Fail;

// How long a file may be that is to be refused for another reason.
const LIMIT: u64 = 100;

// Whether the file at a path is these bytes.
fn has<F: Files>(alloc: Global, files: &mut F, path: &str, bytes: &[u8]) -> bool {
    match files.read_file(alloc, path, bytes.len() as u64) {
        Ok(read) => read.as_slice() == bytes,
        Err(_) => false,
    }
}

// Why a file is not read.
fn refusal<F: Files>(alloc: Global, files: &mut F, path: &str, max: u64) -> Option<ReadError> {
    files.read_file(alloc, path, max).err()
}

// What is done with a file, and what is then so.
#[derive(Clone, Copy, Debug)]
enum Step {
    // These bytes are written.
    Writes(&'static str, &'static [u8]),
    // A write fails.
    FailsToWrite(&'static str),
    // The file is these bytes.
    Has(&'static str, &'static [u8]),
    // A read of so many bytes is refused.
    Refuses(&'static str, u64, ReadError),
    // So many reads and writes have failed.
    Counts(u64, u64),
    // The path leads to itself from now on.
    LeadsToItself(&'static str),
    // A link at the first path leads to the second from now on.
    Links(&'static str, &'static str),
    // What is at the path is still a link.
    IsLink(&'static str),
    // Nothing is at the path.
    IsFree(&'static str),
    // What is at the path is removed, so it was there.
    Removes(&'static str),
}

// Whether a step went as it says.
fn goes<R: SystemFiles>(rt: &R, alloc: Global, files: &mut OsFiles<'_, R>, step: Step) -> bool {
    match step {
        Step::Writes(path, bytes) => files.write_file(alloc, path, bytes).is_ok(),
        Step::FailsToWrite(path) => {
            files.write_file(alloc, path, b"x") == Err(WriteError::Failed)
        }
        Step::Has(path, bytes) => has(alloc, files, path, bytes),
        Step::Refuses(path, max, why) => refusal(alloc, files, path, max) == Some(why),
        Step::Counts(reads, writes) => {
            files.read_faults() == reads && files.write_faults() == writes
        }
        Step::LeadsToItself(path) => symlink(rt, path, path).is_ok(),
        Step::Links(path, target) => symlink(rt, target, path).is_ok(),
        Step::IsLink(path) => match fs::symlink_metadata(rt, path) {
            Ok(metadata) => metadata.is_symlink(),
            Err(_) => false,
        },
        Step::IsFree(path) => fs::symlink_metadata(rt, path).is_err(),
        Step::Removes(path) => fs::remove_file(rt, path).is_ok(),
    }
}

const STEPS: [Step; 37] = [
    Step::Writes("glk_system.tmp", b"a longer text"),
    Step::Writes("glk_system.tmp", b"text"),
    Step::Has("glk_system.tmp", b"text"),
    Step::Refuses("glk_system.tmp", 3, ReadError::TooLong),
    // Blanks at the ends of a path are part of it.
    Step::Writes(" glk_system.tmp ", b"other"),
    Step::Has(" glk_system.tmp ", b"other"),
    Step::Has("glk_system.tmp", b"text"),
    Step::Removes(" glk_system.tmp "),
    // What is below a file can't be opened, which is not the same as absent.
    Step::Refuses("glk_system.tmp/below", LIMIT, ReadError::Failed),
    Step::Removes("glk_system.tmp"),
    Step::Refuses("glk_system.tmp", LIMIT, ReadError::Absent),
    // A new file that an interrupted run left stays, and another name is taken.
    Step::Writes("glk_system.tmp", b"text"),
    Step::Links(".golink-0", "glk_system.tmp"),
    Step::Writes("glk_system.tmp", b"new"),
    Step::Has(".golink-0", b"new"),
    Step::Removes(".golink-0"),
    Step::IsFree(".golink-1"),
    // What a link leads to is replaced, and the link stays.
    Step::Links("glk_system_link.tmp", "glk_system.tmp"),
    Step::Writes("glk_system_link.tmp", b"through"),
    Step::IsLink("glk_system_link.tmp"),
    Step::Has("glk_system.tmp", b"through"),
    Step::Removes("glk_system.tmp"),
    // So is what it leads to where there is nothing yet.
    Step::Writes("glk_system_link.tmp", b"again"),
    Step::IsLink("glk_system_link.tmp"),
    Step::Removes("glk_system_link.tmp"),
    Step::Removes("glk_system.tmp"),
    Step::Counts(1, 0),
    // A directory is no file.
    Step::Refuses(".", LIMIT, ReadError::Failed),
    Step::FailsToWrite("."),
    Step::Counts(2, 1),
    // What can't be opened stays there.
    Step::LeadsToItself("glk_system.tmp"),
    Step::Refuses("glk_system.tmp", LIMIT, ReadError::Failed),
    Step::FailsToWrite("glk_system.tmp"),
    Step::Removes("glk_system.tmp"),
    // No file has no name: what was written beside it goes.
    Step::FailsToWrite(""),
    Step::IsFree(".golink-0"),
    Step::Counts(3, 3),
];

#[test]
fn files_of_the_system_are_read_and_replaced(rt: HostRuntime) {
    let mut files = OsFiles::new(&rt);
    for step in STEPS {
        assert!(rt; goes(&rt, rt.alloc(), &mut files, step), "{step:?}");
    }
}

// Whether a file of so many bytes goes both ways.
fn goes_both_ways<R: SystemFiles>(rt: &R, alloc: Global, length: usize) -> Result<bool, Fail> {
    let path = "glk_system_long.tmp";
    let mut bytes = Vec::new(alloc);
    bytes.resize(length, b'a')?;
    bytes.push(b'b')?;
    let mut files = OsFiles::new(rt);
    let wrote = files.write_file(alloc, path, &bytes).is_ok();
    let same = has(alloc, &mut files, path, &bytes);
    Ok(wrote && same && fs::remove_file(rt, path).is_ok())
}

// One read of the system does not give all of it.
#[test]
fn a_long_file_goes_both_ways(rt: HostRuntime) -> Result<(), Fail> {
    let same = goes_both_ways(&rt, rt.alloc(), 1_000_000)?;
    assert!(rt; same);
    Ok(())
}

// What is at a path is written as data, or as a program.
fn writes_data<R: SystemFiles>(rt: &R, alloc: Global, path: &str) -> bool {
    OsFiles::new(rt).write_file(alloc, path, b"data").is_ok()
}

fn writes_program<R: SystemFiles>(rt: &R, alloc: Global, path: &str) -> bool {
    OsFiles::for_programs(rt)
        .write_file(alloc, path, b"code")
        .is_ok()
}

// The permissions at a path; none where there is nothing.
fn mode_of<R: SystemFiles>(rt: &R, path: &str) -> Option<u32> {
    Some(fs::metadata(rt, path).ok()?.mode() & 0o777)
}

// Whether the owner can read and run what has these permissions, and just those who can read it can
// run it.
fn is_run_by_readers(mode: Option<u32>) -> bool {
    match mode {
        Some(mode) => mode & 0o500 == 0o500 && (mode & 0o444) >> 2 == mode & 0o111,
        None => false,
    }
}

#[test]
fn a_program_can_be_run_by_those_who_can_read_it(rt: HostRuntime) {
    let path = "glk_system_program.tmp";
    assert!(rt; writes_data(&rt, rt.alloc(), path));
    assert_eq!(rt; mode_of(&rt, path).map(|mode| mode & 0o111), Some(0));
    // A file that is there, and a new one.
    for _ in 0..2 {
        assert!(rt; writes_program(&rt, rt.alloc(), path));
        assert!(rt; is_run_by_readers(mode_of(&rt, path)));
        assert!(rt; fs::remove_file(&rt, path).is_ok());
    }
}

#[test]
fn what_is_no_file_of_its_own_keeps_its_permissions(rt: HostRuntime) {
    // A device is written as it is.
    let before = mode_of(&rt, "/dev/null");
    assert!(rt; writes_program(&rt, rt.alloc(), "/dev/null"));
    assert_eq!(rt; mode_of(&rt, "/dev/null"), before);
    // The name of this process can be written, and the kernel refuses to change its permissions.
    let name = "/proc/self/comm";
    if writes_data(&rt, rt.alloc(), name) {
        assert!(rt; !writes_program(&rt, rt.alloc(), name));
    }
}

// The number by which the system knows the file at a path; none where there is nothing.
fn number_of<R: SystemFiles>(rt: &R, path: &str) -> Option<u64> {
    Some(fs::metadata(rt, path).ok()?.ino())
}

// A program that runs has its file open. It goes on with the old one.
#[test]
fn a_file_that_is_open_is_replaced_by_another_one(rt: HostRuntime) -> Result<(), Fail> {
    let path = "glk_system_open.tmp";
    assert!(rt; writes_data(&rt, rt.alloc(), path));
    let before = number_of(&rt, path);
    let Ok(open) = fs::open(&rt, path) else {
        return Err(Fail::from("not there"));
    };
    assert!(rt; writes_program(&rt, rt.alloc(), path));
    assert!(rt; number_of(&rt, path) != before);
    let mut files = OsFiles::new(&rt);
    assert!(rt; has(rt.alloc(), &mut files, path, b"code"));
    let Ok(metadata) = open.metadata() else {
        return Err(Fail::from("closed"));
    };
    // The old file has no name any more.
    assert_eq!(rt; metadata.nlink(), 0);
    assert!(rt; fs::remove_file(&rt, path).is_ok());
    Ok(())
}

#[test]
fn a_file_that_is_replaced_keeps_its_permissions(rt: HostRuntime) {
    let path = "glk_system_mode.tmp";
    assert!(rt; writes_data(&rt, rt.alloc(), path));
    for (mode, data, program) in [(0o600, 0o600, 0o700), (0o444, 0o444, 0o555)] {
        let set = fs::set_permissions(&rt, path, fs::Permissions::from_mode(mode));
        assert!(rt; set.is_ok());
        assert!(rt; writes_data(&rt, rt.alloc(), path));
        assert_eq!(rt; mode_of(&rt, path), Some(data));
        assert!(rt; writes_program(&rt, rt.alloc(), path));
        assert_eq!(rt; mode_of(&rt, path), Some(program));
    }
    assert!(rt; fs::remove_file(&rt, path).is_ok());
}
