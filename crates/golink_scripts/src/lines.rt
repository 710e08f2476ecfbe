// The lines of a script.
ghost use Rattle.std.specs.Prelude.{◌≡◌, OnOk};

use crate::running::golink;
use crate::show::{same, shown};
use crate::stage::{Ended, Stage, wrote};
use crate::stop::Stop;
use crate::words::{Word, number, words_of};
use glk_io::CallFail;
use std::alloc::Global;
use std::fs;
use std::rt::Runtime;
use std::thread::Threads;

/// What a line was.
#[derive(Clone, Copy)]
pub enum Line {
    Run,
    Check,
    Other,
}

/// Carries out a line.
pub(crate) fn carry<R: Runtime + AllocGlobal + Threads + Sync>(
    rt: &R,
    alloc: Global,
    stage: &mut Stage,
    spelled: &str,
    line: u32,
) -> Result<Line, Stop> {
    if spelled.trim().is_empty() || spelled.starts_with('#') {
        return Ok(Line::Other);
    }
    let (verb, text) = spelled.split_once(' ').unwrap_or((spelled, ""));
    if verb == "stderr" || verb == "stdout" {
        check_stream(alloc, stage, verb, text)?;
        return Ok(Line::Check);
    }
    let words = words_of(alloc, text)?;
    carry_words(rt, alloc, stage, verb, words.as_slice(), line)
}

// The last run wrote this line to a stream, and nothing else.
fn check_stream(alloc: Global, stage: &mut Stage, name: &str, text: &str) -> Result<(), Stop> {
    let ended = last(alloc, stage)?;
    let stream = if name == "stderr" {
        &mut ended.err
    } else {
        &mut ended.out
    };
    let wanted = format!(in alloc; "{text}\n")?;
    wrote(alloc, stream, wanted.as_bytes())
}

// Carries out a line of words.
fn carry_words<R: Runtime + AllocGlobal + Threads + Sync>(
    rt: &R,
    alloc: Global,
    stage: &mut Stage,
    verb: &str,
    words: &[Word],
    line: u32,
) -> Result<Line, Stop> {
    match verb {
        "golink" => {
            golink(rt, alloc, stage, words, line)?;
            Ok(Line::Run)
        }
        "load" => {
            load(rt, alloc, stage, words)?;
            Ok(Line::Other)
        }
        "file" | "stdin" | "fail" | "room" => {
            prepare(alloc, stage, verb, words)?;
            Ok(Line::Other)
        }
        _ => {
            check(alloc, stage, verb, words)?;
            Ok(Line::Check)
        }
    }
}

// The last run.
fn last(alloc: Global, stage: &mut Stage) -> Result<&mut Ended, Stop> {
    match &mut stage.last {
        Some(ended) => Ok(ended),
        None => Err(Stop::because(alloc, "no run before this line")),
    }
}

// Takes a file from beside the script.
fn load<R: Runtime + AllocGlobal>(
    rt: &R,
    alloc: Global,
    stage: &mut Stage,
    words: &[Word],
) -> Result<(), Stop> {
    let [name] = words else {
        return Err(Stop::because(alloc, "a line of another form"));
    };
    let name = name.text();
    let path = stage.path_beside(alloc, name)?;
    match fs::read(rt, path.as_str()) {
        Ok(bytes) => stage.put(alloc, name, bytes),
        Err(_) => Err(Stop::Line(format!(in alloc; "no file beside the script: {name}")?)),
    }
}

// Carries out a line that says what the next run finds.
fn prepare(alloc: Global, stage: &mut Stage, verb: &str, words: &[Word]) -> Result<(), Stop> {
    match (verb, words) {
        ("file", [name, value @ ..]) => {
            let bytes = stage.value(alloc, value)?;
            stage.put(alloc, name.text(), bytes)
        }
        ("stdin", value) => {
            stage.input = stage.value(alloc, value)?;
            Ok(())
        }
        ("fail", [of, call]) => fail(alloc, stage, of.text(), call.text(), "0"),
        ("fail", [of, call, kept]) => fail(alloc, stage, of.text(), call.text(), kept.text()),
        ("room", [of, room]) => {
            let room = number(alloc, room.text())?;
            match of.text() {
                "stdout" => stage.faults.out_room = room,
                "stderr" => stage.faults.err_room = room,
                _ => return Err(Stop::because(alloc, "no such stream")),
            }
            Ok(())
        }
        _ => Err(Stop::because(alloc, "a line of another form")),
    }
}

// A call of the next run will fail.
fn fail(alloc: Global, stage: &mut Stage, of: &str, call: &str, kept: &str) -> Result<(), Stop> {
    let call = number(alloc, call)? as u64;
    let kept = number(alloc, kept)?;
    match of {
        "files" => stage.faults.files.push(CallFail { call, kept })?,
        "stdin" => stage.faults.input.push(call)?,
        "stdout" => stage.faults.out.push(call)?,
        "stderr" => stage.faults.err.push(call)?,
        _ => return Err(Stop::because(alloc, "no such stream")),
    }
    Ok(())
}

// Carries out a check.
fn check(alloc: Global, stage: &mut Stage, verb: &str, words: &[Word]) -> Result<(), Stop> {
    match (verb, words) {
        ("status", [wanted]) => {
            let wanted = number(alloc, wanted.text())?;
            let ended = last(alloc, stage)?;
            ended.is_status_checked = true;
            equal(alloc, wanted as u64, u64::from(ended.status))
        }
        ("faults", [wanted]) => {
            let wanted = number(alloc, wanted.text())? as u64;
            let ended = last(alloc, stage)?;
            ended.listed = wanted;
            equal(alloc, wanted, ended.failed)
        }
        ("is", [name, value @ ..]) => is(alloc, stage, name.text(), value),
        ("at", [name, offset, value @ ..]) => {
            let offset = number(alloc, offset.text())?;
            is_at(alloc, stage, name.text(), offset, value)
        }
        ("length", [name, wanted]) => {
            let wanted = number(alloc, wanted.text())?;
            equal(
                alloc,
                wanted as u64,
                stage.checked(alloc, name.text())?.len() as u64,
            )
        }
        ("has", [name, value @ ..]) => has(alloc, stage, name.text(), value, true),
        ("lacks", [name, value @ ..]) => has(alloc, stage, name.text(), value, false),
        ("absent", [name]) => match stage.bytes(name.text()) {
            Some(_) => Err(Stop::because(alloc, "wanted no file, found one")),
            None => Ok(()),
        },
        _ => Err(Stop::because(alloc, "no line of a script")),
    }
}

// Two numbers are one.
fn equal(alloc: Global, wanted: u64, found: u64) -> Result<(), Stop>
    ensures { OnOk result (wanted ≡ found) }
{
    if wanted == found {
        return Ok(());
    }
    Err(Stop::Line(format!(in alloc; "wanted {wanted}, found {found}")?))
}

// A file is these bytes.
fn is(alloc: Global, stage: &mut Stage, name: &str, value: &[Word]) -> Result<(), Stop> {
    let wanted = stage.value(alloc, value)?;
    same(alloc, wanted.as_slice(), stage.checked(alloc, name)?, 0)
}

// These bytes are at an offset of a file.
fn is_at(
    alloc: Global,
    stage: &mut Stage,
    name: &str,
    offset: usize,
    value: &[Word],
) -> Result<(), Stop> {
    let wanted = stage.some_value(alloc, value)?;
    let bytes = stage.checked(alloc, name)?;
    let rest = bytes.get(offset..).unwrap_or(&[]);
    let found = rest.get(..wanted.len()).unwrap_or(rest);
    same(alloc, wanted.as_slice(), found, offset)
}

// These bytes are somewhere in a file, or nowhere.
fn has(
    alloc: Global,
    stage: &mut Stage,
    name: &str,
    value: &[Word],
    is_wanted: bool,
) -> Result<(), Stop> {
    let wanted = stage.some_value(alloc, value)?;
    holds(
        alloc,
        wanted.as_slice(),
        stage.checked(alloc, name)?,
        is_wanted,
    )
}

// Bytes are somewhere in others, or nowhere.
fn holds(alloc: Global, wanted: &[u8], bytes: &[u8], is_wanted: bool) -> Result<(), Stop> {
    let mut found = false;
    for at in 0..bytes.len() {
        found |= bytes[at..].starts_with(wanted);
    }
    if found == is_wanted {
        return Ok(());
    }
    let wanted = shown(alloc, wanted)?;
    let not = if found { "there" } else { "not there" };
    let bytes = shown(alloc, bytes)?;
    Err(Stop::Line(format!(in alloc; "{wanted} is {not}, in {bytes}")?))
}
