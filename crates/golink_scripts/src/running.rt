// A run of the program on the files of a script.
use crate::stage::{Ended, Faults, Stage, Stream};
use crate::stop::Stop;
use crate::words::Word;
use glk_io::{CallFail, Files, MemFiles, MemSink, MemSource, Sink};
use glk_run::run;
use std::alloc::Global;
use std::mem;
use std::thread::Threads;

// What a run of the program meets.
#[derive(Drop)]
struct Outside {
    files: MemFiles,
    input: MemSource,
    out: MemSink,
    err: MemSink,
}

/// Runs the program on these words.
pub(crate) fn golink<R: Threads + Sync>(
    rt: &R,
    alloc: Global,
    stage: &mut Stage,
    words: &[Word],
    line: u32,
) -> Result<(), Stop> {
    let listed = stage.faults.files.len() as u64;
    let mut outside = outside_of(alloc, stage)?;
    let status = status_of(rt, alloc, words, &mut outside)?;
    stage.last = Some(ended_of(alloc, stage, &outside, status, line, listed)?);
    Ok(())
}

// How a run at a line ended that was to meet so many faults of files.
fn ended_of(
    alloc: Global,
    stage: &mut Stage,
    outside: &Outside,
    status: u8,
    line: u32,
    listed: u64,
) -> Result<Ended, Stop> {
    let changed = take_back(alloc, stage, &outside.files)?;
    let is_refusal = status != 0 && outside.files.write_faults() == 0;
    let out = stream(alloc, &outside.out)?;
    let err = stream(alloc, &outside.err)?;
    Ok(Ended {
        line,
        status,
        is_status_checked: false,
        out,
        err,
        failed: faults_of(&outside.files),
        listed,
        changed: if is_refusal { changed } else { None },
    })
}

// What the next run meets. The one after it meets no fault and finds no input.
fn outside_of(alloc: Global, stage: &mut Stage) -> Result<Outside, Stop> {
    let Faults {
        files,
        input: input_fails,
        out,
        err,
        out_room,
        err_room,
    } = mem::replace(&mut stage.faults, Faults::none(alloc));
    let input = mem::replace(&mut stage.input, Vec::new(alloc));
    Ok(Outside {
        files: files_in_memory(alloc, stage, files)?,
        input: MemSource::new(input, input_fails),
        out: MemSink::new(alloc, out_room, out)?,
        err: MemSink::new(alloc, err_room, err)?,
    })
}

// The status with which the program ends.
fn status_of<R: Threads + Sync>(
    rt: &R,
    alloc: Global,
    words: &[Word],
    outside: &mut Outside,
) -> Result<u8, Stop> {
    let texts = texts_of(alloc, words)?;
    let Outside {
        files,
        input,
        out,
        err,
    } = outside;
    let outcome = run(rt, alloc, &texts, files, input, out, err);
    Ok(outcome.status())
}

// How many calls of files failed.
fn faults_of(files: &MemFiles) -> u64 {
    files.read_faults().saturating_add(files.write_faults())
}

// What a sink holds.
fn stream(alloc: Global, sink: &MemSink) -> Result<Stream, Stop> {
    Ok(Stream {
        bytes: Vec::from_slice(alloc, sink.bytes())?,
        is_checked: false,
    })
}

// The words as the program is given them.
fn texts_of(alloc: Global, words: &[Word]) -> Result<Vec<String>, Stop> {
    let mut texts = Vec::new(alloc);
    for word in words {
        texts.push(String::from_str(alloc, word.text())?)?;
    }
    Ok(texts)
}

// The files in memory. Each takes a call to write, and the calls that fail count from the first one
// after these.
fn files_in_memory(alloc: Global, stage: &Stage, listed: Vec<CallFail>) -> Result<MemFiles, Stop> {
    let earlier = stage.files.len() as u64;
    let mut fails = Vec::new(alloc);
    for fail in listed.iter() {
        fails.push(CallFail {
            call: fail.call.saturating_add(earlier),
            kept: fail.kept,
        })?;
    }
    let mut files = MemFiles::new(Vec::new(alloc), fails);
    for file in &stage.files {
        let written = files.write_file(alloc, file.name.as_str(), file.bytes.as_slice());
        if written.is_err() {
            return Err(Stop::OutOfMemory);
        }
    }
    Ok(files)
}

// Takes back the files that a run changed. Answers one of them.
fn take_back(alloc: Global, stage: &mut Stage, files: &MemFiles) -> Result<Option<String>, Stop> {
    let mut changed = None;
    for path in files.paths(alloc)? {
        let Some(bytes) = files.get(path) else {
            continue;
        };
        if is_file(stage, path, bytes) {
            continue;
        }
        let bytes = Vec::from_slice(alloc, bytes)?;
        stage.put(alloc, path, bytes)?;
        changed = Some(String::from_str(alloc, path)?);
    }
    Ok(changed)
}

// Whether a script has this file.
fn is_file(stage: &Stage, name: &str, bytes: &[u8]) -> bool {
    for file in &stage.files {
        if file.name.as_str() == name {
            return file.bytes.as_slice() == bytes;
        }
    }
    false
}
