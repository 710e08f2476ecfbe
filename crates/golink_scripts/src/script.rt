// A script: its files, and its lines.
ghost use Rattle.std.specs.Prelude.{◌<◌, IfOk};

use crate::lines::{Line, carry};
use crate::stage::{Named, Stage, ended_well};
use crate::stop::Stop;
use crate::words::words_of;
use std::alloc::Global;
use std::rt::Runtime;
use std::thread::Threads;

/// How many lines a script has before its files, how many of them are runs, and how many checks.
#[derive(Clone, Copy)]
pub struct Counts {
    pub lines: u32,
    pub runs: u32,
    pub checks: u32,
}

/// Nothing yet.
pub const NO_COUNTS: Counts = Counts {
    lines: 0,
    runs: 0,
    checks: 0,
};

/// A line of a script that fails.
#[derive(Drop)]
pub struct Failed {
    pub line: u32,
    pub stop: Stop,
}

// The head of a file in a script: its name, and whether its lines are values.
fn head_of(line: &str) -> Option<(&str, bool)> {
    let name = line.strip_prefix("-- ")?.strip_suffix(" --")?;
    Some(match name.strip_suffix(" bytes") {
        Some(name) => (name, true),
        None => (name, false),
    })
}

// The stage with the files of the script at a path.
fn stage_of(alloc: Global, path: &str, text: &str) -> Result<Stage, Failed> {
    let mut stage = match Stage::new(alloc, path) {
        Ok(stage) => stage,
        Err(stop) => return Err(Failed { line: 0, stop }),
    };
    let mut line = 0u32;
    let mut are_values = None;
    for spelled in text.lines() {
        line = line.saturating_add(1);
        let added = match (head_of(spelled), are_values) {
            (Some((name, is_values)), _) => {
                are_values = Some(is_values);
                begin_file(alloc, &mut stage, name)
            }
            (None, Some(is_values)) => add_line(alloc, &mut stage, spelled, is_values),
            (None, None) => Ok(()),
        };
        if let Err(stop) = added {
            return Err(Failed { line, stop });
        }
    }
    Ok(stage)
}

// Puts an empty file at the end.
fn begin_file(alloc: Global, stage: &mut Stage, name: &str) -> Result<(), Stop> {
    if stage.bytes(name).is_some() {
        return Err(Stop::Line(format!(in alloc; "a second file {name}")?));
    }
    stage.put(alloc, name, Vec::new(alloc))
}

// Puts a line at the end of the last file.
fn add_line(alloc: Global, stage: &mut Stage, line: &str, is_values: bool) -> Result<(), Stop> {
    let mut more = Vec::new(alloc);
    if is_values {
        more = stage.value(alloc, words_of(alloc, line)?.as_slice())?;
    } else {
        more.extend_from_slice(line.as_bytes())?;
        more.push(b'\n')?;
    }
    if let Some(Named { bytes, .. }) = stage.files.last_mut() {
        bytes.extend_from_slice(more.as_slice())?;
    }
    Ok(())
}

/// Carries out the script at a path up to its first line that fails.
pub(crate) fn carry_out<R: Runtime + AllocGlobal + Threads + Sync>(
    rt: &R,
    alloc: Global,
    path: &str,
    text: &str,
) -> Result<Counts, Failed>
    ensures runs { IfOk result (λ counts. 0 < counts.runs) }
    ensures checks { IfOk result (λ counts. 0 < counts.checks) }
{
    let mut stage = stage_of(alloc, path, text)?;
    carry_on(rt, alloc, &mut stage, text)
}

// Carries out the script on its stage.
fn carry_on<R: Runtime + AllocGlobal + Threads + Sync>(
    rt: &R,
    alloc: Global,
    stage: &mut Stage,
    text: &str,
) -> Result<Counts, Failed>
    ensures runs { IfOk result (λ counts. 0 < counts.runs) }
    ensures checks { IfOk result (λ counts. 0 < counts.checks) }
{
    let counts = carry_lines(rt, alloc, stage, text)?;
    settle(alloc, stage)?;
    if counts.runs == 0 || counts.checks == 0 {
        let stop = Stop::because(alloc, "a script without a run or without a check");
        return Err(Failed {
            line: counts.lines,
            stop,
        });
    }
    Ok(counts)
}

// Carries out the lines before the first file.
fn carry_lines<R: Runtime + AllocGlobal + Threads + Sync>(
    rt: &R,
    alloc: Global,
    stage: &mut Stage,
    text: &str,
) -> Result<Counts, Failed> {
    let mut counts = NO_COUNTS;
    for spelled in text.lines() {
        if head_of(spelled).is_some() {
            break;
        }
        counts.lines = counts.lines.saturating_add(1);
        match carry_line(rt, alloc, stage, spelled, counts.lines)? {
            Line::Run => counts.runs = counts.runs.saturating_add(1),
            Line::Check => counts.checks = counts.checks.saturating_add(1),
            Line::Other => {}
        }
    }
    Ok(counts)
}

// Carries out one line.
fn carry_line<R: Runtime + AllocGlobal + Threads + Sync>(
    rt: &R,
    alloc: Global,
    stage: &mut Stage,
    spelled: &str,
    line: u32,
) -> Result<Line, Failed> {
    if spelled.starts_with("golink") {
        settle(alloc, stage)?;
    }
    match carry(rt, alloc, stage, spelled, line) {
        Ok(done) => Ok(done),
        Err(stop) => {
            // A run that did not end as it should is reported before what follows from it.
            last_ended_well(alloc, stage)?;
            Err(Failed { line, stop })
        }
    }
}

// The last run ended as it should, or fails at its own line.
fn last_ended_well(alloc: Global, stage: &Stage) -> Result<(), Failed> {
    let Some(ended) = &stage.last else {
        return Ok(());
    };
    match ended_well(alloc, ended) {
        Ok(()) => Ok(()),
        Err(stop) => Err(Failed {
            line: ended.line,
            stop,
        }),
    }
}

// What is left of the last run fails at its own line.
fn settle(alloc: Global, stage: &Stage) -> Result<(), Failed> {
    match stage.settle(alloc) {
        Ok(()) => Ok(()),
        Err(stop) => Err(Failed {
            line: match &stage.last {
                Some(ended) => ended.line,
                None => 0,
            },
            stop,
        }),
    }
}
