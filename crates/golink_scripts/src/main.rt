//! Runs scripts: tests of golink that are data.
//!
//! Without words it runs all scripts of the folder that it is run in. A script `*.txt` must pass, a
//! script `*.bad` must fail, and what it fails with is printed. The counts are printed, so that no
//! script drops out unseen.
#![tactic(auto)]

mod lines;
mod running;
mod script;
mod show;
mod stage;
mod stop;
mod words;

use crate::script::{Counts, Failed, NO_COUNTS, carry_out};
use crate::stop::Stop;
use std::alloc::Global;
use std::process::ExitCode;
use std::rt::Runtime;
use std::thread::Threads;
use std::{env, fs, io};

fn main(rt: HostRuntime) -> io::Result<ExitCode> {
    let are_good = all(&rt, rt.alloc())?;
    Ok(ExitCode::from(if are_good { 0 } else { 1 }))
}

// Runs all scripts, and answers whether all did what they must.
fn all<R: Runtime + AllocGlobal + Threads + Sync>(rt: &R, alloc: Global) -> io::Result<bool> {
    let names = script_names(rt, alloc)?;
    run_scripts(rt, alloc, names.as_slice())
}

// Runs these scripts, and prints the counts of all.
fn run_scripts<R: Runtime + AllocGlobal + Threads + Sync>(
    rt: &R,
    alloc: Global,
    names: &[String],
) -> io::Result<bool> {
    let mut are_good = true;
    let mut total = NO_COUNTS;
    for name in names {
        let (counts, is_good) = one(rt, alloc, name.as_str())?;
        total.runs = total.runs.saturating_add(counts.runs);
        total.checks = total.checks.saturating_add(counts.checks);
        are_good &= is_good;
    }
    let scripts = names.len();
    let (runs, checks) = (total.runs, total.checks);
    println!(rt; "{scripts} scripts, {runs} runs, {checks} checks")?;
    Ok(are_good)
}

// Runs a script, and answers the runs and checks of one that passes, and whether it did what it must.
fn one<R: Runtime + AllocGlobal + Threads + Sync>(
    rt: &R,
    alloc: Global,
    name: &str,
) -> io::Result<(Counts, bool)> {
    let text = fs::read_to_string(rt, name)?;
    match carry_out(rt, alloc, name, text.as_str()) {
        Ok(counts) => print_passed(rt, name, counts),
        Err(failed) => print_failed(rt, alloc, name, text.as_str(), &failed),
    }
}

// Prints the counts of a script that passes.
fn print_passed<R: Runtime>(rt: &R, name: &str, counts: Counts) -> io::Result<(Counts, bool)> {
    let (runs, checks) = (counts.runs, counts.checks);
    println!(rt; "{name}: {runs} runs, {checks} checks")?;
    Ok((counts, !is_bad(name)))
}

// Prints the line that fails: where it must, to standard output.
fn print_failed<R: Runtime + AllocGlobal>(
    rt: &R,
    alloc: Global,
    name: &str,
    text: &str,
    failed: &Failed,
) -> io::Result<(Counts, bool)> {
    let report = report(alloc, name, text, failed)?;
    if is_bad(name) {
        println!(rt; "{report}")?;
        Ok((NO_COUNTS, true))
    } else {
        eprintln!(rt; "{report}")?;
        Ok((NO_COUNTS, false))
    }
}

// Whether a file is a script.
fn is_script(name: &str) -> bool {
    name.ends_with(".txt") || is_bad(name)
}

// Whether a script must fail.
fn is_bad(name: &str) -> bool {
    name.ends_with(".bad")
}

// The scripts that the words name, else those of this folder, in order.
fn script_names<R: Runtime + AllocGlobal>(rt: &R, alloc: Global) -> io::Result<Vec<String>> {
    let mut names = match named_scripts(rt, alloc)? {
        Some(names) => names,
        None => scripts_here(rt, alloc)?,
    };
    names.sort()?;
    Ok(names)
}

// The scripts that the words name; none where there are no words.
fn named_scripts<R: Runtime + AllocGlobal>(
    rt: &R,
    alloc: Global,
) -> io::Result<Option<Vec<String>>> {
    let mut names = Vec::new(alloc);
    let mut are_named = false;
    for word in env::args(rt)?.skip(1) {
        are_named = true;
        add_script(alloc, &mut names, word.as_str())?;
    }
    Ok(if are_named { Some(names) } else { None })
}

// The scripts of the folder that this is run in.
fn scripts_here<R: Runtime + AllocGlobal>(rt: &R, alloc: Global) -> io::Result<Vec<String>> {
    let mut names = Vec::new(alloc);
    for entry in fs::read_dir(rt, ".")? {
        add_script(alloc, &mut names, entry?.file_name())?;
    }
    Ok(names)
}

// Lists a file that is a script.
fn add_script(alloc: Global, names: &mut Vec<String>, name: &str) -> io::Result<()> {
    if is_script(name) {
        names.push(String::from_str(alloc, name)?)?;
    }
    Ok(())
}

// The line that fails, and why.
fn report(alloc: Global, name: &str, text: &str, failed: &Failed) -> io::Result<String> {
    let line = failed.line;
    let spelled = text
        .lines()
        .nth((line as usize).saturating_sub(1))
        .unwrap_or("");
    Ok(match &failed.stop {
        Stop::Line(why) => format!(in alloc; "{name}:{line}: {spelled}\n    {why}")?,
        Stop::OutOfMemory => format!(in alloc; "{name}:{line}: {spelled}\n    out of memory")?,
    })
}
