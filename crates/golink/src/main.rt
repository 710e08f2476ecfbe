//! golink: a linker for compiled Go packages.
#![tactic(auto)]

mod arguments;

use glk_io::{OsSink, OsSource};
use glk_run::{report, run};
use glk_system::OsFiles;
use std::process::ExitCode;

fn main(rt: HostRuntime) -> ExitCode {
    let mut err = OsSink::new(rt.stderr());
    let words = match arguments::arguments(&rt, rt.alloc()) {
        Ok(words) => words,
        Err(outcome) => {
            report(&mut err, &outcome);
            return ExitCode::from(outcome.status());
        }
    };
    let mut files = if makes_program(&words) {
        OsFiles::for_programs(&rt)
    } else {
        OsFiles::new(&rt)
    };
    let mut input = OsSource::new(rt.stdin());
    let mut out = OsSink::new(rt.stdout());
    let outcome = run(
        &rt,
        rt.alloc(),
        &words,
        &mut files,
        &mut input,
        &mut out,
        &mut err,
    );
    ExitCode::from(outcome.status())
}

// Whether what the words write is a program, which can be run. An archive can't.
fn makes_program(words: &[String]) -> bool {
    match words.first() {
        Some(command) => command.as_str() == "link",
        None => false,
    }
}
