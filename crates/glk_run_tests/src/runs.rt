// Runs of the program over files in memory.
use glk_io::{MemFiles, MemSink, MemSource};
use glk_run::run;
use std::alloc::Global;
use std::test::Fail;
use std::thread::Threads;

// Room enough for any message here.
const ROOM: usize = 256;

// How a run ended, and what it wrote on standard error.
#[derive(Drop)]
pub struct Ran {
    pub status: u8,
    pub err: MemSink,
}

// The words as the program is given them.
fn texts_of(alloc: Global, words: &[&str]) -> Result<Vec<String>, Fail> {
    let mut texts = Vec::new(alloc);
    for word in words {
        texts.push(String::from_str(alloc, word)?)?;
    }
    Ok(texts)
}

// Runs the program on these words.
pub fn run_of<R: Threads + Sync>(
    rt: &R,
    alloc: Global,
    words: &[&str],
    files: &mut MemFiles,
) -> Result<Ran, Fail> {
    let words = texts_of(alloc, words)?;
    let mut out = MemSink::new(alloc, ROOM, Vec::new(alloc))?;
    let mut err = MemSink::new(alloc, ROOM, Vec::new(alloc))?;
    let mut input = MemSource::new(Vec::new(alloc), Vec::new(alloc));
    let outcome = run(
        rt,
        alloc,
        words.as_slice(),
        files,
        &mut input,
        &mut out,
        &mut err,
    );
    Ok(Ran {
        status: outcome.status(),
        err,
    })
}

// Whether the program ends with status 0 on these words.
pub fn is_done<R: Threads + Sync>(
    rt: &R,
    alloc: Global,
    words: &[&str],
    files: &mut MemFiles,
) -> Result<bool, Fail> {
    Ok(run_of(rt, alloc, words, files)?.status == 0)
}
