// Worlds of two packages, from the texts of their objects, and what they merge to.
ghost use Rattle.std.specs.Prelude.{◌≤◌};

use glk_arena::{Builtins, Config, Loaded, load_waves};
use glk_base::Fault;
use glk_io::{Files, Gate, MemFiles};
use glk_keys::row_total;
use glk_merge::{Clash, Merged, merge};
use glk_obj::Numbers;
use glk_tools::make_archive;
use std::alloc::Global;
use std::test::Fail;
use std::thread::Threads;

// Puts the archive of an object at a path.
fn put(alloc: Global, files: &mut MemFiles, path: &str, text: &str) -> Result<(), Fail> {
    let Ok(archive) = make_archive(alloc, text.as_bytes()) else {
        return Err(Fail::from("no archive"));
    };
    match files.write_file(alloc, path, &archive) {
        Ok(()) => Ok(()),
        Err(_) => Err(Fail::from("no write")),
    }
}

// The object of `main`, which imports `p`, and that of `p`, loaded in this order.
pub fn loaded<R: Threads + Sync>(
    rt: &R,
    alloc: Global,
    main: &str,
    other: &str,
) -> Result<Loaded, Fail> {
    let mut files = MemFiles::new(Vec::new(alloc), Vec::new(alloc));
    put(alloc, &mut files, "main", main)?;
    put(alloc, &mut files, "p", other)?;
    let config = Config::parse(alloc, b"packagefile p=p\n")?;
    match load_waves(rt, alloc, "main", &config, &mut files) {
        Ok(loaded) => Ok(loaded),
        Err(_) => Err(Fail::from("refused")),
    }
}

// What loaded packages merge to.
pub fn merged<'a, G: Gate, R: Threads + Sync>(
    rt: &R,
    alloc: Global,
    loaded: &'a Loaded,
    builtins: &'a Builtins,
    workers: u32,
    gate: &G,
) -> Result<Result<Merged<'a>, Clash>, Fail>
    requires { (1 ≤ workers) × (workers ≤ 64) }
{
    if row_total(loaded, builtins) > 1 << 24 {
        return Err(Fail::from("too many rows"));
    }
    let entry = b"main.main";
    let numbers = Numbers::standard();
    match merge(rt, alloc, loaded, entry, builtins, numbers, workers, gate) {
        Ok(merged) => Ok(Ok(merged)),
        Err(Fault::Bad(clash)) => Ok(Err(clash)),
        Err(Fault::OutOfMemory) => Err(Fail::from("out of memory")),
    }
}
