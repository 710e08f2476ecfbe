// Merging objects of two packages. Symbols of `main` are the first rows, and those of `p` come after them.
ghost use Rattle.std.specs.Prelude.{◌≤◌};

use crate::gates::{Held, Recorder};
use crate::worlds::{loaded, merged};
use glk_arena::{Builtins, Loaded};
use glk_base::{ObjId, SymId};
use glk_io::{Gate, Open};
use glk_keys::Target;
use glk_merge::Merged;
use glk_obj::{BUILTIN_PACKAGE, SymRef};
use std::alloc::Global;
use std::sync::atomic::Ordering;
use std::test::Fail;
use std::thread::Threads;

// What stands for no row.
const NONE: u32 = u32::MAX;

const MAIN: &str = "object 0 0000000000000000
autolib p 0000000000000000
pkg p
ndef main.main 0 1 0 0 8 0
data c3
reloc 0 0 10 0 1:0
ref p.f 1 0 0 0 0 0
";

const OTHER: &str = "object 0 0000000000000000
def p.f 1 1 0 0 8 0
data c3
";

// How many rows there are after a merge past this gate.
fn rows_past<G: Gate, R: Threads + Sync>(
    rt: &R,
    alloc: Global,
    loaded: &Loaded,
    workers: u32,
    gate: &G,
) -> Result<u64, Fail>
    requires { (1 ≤ workers) × (workers ≤ 64) }
{
    let builtins = Builtins::none(alloc);
    match merged(rt, alloc, loaded, &builtins, workers, gate)? {
        Ok(merged) => Ok(merged.rows() as u64),
        Err(_) => Err(Fail::from("a clash")),
    }
}

#[test]
fn each_worker_passes_and_leaves_with_its_rows(rt: HostRuntime) -> Result<(), Fail> {
    let loaded = loaded(&rt, rt.alloc(), MAIN, OTHER)?;
    for (workers, all) in [(1, 1), (2, 3), (64, u64::MAX)] {
        let gate = Recorder::new();
        let rows = rows_past(&rt, rt.alloc(), &loaded, workers, &gate)?;
        assert!(rt; gate.passed.load(Ordering::SeqCst) == all);
        assert!(rt; gate.left.load(Ordering::SeqCst) == all);
        assert!(rt; gate.early.load(Ordering::SeqCst) == 0);
        assert!(rt; gate.rows.load(Ordering::SeqCst) == rows);
    }
    Ok(())
}

#[test]
fn two_workers_run_at_once(rt: HostRuntime) -> Result<(), Fail> {
    let loaded = loaded(&rt, rt.alloc(), MAIN, OTHER)?;
    let gate = Held::new();
    let rows = rows_past(&rt, rt.alloc(), &loaded, 2, &gate)?;
    assert!(rt; gate.in_time.load(Ordering::SeqCst) == 1);
    assert!(rt; gate.rows.load(Ordering::SeqCst) == rows);
    Ok(())
}

// The row of the chosen definition.
fn row_number(id: Option<SymId>) -> u32 {
    match id {
        Some(id) => id.0,
        None => NONE,
    }
}

// The key of a name, and the row of its chosen definition.
fn found_in(merged: &Merged<'_>, name: &[u8], abi: u16) -> (u32, u32) {
    match merged.find(name, abi) {
        Some(key) => (key.0, row_number(merged.chosen(key))),
        None => (NONE, NONE),
    }
}

// The same after a merge by so many workers.
fn found<R: Threads + Sync>(
    rt: &R,
    alloc: Global,
    loaded: &Loaded,
    workers: u32,
    name: &[u8],
    abi: u16,
) -> Result<(u32, u32), Fail>
    requires { (1 ≤ workers) × (workers ≤ 64) }
{
    let builtins = Builtins::none(alloc);
    match merged(rt, alloc, loaded, &builtins, workers, &Open)? {
        Ok(merged) => Ok(found_in(&merged, name, abi)),
        Err(_) => Err(Fail::from("a clash")),
    }
}

#[test]
fn names_are_found_with_their_definitions(rt: HostRuntime) -> Result<(), Fail> {
    let loaded = loaded(&rt, rt.alloc(), MAIN, OTHER)?;
    // The reference of main is the least row of the key that p defines.
    assert!(rt; found(&rt, rt.alloc(), &loaded, 1, b"p.f", 1)? == (1, 2));
    assert!(rt; found(&rt, rt.alloc(), &loaded, 2, b"p.f", 1)? == (1, 2));
    assert!(rt; found(&rt, rt.alloc(), &loaded, 64, b"p.f", 1)? == (1, 2));
    for (name, abi, key, chosen) in [
        ("main.main", 0, 0, 0),
        // Asked for, and defined nowhere.
        ("main.main", 1, 4, NONE),
        ("p.g", 1, NONE, NONE),
        // The first made name comes after the eight rows that are asked for.
        ("runtime.text", 0, 11, 11),
    ] {
        let is = found(&rt, rt.alloc(), &loaded, 2, name.as_bytes(), abi)?;
        assert!(rt; is == (key, chosen), "of {name}");
    }
    Ok(())
}

const SMALL: &str = "object 0 0000000000000000
autolib p 0000000000000000
def d 1 1 1 0 8 0
data c3
";

const LARGE: &str = "object 0 0000000000000000
autolib p 0000000000000000
def d 1 1 1 0 16 0
data c3
";

const SMALL_HASHED: &str = "object 0 0000000000000000
autolib p 0000000000000000
hash64 a 1 1 0 0 8 0 0123456789abcdef
data c3
";

const LARGE_HASHED: &str = "object 0 0000000000000000
hash64 b 1 1 0 0 16 0 0123456789abcdef
data c3
";

#[test]
fn the_larger_of_two_dupok_definitions_is_chosen(rt: HostRuntime) -> Result<(), Fail> {
    for (main, other, chosen) in [(SMALL, LARGE, 1), (LARGE, SMALL, 0)] {
        let loaded = loaded(&rt, rt.alloc(), main, other)?;
        let is = found(&rt, rt.alloc(), &loaded, 2, b"d", 1)?;
        assert!(rt; is == (0, chosen));
    }
    Ok(())
}

// The key of a row, and the row of its chosen definition.
fn of_row(merged: &Merged<'_>, id: u32) -> (u32, u32) {
    if id < merged.rows() {
        let key = merged.key(SymId(id));
        (key.0, row_number(merged.chosen(key)))
    } else {
        (NONE, NONE)
    }
}

#[test]
fn definitions_of_one_hash_are_one_symbol(rt: HostRuntime) -> Result<(), Fail> {
    let loaded = loaded(&rt, rt.alloc(), SMALL_HASHED, LARGE_HASHED)?;
    let builtins = Builtins::none(rt.alloc());
    match merged(&rt, rt.alloc(), &loaded, &builtins, 2, &Open)? {
        Ok(merged) => assert!(rt; of_row(&merged, 1) == (0, 1)),
        Err(_) => return Err(Fail::from("a clash")),
    }
    Ok(())
}

const FIRST_X: &str = "object 0 0000000000000000
autolib p 0000000000000000
ndef x 1 1 0 0 8 0
data c3
ref x 1 0 0 0 0 0
";

const SECOND_X: &str = "object 0 0000000000000000
def x 1 1 0 0 8 0
data c3
";

// The clash of two definitions of `x`.
fn clash_of_x<R: Threads + Sync>(
    rt: &R,
    alloc: Global,
    loaded: &Loaded,
    workers: u32,
) -> Result<(u32, u32), Fail>
    requires { (1 ≤ workers) × (workers ≤ 64) }
{
    let builtins = Builtins::none(alloc);
    match merged(rt, alloc, loaded, &builtins, workers, &Open)? {
        Ok(_) => Err(Fail::from("no clash")),
        Err(clash) => {
            if clash.name.as_bytes() == b"x".as_slice() {
                Ok((clash.first.0, clash.second.0))
            } else {
                Err(Fail::from("another name"))
            }
        }
    }
}

#[test]
fn two_definitions_with_content_clash(rt: HostRuntime) -> Result<(), Fail> {
    let loaded = loaded(&rt, rt.alloc(), FIRST_X, SECOND_X)?;
    for workers in [1, 2, 64] {
        assert!(rt; clash_of_x(&rt, rt.alloc(), &loaded, workers)? == (0, 2));
    }
    Ok(())
}

// The key that a reference of `main` into the builtin list means.
fn builtin_key(merged: &Merged<'_>, index: u32) -> u32 {
    let reference = SymRef {
        pkg: BUILTIN_PACKAGE,
        sym: index,
    };
    if merged.objects() == 0 {
        return NONE;
    }
    match merged.target(ObjId(0), reference) {
        Target::Key(key) => key.0,
        Target::Nothing => NONE,
        Target::Missing { .. } => NONE,
    }
}

#[test]
fn references_into_the_builtin_list_mean_its_rows(rt: HostRuntime) -> Result<(), Fail> {
    let loaded = loaded(&rt, rt.alloc(), MAIN, OTHER)?;
    let builtins = Builtins::parse(rt.alloc(), b"runtime.g 1\np.f 1\n")?;
    match merged(&rt, rt.alloc(), &loaded, &builtins, 2, &Open)? {
        Ok(merged) => {
            // After three rows of objects, eight that are asked for, and 27 made names.
            assert!(rt; builtin_key(&merged, 0) == 38);
            assert!(rt; builtin_key(&merged, 1) == 1);
            assert!(rt; builtin_key(&merged, 2) == NONE);
        }
        Err(_) => return Err(Fail::from("a clash")),
    }
    Ok(())
}
