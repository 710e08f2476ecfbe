// Merging, by workers side by side.
ghost use Rattle.std.specs.Prelude.{◌≡◌, ◌<◌, ◌≤◌, IfOk, OnOk, IfErr};
ghost use Rattle.glk_keys.specs.Clashes.{first_clash as first_clash_of};
ghost use Rattle.glk_keys.specs.Programs.{program_of};
ghost use Rattle.glk_keys.specs.Rows.{row_count, row_limit};
ghost use Rattle.glk_merge.specs.Clashes.{IsFirstClash, IsClashFault, clash_view};
ghost use Rattle.glk_merge.specs.KeyTables.{AreKeyIds};
ghost use Rattle.glk_merge.specs.Mergings.{IsPollOf};

use crate::clash::{Clash, ClashRows, first_clash};
use crate::iface_flags::iface_flags;
use crate::key_tables::{choices, key_ids};
use crate::merged::Merged;
use crate::offers::offers_of;
use glk_arena::{Builtins, Loaded};
use glk_base::{Fault, OutOfMemory, Text};
use glk_elect::{Polled, elect};
use glk_io::Gate;
use glk_keys::Rows;
use glk_obj::Numbers;
use std::alloc::Global;
use std::thread::Threads;

// A clash, with the name of its symbol.
fn named(alloc: Global, rows: &Rows<'_>, clash: ClashRows) -> Result<Clash, OutOfMemory>
    requires first { Some (clash_view clash) ≡ first_clash_of rows.now }
    requires within { clash.first.0 < row_count rows.now }
    ensures { IfOk result (IsFirstClash rows.now) }
{
    let name = Text::new(alloc, rows.row(clash.first).name)?;
    Ok(Clash {
        name,
        first: clash.first,
        second: clash.second,
    })
}

// The merged program of rows whose keys were polled, and none of which clash.
fn with_tables<'a>(
    alloc: Global,
    loaded: &Loaded,
    rows: Rows<'a>,
    polled: Polled,
    keys: Vec<u32>,
) -> Result<Merged<'a>, OutOfMemory>
    requires world { loaded.now ≡ rows.world }
    requires polled { IsPollOf rows polled }
    requires keys { AreKeyIds rows keys.items }
    ensures program { IfOk result (λ m. m.program ≡ rows.entry) }
    ensures poll { IfOk result (λ m. m.poll ≡ polled) }
{
    let chosen = choices(alloc, &rows, &polled, keys.as_slice())?;
    let offers = offers_of(alloc, &rows, loaded)?;
    let iface_flags = iface_flags(alloc, &rows, &offers, keys.as_slice())?;
    Ok(Merged {
        rows,
        offers,
        polled,
        keys,
        chosen,
        iface_flags,
    })
}

/// Merges loaded packages with the linker's own symbols, by workers side by side: all rows are entered in
/// one key table, and each definition in an object is offered there. Each worker passes the gate before
/// its first row, and leaves it after its last one with the number of rows that it entered. The
/// answer is the same for every number of workers and every schedule.
///
/// # Errors
/// The clash whose first definition has the least load position, or out of memory.
pub fn merge<'a, G: Gate, R: Threads + Sync>(
    rt: &R,
    alloc: Global,
    loaded: &'a Loaded,
    entry: &'a [u8],
    builtins: &'a Builtins,
    numbers: Numbers,
    workers: u32,
    gate: &G,
) -> Result<Merged<'a>, Fault<Clash>>
    requires few { row_count (program_of loaded.now entry.now builtins.now numbers) ≤ row_limit }
    requires workers { (1 ≤ workers) × (workers ≤ 64) }
    ensures program { IfOk result (λ m. m.program ≡ program_of loaded.now entry.now builtins.now numbers) }
    ensures poll { IfOk result (λ m. IsPollOf m.program m.poll) }
    ensures apart { OnOk result
        (first_clash_of (program_of loaded.now entry.now builtins.now numbers) ≡ None) }
    ensures clash { IfErr result (IsClashFault (program_of loaded.now entry.now builtins.now numbers)) }
{
    let rows = Rows::new(alloc, loaded, entry, builtins, numbers)?;
    let polled = elect(rt, alloc, &rows, workers, gate)?;
    match first_clash(&rows, &polled) {
        Some(clash) => Err(Fault::Bad(named(alloc, &rows, clash)?)),
        None => {
            let keys = key_ids(alloc, &rows, &polled)?;
            Ok(with_tables(alloc, loaded, rows, polled, keys)?)
        }
    }
}
