// The first kept function whose tables cannot be joined.
ghost use Rattle.std.specs.Prelude.{◌≡◌, ◌<◌, Some, None, IfOk, OnOk, IfErr, IfSome};
ghost use Rattle.std.specs.List.{All};
ghost use Rattle.std.specs.Option.{option_map};
ghost use Rattle.glk_keys.specs.Names.{key_name};
ghost use Rattle.glk_merge.specs.Mergings.{IsKey};
ghost use Rattle.glk_tables.specs.Views.{broken_view};
ghost use Rattle.glk_functions.specs.Checks.{fault_of, first_fault as first_fault_of, IsTableBad, IsTableFault};

use crate::definition::name;
use crate::tables::{Buffers, key_fault};
use glk_base::{Fault, OutOfMemory, Text};
use glk_merge::Merged;
use glk_tables::{BrokenTable, Table};
use std::alloc::Global;

/// A kept function whose tables cannot be joined: its name, the table, and the rule, of P1 to P9, that the table
/// breaks.
#[derive(Debug, Drop)]
pub struct TableBad {
    pub func: Text,
    pub table: Table,
    pub rule: u8,
}

// The same, with the key of the function.
#[derive(Clone, Copy, Debug)]
pub(crate) struct FunctionFault {
    pub key: u32,
    pub table: Table,
    pub rule: u8,
}

// The fault of a function's tables, with its key.
fn with_key(key: u32, found: Option<BrokenTable>) -> Option<FunctionFault>
    ensures value { result ≡ option_map (fault_of key) (option_map broken_view found) }
    ensures key { IfSome result (λ fault. fault.key ≡ key) }
{
    let broken = found?;
    Some(FunctionFault {
        key,
        table: broken.table,
        rule: broken.rule,
    })
}

// The first function with a fault.
fn first_fault(
    alloc: Global,
    merged: &Merged<'_>,
    kept: &[u32],
) -> Result<Option<FunctionFault>, OutOfMemory>
    requires { All (IsKey merged.now.program) kept.now }
    ensures value { IfOk result (λ found. found ≡ first_fault_of merged.now.program kept.now) }
    ensures key { IfOk result (λ found. IfSome found (λ fault. IsKey merged.now.program fault.key)) }
{
    let mut buffers = Buffers::new(alloc);
    for key in kept {
        let broken = key_fault(alloc, merged, *key, &mut buffers)?;
        match with_key(*key, broken) {
            Some(fault) => return Ok(Some(fault)),
            None => {}
        }
    }
    Ok(None)
}

// A fault as a refusal.
fn refusal(
    alloc: Global,
    merged: &Merged<'_>,
    fault: FunctionFault,
) -> Result<TableBad, OutOfMemory>
    requires { IsKey merged.now.program fault.key }
    ensures { IfOk result (λ bad. (bad.table ≡ fault.table) × (bad.rule ≡ fault.rule)
        × (bad.func ≡ key_name merged.now.program fault.key)) }
{
    let func = Text::new(alloc, name(merged, fault.key))?;
    Ok(TableBad {
        func,
        table: fault.table,
        rule: fault.rule,
    })
}

/// Whether the tables of all functions among the kept symbols can be joined into the tables of an image. The
/// symbols are given by their keys, in load position. The time is linear in the tables and the inline
/// trees of the functions, but for a search by halves in pcinline for each node; the memory is that of the
/// auxes of one function, and four bytes for each of its nodes.
///
/// # Errors
///
/// Of the first function that breaks one of the rules P1 to P9, the least rule, and the first table that
/// breaks it; or out of memory.
pub fn check_functions(
    alloc: Global,
    merged: &Merged<'_>,
    kept: &[u32],
) -> Result<(), Fault<TableBad>>
    requires { All (IsKey merged.now.program) kept.now }
    ensures ok { OnOk result (first_fault_of merged.now.program kept.now ≡ None) }
    ensures bad { IfErr result (IsTableFault merged.now.program kept.now) }
{
    match first_fault(alloc, merged, kept)? {
        Some(fault) => Err(Fault::Bad(refusal(alloc, merged, fault)?)),
        None => Ok(()),
    }
}
