// The files of all units, and those that functions name.
ghost use Rattle.std.specs.Prelude.{◌≡◌, ◌<◌, ◌≤◌, ◌+◌, ◌^◌, ◌∷◌, [], ℕ, Bool, true, false, cond, IfOk, MatchOption, Some, None, get_or, length};
ghost use Rattle.glk_pcval.specs.Table.{ranges};
ghost use Rattle.glk_pctab.specs.Functions.{entry_of, entries_of, entries_named};
ghost use Rattle.glk_pctab.specs.Section.{is_number_among, entries_from, files_of};
ghost use Rattle.glk_pctab.specs.Views.{texts_of, functions_view, units_view};
ghost use Rattle.glk_pctab.specs.Building.{firsts_from, entries_view, entries_by, file_view, AllHaveUnit};

use crate::function::Function;
use glk_base::OutOfMemory;
use glk_pcval::Steps;
use std::alloc::Global;

/// The files of all units, one unit after the other.
pub(crate) fn all_files<'a>(
    alloc: Global,
    units: &[&'a [&'a [u8]]],
) -> Result<Vec<&'a [u8]>, OutOfMemory>
    ensures { IfOk result (λ files. texts_of files.items ≡ files_of (units_view units.now)) }
{
    let mut files = Vec::new(alloc);
    let mut rest = units;
    while let [first, after @ ..] = rest {
        files.extend_from_slice(first)?;
        rest = after;
    }
    Ok(files)
}

/// The index of each unit's first entry in cutab.
pub(crate) fn firsts_of(alloc: Global, units: &[&[&[u8]]]) -> Result<Vec<u32>, OutOfMemory>
    requires { length (files_of (units_view units.now)) < 2 ^ 32 }
    ensures { IfOk result (λ firsts. firsts.items ≡ firsts_from 0 (units_view units.now)) }
{
    let mut firsts = Vec::new(alloc);
    let mut index = 0;
    let mut rest = units;
    while let [first, after @ ..] = rest {
        firsts.push(index)?;
        index += first.len() as u32;
        rest = after;
    }
    Ok(firsts)
}

// The entry of a value of pcfile, if it is one of the unit's files.
fn entry_of(first: u32, count: u32, value: i32) -> Option<u32>
    requires { first + count < 2 ^ 32 }
    ensures { MatchOption result (entry_of first count value ≡ [])
        (λ entry. (entry_of first count value ≡ entry ∷ []) × (entry < first + count)) }
{
    if value < 0 {
        return None;
    }
    let index = value.cast_unsigned();
    if index >= count {
        return None;
    }
    Some(first + index)
}

// Marks the entry of a value of pcfile.
fn mark_value(named: &mut [bool], first: u32, count: u32, value: i32)
    requires inside { first + count ≤ length named.old }
    requires small { first + count < 2 ^ 32 }
    ensures { (k : ℕ) → get_or named.new k false
        ≡ cond (get_or named.old k false) true (is_number_among (entry_of first count value) k) }
{
    if let Some(entry) = entry_of(first, count, value) {
        named[entry as usize] = true;
    }
}

// Marks the entries that the values of a pcfile name.
fn mark_values(named: &mut [bool], first: u32, count: u32, table: &[u8])
    requires inside { first + count ≤ length named.old }
    requires small { first + count < 2 ^ 32 }
    ensures { (k : ℕ) → get_or named.new k false
        ≡ cond (get_or named.old k false) true
        (is_number_among (entries_of first count (ranges table.now)) k) }
{
    for (value, _end) in Steps::new(table) {
        mark_value(named, first, count, value);
    }
}

// Marks the entries that functions name.
fn mark_all(named: &mut [bool], firsts: &[u32], units: &[&[&[u8]]], functions: &[Function<'_>])
    requires firsts { firsts.now ≡ firsts_from 0 (units_view units.now) }
    requires length { length named.old ≡ length (files_of (units_view units.now)) }
    requires small { length named.old < 2 ^ 32 }
    requires units { AllHaveUnit (length units.now) (functions_view functions.now) }
    ensures { (k : ℕ) → get_or named.new k false ≡ cond (get_or named.old k false) true
        (is_number_among (entries_named (units_view units.now) (functions_view functions.now)) k) }
{
    let mut rest = functions;
    while let [function, after @ ..] = rest {
        let unit = function.unit as usize;
        mark_values(
            named,
            firsts[unit],
            units[unit].len() as u32,
            function.pcfile,
        );
        rest = after;
    }
}

// Whether each entry is named by a function.
fn named_entries(
    alloc: Global,
    count: usize,
    firsts: &[u32],
    units: &[&[&[u8]]],
    functions: &[Function<'_>],
) -> Result<Vec<bool>, OutOfMemory>
    requires firsts { firsts.now ≡ firsts_from 0 (units_view units.now) }
    requires count { count ≡ length (files_of (units_view units.now)) }
    requires small { count < 2 ^ 32 }
    requires units { AllHaveUnit (length units.now) (functions_view functions.now) }
    ensures length { IfOk result (λ named. length named.items ≡ count) }
    ensures named { IfOk result (λ named. (k : ℕ) → get_or named.items k false
        ≡ is_number_among (entries_named (units_view units.now) (functions_view functions.now)) k) }
{
    let mut named = Vec::new(alloc);
    named.resize(count, false)?;
    mark_all(&mut named, firsts, units, functions);
    Ok(named)
}

// The entry at an index.
fn entry_at<'a>(named: &[bool], files: &[&'a [u8]], index: usize) -> Option<&'a [u8]>
    requires named { index < length named.now }
    requires files { index < length files.now }
    ensures { file_view result
        ≡ cond (get_or named.now index false) (Some (get_or (texts_of files.now) index [])) None }
{
    if named[index] {
        Some(files[index])
    } else {
        None
    }
}

// The entries of files.
fn entries_by<'a>(
    alloc: Global,
    files: &[&'a [u8]],
    named: &[bool],
) -> Result<Vec<Option<&'a [u8]>>, OutOfMemory>
    requires { length named.now ≡ length files.now }
    ensures { IfOk result (λ entries. entries_view entries.items
        ≡ entries_by named.now 0 (texts_of files.now)) }
{
    let mut entries = Vec::with_capacity(alloc, files.len())?;
    for index in 0..files.len() {
        entries.push(entry_at(named, files, index))?;
    }
    Ok(entries)
}

/// The entries of cutab, by the files of all units and the index of each unit's first one.
pub(crate) fn entries_of<'a>(
    alloc: Global,
    files: &[&'a [u8]],
    firsts: &[u32],
    units: &[&[&[u8]]],
    functions: &[Function<'_>],
) -> Result<Vec<Option<&'a [u8]>>, OutOfMemory>
    requires files { texts_of files.now ≡ files_of (units_view units.now) }
    requires small { length files.now < 2 ^ 32 }
    requires firsts { firsts.now ≡ firsts_from 0 (units_view units.now) }
    requires units { AllHaveUnit (length units.now) (functions_view functions.now) }
    ensures { IfOk result (λ entries. entries_view entries.items
        ≡ entries_from (entries_named (units_view units.now) (functions_view functions.now)) 0
        (files_of (units_view units.now))) }
{
    let named = named_entries(alloc, files.len(), firsts, units, functions)?;
    let entries = entries_by(alloc, files, &named)?;
    Ok(entries)
}
