// Names, files and pc tables of functions, each once.
ghost use Rattle.std.specs.Prelude.{◌≡◌, ◌<◌, ◌+◌, ◌^◌, ◌∷◌, [], OnOk, IfOk, map, get_or, length};
ghost use Rattle.glk_pctab.specs.FirstUse.{concat_of, first_use};
ghost use Rattle.glk_pctab.specs.Contents.{Contents, with_all};
ghost use Rattle.glk_pctab.specs.Functions.{pcdata_of};
ghost use Rattle.glk_pctab.specs.Section.{zero_byte, call_names, names_of, some_tables, tables_of, named_files, name_offset, table_offset, file_offset};
ghost use Rattle.glk_pctab.specs.Views.{calls_view, function_view, functions_view};
ghost use Rattle.glk_pctab.specs.Building.{entries_view, file_view};

use crate::function::{Function, InlinedCall};
use crate::pool::Pool;
use glk_base::OutOfMemory;
use std::alloc::Global;

// Which pcdata of a function with inlined calls is pcinline.
const PCINLINE: usize = 2;

// An entry of cutab that has no file.
const NO_FILE: u32 = 0xffff_ffff;

// Adds the names of inlined calls.
fn add_calls<'a>(pool: &mut Pool<'a>, calls: &'a [InlinedCall<'a>]) -> Result<(), OutOfMemory>
    ensures { OnOk result (pool.new ≡ with_all pool.old (call_names (calls_view calls.now))) }
{
    let mut rest = calls;
    while let [first, after @ ..] = rest {
        pool.add(first.name)?;
        rest = after;
    }
    Ok(())
}

// Adds the names of functions.
fn add_names<'a>(pool: &mut Pool<'a>, functions: &'a [Function<'a>]) -> Result<(), OutOfMemory>
    ensures { OnOk result (pool.new ≡ with_all pool.old (names_of (functions_view functions.now))) }
{
    let mut rest = functions;
    while let [first, after @ ..] = rest {
        pool.add(first.name)?;
        add_calls(pool, first.inlined)?;
        rest = after;
    }
    Ok(())
}

/// The names of functions, each once.
pub(crate) fn names_of<'a>(
    alloc: Global,
    functions: &'a [Function<'a>],
) -> Result<Pool<'a>, OutOfMemory>
    ensures { IfOk result (λ pool. pool
        ≡ record { mark = zero_byte; elements = first_use (names_of (functions_view functions.now)) }) }
{
    let mut pool = Pool::new(alloc, b"\0");
    add_names(&mut pool, functions)?;
    Ok(pool)
}

/// The number of pcdata of a function.
pub(crate) fn pcdata_count(function: &Function<'_>) -> usize
    ensures { result ≡ length (pcdata_of (function_view function.now)) }
{
    let count = function.pcdata.len();
    if function.inlined.len() > 0 && count <= PCINLINE {
        PCINLINE + 1
    } else {
        count
    }
}

/// The pc table of a pcdata; an empty one where there is none.
pub(crate) fn pcdata_at<'a>(function: &Function<'a>, k: usize) -> &'a [u8]
    ensures { result.now ≡ get_or (pcdata_of (function_view function.now)) k [] }
{
    if k == PCINLINE && function.inlined.len() > 0 {
        return function.pcinline;
    }
    if k >= function.pcdata.len() {
        return &[];
    }
    function.pcdata[k]
}

// Adds a pc table that is not empty.
fn add_table<'a>(pool: &mut Pool<'a>, table: &'a [u8]) -> Result<(), OutOfMemory>
    ensures { OnOk result (pool.new ≡ with_all pool.old (some_tables (table.now ∷ []))) }
{
    if table.len() == 0 {
        return Ok(());
    }
    pool.add(table)
}

// Adds the pc tables of a function's pcdata.
fn add_pcdata<'a>(pool: &mut Pool<'a>, function: &Function<'a>) -> Result<(), OutOfMemory>
    ensures { OnOk result (pool.new
        ≡ with_all pool.old (some_tables (pcdata_of (function_view function.now)))) }
{
    for k in 0..pcdata_count(function) {
        add_table(pool, pcdata_at(function, k))?;
    }
    Ok(())
}

// Adds the pc tables of functions.
fn add_tables<'a>(pool: &mut Pool<'a>, functions: &'a [Function<'a>]) -> Result<(), OutOfMemory>
    ensures { OnOk result (pool.new
        ≡ with_all pool.old (some_tables (tables_of (functions_view functions.now)))) }
{
    let mut rest = functions;
    while let [first, after @ ..] = rest {
        add_table(pool, first.pcsp)?;
        add_table(pool, first.pcfile)?;
        add_table(pool, first.pcline)?;
        add_pcdata(pool, first)?;
        rest = after;
    }
    Ok(())
}

/// The pc tables of functions that are not empty, each once.
pub(crate) fn tables_of<'a>(
    alloc: Global,
    functions: &'a [Function<'a>],
) -> Result<Pool<'a>, OutOfMemory>
    ensures { IfOk result (λ pool. pool
        ≡ record {
          mark = [];
          elements = first_use (some_tables (tables_of (functions_view functions.now)));
        }) }
{
    let mut pool = Pool::new(alloc, b"");
    add_tables(&mut pool, functions)?;
    Ok(pool)
}

// Adds the file of an entry of cutab, if it has one.
fn add_file<'a>(pool: &mut Pool<'a>, entry: Option<&'a [u8]>) -> Result<(), OutOfMemory>
    ensures { OnOk result (pool.new ≡ with_all pool.old (named_files (file_view entry.entry ∷ []))) }
{
    match entry {
        Some(file) => pool.add(file),
        None => Ok(()),
    }
}

// Adds the files of entries of cutab.
fn add_files<'a>(pool: &mut Pool<'a>, entries: &[Option<&'a [u8]>]) -> Result<(), OutOfMemory>
    ensures { OnOk result (pool.new ≡ with_all pool.old (named_files (entries_view entries.now))) }
{
    let mut rest = entries;
    while let [first, after @ ..] = rest {
        add_file(pool, *first)?;
        rest = after;
    }
    Ok(())
}

/// The files of entries of cutab, each once.
pub(crate) fn files_of<'a>(
    alloc: Global,
    entries: &[Option<&'a [u8]>],
) -> Result<Pool<'a>, OutOfMemory>
    ensures { IfOk result (λ pool. pool
        ≡ record { mark = zero_byte; elements = first_use (named_files (entries_view entries.now)) }) }
{
    let mut pool = Pool::new(alloc, b"\0");
    add_files(&mut pool, entries)?;
    Ok(pool)
}

/// The offset of a name.
#[tactic(auto, unfolding(crate::specs::Section::name_offset))]
pub(crate) fn name_offset(names: &Pool<'_>, name: &[u8]) -> u32
    requires mark { names.now.mark ≡ zero_byte }
    requires short { length (concat_of zero_byte names.now.elements) < 2 ^ 32 }
    ensures { result ≡ name_offset names.now.elements name.now }
{
    names.offset(name)
}

/// The offset of a file's name in filetab, or that of no file.
pub(crate) fn file_offset(files: &Pool<'_>, entry: Option<&[u8]>) -> u32
    requires mark { files.now.mark ≡ zero_byte }
    requires short { length (concat_of zero_byte files.now.elements) < 2 ^ 32 }
    ensures { result ≡ file_offset files.now.elements (file_view entry.entry) }
{
    match entry {
        Some(file) => name_offset(files, file),
        None => NO_FILE,
    }
}

/// The offset of a pc table in pctab; 0 of the empty one.
pub(crate) fn table_offset(tables: &Pool<'_>, table: &[u8]) -> u32
    requires mark { tables.now.mark ≡ [] }
    requires short { 1 + length (concat_of [] tables.now.elements) < 2 ^ 32 }
    ensures { result ≡ table_offset tables.now.elements table.now }
{
    if table.len() == 0 {
        return 0;
    }
    1 + tables.offset(table)
}
