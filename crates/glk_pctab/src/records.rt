// Records of functions, and functab.
ghost use Rattle.std.specs.Prelude.{◌≡◌, ◌<◌, ◌≤◌, ◌+◌, ◌*◌, ◌^◌, ◌++◌, ◌∷◌, [], ℕ, OnOk, MatchOption, map, get_or, replicate, length};
ghost use Rattle.glk_base.specs.Fields.{fields_bytes};
ghost use Rattle.glk_frames.specs.Image.{no_funcdata};
ghost use Rattle.glk_frames.specs.Written.{head_fields, u32s_bytes, record_bytes};
ghost use Rattle.glk_pctab.specs.FirstUse.{concat_of};
ghost use Rattle.glk_pctab.specs.Functions.{pcdata_of, funcdata_of};
ghost use Rattle.glk_pctab.specs.Section.{zero_byte, table_offset, record_with, records_from, with_records, functab, starts, next_multiple, zeros_to};
ghost use Rattle.glk_pctab.specs.Views.{function_view, functions_view, units_view};
ghost use Rattle.glk_pctab.specs.Building.{firsts_from, offsets_from, end_from, record_length, AllCanWrite, AllAreSmall};

use crate::function::Function;
use crate::lists::{name_offset, pcdata_at, pcdata_count, table_offset};
use crate::pool::Pool;
use glk_base::{Field, OutOfMemory, push_fields};

// Which funcdata of a function with inlined calls is its tree.
const TREE: usize = 3;

// A funcdata of an empty place.
const NO_FUNCDATA: u32 = 0xffff_ffff;

/// What the length of a section is below.
pub(crate) const SECTION_LIMIT: u64 = 1 << 32;

// The number of funcdata of a function.
fn funcdata_count(function: &Function<'_>) -> usize
    ensures { (tree : ℕ) → length (funcdata_of tree (function_view function.now)) ≡ result }
{
    let count = function.funcdata.len();
    if function.inlined.len() > 0 && count <= TREE {
        TREE + 1
    } else {
        count
    }
}

// A funcdata; an empty place where there is none.
fn funcdata_at(function: &Function<'_>, tree: u32, k: usize) -> u32
    ensures { result ≡ get_or (funcdata_of tree (function_view function.now)) k no_funcdata }
{
    if k == TREE {
        return if function.inlined.len() > 0 {
            tree
        } else {
            NO_FUNCDATA
        };
    }
    if k >= function.funcdata.len() {
        return NO_FUNCDATA;
    }
    function.funcdata[k]
}

// Adds zeros.
fn push_zeros(out: &mut Vec<u8>, count: usize) -> Result<(), OutOfMemory>
    ensures { OnOk result (out.new.items ≡ out.old.items ++ replicate count 0) }
{
    for _ in 0..count {
        out.push(0)?;
    }
    Ok(())
}

/// Adds zeros up to the next multiple of 4.
pub(crate) fn pad_to_4(out: &mut Vec<u8>) -> Result<(), OutOfMemory>
    ensures { OnOk result (out.new.items ≡ zeros_to 4 out.old.items) }
{
    push_zeros(out, (4 - out.len() % 4) % 4)
}

/// Adds zeros up to the next multiple of 8.
pub(crate) fn pad_to_8(out: &mut Vec<u8>) -> Result<(), OutOfMemory>
    ensures { OnOk result (out.new.items ≡ zeros_to 8 out.old.items) }
{
    push_zeros(out, (8 - out.len() % 8) % 8)
}

// The next multiple of 8.
#[tactic(auto, unfolding(crate::specs::Section::next_multiple))]
fn next_multiple(at: u64) -> u64
    requires { at < 2 ^ 62 }
    ensures value { result ≡ next_multiple 8 at }
    ensures near { result ≤ at + 7 }
{
    (at + 7) / 8 * 8
}

// Adds the offsets of a function's pcdata in pctab.
fn push_pcdata(
    out: &mut Vec<u8>,
    tables: &Pool<'_>,
    function: &Function<'_>,
) -> Result<(), OutOfMemory>
    requires mark { tables.now.mark ≡ [] }
    requires short { 1 + length (concat_of [] tables.now.elements) < 2 ^ 32 }
    ensures { OnOk result (out.new.items ≡ out.old.items
        ++ u32s_bytes (map (table_offset tables.now.elements) (pcdata_of (function_view function.now)))) }
{
    for k in 0..pcdata_count(function) {
        let offset = table_offset(tables, pcdata_at(function, k));
        push_fields(out, &[Field::U32(offset)])?;
    }
    Ok(())
}

// Adds a function's funcdata, with its tree at an offset.
fn push_funcdata(out: &mut Vec<u8>, tree: u32, function: &Function<'_>) -> Result<(), OutOfMemory>
    ensures { OnOk result (out.new.items
        ≡ out.old.items ++ u32s_bytes (funcdata_of tree (function_view function.now))) }
{
    for k in 0..funcdata_count(function) {
        push_fields(out, &[Field::U32(funcdata_at(function, tree, k))])?;
    }
    Ok(())
}

// Adds the first 44 bytes of a record.
fn push_head(
    out: &mut Vec<u8>,
    names: &Pool<'_>,
    tables: &Pool<'_>,
    first: u32,
    tree: u32,
    function: &Function<'_>,
) -> Result<(), OutOfMemory>
    requires name_mark { names.now.mark ≡ zero_byte }
    requires names_short { length (concat_of zero_byte names.now.elements) < 2 ^ 32 }
    requires mark { tables.now.mark ≡ [] }
    requires short { 1 + length (concat_of [] tables.now.elements) < 2 ^ 32 }
    requires pcdata { length (pcdata_of (function_view function.now)) < 2 ^ 16 }
    requires funcdata { length (funcdata_of tree (function_view function.now)) < 2 ^ 8 }
    ensures { OnOk result (out.new.items ≡ out.old.items ++ fields_bytes (head_fields
        (record_with first names.now.elements tables.now.elements tree (function_view function.now)))) }
{
    let name = name_offset(names, function.name);
    let pcsp = table_offset(tables, function.pcsp);
    let pcfile = table_offset(tables, function.pcfile);
    let pcline = table_offset(tables, function.pcline);
    let pcdata = pcdata_count(function);
    let funcdata = funcdata_count(function);
    push_fields(
        out,
        &[
            Field::U32(function.start),
            Field::U32(name),
            Field::U32(function.args),
            Field::U32(function.deferreturn),
            Field::U32(pcsp),
            Field::U32(pcfile),
            Field::U32(pcline),
            Field::U32(pcdata as u32),
            Field::U32(first),
            Field::U32(function.start_line),
            Field::Byte(function.id),
            Field::Byte(function.flag),
            Field::Byte(0),
            Field::Byte(funcdata as u8),
        ],
    )
}

// Adds a record.
#[tactic(auto, unfolding(glk_frames::specs::Written::record_bytes))]
fn push_record(
    out: &mut Vec<u8>,
    names: &Pool<'_>,
    tables: &Pool<'_>,
    first: u32,
    tree: u32,
    function: &Function<'_>,
) -> Result<(), OutOfMemory>
    requires name_mark { names.now.mark ≡ zero_byte }
    requires names_short { length (concat_of zero_byte names.now.elements) < 2 ^ 32 }
    requires mark { tables.now.mark ≡ [] }
    requires short { 1 + length (concat_of [] tables.now.elements) < 2 ^ 32 }
    requires pcdata { length (pcdata_of (function_view function.now)) < 2 ^ 16 }
    requires funcdata { length (funcdata_of tree (function_view function.now)) < 2 ^ 8 }
    ensures { OnOk result (out.new.items ≡ out.old.items ++ record_bytes
        (record_with first names.now.elements tables.now.elements tree (function_view function.now))) }
{
    push_head(out, names, tables, first, tree, function)?;
    push_pcdata(out, tables, function)?;
    push_funcdata(out, tree, function)
}

/// Adds the records of functions, each at the next multiple of 8, the first one's tree at an offset.
pub(crate) fn push_records(
    out: &mut Vec<u8>,
    names: &Pool<'_>,
    tables: &Pool<'_>,
    firsts: &[u32],
    units: &[&[&[u8]]],
    trees: u32,
    functions: &[Function<'_>],
) -> Result<(), OutOfMemory>
    requires name_mark { names.now.mark ≡ zero_byte }
    requires names_short { length (concat_of zero_byte names.now.elements) < 2 ^ 32 }
    requires mark { tables.now.mark ≡ [] }
    requires short { 1 + length (concat_of [] tables.now.elements) < 2 ^ 32 }
    requires firsts { firsts.now ≡ firsts_from 0 (units_view units.now) }
    requires can_write { AllCanWrite (length units.now) trees (functions_view functions.now) }
    ensures { OnOk result (out.new.items ≡ with_records
        (records_from (units_view units.now) names.now.elements tables.now.elements trees
        (functions_view functions.now))
        out.old.items) }
{
    let mut tree = trees;
    let mut rest = functions;
    while let [function, after @ ..] = rest {
        pad_to_8(out)?;
        push_record(
            out,
            names,
            tables,
            firsts[function.unit as usize],
            tree,
            function,
        )?;
        tree += 16 * function.inlined.len() as u32;
        rest = after;
    }
    Ok(())
}

// How long a record is.
fn record_length(function: &Function<'_>) -> u64
    requires pcdata { length (pcdata_of (function_view function.now)) < 2 ^ 16 }
    requires funcdata { length (funcdata_of 0 (function_view function.now)) < 2 ^ 8 }
    ensures { result ≡ record_length (function_view function.now) }
{
    44 + 4 * pcdata_count(function) as u64 + 4 * funcdata_count(function) as u64
}

/// Adds functab: where each function starts and the offset of its record, then the text's size.
#[tactic(auto, unfolding(crate::specs::Section::functab, crate::specs::Building::offsets_from, crate::specs::Building::end_from))]
pub(crate) fn push_functab(
    out: &mut Vec<u8>,
    functions: &[Function<'_>],
    size: u32,
) -> Result<(), OutOfMemory>
    requires few { length functions.now < 2 ^ 32 }
    requires small { AllAreSmall (functions_view functions.now) }
    requires short { end_from (8 * length functions.now + 4) (functions_view functions.now) < 2 ^ 32 }
    ensures { OnOk result (out.new.items ≡ out.old.items ++ functab (starts (functions_view functions.now))
        (offsets_from (8 * length functions.now + 4) (functions_view functions.now)) size) }
{
    let mut at = 8 * functions.len() as u64 + 4;
    let mut rest = functions;
    while let [function, after @ ..] = rest {
        let offset = next_multiple(at);
        push_fields(
            out,
            &[Field::U32(function.start), Field::U32(offset as u32)],
        )?;
        at = offset + record_length(function);
        rest = after;
    }
    push_fields(out, &[Field::U32(size)])
}

/// The length of functab and the records, if it is below the limit.
#[tactic(auto, unfolding(crate::specs::Building::end_from))]
pub(crate) fn records_end(functions: &[Function<'_>]) -> Option<u64>
    requires few { length functions.now < 2 ^ 32 }
    requires small { AllAreSmall (functions_view functions.now) }
    ensures { MatchOption result
        (2 ^ 32 ≤ end_from (8 * length functions.now + 4) (functions_view functions.now))
        (λ end. (end ≡ end_from (8 * length functions.now + 4) (functions_view functions.now))
        × (end < 2 ^ 32)) }
{
    let mut at = 8 * functions.len() as u64 + 4;
    let mut rest = functions;
    while let [function, after @ ..] = rest {
        if at >= SECTION_LIMIT {
            return None;
        }
        at = next_multiple(at) + record_length(function);
        rest = after;
    }
    if at >= SECTION_LIMIT {
        return None;
    }
    Some(at)
}

/// The length of functab and the records.
#[tactic(auto, unfolding(crate::specs::Building::end_from))]
pub(crate) fn records_size(functions: &[Function<'_>]) -> u64
    requires few { length functions.now < 2 ^ 32 }
    requires small { AllAreSmall (functions_view functions.now) }
    ensures value { result
        ≡ end_from (8 * length functions.now + 4) (functions_view functions.now) }
    ensures small { result < 2 ^ 53 }
{
    let mut at = 8 * functions.len() as u64 + 4;
    let mut rest = functions;
    while let [function, after @ ..] = rest {
        at = next_multiple(at) + record_length(function);
        rest = after;
    }
    at
}
