// The section `.gopclntab` and the inline trees, written.
ghost use Rattle.std.specs.Prelude.{◌≡◌, ◌<◌, ◌≤◌, ◌+◌, ◌*◌, ◌^◌, ◌++◌, ◌∷◌, [], OnOk, IfOk, IfErr, MatchOption, map, length};
ghost use Rattle.glk_frames.specs.Written.{u32s_bytes};
ghost use Rattle.glk_pctab.specs.FirstUse.{concat_of};
ghost use Rattle.glk_pctab.specs.Section.{zero_byte, names, tables, files, entries, trees, section, header_bytes, cutab, file_offset, before_cutab, before_pclntable};
ghost use Rattle.glk_pctab.specs.Sound.{CanWriteAll, section_limit};
ghost use Rattle.glk_pctab.specs.Views.{view, units_view, functions_view};
ghost use Rattle.glk_pctab.specs.Building.{entries_view, firsts_from};
ghost use Rattle.glk_pctab.specs.Parts.{cutab_by, pclntable_by, ArePartsOf, HaveLengths, Refuses};
ghost use Rattle.glk_pctab.specs.Lists.{AreListsOf};

use crate::files::{all_files, entries_of, firsts_of};
use crate::function::Pclntab;
use crate::lists::{file_offset, files_of, names_of, tables_of};
use crate::pool::Pool;
use crate::records::{SECTION_LIMIT, pad_to_4, pad_to_8, push_functab, push_records, records_end};
use crate::trees::push_trees;
use glk_base::{Fault, Field, OutOfMemory, push_fields};
use std::alloc::Global;

// What pcHeader begins with: the magic number, two zeros, the least size of an instruction, and the
// size of a pointer.
const MAGIC: u32 = 0xffff_fff1;

const INSTRUCTION_SIZE: u8 = 1;

const POINTER_SIZE: u8 = 8;

// The length of pcHeader; funcnametab follows it.
const HEADER_LENGTH: u64 = 72;

/// The section and the inline trees of an image's functions, and where the parts of the section are.
#[derive(Debug, Drop)]
pub struct FunctionTables {
    pub section: Vec<u8>,
    pub trees: Vec<u8>,
    pub parts: Parts,
}

/// The section would have 2^32 bytes or more, so that its offsets have more than 32 bits.
#[derive(Clone, Copy, Debug, PartialEq, Eq)]
pub struct SectionTooLong;

/// Where the parts of a section are. Funcnametab follows pcHeader.
#[derive(Clone, Copy, Debug)]
pub struct Parts {
    /// The length of funcnametab in bytes.
    pub name_bytes: u64,
    /// The offset of cutab, and how many entries it has.
    pub cutab: u64,
    pub entries: u64,
    /// The offset of filetab, and its length in bytes.
    pub filetab: u64,
    pub file_bytes: u64,
    /// The offset of pctab, and its length in bytes.
    pub pctab: u64,
    pub table_bytes: u64,
    /// The offset of pclntable, which ends where the section ends.
    pub pclntable: u64,
    pub end: u64,
}

// The offsets of the parts with these lengths, cutab in entries, where the section is shorter than
// the limit.
#[tactic(auto, unfolding(crate::specs::Parts::cutab_by, crate::specs::Parts::pclntable_by, crate::specs::Section::next_multiple))]
fn parts_of(names: u64, entries: u64, files: u64, tables: u64, records: u64) -> Option<Parts>
    requires { records < 2 ^ 32 }
    ensures { MatchOption result (section_limit ≤ pclntable_by names entries files tables + records)
        (λ p. (p.cutab ≡ cutab_by names) × (p.filetab ≡ cutab_by names + 4 * entries)
        × (p.pctab ≡ cutab_by names + 4 * entries + files)
        × (p.pclntable ≡ pclntable_by names entries files tables)
        × (pclntable_by names entries files tables + records < section_limit)
        × HaveLengths p names entries files tables (pclntable_by names entries files tables + records)) }
{
    if names >= SECTION_LIMIT || entries >= SECTION_LIMIT {
        return None;
    }
    if files >= SECTION_LIMIT || tables >= SECTION_LIMIT {
        return None;
    }
    let cutab = (HEADER_LENGTH + names + 3) / 4 * 4;
    let filetab = cutab + 4 * entries;
    let pctab = filetab + files;
    let pclntable = (pctab + 1 + tables + 7) / 8 * 8;
    if pclntable + records >= SECTION_LIMIT {
        return None;
    }
    Some(Parts {
        name_bytes: names,
        cutab,
        entries,
        filetab,
        file_bytes: files,
        pctab,
        table_bytes: 1 + tables,
        pclntable,
        end: pclntable + records,
    })
}

// Adds pcHeader.
#[tactic(auto, unfolding(crate::specs::Section::header_bytes))]
fn push_header(
    out: &mut Vec<u8>,
    t: &Pclntab<'_>,
    file_count: usize,
    parts: Parts,
) -> Result<(), OutOfMemory>
    requires files { file_count ≡ length (files (view t.now)) }
    requires parts { ArePartsOf (view t.now) parts }
    ensures { OnOk result (out.new.items ≡ out.old.items ++ header_bytes (view t.now)) }
{
    let functions = t.functions.len();
    push_fields(
        out,
        &[
            Field::U32(MAGIC),
            Field::Byte(0),
            Field::Byte(0),
            Field::Byte(INSTRUCTION_SIZE),
            Field::Byte(POINTER_SIZE),
            Field::U64(functions as u64),
            Field::U64(file_count as u64),
            Field::U64(t.text),
            Field::U64(HEADER_LENGTH),
            Field::U64(parts.cutab),
            Field::U64(parts.filetab),
            Field::U64(parts.pctab),
            Field::U64(parts.pclntable),
        ],
    )
}

// Adds cutab.
#[tactic(auto, unfolding(glk_frames::specs::Written::u32s_bytes))]
fn push_cutab(
    out: &mut Vec<u8>,
    files: &Pool<'_>,
    entries: &[Option<&[u8]>],
) -> Result<(), OutOfMemory>
    requires mark { files.now.mark ≡ zero_byte }
    requires short { length (concat_of zero_byte files.now.elements) < 2 ^ 32 }
    ensures { OnOk result (out.new.items
        ≡ out.old.items ++ u32s_bytes (map (file_offset files.now.elements) (entries_view entries.now))) }
{
    let mut rest = entries;
    while let [entry, after @ ..] = rest {
        let offset = file_offset(files, *entry);
        push_fields(out, &[Field::U32(offset)])?;
        rest = after;
    }
    Ok(())
}

// Adds all that is before pclntable.
fn push_before_pclntable(
    out: &mut Vec<u8>,
    t: &Pclntab<'_>,
    name_pool: &Pool<'_>,
    file_pool: &Pool<'_>,
    table_pool: &Pool<'_>,
    cutab_entries: &[Option<&[u8]>],
    parts: Parts,
) -> Result<(), OutOfMemory>
    requires empty { out.old.items ≡ [] }
    requires names { name_pool.now ≡ record { mark = zero_byte; elements = names (view t.now) } }
    requires files { file_pool.now ≡ record { mark = zero_byte; elements = files (view t.now) } }
    requires tables { table_pool.now ≡ record { mark = []; elements = tables (view t.now) } }
    requires entries { entries_view cutab_entries.now ≡ entries (view t.now) }
    requires parts { ArePartsOf (view t.now) parts }
    requires short { length (concat_of zero_byte (files (view t.now))) < 2 ^ 32 }
    ensures { OnOk result (out.new.items ≡ before_pclntable (view t.now)) }
{
    push_header(out, t, file_pool.count(), parts)?;
    name_pool.write(out)?;
    pad_to_4(out)?;
    push_cutab(out, file_pool, cutab_entries)?;
    file_pool.write(out)?;
    out.push(0)?;
    table_pool.write(out)
}

// The offsets of the parts of the section, where it is shorter than the limit.
fn section_parts(
    t: &Pclntab<'_>,
    name_pool: &Pool<'_>,
    file_pool: &Pool<'_>,
    table_pool: &Pool<'_>,
    entry_count: u64,
) -> Option<Parts>
    requires can_write { CanWriteAll (view t.now) }
    requires few { length t.now.functions.now < 2 ^ 32 }
    requires names { name_pool.now ≡ record { mark = zero_byte; elements = names (view t.now) } }
    requires files { file_pool.now ≡ record { mark = zero_byte; elements = files (view t.now) } }
    requires tables { table_pool.now ≡ record { mark = []; elements = tables (view t.now) } }
    requires entries { entry_count ≡ length (entries (view t.now)) }
    ensures { MatchOption result (section_limit ≤ length (section (view t.now)))
        (λ p. ArePartsOf (view t.now) p × (length (section (view t.now)) < section_limit)) }
{
    match records_end(t.functions) {
        Some(end) => {
            let names = name_pool.size();
            let files = file_pool.size();
            let tables = table_pool.size();
            parts_of(names, entry_count, files, tables, end)
        }
        None => None,
    }
}

// The section, whose parts are at these offsets.
fn write_section(
    alloc: Global,
    t: &Pclntab<'_>,
    name_pool: &Pool<'_>,
    file_pool: &Pool<'_>,
    table_pool: &Pool<'_>,
    cutab_entries: &[Option<&[u8]>],
    firsts: &[u32],
    parts: Parts,
) -> Result<Vec<u8>, OutOfMemory>
    requires can_write { CanWriteAll (view t.now) }
    requires few { length t.now.functions.now < 2 ^ 32 }
    requires names { name_pool.now ≡ record { mark = zero_byte; elements = names (view t.now) } }
    requires files { file_pool.now ≡ record { mark = zero_byte; elements = files (view t.now) } }
    requires tables { table_pool.now ≡ record { mark = []; elements = tables (view t.now) } }
    requires entries { entries_view cutab_entries.now ≡ entries (view t.now) }
    requires firsts { firsts.now ≡ firsts_from 0 (units_view t.now.units.now) }
    requires parts { ArePartsOf (view t.now) parts }
    requires short { length (section (view t.now)) < section_limit }
    ensures { IfOk result (λ made. made.items ≡ section (view t.now)) }
{
    let mut out = Vec::new(alloc);
    push_before_pclntable(
        &mut out,
        t,
        name_pool,
        file_pool,
        table_pool,
        cutab_entries,
        parts,
    )?;
    pad_to_8(&mut out)?;
    push_functab(&mut out, t.functions, t.text_size)?;
    push_records(
        &mut out,
        name_pool,
        table_pool,
        firsts,
        t.units,
        t.trees,
        t.functions,
    )?;
    Ok(out)
}

// The inline trees.
fn write_trees(alloc: Global, t: &Pclntab<'_>, name_pool: &Pool<'_>) -> Result<Vec<u8>, OutOfMemory>
    requires names { name_pool.now ≡ record { mark = zero_byte; elements = names (view t.now) } }
    requires short { length (concat_of zero_byte (names (view t.now))) < 2 ^ 32 }
    ensures { IfOk result (λ made. made.items ≡ trees (view t.now)) }
{
    let mut out = Vec::new(alloc);
    push_trees(&mut out, name_pool, t.functions)?;
    Ok(out)
}

// What the section is written from: the index of each unit's first entry, the entries of cutab, and names, files and tables
// of first use, with where the parts are.
#[derive(Drop)]
struct Lists<'a> {
    firsts: Vec<u32>,
    entries: Vec<Option<&'a [u8]>>,
    names: Pool<'a>,
    files: Pool<'a>,
    tables: Pool<'a>,
    parts: Parts,
}

// The lists of an image's functions, where the section is shorter than the limit.
fn lists_of<'a>(alloc: Global, t: &Pclntab<'a>) -> Result<Lists<'a>, Fault<SectionTooLong>>
    requires { CanWriteAll (view t.now) }
    ensures lists { IfOk result (λ lists. AreListsOf t.now lists) }
    ensures short { IfOk result (λ lists. length (section (view t.now)) < section_limit) }
    ensures refuses { IfErr result (Refuses (view t.now)) }
{
    let unit_files = all_files(alloc, t.units)?;
    let entry_count = unit_files.len() as u64;
    if entry_count >= SECTION_LIMIT {
        return Err(Fault::Bad(SectionTooLong));
    }
    let function_count = t.functions.len() as u64;
    if function_count >= SECTION_LIMIT {
        return Err(Fault::Bad(SectionTooLong));
    }
    let firsts = firsts_of(alloc, t.units)?;
    let entries = entries_of(alloc, &unit_files, &firsts, t.units, t.functions)?;
    let names = names_of(alloc, t.functions)?;
    let files = files_of(alloc, &entries)?;
    let tables = tables_of(alloc, t.functions)?;
    match section_parts(t, &names, &files, &tables, entry_count) {
        Some(parts) => Ok(Lists {
            firsts,
            entries,
            names,
            files,
            tables,
            parts,
        }),
        None => Err(Fault::Bad(SectionTooLong)),
    }
}

/// The section `.gopclntab` and the inline trees of an image's functions. Names, files and pc tables
/// stand once each, however often they are given. It takes a pass over the functions for each part,
/// and memory for the bytes and for the lists of first use.
///
/// # Errors
/// The section would have 2^32 bytes or more; or out of memory.
pub fn build(alloc: Global, t: &Pclntab<'_>) -> Result<FunctionTables, Fault<SectionTooLong>>
    requires { CanWriteAll (view t.now) }
    ensures section { IfOk result (λ made. made.section.items ≡ section (view t.now)) }
    ensures trees { IfOk result (λ made. made.trees.items ≡ trees (view t.now)) }
    ensures parts { IfOk result (λ made. ArePartsOf (view t.now) made.parts) }
    ensures short { IfOk result (λ made. length (section (view t.now)) < section_limit) }
    ensures refuses { IfErr result (Refuses (view t.now)) }
{
    let lists = lists_of(alloc, t)?;
    let section = write_section(
        alloc,
        t,
        &lists.names,
        &lists.files,
        &lists.tables,
        &lists.entries,
        &lists.firsts,
        lists.parts,
    )?;
    let trees = write_trees(alloc, t, &lists.names)?;
    Ok(FunctionTables {
        section,
        trees,
        parts: lists.parts,
    })
}
