// Module data, by which the runtime finds the tables, and the slice of its init tasks after them.
ghost use Rattle.std.specs.Prelude.{◌≡◌, ◌<◌, ◌^◌, ◌++◌, IfOk, OnOk, length};
ghost use Rattle.glk_base.specs.Fields.{fields_bytes};
ghost use Rattle.glk_pctab.specs.Functions.{Pclntab as PlainPclntab};
ghost use Rattle.glk_pctab.specs.Parts.{ArePartsOf};
ghost use Rattle.glk_pctab.specs.Views.{view};
ghost use Rattle.glk_pcln.specs.ModuleData.{table_fields, place_fields, list_fields, module_bytes, AreSmall};

use glk_base::{Field, OutOfMemory, push_fields};
use glk_pctab::{Parts, Pclntab};
use std::alloc::Global;

// The offset of funcnametab in the section: it follows pcHeader.
const NAMES: u64 = 72;

/// Where something begins in the image, and where it ends.
#[derive(Clone, Copy, Debug, PartialEq, Eq)]
pub struct AddressRange {
    pub start: u64,
    pub end: u64,
}

/// Where a list begins in the image, and how many elements it has.
#[derive(Clone, Copy, Debug, PartialEq, Eq)]
pub struct ListAt {
    pub address: u64,
    pub count: u64,
}

/// The addresses that module data tell, beside that of the text.
#[derive(Clone, Copy, Debug, PartialEq, Eq)]
pub struct ModuleAddresses {
    /// The start of the section `.gopclntab`.
    pub pclntab: u64,
    pub findfunctab: u64,
    /// The section `.rodata`, from whose start types and funcdata count.
    pub rodata: AddressRange,
    pub noptrdata: AddressRange,
    pub data: AddressRange,
    pub bss: AddressRange,
    pub noptrbss: AddressRange,
    /// The byte that stops the GC programs of data and of bss.
    pub gc_stop: u64,
    pub typelinks: ListAt,
    pub itablinks: ListAt,
    /// The init tasks of main, and of the runtime.
    pub main_tasks: ListAt,
    pub runtime_tasks: ListAt,
}

// Adds the address of pcHeader, and the slices of the section's parts.
fn push_tables(
    out: &mut Vec<u8>,
    t: &Pclntab<'_>,
    parts: &Parts,
    pclntab: u64,
) -> Result<(), OutOfMemory>
    requires parts { ArePartsOf (view t.now) parts.now }
    requires short { parts.now.end < 2 ^ 32 }
    requires small { pclntab < 2 ^ 62 }
    ensures { OnOk result
        (out.new.items ≡ out.old.items ++ fields_bytes (table_fields pclntab (view t.now))) }
{
    let functions = t.functions.len() as u64;
    let names = pclntab + NAMES;
    let cutab = pclntab + parts.cutab;
    let filetab = pclntab + parts.filetab;
    let pctab = pclntab + parts.pctab;
    let pclntable = pclntab + parts.pclntable;
    let pclntable_bytes = parts.end - parts.pclntable;
    push_fields(
        out,
        &[
            Field::U64(pclntab),
            Field::U64(names),
            Field::U64(parts.name_bytes),
            Field::U64(parts.name_bytes),
            Field::U64(cutab),
            Field::U64(parts.entries),
            Field::U64(parts.entries),
            Field::U64(filetab),
            Field::U64(parts.file_bytes),
            Field::U64(parts.file_bytes),
            Field::U64(pctab),
            Field::U64(parts.table_bytes),
            Field::U64(parts.table_bytes),
            Field::U64(pclntable),
            Field::U64(pclntable_bytes),
            Field::U64(pclntable_bytes),
            Field::U64(pclntable),
            Field::U64(functions + 1),
            Field::U64(functions + 1),
        ],
    )
}

// Adds findfunctab's address, and where text, data and types are.
fn push_places(
    out: &mut Vec<u8>,
    a: &ModuleAddresses,
    text: u64,
    etext: u64,
) -> Result<(), OutOfMemory>
    ensures { OnOk result (out.new.items ≡ out.old.items ++ fields_bytes (place_fields a.now text etext)) }
{
    push_fields(
        out,
        &[
            Field::U64(a.findfunctab),
            Field::U64(text),
            Field::U64(etext),
            Field::U64(text),
            Field::U64(etext),
            Field::U64(a.noptrdata.start),
            Field::U64(a.noptrdata.end),
            Field::U64(a.data.start),
            Field::U64(a.data.end),
            Field::U64(a.bss.start),
            Field::U64(a.bss.end),
            Field::U64(a.noptrbss.start),
            Field::U64(a.noptrbss.end),
            Field::U64(0),
            Field::U64(0),
            Field::U64(a.noptrbss.end),
            Field::U64(a.gc_stop),
            Field::U64(a.gc_stop),
            Field::U64(a.rodata.start),
            Field::U64(a.rodata.end),
            Field::U64(a.rodata.start),
            Field::U64(a.rodata.start),
        ],
    )
}

// Adds the lists of types, of tables of interfaces and of init tasks, with what is empty between them.
fn push_lists(out: &mut Vec<u8>, a: &ModuleAddresses) -> Result<(), OutOfMemory>
    ensures { OnOk result (out.new.items ≡ out.old.items ++ fields_bytes (list_fields a.now)) }
{
    push_fields(
        out,
        &[
            Field::U64(0),
            Field::U64(0),
            Field::U64(0),
            Field::U64(a.typelinks.address),
            Field::U64(a.typelinks.count),
            Field::U64(a.typelinks.count),
            Field::U64(a.itablinks.address),
            Field::U64(a.itablinks.count),
            Field::U64(a.itablinks.count),
            Field::U64(0),
            Field::U64(0),
            Field::U64(0),
            Field::U64(0),
            Field::U64(0),
            Field::U64(0),
            Field::U64(0),
            Field::U64(0),
            Field::U64(a.main_tasks.address),
            Field::U64(a.main_tasks.count),
            Field::U64(a.main_tasks.count),
            Field::U64(0),
            Field::U64(0),
            Field::U64(0),
            Field::U64(0),
            Field::U64(0),
            Field::U64(1),
            Field::U64(0),
            Field::U64(0),
            Field::U64(0),
            Field::U64(0),
            Field::U64(0),
            Field::U64(0),
            Field::U64(a.runtime_tasks.address),
            Field::U64(a.runtime_tasks.count),
            Field::U64(a.runtime_tasks.count),
        ],
    )
}

// How many bytes module data have with that slice.
const MODULE_BYTES: usize = 608;

/// Module data, and the slice of the runtime's init tasks after them.
#[tactic(auto, unfolding(crate::specs::ModuleData::module_bytes))]
pub(crate) fn write_module(
    alloc: Global,
    t: &Pclntab<'_>,
    parts: &Parts,
    a: &ModuleAddresses,
) -> Result<Vec<u8>, OutOfMemory>
    requires parts { ArePartsOf (view t.now) parts.now }
    requires short { parts.now.end < 2 ^ 32 }
    requires small { AreSmall (view t.now) a.now }
    ensures { IfOk result (λ made. made.items ≡ module_bytes (view t.now) a.now) }
{
    let mut out = Vec::with_capacity(alloc, MODULE_BYTES)?;
    push_tables(&mut out, t, parts, a.pclntab)?;
    push_places(&mut out, a, t.text, t.text + u64::from(t.text_size))?;
    push_lists(&mut out, a)?;
    Ok(out)
}
