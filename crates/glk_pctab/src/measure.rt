// How long a section is, before its functions are placed.
ghost use Rattle.std.specs.Prelude.{◌≡◌, ◌+◌, ◌<◌, ◌^◌, IfOk, length};
ghost use Rattle.glk_pctab.specs.Contents.{clamped};
ghost use Rattle.glk_pctab.specs.Measures.{AreFew};
ghost use Rattle.glk_pctab.specs.Parts.{pclntable_by};
ghost use Rattle.glk_pctab.specs.Section.{section};
ghost use Rattle.glk_pctab.specs.Views.{view};

use crate::files::{all_files, entries_of, firsts_of};
use crate::function::Pclntab;
use crate::lists::{files_of, names_of, tables_of};
use crate::records::{SECTION_LIMIT, records_size};
use glk_base::OutOfMemory;
use std::alloc::Global;

// The length of pcHeader; funcnametab follows it.
const HEADER_LENGTH: u128 = 72;

// The length of a section whose parts have these lengths, cutab in entries, clamped to u64.
#[tactic(auto, unfolding(crate::specs::Parts::cutab_by, crate::specs::Parts::pclntable_by, crate::specs::Section::next_multiple))]
fn size_of(names: u64, entries: u64, files: u64, tables: u64, records: u64) -> u64
    ensures { result ≡ clamped (pclntable_by names entries files tables + records) }
{
    let cutab = (HEADER_LENGTH + u128::from(names) + 3) / 4 * 4;
    let pctab = cutab + 4 * u128::from(entries) + u128::from(files);
    let pclntable = (pctab + 1 + u128::from(tables) + 7) / 8 * 8;
    let end = pclntable + u128::from(records);
    if end < u128::from(u64::MAX) {
        end as u64
    } else {
        u64::MAX
    }
}

/// How long the section `.gopclntab` of an image's functions is, in bytes, clamped to u64. It does not depend on where
/// functions and data are, so it can be asked for before they are placed. The time and the memory are those of `build`, but
/// for the bytes.
///
/// # Errors
/// Out of memory.
pub fn section_size(alloc: Global, t: &Pclntab<'_>) -> Result<u64, OutOfMemory>
    requires { AreFew (view t.now) }
    ensures { IfOk result (λ size. size ≡ clamped (length (section (view t.now)))) }
{
    let unit_files = all_files(alloc, t.units)?;
    let entry_count = unit_files.len() as u64;
    if entry_count >= SECTION_LIMIT {
        return Err(OutOfMemory);
    }
    let function_count = t.functions.len() as u64;
    if function_count >= SECTION_LIMIT {
        return Err(OutOfMemory);
    }
    let firsts = firsts_of(alloc, t.units)?;
    let entries = entries_of(alloc, &unit_files, &firsts, t.units, t.functions)?;
    let names = names_of(alloc, t.functions)?;
    let files = files_of(alloc, &entries)?;
    let tables = tables_of(alloc, t.functions)?;
    let records = records_size(t.functions);
    Ok(size_of(
        names.size(),
        entry_count,
        files.size(),
        tables.size(),
        records,
    ))
}
